//! Values as they were, for contracts alone.
#![tactic(auto)]

ghost use Rattle.std.specs.Prelude.{◌≡◌};
ghost use base.Fml.{ftrue};

use std::marker::{Model, PhantomData};

/// A value as contracts saw it once. It has no bytes and owns nothing. It is like std's `Snapshot`,
/// but `Send` and `Sync` for every `T`, so that a struct with one crosses threads if its other
/// fields do.
pub struct Snapshot<T> {
    marker: PhantomData<T>,
    pub ghost value: { T },
}

impl<T> Model for Snapshot<T> {
    ghost also_owns = { λ _. ftrue };
}

impl<T> Snapshot<T> {
    /// A snapshot of what the reference shows.
    pub fn of(x: &T) -> Snapshot<T>
        ensures { result.value ≡ x.now }
    {
        // the contract alone reads it
        let _ = x;
        Snapshot {
            marker: PhantomData,
        }
    }
}

impl<T> Drop for Snapshot<T> {
    fn drop(self) {
        // a snapshot owns nothing, so there is nothing to drop
        let Self { marker: _ } = self;
    }
}
