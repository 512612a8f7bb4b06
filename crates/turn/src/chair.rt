//! Chairs: each caller of a turn has one. A chair may take the turn, and knows how much it has seen
//! of the value's list of entries.

ghost use Rattle.std.specs.Prelude.{◌≡◌, ◌<◌, false, []};
ghost use Rattle.turn.specs.Shares.{count};
ghost use Rattle.turn.specs.Histories.{OwnsItsCalls};

use crate::counted::Counted;
use crate::rule::Access;
use crate::shares::Shares;

/// One caller's part of a turn: at least one of the turn's 16 shares, and, for contracts alone,
/// what the chair knows of the value's list. A chair can be sent to another thread if the value
/// can. If a chair is dropped, its shares are lost, and the turn can't be closed.
pub struct Chair<T: Counted> {
    pub(crate) access: Access<T>,
    pub(crate) shares: Shares,
    ghost marked: { access.me.0.shares ≡ shares.marks },
    ghost idle: { (access.me.1 ≡ []) × (access.me.0.holds ≡ false) },
    ghost some: { 0 < count shares.marks },
    ghost owns: { OwnsItsCalls T.by access.me.0 },
}

impl<T: Counted> Chair<T> {
    /// The chair's access to the table that keeps the turn's value.
    pub(crate) fn into_access(self) -> Access<T>
        ensures { result ≡ self.access }
    {
        let Self { access, shares: _ } = self;
        access
    }
}

impl<T: Counted> Drop for Chair<T> {
    fn drop(self) {
        let Self {
            access: _,
            shares: _,
        } = self;
    }
}
