//! A safe bit that counts the calls that make steps.

use frames::flat::FlatStack;
use frames::register::{Behaves, Register};
use frames::safe::{Safe, SafePoint};
use frames::types::{Action, Next, Op, Stack, Turned};
use safe_bit::{Place, Store};
use std::alloc::Global;
use std::sync::atomic::{AtomicU64, Ordering};

/// A safe bit that counts the calls of `begin` and `go`. The count lies outside of every store, and
/// all such bits are equal.
#[derive(Clone, Copy)]
pub(crate) struct Counting<'a> {
    calls: &'a AtomicU64,
}

impl<'a> Counting<'a> {
    /// A safe bit that counts in `calls`.
    pub(crate) fn new(calls: &'a AtomicU64) -> Counting<'a> {
        Counting { calls }
    }

    /// Counts one more call.
    fn count(&self) {
        self.calls.fetch_add(1, Ordering::SeqCst);
    }
}

impl PartialEq for Counting<'_> {
    ghost use Rattle.std.specs.Prelude.{true};
    ghost use Rattle.std.specs.Cmp.Derive.{point_per};

    ghost eq = { λ _ _. true };

    ghost laws = { point_per };

    fn eq(&self, _other: &Self) -> bool {
        true
    }
}

impl Eq for Counting<'_> {
    ghost use Rattle.std.specs.Prelude.{refl};
    ghost use Rattle.std.specs.Cmp.{equiv};
    ghost use Rattle.std.specs.Cmp.Derive.{point_per};

    ghost laws = { equiv point_per (λ _. refl) };
}

impl Behaves for Counting<'_> {
    ghost use Rattle.frames.specs.SafeBit.{safe_behaviour};

    type Pending = SafePoint;

    ghost behaviour = { λ _. safe_behaviour };
}

impl Register for Counting<'_> {
    ghost use Rattle.std.specs.Prelude.{refl};
    ghost use Rattle.safe_bit.specs.Parts.{HasSize};
    ghost use Rattle.frames.specs.SafeBit.{safe_behaviour, SafeReaches, safe_point};
    ghost use Rattle.frames.specs.laws.Safe.{safe_lawful, safe_frames_give_point, point_decides};

    ghost Holds = { λ _. HasSize safe_behaviour.size };

    ghost Reaches = { λ _. SafeReaches };

    ghost point = { λ _. safe_point };

    fn size(&self) -> Place {
        Safe.size()
    }

    fn values(&self) -> u32 {
        Safe.values()
    }

    fn processes(&self) -> u32 {
        Safe.processes()
    }

    fn depth(&self) -> u32 {
        Safe.depth()
    }

    fn fits(&self, who: u32, op: Op) -> bool {
        Safe.fits(who, op)
    }

    fn init(&self, store: &mut Store, at: Place, value: u32) {
        Safe.init(store, at, value);
    }

    fn begin(&self, store: &mut Store, at: Place, who: u32, op: Op) -> Next<SafePoint> {
        self.count();
        Safe.begin(store, at, who, op)
    }

    fn go(
        &self,
        store: &mut Store,
        at: Place,
        pending: SafePoint,
        choice: bool,
    ) -> Turned<SafePoint> {
        self.count();
        Safe.go(store, at, pending, choice)
    }

    fn stack(&self, alloc: Global, pending: &SafePoint) -> Stack {
        Safe.stack(alloc, pending)
    }

    fn action(&self, pending: &SafePoint, at: Place) -> Action {
        Safe.action(pending, at)
    }

    fn pending_on(&self, stack: &FlatStack, first: usize, who: u32) -> Option<SafePoint> {
        Safe.pending_on(stack, first, who)
    }

    ghost reports = { λ _. safe_frames_give_point };

    ghost lawful = { λ _. safe_lawful };

    ghost alike = { λ _ _ _. refl };

    ghost finds_alike = { λ _ _ _. refl };

    ghost same_pending = { point_decides };
}
