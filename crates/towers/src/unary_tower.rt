//! The unary number over regular bits, as a struct that hides its layers: otherwise the types of
//! the towers above the unary number would name each layer.

use crate::RegularTower;
use frames::flat::FlatStack;
use frames::register::{Behaves, Register};
use frames::safe::Safe;
use frames::types::{Action, Next, Op, Outcome, Progress, Stack, Turned};
use safe_bit::{Place, Store};
use std::alloc::Global;
use unary_number::Unary;

/// The unary number as a nested type, which names each of its layers.
type UnaryLayers = Unary<RegularTower>;

/// A unary number over regular bits. It passes each call on to `layers`, so it behaves as `layers`
/// does.
#[derive(Clone, Copy, Debug, PartialEq, Eq)]
pub struct UnaryTower {
    pub(crate) layers: UnaryLayers,
}

impl Behaves for UnaryTower {
    type Pending = <UnaryLayers as Behaves>::Pending;

    ghost behaviour = { λ r. ⟦<UnaryLayers as Behaves>⟧.behaviour r.layers };
}

impl Register for UnaryTower {
    ghost use Rattle.frames.specs.SafeBit.{safe_point};
    ghost use Rattle.frames.specs.laws.Safe.{safe_frames_give_point, point_decides};
    ghost use Rattle.layers.specs.Flat.{layered_point};
    ghost use Rattle.layers.specs.laws.Flat.{layered_frames_give_point};
    ghost use Rattle.towers.specs.laws.UnaryLayers as layers;
    ghost use Rattle.layers.specs.laws.Layered.{layer_lawful};
    ghost use Rattle.layers.specs.laws.Equality.{nested_decides};
    ghost use Rattle.reader_copies.specs.Program.{copies_table};
    ghost use Rattle.reader_copies.specs.laws.Sound as copies;
    ghost use Rattle.regular_bit.specs.Program.{regular_table};
    ghost use Rattle.regular_bit.specs.laws.Sound as regular;
    ghost use Rattle.unary_number.specs.laws.Sound as unary;

    ghost Holds = { λ r. ⟦<UnaryLayers as Register>⟧.Holds r.layers };

    ghost Reaches = { λ r. ⟦<UnaryLayers as Register>⟧.Reaches r.layers };

    ghost point = { λ r. ⟦<UnaryLayers as Register>⟧.point r.layers };

    fn size(&self) -> Place {
        self.layers.size()
    }

    fn values(&self) -> u32 {
        self.layers.values()
    }

    fn processes(&self) -> u32 {
        self.layers.processes()
    }

    fn depth(&self) -> u32 {
        self.layers.depth()
    }

    fn fits(&self, who: u32, op: Op) -> bool {
        self.layers.fits(who, op)
    }

    fn init(&self, store: &mut Store, at: Place, value: u32) {
        self.layers.init(store, at, value);
    }

    fn begin(&self, store: &mut Store, at: Place, who: u32, op: Op) -> Next<Self::Pending> {
        self.layers.begin(store, at, who, op)
    }

    fn go(
        &self,
        store: &mut Store,
        at: Place,
        pending: Self::Pending,
        choice: bool,
    ) -> Turned<Self::Pending> {
        self.layers.go(store, at, pending, choice)
    }

    fn stack(&self, alloc: Global, pending: &Self::Pending) -> Stack {
        self.layers.stack(alloc, pending)
    }

    #[inline(always)]
    fn action(&self, pending: &Self::Pending, at: Place) -> Action {
        self.layers.action(pending, at)
    }

    #[inline(always)]
    fn pending_on(&self, stack: &FlatStack, first: usize, who: u32) -> Option<Self::Pending> {
        self.layers.pending_on(stack, first, who)
    }

    #[inline(always)]
    fn begin_on(
        &self,
        store: &mut Store,
        at: Place,
        who: u32,
        op: Op,
        stack: &mut FlatStack,
    ) -> Option<Outcome> {
        self.layers.begin_on(store, at, who, op, stack)
    }

    #[inline(always)]
    fn go_on(
        &self,
        store: &mut Store,
        at: Place,
        who: u32,
        stack: &mut FlatStack,
        first: usize,
        choice: bool,
    ) -> Progress {
        self.layers.go_on(store, at, who, stack, first, choice)
    }

    ghost reports = { λ r.
        let b = r.layers.below in
        let copies_point = layered_point (copies_table b.below.layer.readers b.below.layer.values) safe_point in
        layered_frames_give_point (layers.on_regular r) (layered_point (regular_table b.layer.processes) copies_point)
        (layered_frames_give_point (layers.on_copies r) copies_point (layered_frames_give_point (layers.on_bits r) safe_point safe_frames_give_point)) };

    ghost lawful = { λ r. layer_lawful (layers.on_regular r) };

    ghost alike = { λ a b h. (layers.same_layers (⟦<Safe as PartialEq>⟧.eq a.layers.below.below.below b.layers.below.below.below) a b h).0 };

    ghost finds_alike = { λ a b h. (layers.same_layers (⟦<Safe as PartialEq>⟧.eq a.layers.below.below.below b.layers.below.below.below) a b h).1 };

    ghost same_pending = { nested_decides _ _ unary.unary_task_decides
        (nested_decides _ _ regular.regular_task_decides (nested_decides _ _ copies.copies_task_decides point_decides)) };
}
