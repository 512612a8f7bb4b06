//! The one register type of all layers. A layer is a construction over the register below.

ghost use Rattle.std.specs.Prelude.{◌≡◌, MatchResult, IfOk, Some, None};
ghost use Rattle.layers.specs.Nested.{layered};
ghost use Rattle.layers.specs.Sound.{FitsBelow};
ghost use Rattle.layers.specs.Fit.{refusal_below};

use crate::construction::{Construction, Rules};
use crate::drive;
use crate::fit::{LayerError, fits_below};
use crate::nested::Nested;
use frames::flat::FlatStack;
use frames::register::{Behaves, Register};
use frames::types::{Action, Next, Op, Outcome, Progress, Stack, Turned};
use safe_bit::{Place, Store};
use std::alloc::{AllocError, Global};

/// A register made by the construction `layer` from registers like `below`: each part is one such
/// register, at a place of its own.
#[derive(Debug, PartialEq, Eq)]
pub struct Layered<L: Rules, S: Behaves> {
    /// The register below. Each part is one such register, at a place of its own.
    pub below: S,
    /// The construction's own rules.
    pub layer: L,
    ghost fit: { FitsBelow (L.table layer) (S.behaviour below) },
}

impl<L: Rules + Copy, S: Behaves + Copy> Clone for Layered<L, S> {
    ghost use Rattle.std.specs.Prelude.{◌≡◌, ⊤};

    ghost is_clone = { λ r copy. copy ≡ r };

    ghost is_infallible = { λ _. ⊤ };

    fn clone(&self) -> Result<Self, AllocError> {
        Ok(*self)
    }
}

impl<L: Rules + Copy, S: Behaves + Copy> Copy for Layered<L, S> {}

impl<L: Construction, S: Register> Layered<L, S> {
    /// Makes a layer: the construction `layer` over parts that are registers like `below`. The
    /// layer's field `below` is the given register, and the layer behaves as the definition
    /// `layered` says. Refused as `BadSize` if the layer has fewer than 2 values or doesn't have 2
    /// to 5 processes, or if the register below has depth 8 or doesn't have the values and
    /// processes that the parts need; otherwise refused as `TooManyBits` if there would be more
    /// than 4,096 cells or 65,536 words.
    pub fn over(below: S, layer: L) -> Result<Layered<L, S>, LayerError>
        ensures refused { MatchResult result (λ _. refusal_below (L.table layer) (S.behaviour below)
            ≡ None) (λ e. refusal_below (L.table layer) (S.behaviour below) ≡ Some e) }
        ensures built { IfOk result (λ r. ⟦<Layered<L, S> as Behaves>⟧.behaviour r
            ≡ layered (L.table layer) (S.behaviour below)) }
        ensures below { IfOk result (λ r. r.below ≡ below) }
    {
        fits_below(&layer, &below)?;
        Ok(Layered { below, layer })
    }

    /// The register that the layer is built on. Each part is one such register, at a place of its
    /// own.
    pub fn below(&self) -> S
        ensures { result ≡ self.now.below }
    {
        self.below
    }
}

impl<L: Rules, S: Behaves> Behaves for Layered<L, S> {
    type Pending = Nested<L::Task, S::Pending>;

    ghost behaviour = { λ r. layered (L.table r.layer) (S.behaviour r.below) };
}

impl<L: Construction, S: Register> Register for Layered<L, S> {
    ghost use Rattle.layers.specs.Sound.{LayerHolds, LayerReaches};
    ghost use Rattle.layers.specs.Flat.{layered_point};
    ghost use Rattle.layers.specs.laws.Flat.{layered_frames_give_point, points_alike};
    ghost use Rattle.layers.specs.laws.Over.{over};
    ghost use Rattle.layers.specs.laws.Layered.{layer_lawful};
    ghost use Rattle.layers.specs.laws.Equality.{nested_decides, layered_alike};
    ghost use Rattle.std.proofs.lemmas.Bool.{and_parts};

    ghost Holds = { λ r. LayerHolds (L.table r.layer) (S.behaviour r.below) (S.Holds r.below) };

    ghost Reaches = { λ r. LayerReaches (L.table r.layer) (L.MayBeAt r.layer) (S.Reaches r.below) };

    ghost point = { λ r. layered_point (L.table r.layer) (S.point r.below) };

    fn size(&self) -> Place {
        let size = self.below.size();
        let shape = self.layer.shape();
        Place {
            cell: shape.parts * size.cell,
            word: shape.parts * size.word + shape.words,
        }
    }

    fn values(&self) -> u32 {
        self.layer.shape().values
    }

    fn processes(&self) -> u32 {
        self.layer.shape().processes
    }

    fn depth(&self) -> u32 {
        self.below.depth() + 1
    }

    fn fits(&self, who: u32, op: Op) -> bool {
        self.layer.fits(who, op)
    }

    fn init(&self, store: &mut Store, at: Place, value: u32) {
        self.lemma_placed(store, at);
        self.init_parts(store, at, value);
        let base = self.words_at(at);
        self.init_words(store, base, value);
    }

    fn begin(&self, store: &mut Store, at: Place, who: u32, op: Op) -> Next<Self::Pending> {
        let mut stack = FlatStack::new();
        let end = self.begin_on(store, at, who, op, &mut stack);
        self.reached_next(&stack, who, end)
    }

    fn go(
        &self,
        store: &mut Store,
        at: Place,
        pending: Self::Pending,
        choice: bool,
    ) -> Turned<Self::Pending> {
        let mut stack = FlatStack::new();
        self.push_frames(store.allocator(), &pending, &mut stack);
        let who = self.reaching_process(&stack, &pending);
        let progress = self.go_on(store, at, who, &mut stack, 0, choice);
        Turned {
            next: self.reached_next(&stack, who, progress.end),
            chosen: progress.chosen,
        }
    }

    fn stack(&self, alloc: Global, pending: &Self::Pending) -> Stack {
        let mut stack = FlatStack::new();
        drive::push_frames(&self.layer, &self.below, alloc, pending, &mut stack);
        stack.to_stack(alloc)
    }

    fn action(&self, pending: &Self::Pending, at: Place) -> Action {
        let ask = self.layer.asks(pending.task);
        let place = self.part_place(at, ask.part);
        self.below.action(&pending.below, place)
    }

    fn pending_on(&self, stack: &FlatStack, first: usize, who: u32) -> Option<Self::Pending> {
        drive::pending_on(&self.layer, &self.below, stack, first, who)
    }

    #[inline]
    fn begin_on(
        &self,
        store: &mut Store,
        at: Place,
        who: u32,
        op: Op,
        stack: &mut FlatStack,
    ) -> Option<Outcome> {
        self.lemma_lies(store, at);
        let continuation = self.start(store, at, who, op);
        self.run(store, at, continuation, stack)
    }

    #[inline(always)]
    fn go_on(
        &self,
        store: &mut Store,
        at: Place,
        who: u32,
        stack: &mut FlatStack,
        first: usize,
        choice: bool,
    ) -> Progress {
        self.lemma_lies(store, at);
        let task = self.layer.find(who, stack.frame(first));
        let progress = self.move_part(store, at, task, stack, first, choice);
        let Some(outcome) = progress.end else {
            return progress;
        };
        // the task is found a second time, so that it needn't be kept while the part goes on
        let ended = self.layer.find(who, stack.frame(first));
        stack.truncate(first);
        let end = self.run_on_after(store, at, ended, outcome, stack);
        Progress {
            end,
            chosen: progress.chosen,
        }
    }

    ghost reports = { λ r. layered_frames_give_point (over (S.lawful r.below) (L.sound r.layer) r.fit) (S.point r.below) (S.reports r.below) };

    ghost lawful = { λ r. layer_lawful (over (S.lawful r.below) (L.sound r.layer) r.fit) };

    ghost alike = { λ a b h. let both = and_parts (S.PartialEq.eq a.below b.below) (L.PartialEq.eq a.layer b.layer) h in
        layered_alike (L.table a.layer) (L.table b.layer) (S.behaviour a.below) (S.behaviour b.below) (L.alike a.layer b.layer both.1) (S.alike a.below b.below both.0) };

    ghost finds_alike = { λ a b h. let both = and_parts (S.PartialEq.eq a.below b.below) (L.PartialEq.eq a.layer b.layer) h in
        points_alike (L.table a.layer) (L.table b.layer) (S.point a.below) (S.point b.below) (L.alike a.layer b.layer both.1) (S.finds_alike a.below b.below both.0) };

    ghost same_pending = { nested_decides L.Task.PartialEq.eq S.Pending.PartialEq.eq L.same_task S.same_pending };
}
