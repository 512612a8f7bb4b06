//! Runs a layer's programs in place: in the layer's own part of a store, and on a flat stack of
//! frames.

ghost use Rattle.std.specs.Prelude.{◌≡◌, ℕ, ◌++◌, ◌<◌, ◌≤◌, ◌+◌, true, false, Option, IfSome, length, take, drop};
ghost use Rattle.safe_bit.specs.Parts.{place_after, with_part, IsPlaced, LiesIn};
ghost use Rattle.safe_bit.specs.Windows.{splice};
ghost use Rattle.frames.specs.declared.types.Op.{Op};
ghost use Rattle.frames.specs.declared.types.TheConstants.{STACK_FRAMES};
ghost use Rattle.frames.specs.Flat.{Lands, IsPointByFrames};
ghost use Rattle.frames.specs.Placed.{placed_bit};
ghost use Rattle.layers.specs.Nested as nested;
ghost use Rattle.layers.specs.Nested.{layered};
ghost use Rattle.layers.specs.Sound.{FitsBelow, IsNotSpent, IsSpent, LayerReaches};
ghost use Rattle.layers.specs.Settled.{tasks_left};
ghost use Rattle.layers.specs.Flat.{IsTaskByFrame, cut_if_ended};
ghost use Rattle.layers.specs.Driver.{table_of, below_of, behaviour, own_memory, first_own_word, Holds, Lies, IsInTask, ContinuesWell, EndsTask, frames_in_task, all_first_parts, first_words, asked_part, moved_part, started, settled_after, run_from, run_after};

use crate::construction::Construction;
use crate::layered::Layered;
use crate::nested::{Continuation, Nested};
use frames::flat::FlatStack;
use frames::register::Register;
use frames::types::{Frame, Op, Outcome, Progress};
use safe_bit::{Place, Store};
use std::alloc::Global;

/// The pending operation of process `who` whose frames are those of `stack` from index `first` on:
/// the frame at `first` gives the task, and the later frames give the point of the task's part.
/// `None` if `who` can't have an operation with these frames pending.
pub(crate) fn pending_on<L: Construction, S: Register>(
    layer: &L,
    below: &S,
    stack: &FlatStack,
    first: usize,
    who: u32,
) -> Option<Nested<L::Task, S::Pending>>
    requires fit { FitsBelow (L.table layer.now) (S.behaviour below.now) }
    ensures { IsPointByFrames (layered (L.table layer.now) (S.behaviour below.now)).frames
        (LayerReaches (L.table layer.now) (L.MayBeAt layer.now) (S.Reaches below.now)) who
        (drop first stack.now) result }
{
    if stack.len().saturating_sub(first) < 2 {
        return None;
    }
    let task = task_at(layer, who, stack.frame(first))?;
    let ask = layer.asks(task);
    if !stack.frame(first + 1).op.is(ask.op) {
        return None;
    }
    let point = below.pending_on(stack, first + 1, ask.who)?;
    Some(Nested { task, below: point })
}

/// The task that has the frame `frame`, and that process `who` can be in during the frame's
/// operation. `None` if there is no such task.
fn task_at<L: Construction>(layer: &L, who: u32, frame: Frame) -> Option<L::Task>
    ensures { IsTaskByFrame (L.table layer.now) (L.MayBeAt layer.now) who frame result }
{
    let task = layer.find(who, frame);
    if layer.may_be_at(who, frame.op, task) && layer.frame(task).is(frame) {
        Some(task)
    } else {
        None
    }
}

/// Pushes the frames of a pending operation onto the stack: the layer's own, then its part's.
pub(crate) fn push_frames<L: Construction, S: Register>(
    layer: &L,
    below: &S,
    alloc: Global,
    pending: &Nested<L::Task, S::Pending>,
    stack: &mut FlatStack,
)
    requires fit { FitsBelow (L.table layer.now) (S.behaviour below.now) }
    requires reached { (who : ℕ)
        × ((op : Op) × LayerReaches (L.table layer.now) (L.MayBeAt layer.now)
        (S.Reaches below.now) who op pending.now) }
    requires room { length stack.old + 1 + (S.behaviour below.now).depth ≤ STACK_FRAMES }
    ensures { stack.new
        ≡ stack.old ++ (layered (L.table layer.now) (S.behaviour below.now)).frames pending.now }
{
    stack.push(layer.frame(pending.task));
    below.push_frames(alloc, &pending.below, stack);
}

impl<L: Construction, S: Register> Layered<L, S> {
    /// Sets each part to its initial value, given the layer's initial value `value`.
    pub(crate) fn init_parts(&self, store: &mut Store, at: Place, value: u32)
        requires inside { LiesIn at (behaviour self.now).size store.old }
        requires placed { IsPlaced at (behaviour self.now).size }
        requires value { value < (behaviour self.now).values }
        ensures { store.new ≡ with_part at (all_first_parts self.now value) store.old }
    {
        for part in 0..self.layer.shape().parts {
            let place = self.part_place(at, part);
            self.below.init(store, place, self.layer.first(value, part));
        }
    }

    /// Sets the layer's own words, which begin at word `base` of the store, to their initial
    /// values, given the layer's initial value `value`.
    pub(crate) fn init_words(&self, store: &mut Store, base: u32, value: u32)
        requires inside { base + (table_of self.now).words ≤ length store.old.words }
        requires value { value < (behaviour self.now).values }
        ensures { let words = splice base (first_words self.now value) store.old.words in
            store.new ≡ record store.old { words = words } }
    {
        store.lemma_numbered();
        for word in 0..self.layer.shape().words {
            store.set_word(base + word, self.layer.first_word(value, word));
        }
    }

    /// Does nothing. Its contract states that the layer's cells and words, if they begin at `at`
    /// and lie inside the store, end below 2^32.
    #[inline]
    pub(crate) fn lemma_placed(&self, store: &Store, at: Place)
        requires inside { LiesIn at (behaviour self.now).size store.now }
        ensures { IsPlaced at (behaviour self.now).size }
    {
        store.lemma_numbered();
    }

    /// Does nothing. Its contract states: if the layer's memory begins at `at`, lies inside the
    /// store, and satisfies `Holds`, then it also ends below 2^32. These facts together are `Lies`.
    #[inline]
    pub(crate) fn lemma_lies(&self, store: &Store, at: Place)
        requires inside { LiesIn at (behaviour self.now).size store.now }
        requires holds { Holds self.now (S.Holds self.now.below)
            (own_memory self.now at store.now) }
        ensures { Lies self.now (S.Holds self.now.below) at store.now }
    {
        self.lemma_placed(store, at);
    }

    /// The place in the store of the layer's part number `part`, if the layer's memory begins at
    /// `at`.
    #[inline]
    pub(crate) fn part_place(&self, at: Place, part: u32) -> Place
        requires placed { IsPlaced at (behaviour self.now).size }
        requires part { part < (table_of self.now).parts }
        ensures { result ≡ place_after at (nested.part_place (below_of self.now).size part) }
    {
        let size = self.below.size();
        Place {
            cell: at.cell + part * size.cell,
            word: at.word + part * size.word,
        }
    }

    /// The index in the store of the layer's first own word, if the layer's memory begins at `at`.
    #[inline]
    pub(crate) fn words_at(&self, at: Place) -> u32
        requires placed { IsPlaced at (behaviour self.now).size }
        ensures { result ≡ at.word + first_own_word self.now }
    {
        at.word + self.layer.shape().parts * self.below.size().word
    }

    /// Invokes the task's operation on the task's part. If it ends at once, returns its outcome,
    /// and the stack is as before; otherwise returns `None`, and pushes the layer's own frame and
    /// then the part's frames onto the stack.
    #[inline(always)]
    fn ask(
        &self,
        store: &mut Store,
        at: Place,
        task: L::Task,
        stack: &mut FlatStack,
    ) -> Option<Outcome>
        requires lies { Lies self.now (S.Holds self.now.below) at store.old }
        requires may_be_at { (who : ℕ) × ((op : Op) × L.MayBeAt self.now.layer who op task) }
        requires room { length stack.old + (behaviour self.now).depth ≤ STACK_FRAMES }
        ensures { let begun = asked_part self.now task (own_memory self.now at store.old) in
            Lands (frames_in_task self.now task) at begun.next begun.memory stack.old store.old
            result
            stack.new store.new }
    {
        let ask = self.layer.asks(task);
        let place = self.part_place(at, ask.part);
        let first = stack.len();
        stack.push(self.layer.frame(task));
        let end = self.below.begin_on(store, place, ask.who, ask.op, stack);
        cut_if_ended(stack, first, end);
        end
    }

    /// Makes the next bit action of the task's part. On the stack the layer's own frame is at index
    /// `first`, and the part's frames follow it. If the part's operation ends, the part's frames
    /// are dropped, but the layer's own frame stays.
    #[inline(always)]
    pub(crate) fn move_part(
        &self,
        store: &mut Store,
        at: Place,
        task: L::Task,
        stack: &mut FlatStack,
        first: usize,
        choice: bool,
    ) -> Progress
        requires lies { Lies self.now (S.Holds self.now.below) at store.old }
        requires room { first + (behaviour self.now).depth ≤ STACK_FRAMES }
        requires may_be_at { (who : ℕ) × ((op : Op) × ((p : S.Pending) × IsInTask self.now
            (L.MayBeAt self.now.layer) (S.Reaches self.now.below) who first stack.old op task p)) }
        ensures lands { (who : ℕ) (op : Op) (p : S.Pending) → IsInTask self.now
            (L.MayBeAt self.now.layer) (S.Reaches self.now.below) who first stack.old op task p
            → (let moved = moved_part self.now task p choice (own_memory self.now at store.old) in
            Lands (frames_in_task self.now task) at moved.next moved.memory (take first stack.old)
            store.old result.end (cut_if_ended first result.end stack.new) store.new) }
        ensures own { IfSome result.end (λ _. stack.new ≡ take (first + 1) stack.old) }
        ensures chosen { (who : ℕ) (op : Op) (p : S.Pending) → IsInTask self.now
            (L.MayBeAt self.now.layer) (S.Reaches self.now.below) who first stack.old op task p
            → (let moved = moved_part self.now task p choice (own_memory self.now at store.old) in
            result.chosen ≡ placed_bit at moved.chosen) }
    {
        let ask = self.layer.asks(task);
        let place = self.part_place(at, ask.part);
        self.below
            .go_on(store, place, ask.who, stack, first + 1, choice)
    }

    /// Runs the program of process `who`'s operation `op` from the beginning, and returns the first
    /// task or the end that the program reaches.
    #[inline(always)]
    pub(crate) fn start(
        &self,
        store: &mut Store,
        at: Place,
        who: u32,
        op: Op,
    ) -> Continuation<L::Task>
        requires lies { Lies self.now (S.Holds self.now.below) at store.old }
        requires fits { (behaviour self.now).suits who op ≡ true }
        ensures continuation { let settled = started self.now who op
            (own_memory self.now at store.old) in result ≡ settled.continuation }
        ensures memory { let settled = started self.now who op (own_memory self.now at store.old) in
            store.new ≡ with_part at settled.memory store.old }
    {
        let base = self.words_at(at);
        self.layer.start(store, base, who, op)
    }

    /// Continues the program after task `task` has ended with `outcome`, and returns the program's
    /// next task or its end.
    #[inline]
    fn after(
        &self,
        store: &mut Store,
        at: Place,
        task: L::Task,
        outcome: Outcome,
    ) -> Continuation<L::Task>
        requires lies { Lies self.now (S.Holds self.now.below) at store.old }
        requires may_be_at { (who : ℕ) × ((op : Op) × L.MayBeAt self.now.layer who op task) }
        requires answers { EndsTask self.now task outcome }
        requires goes_on { IsNotSpent outcome }
        ensures continuation { let settled = settled_after self.now task outcome
            (own_memory self.now at store.old) in result ≡ settled.continuation }
        ensures memory { let settled = settled_after self.now task outcome
            (own_memory self.now at store.old) in
            store.new ≡ with_part at settled.memory store.old }
        ensures fewer { tasks_left (L.left self.now.layer) result ≤ L.left self.now.layer task }
    {
        let base = self.words_at(at);
        self.layer.after(store, base, task, outcome)
    }

    /// Continues the layer's operation from `continuation`, which is a task to begin or an end. If
    /// the operation ends, returns its outcome; if it waits for a bit action, pushes its frames
    /// onto the stack, and returns `None`.
    #[inline(always)]
    pub(crate) fn run(
        &self,
        store: &mut Store,
        at: Place,
        continuation: Continuation<L::Task>,
        stack: &mut FlatStack,
    ) -> Option<Outcome>
        requires lies { Lies self.now (S.Holds self.now.below) at store.old }
        requires may_be_at { ContinuesWell self.now (L.MayBeAt self.now.layer) continuation }
        requires room { length stack.old + (behaviour self.now).depth ≤ STACK_FRAMES }
        ensures { let on = run_from self.now continuation (own_memory self.now at store.old) in
            Lands (behaviour self.now).frames at on.next on.memory stack.old store.old result
            stack.new store.new }
    {
        let mut onward = continuation;
        loop {
            let task = match onward {
                Continuation::Ends(outcome) => return Some(outcome),
                Continuation::Asks(task) => task,
            };
            let outcome = self.ask(store, at, task, stack)?;
            if is_spent(outcome) {
                return Some(outcome);
            }
            onward = self.after(store, at, task, outcome);
        }
    }

    /// Continues the layer's operation after `task` has ended with `outcome`. If the layer's
    /// operation ends, returns its outcome; if it waits for a bit action, pushes its frames onto
    /// the stack, and returns `None`.
    #[inline(always)]
    pub(crate) fn run_on_after(
        &self,
        store: &mut Store,
        at: Place,
        task: L::Task,
        outcome: Outcome,
        stack: &mut FlatStack,
    ) -> Option<Outcome>
        requires lies { Lies self.now (S.Holds self.now.below) at store.old }
        requires may_be_at { (who : ℕ) × ((op : Op) × L.MayBeAt self.now.layer who op task) }
        requires answers { EndsTask self.now task outcome }
        requires room { length stack.old + (behaviour self.now).depth ≤ STACK_FRAMES }
        ensures { let on = run_after self.now task outcome (own_memory self.now at store.old) in
            Lands (behaviour self.now).frames at on.next on.memory stack.old store.old result
            stack.new store.new }
    {
        if is_spent(outcome) {
            return Some(outcome);
        }
        let continuation = self.after(store, at, task, outcome);
        self.run(store, at, continuation, stack)
    }
}

/// Drops the frames from index `first` on, if `end` says that a part's operation has ended.
#[inline]
fn cut_if_ended(stack: &mut FlatStack, first: usize, end: Option<Outcome>)
    requires { first ≤ length stack.old }
    ensures { stack.new ≡ cut_if_ended first end stack.old }
{
    if end.is_some() {
        stack.truncate(first);
    }
}

/// Whether the outcome of a part's operation is `Spent`. If it is, the layer's operation is spent
/// too, and its program doesn't go on.
#[inline]
fn is_spent(outcome: Outcome) -> bool
    ensures goes_on { result ≡ false → IsNotSpent outcome }
    ensures ends { result ≡ true → IsSpent outcome }
{
    matches!(outcome, Outcome::Spent(_))
}
