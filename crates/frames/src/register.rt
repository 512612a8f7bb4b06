//! Registers: operations that move from point to point, on the register's own cells and words.

ghost use Rattle.std.specs.Prelude.{◌≡◌, ℕ, ◌<◌, ◌≤◌, ◌+◌, ◌++◌, Bool, true, List, Option, length, take, drop};
ghost use Rattle.std.specs.Bool.{Decides};
ghost use Rattle.safe_bit.specs.Memory.{Memory};
ghost use Rattle.safe_bit.specs.Parts.{LiesIn, IsPlaced, part, with_part};
ghost use Rattle.schedule_steps.specs.declared.types.Op.{Op};
ghost use Rattle.frames.specs.Behaviour.{Behaviour, IsLawful};
ghost use Rattle.frames.specs.declared.types.Frame.{Frame};
ghost use Rattle.frames.specs.declared.types.Next.{Next};
ghost use Rattle.frames.specs.declared.types.TheConstants.{STACK_FRAMES};
ghost use Rattle.frames.specs.Placed.{placed_bit, placed_action};
ghost use Rattle.frames.specs.Flat.{Lands, HasFramesFrom, FramesGivePoint, IsPointByFrames, HasReached};

use crate::flat::FlatStack;
use crate::types::{Action, Next, Op, Outcome, Progress, Stack, Turned};
use safe_bit::{Place, Store};
use std::alloc::Global;

/// The most cells that a register can have.
pub const MOST_CELLS: u32 = 4096;

/// The most words that a register can have.
pub const MOST_WORDS: u32 = 65_536;

/// A register's behaviour; the functions that carry it out are in `Register`. A type that is
/// generic over registers can require just this trait, if it needs nothing else of them.
pub trait Behaves {
    /// A point that a pending operation is at, between two bit actions.
    type Pending: Copy + PartialEq;

    // What the register does, on its own memory alone.
    ghost behaviour: { Self → Behaviour Self.Pending };
}

/// A register. Its operations read and change only its own cells and words, in the same way at
/// every place.
pub trait Register: Behaves + Copy + Eq {
    // What always holds of the register's own memory: the right size, and each word in range.
    ghost Holds: { Self → Memory → Type 0 };

    // The points that a process can reach in an operation.
    ghost Reaches: { Self → ℕ → Op → Self.Pending → Type 0 };

    // The point at which a process is, read from its frames; `None` if there are no frames.
    ghost point: { Self → ℕ → List Frame → Option Self.Pending };

    /// The size of the register's own memory, at most 4,096 cells and 65,536 words.
    fn size(&self) -> Place
        ensures { result ≡ (Self.behaviour self.now).size };

    /// The number of values. The values are 0 to one less than this number.
    fn values(&self) -> u32
        ensures { result ≡ (Self.behaviour self.now).values };

    /// The number of processes. The processes are 0 to one less than this number.
    fn processes(&self) -> u32
        ensures { result ≡ (Self.behaviour self.now).processes };

    /// The most frames that a pending operation can have, 1 to 8.
    fn depth(&self) -> u32
        ensures { result ≡ (Self.behaviour self.now).depth };

    /// Whether operation `op` fits process `who`.
    fn fits(&self, who: u32, op: Op) -> bool
        ensures { result ≡ (Self.behaviour self.now).suits who op };

    /// Sets the register's own memory, at place `at`, so that the register holds the initial value
    /// `value`.
    fn init(&self, store: &mut Store, at: Place, value: u32)
        requires inside { LiesIn at (Self.behaviour self.now).size store.old }
        requires value { value < (Self.behaviour self.now).values }
        ensures { store.new ≡ with_part at ((Self.behaviour self.now).initial value) store.old };

    /// Process `who` invokes operation `op` on the register at place `at`. Gives the point at which
    /// the operation is then pending, or its outcome if it ends at once.
    fn begin(&self, store: &mut Store, at: Place, who: u32, op: Op) -> Next<Self::Pending>
        requires inside { LiesIn at (Self.behaviour self.now).size store.old }
        requires holds { Holds self.now (part at (Self.behaviour self.now).size store.old) }
        requires fits { (Self.behaviour self.now).suits who op ≡ true }
        ensures next { result ≡ ((Self.behaviour self.now).begins who op
            (part at (Self.behaviour self.now).size store.old)).next }
        ensures memory { store.new ≡ with_part at ((Self.behaviour self.now).begins who op
            (part at (Self.behaviour self.now).size store.old)).memory store.old };

    /// A pending operation makes its next bit action; `choice` is what a hit read of a bit gives.
    /// Returns the operation's state after the action; and, if the action ended a hit read, the bit
    /// that was read, by its number in the store, and the value that the read gave.
    fn go(
        &self,
        store: &mut Store,
        at: Place,
        pending: Self::Pending,
        choice: bool,
    ) -> Turned<Self::Pending>
        requires inside { LiesIn at (Self.behaviour self.now).size store.old }
        requires holds { Holds self.now (part at (Self.behaviour self.now).size store.old) }
        requires reached { (who : ℕ) × ((op : Op) × Reaches self.now who op pending) }
        ensures next { result.next ≡ ((Self.behaviour self.now).goes pending choice
            (part at (Self.behaviour self.now).size store.old)).next }
        ensures chosen { result.chosen
            ≡ placed_bit at ((Self.behaviour self.now).goes pending choice
            (part at (Self.behaviour self.now).size store.old)).chosen }
        ensures memory { store.new ≡ with_part at ((Self.behaviour self.now).goes pending choice
            (part at (Self.behaviour self.now).size store.old)).memory store.old };

    /// The frames of a pending operation, outermost first. Never allocates.
    fn stack(&self, alloc: Global, pending: &Self::Pending) -> Stack
        requires reached { (who : ℕ) × ((op : Op) × Reaches self.now who op pending.now) }
        ensures frames { result.items ≡ (Self.behaviour self.now).frames pending.now }
        ensures inline { result.capacity ≡ 8 };

    /// The next bit action of a pending operation, with its cell's number in a store in which the
    /// register lies at `at`.
    fn action(&self, pending: &Self::Pending, at: Place) -> Action
        requires placed { IsPlaced at (Self.behaviour self.now).size }
        requires reached { (who : ℕ) × ((op : Op) × Reaches self.now who op pending.now) }
        ensures { result ≡ placed_action at ((Self.behaviour self.now).acts pending.now) };

    /// The point of process `who`'s pending operation, read from the stack's frames from index
    /// `first` on; `None` if `who` can have no pending operation with these frames.
    fn pending_on(&self, stack: &FlatStack, first: usize, who: u32) -> Option<Self::Pending>
        ensures { IsPointByFrames (Self.behaviour self.now).frames (Reaches self.now) who
            (drop first stack.now) result };

    /// Process `who` invokes operation `op` on the register at place `at`. If the operation ends at
    /// once, returns its outcome; else returns `None`, and pushes the operation's frames onto the
    /// stack.
    fn begin_on(
        &self,
        store: &mut Store,
        at: Place,
        who: u32,
        op: Op,
        stack: &mut FlatStack,
    ) -> Option<Outcome>
        requires inside { LiesIn at (Self.behaviour self.now).size store.old }
        requires holds { Holds self.now (part at (Self.behaviour self.now).size store.old) }
        requires fits { (Self.behaviour self.now).suits who op ≡ true }
        requires room { length stack.old + (Self.behaviour self.now).depth ≤ STACK_FRAMES }
        ensures { let begun = (Self.behaviour self.now).begins who op
            (part at (Self.behaviour self.now).size store.old) in
            Lands (Self.behaviour self.now).frames at begun.next begun.memory stack.old store.old
            result
            stack.new store.new }
    {
        match self.begin(store, at, who, op) {
            Next::Pending(point) => {
                self.push_frames(store.allocator(), &point, stack);
                None
            }
            Next::Done(outcome) => Some(outcome),
        }
    }

    /// Process `who`'s pending operation, whose frames are those of the stack from index `first`
    /// on, makes its next bit action; `choice` is what a hit read of a bit gives. The frames are
    /// replaced by the operation's new frames, or dropped if the operation ends. Returns the
    /// outcome if the operation ends; and, if the action ended a hit read, the bit that was read,
    /// by its number in the store, and the value that the read gave.
    fn go_on(
        &self,
        store: &mut Store,
        at: Place,
        who: u32,
        stack: &mut FlatStack,
        first: usize,
        choice: bool,
    ) -> Progress
        requires inside { LiesIn at (Self.behaviour self.now).size store.old }
        requires holds { Holds self.now (part at (Self.behaviour self.now).size store.old) }
        requires room { first + (Self.behaviour self.now).depth ≤ STACK_FRAMES }
        requires may_be_at { (op : Op) × ((p : Self.Pending)
            × HasFramesFrom (Self.behaviour self.now).frames (Reaches self.now) who first stack.old
            op p) }
        ensures lands { (op : Op) (p : Self.Pending)
            → HasFramesFrom (Self.behaviour self.now).frames
            (Reaches self.now) who first stack.old op p
            → (let moved = (Self.behaviour self.now).goes p choice
            (part at (Self.behaviour self.now).size store.old) in
            Lands (Self.behaviour self.now).frames at moved.next moved.memory
            (take first stack.old) store.old result.end stack.new store.new) }
        ensures chosen { (op : Op) (p : Self.Pending)
            → HasFramesFrom (Self.behaviour self.now).frames
            (Reaches self.now) who first stack.old op p
            → result.chosen
            ≡ placed_bit at ((Self.behaviour self.now).goes p choice
            (part at (Self.behaviour self.now).size store.old)).chosen }
    {
        let alloc = store.allocator();
        let Some(point) = self.pending_on(stack, first, who) else {
            unreachable!();
        };
        let turned = self.go(store, at, point, choice);
        stack.truncate(first);
        let end = match turned.next {
            Next::Pending(next) => {
                self.push_frames(alloc, &next, stack);
                None
            }
            Next::Done(outcome) => Some(outcome),
        };
        Progress {
            end,
            chosen: turned.chosen,
        }
    }

    /// Pushes the frames of a pending operation onto the stack.
    fn push_frames(&self, alloc: Global, pending: &Self::Pending, stack: &mut FlatStack)
        requires reached { (who : ℕ) × ((op : Op) × Reaches self.now who op pending.now) }
        requires room { length stack.old + (Self.behaviour self.now).depth ≤ STACK_FRAMES }
        ensures { stack.new ≡ stack.old ++ (Self.behaviour self.now).frames pending.now }
    {
        stack.extend(self.stack(alloc, pending).as_slice());
    }

    /// The state of process `who`'s operation: done if `end` has an outcome, else pending at the
    /// point that the frames on the stack describe.
    fn reached_next(&self, stack: &FlatStack, who: u32, end: Option<Outcome>) -> Next<Self::Pending>
        requires may_be_at { (op : Op) × ((next : Next Self.Pending)
            × HasReached (Self.behaviour self.now) (Reaches self.now) who op end stack.now next) }
        ensures { (op : Op) (next : Next Self.Pending)
            → HasReached (Self.behaviour self.now) (Reaches self.now) who op end stack.now next
            → result ≡ next }
    {
        match end {
            Some(outcome) => Next::Done(outcome),
            None => match self.pending_on(stack, 0, who) {
                Some(point) => Next::Pending(point),
                None => unreachable!(),
            },
        }
    }

    /// A process that can have this operation pending; the stack has the operation's frames.
    fn reaching_process(&self, stack: &FlatStack, pending: &Self::Pending) -> u32
        requires reached { (who : ℕ) × ((op : Op) × Reaches self.now who op pending.now) }
        requires there { stack.now ≡ (Self.behaviour self.now).frames pending.now }
        ensures { (op : Op) × Reaches self.now result op pending.now }
    {
        for who in 0..self.processes() {
            if let Some(point) = self.pending_on(stack, 0, who) {
                if point == *pending {
                    return who;
                }
            }
        }
        unreachable!()
    }

    // The frames of a pending operation determine the operation and its point.
    ghost reports: { (r : Self) → FramesGivePoint (Self.behaviour r) (Reaches r) (point r) };

    // Each register of this type obeys the laws of a register.
    ghost lawful: { (r : Self) → IsLawful (Self.behaviour r) (Holds r) (Reaches r) };

    // Equal registers behave alike.
    ghost alike: { (a b : Self) → Self.PartialEq.eq a b ≡ true → Self.behaviour a ≡ Self.behaviour b };

    // Equal registers read the same point from the same frames.
    ghost finds_alike: { (a b : Self) → Self.PartialEq.eq a b ≡ true → point a ≡ point b };

    // Two points compare equal exactly if they are the same.
    ghost same_pending: { (a b : Self.Pending) → Decides (Self.Pending.PartialEq.eq a b) (a ≡ b) };
}
