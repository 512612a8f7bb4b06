//! What a construction provides: its parts, which are registers, its own words of memory, and the
//! programs of its operations.

ghost use Rattle.std.specs.Prelude.{◌≡◌, ℕ, ◌<◌, ◌≤◌, ◌+◌, ◌^◌, Bool, true, length};
ghost use Rattle.std.specs.Bool.{Decides};
ghost use Rattle.frames.specs.declared.types.Op.{Op};
ghost use Rattle.frames.specs.Behaviour.{Answers};
ghost use Rattle.layers.specs.Nested.{Table};
ghost use Rattle.layers.specs.Sound.{IsSoundTable, WordsHold, IsNotSpent};
ghost use Rattle.layers.specs.Settled.{settled};
ghost use Rattle.layers.specs.OneWriter as spec;

use crate::nested::{Ask, Continuation};
use frames::types::{Frame, Op, Outcome};
use safe_bit::Store;

/// The sizes of a construction: how many parts, own words, values and processes it has, and how
/// many values (`inner_values`) and processes (`inner_processes`) each part has to have.
#[derive(Clone, Copy, Debug, PartialEq, Eq)]
pub struct Shape {
    pub parts: u32,
    pub words: u32,
    pub values: u32,
    pub processes: u32,
    pub inner_values: u32,
    pub inner_processes: u32,
}

/// What contracts need of a construction: the type of its tasks, and the table of its rules, which
/// says what its parts, own words and programs are. The type `Layered` requires only this trait;
/// the calls of `Layered` require `Construction`.
pub trait Rules {
    /// A task: a point in a program at which a part works on an operation.
    type Task: Copy + PartialEq;

    // The construction's programs, words and parts.
    ghost table: { Self → Table Self.Task };
}

/// A construction of a register from registers below it. Of each register below, it requires only
/// the right numbers of values and processes, which `shape` returns. The calls `start` and `after`
/// run a program of the construction to its next task or its end. Both calls are given the whole
/// store, but they read and set only the construction's own words in it.
pub trait Construction: Rules + Copy + Eq {
    // Which tasks a process can be in during an operation.
    ghost MayBeAt: { Self → ℕ → Op → Self.Task → Type 0 };

    // An upper bound on the number of tasks that can follow a task.
    ghost left: { Self → Self.Task → ℕ };

    /// How many parts, own words, values and processes the construction has; and how many values
    /// and processes the register below has to have.
    fn shape(&self) -> Shape
        ensures parts { result.parts ≡ (Self.table self.now).parts }
        ensures words { result.words ≡ (Self.table self.now).words }
        ensures values { result.values ≡ (Self.table self.now).values }
        ensures processes { result.processes ≡ (Self.table self.now).processes }
        ensures inner_values { result.inner_values ≡ (Self.table self.now).inner_values }
        ensures inner_processes { result.inner_processes ≡ (Self.table self.now).inner_processes };

    /// Whether process `who` may make operation `op`.
    fn fits(&self, who: u32, op: Op) -> bool
        ensures { result ≡ (Self.table self.now).suits who op };

    /// The initial value of part `part`, given the layer's initial value `value`.
    fn first(&self, value: u32, part: u32) -> u32
        requires value { value < (Self.table self.now).values }
        requires part { part < (Self.table self.now).parts }
        ensures { result ≡ (Self.table self.now).first value part };

    /// The initial value of own word `word`, given the layer's initial value `value`.
    fn first_word(&self, value: u32, word: u32) -> u32
        requires value { value < (Self.table self.now).values }
        requires word { word < (Self.table self.now).words }
        ensures { result ≡ (Self.table self.now).first_word value word };

    /// Runs the program of process `who`'s operation `op`, and returns its first task or its end.
    /// The layer's own words begin at word `base`.
    fn start(&self, store: &mut Store, base: u32, who: u32, op: Op) -> Continuation<Self::Task>
        requires inside { base + (Self.table self.now).words ≤ length store.old.words }
        requires bounded { WordsHold (Self.table self.now) base store.old }
        requires fits { (Self.table self.now).suits who op ≡ true }
        ensures continuation { result
            ≡ (settled base ((Self.table self.now).program who op) store.old).continuation }
        ensures memory { store.new
            ≡ (settled base ((Self.table self.now).program who op) store.old).memory };

    /// Continues the program after task `task` has ended with `outcome`, and returns the program's
    /// next task or its end.
    fn after(
        &self,
        store: &mut Store,
        base: u32,
        task: Self::Task,
        outcome: Outcome,
    ) -> Continuation<Self::Task>
        requires inside { base + (Self.table self.now).words ≤ length store.old.words }
        requires bounded { WordsHold (Self.table self.now) base store.old }
        requires may_be_at { (who : ℕ) × ((op : Op) × MayBeAt self.now who op task) }
        requires answers { Answers (Self.table self.now).inner_values
            ((Self.table self.now).asks task).op outcome }
        requires goes_on { IsNotSpent outcome }
        ensures continuation { result
            ≡ (settled base ((Self.table self.now).rest task outcome) store.old).continuation }
        ensures memory { store.new
            ≡ (settled base ((Self.table self.now).rest task outcome) store.old).memory };

    /// The operation that task `task` asks of a part.
    fn asks(&self, task: Self::Task) -> Ask
        requires may_be_at { (who : ℕ) × ((op : Op) × MayBeAt self.now who op task) }
        ensures { result ≡ (Self.table self.now).asks task };

    /// The layer's own frame of an operation that is in task `task`.
    fn frame(&self, task: Self::Task) -> Frame
        requires may_be_at { (who : ℕ) × ((op : Op) × MayBeAt self.now who op task) }
        ensures { result ≡ (Self.table self.now).frame task };

    /// The task that process `who` is in, if `frame` is the layer's own frame of the process's
    /// operation; any task, if the process can't have this frame.
    fn find(&self, who: u32, frame: Frame) -> Self::Task
        ensures { result ≡ (Self.table self.now).find who frame };

    /// Whether process `who` can be in task `task` during operation `op`.
    fn may_be_at(&self, who: u32, op: Op, task: Self::Task) -> bool
        ensures { Decides result (MayBeAt self.now who op task) };

    // The laws of a layer's table hold of each construction of this type.
    ghost sound: { (l : Self) → IsSoundTable (Self.table l) (MayBeAt l) (left l) };

    // Equal layers have the same table.
    ghost alike: { (a b : Self) → Self.PartialEq.eq a b ≡ true → Self.table a ≡ Self.table b };

    // Two tasks compare equal exactly if they are the same.
    ghost same_task: { (a b : Self.Task) → Decides (Self.Task.PartialEq.eq a b) (a ≡ b) };
}

/// Whether process `who` may make operation `op` on a register with one writer: process 0 may write
/// each value below `values`, and each process from 1 to `processes - 1` may read. If `processes`
/// is 0, no process may make any operation.
pub fn one_writer(values: u32, processes: u32, who: u32, op: Op) -> bool
    ensures { result ≡ spec.one_writer values processes who op }
{
    match op {
        Op::Write(v) => who == 0 && v < values && processes > 0,
        Op::Read => who >= 1 && who < processes,
    }
}
