//! The rules of a regular bit, whichever register of two values is below it.

ghost use Rattle.std.specs.Prelude.{◌≡◌, ℕ, ◌<◌, ◌≤◌, ◌^◌, MatchResult, IfOk, Some, None};
ghost use Rattle.layers.specs.Fit.{refusal_below};
ghost use Rattle.layers.specs.Nested.{layered};
ghost use Rattle.regular_bit.specs.Program.{regular_table, RegularMayBeAt};
ghost use Rattle.regular_bit.specs.laws.Sound.{regular_sound, regular_task_decides, regular_table_alike};

use crate::task::RegularTask;
use layers::prelude::*;

/// A bit over a register of two values. A write of the value that was written last ends at once,
/// without a write of the register below; any other write writes the register below. A read reads
/// the register below (Lamport 1986; Herlihy and Shavit, chapter 4).
pub type RegularBit<S> = Layered<RegularBitRules, S>;

/// The only number that a regular bit's rules depend on.
#[derive(Clone, Copy, Debug, PartialEq, Eq)]
pub struct RegularBitRules {
    /// The number of processes: process 0 writes, the others read.
    pub processes: u32,
    ghost some: { 0 < processes },
}

/// The trait that declares `RegularBit::new`. Import it to call `RegularBit::new`.
pub trait NewRegularBit<S: Register>: Sized {
    /// The regular bit over a register of two values and 2 to 5 processes, which are the bit's
    /// processes too. Refused as BadSize if the register below doesn't have two values, doesn't
    /// have 2 to 5 processes, or has depth 8; otherwise refused as TooManyBits if there would be
    /// more than 4,096 cells or 65,536 words.
    fn new(below: S) -> Result<RegularBit<S>, LayerError>
        ensures refused { MatchResult result
            (λ _. refusal_below (regular_table (S.behaviour below).processes) (S.behaviour below)
            ≡ None)
            (λ e. refusal_below (regular_table (S.behaviour below).processes) (S.behaviour below)
            ≡ Some e) }
        ensures built { IfOk result (λ r. ⟦<Layered<RegularBitRules, S> as Behaves>⟧.behaviour r
            ≡ layered (regular_table (S.behaviour below).processes) (S.behaviour below)) }
        ensures below { IfOk result (λ r. r.below ≡ below) };
}

impl<S: Register> NewRegularBit<S> for RegularBit<S> {
    fn new(below: S) -> Result<RegularBit<S>, LayerError> {
        let processes = below.processes();
        // The rules' field `some` needs this; `over` checks the limits.
        if processes == 0 {
            return Err(LayerError::BadSize);
        }
        Layered::over(below, RegularBitRules { processes })
    }
}

impl Rules for RegularBitRules {
    type Task = RegularTask;

    ghost table = { λ l. regular_table l.processes };
}

impl Construction for RegularBitRules {
    ghost MayBeAt = { λ l. RegularMayBeAt l.processes };

    ghost left = { λ _ _. 0 };

    fn shape(&self) -> Shape {
        Shape {
            parts: 1,
            words: 1,
            values: 2,
            processes: self.processes,
            inner_values: 2,
            inner_processes: self.processes,
        }
    }

    fn fits(&self, who: u32, op: Op) -> bool {
        one_writer(2, self.processes, who, op)
    }

    fn first(&self, value: u32, _part: u32) -> u32 {
        value
    }

    fn first_word(&self, value: u32, _word: u32) -> u32 {
        value
    }

    fn start(&self, store: &mut Store, base: u32, who: u32, op: Op) -> Continuation<RegularTask> {
        match op {
            Op::Write(v) => {
                if store.word(base) == v {
                    return Continuation::Ends(Outcome::Written);
                }
                store.set_word(base, v);
                Continuation::Asks(RegularTask::Writing(v))
            }
            Op::Read => Continuation::Asks(RegularTask::Reading(who)),
        }
    }

    fn after(
        &self,
        _store: &mut Store,
        _base: u32,
        _task: RegularTask,
        outcome: Outcome,
    ) -> Continuation<RegularTask> {
        Continuation::Ends(outcome)
    }

    fn asks(&self, task: RegularTask) -> Ask {
        let (who, op) = match task {
            RegularTask::Writing(v) => (0, Op::Write(v)),
            RegularTask::Reading(who) => (who, Op::Read),
        };
        Ask { part: 0, who, op }
    }

    fn frame(&self, task: RegularTask) -> Frame {
        let op = match task {
            RegularTask::Writing(v) => Op::Write(v),
            RegularTask::Reading(_) => Op::Read,
        };
        Frame {
            layer: FrameLayer::Regular,
            op,
            i: 0,
            x: 0,
        }
    }

    fn find(&self, who: u32, frame: Frame) -> RegularTask {
        match frame.op {
            Op::Write(v) => RegularTask::Writing(v),
            Op::Read => RegularTask::Reading(who),
        }
    }

    fn may_be_at(&self, who: u32, op: Op, task: RegularTask) -> bool {
        match (op, task) {
            (Op::Write(w), RegularTask::Writing(v)) => who == 0 && v == w && v < 2,
            (Op::Read, RegularTask::Reading(reader)) => {
                reader == who && reader >= 1 && reader < self.processes
            }
            _ => false,
        }
    }

    ghost sound = { λ l. regular_sound l.processes l.some };

    ghost alike = { λ a b h. regular_table_alike a.processes b.processes h };

    ghost same_task = { regular_task_decides };
}
