//! The rules of a register made of two bits, whichever register is used for a bit.

ghost use Rattle.std.specs.Prelude.{◌≡◌, ℕ, ◌<◌, ◌≤◌, ◌^◌, MatchResult, IfOk, Some, None};
ghost use Rattle.layers.specs.Fit.{refusal_below};
ghost use Rattle.layers.specs.Nested.{layered};
ghost use Rattle.own_register.specs.Program.{high_of, low_of, two_bits_table, TwoBitsMayBeAt, two_bits_left};
ghost use Rattle.own_register.specs.laws.Sound.{two_bits_sound, two_bits_task_decides, two_bits_table_alike};

use crate::task::{NAME, TwoBitsTask};
use layers::prelude::*;

/// A register of four values, made of two bits (Lamport 1986, construction 2). A write writes the
/// high bit and then the low bit; a read reads them in this order.
pub type TwoBits<S> = Layered<TwoBitsRules, S>;

/// The only number that the rules of two bits depend on.
#[derive(Clone, Copy, Debug, PartialEq, Eq)]
pub struct TwoBitsRules {
    /// The number of processes: process 0 writes, the others read.
    pub processes: u32,
    ghost some: { 0 < processes },
}

/// The trait that declares `TwoBits::new`. Import it to call `TwoBits::new`.
pub trait NewTwoBits<S: Register>: Sized {
    /// The register made of two bits like `below`, with the processes of a bit. Refused as BadSize
    /// if the register below doesn't have two values, doesn't have 2 to 5 processes, or has depth
    /// 8; otherwise refused as TooManyBits if there would be more than 4,096 cells or 65,536 words.
    fn new(below: S) -> Result<TwoBits<S>, LayerError>
        ensures refused { MatchResult result
            (λ _. refusal_below (two_bits_table (S.behaviour below).processes) (S.behaviour below)
            ≡ None)
            (λ e. refusal_below (two_bits_table (S.behaviour below).processes) (S.behaviour below)
            ≡ Some e) }
        ensures built { IfOk result (λ r. ⟦<Layered<TwoBitsRules, S> as Behaves>⟧.behaviour r
            ≡ layered (two_bits_table (S.behaviour below).processes) (S.behaviour below)) }
        ensures below { IfOk result (λ r. r.below ≡ below) };
}

impl<S: Register> NewTwoBits<S> for TwoBits<S> {
    fn new(below: S) -> Result<TwoBits<S>, LayerError> {
        let processes = below.processes();
        // The rules' field `some` needs this; `over` checks the limits.
        if processes == 0 {
            return Err(LayerError::BadSize);
        }
        Layered::over(below, TwoBitsRules { processes })
    }
}

/// The high bit of a value below 4.
fn high_of(value: u32) -> u32
    ensures { result ≡ high_of value }
{
    if value >= 2 { 1 } else { 0 }
}

/// The low bit of a value below 4.
fn low_of(value: u32) -> u32
    ensures { result ≡ low_of value }
{
    if value >= 2 { value - 2 } else { value }
}

impl Rules for TwoBitsRules {
    type Task = TwoBitsTask;

    ghost table = { λ l. two_bits_table l.processes };
}

impl Construction for TwoBitsRules {
    ghost MayBeAt = { λ l. TwoBitsMayBeAt l.processes };

    ghost left = { λ _. two_bits_left };

    fn shape(&self) -> Shape {
        Shape {
            parts: 2,
            words: 0,
            values: 4,
            processes: self.processes,
            inner_values: 2,
            inner_processes: self.processes,
        }
    }

    fn fits(&self, who: u32, op: Op) -> bool {
        one_writer(4, self.processes, who, op)
    }

    fn first(&self, value: u32, part: u32) -> u32 {
        if part == 0 {
            high_of(value)
        } else {
            low_of(value)
        }
    }

    fn first_word(&self, _value: u32, _word: u32) -> u32
        ensures { result ≡ 0 }
    {
        0
    }

    fn start(&self, _store: &mut Store, _base: u32, who: u32, op: Op) -> Continuation<TwoBitsTask> {
        match op {
            Op::Write(v) => Continuation::Asks(TwoBitsTask::WriteHigh(v)),
            Op::Read => Continuation::Asks(TwoBitsTask::ReadHigh(who)),
        }
    }

    fn after(
        &self,
        _store: &mut Store,
        _base: u32,
        task: TwoBitsTask,
        outcome: Outcome,
    ) -> Continuation<TwoBitsTask> {
        match (task, outcome) {
            (TwoBitsTask::WriteHigh(v), _) => Continuation::Asks(TwoBitsTask::WriteLow(v)),
            (TwoBitsTask::WriteLow(_), _) => Continuation::Ends(Outcome::Written),
            (TwoBitsTask::ReadHigh(who), Outcome::Value(high)) => {
                Continuation::Asks(TwoBitsTask::ReadLow { who, high })
            }
            (TwoBitsTask::ReadLow { who: _, high }, Outcome::Value(low)) => {
                Continuation::Ends(Outcome::Value(2 * high + low))
            }
            (_, Outcome::Written | Outcome::Spent(_)) => Continuation::Ends(outcome),
        }
    }

    fn asks(&self, task: TwoBitsTask) -> Ask {
        let (part, who, op) = match task {
            TwoBitsTask::WriteHigh(v) => (0, 0, Op::Write(high_of(v))),
            TwoBitsTask::WriteLow(v) => (1, 0, Op::Write(low_of(v))),
            TwoBitsTask::ReadHigh(who) => (0, who, Op::Read),
            TwoBitsTask::ReadLow { who, .. } => (1, who, Op::Read),
        };
        Ask { part, who, op }
    }

    /// In the frame, `i` is 0 for the high bit and 1 for the low bit; `x` is the high bit that a
    /// read has got, or 0.
    fn frame(&self, task: TwoBitsTask) -> Frame {
        let (op, i, x) = match task {
            TwoBitsTask::WriteHigh(v) => (Op::Write(v), 0, 0),
            TwoBitsTask::WriteLow(v) => (Op::Write(v), 1, 0),
            TwoBitsTask::ReadHigh(_) => (Op::Read, 0, 0),
            TwoBitsTask::ReadLow { who: _, high } => (Op::Read, 1, high),
        };
        Frame {
            layer: FrameLayer::Named(NAME),
            op,
            i,
            x,
        }
    }

    fn find(&self, who: u32, frame: Frame) -> TwoBitsTask {
        match frame.op {
            Op::Write(v) => {
                if frame.i == 0 {
                    TwoBitsTask::WriteHigh(v)
                } else {
                    TwoBitsTask::WriteLow(v)
                }
            }
            Op::Read => {
                if frame.i == 0 {
                    TwoBitsTask::ReadHigh(who)
                } else {
                    TwoBitsTask::ReadLow { who, high: frame.x }
                }
            }
        }
    }

    fn may_be_at(&self, who: u32, op: Op, task: TwoBitsTask) -> bool {
        match (op, task) {
            (Op::Write(w), TwoBitsTask::WriteHigh(v)) | (Op::Write(w), TwoBitsTask::WriteLow(v)) =>
                { who == 0 && v == w && w < 4 }
            (Op::Read, TwoBitsTask::ReadHigh(reader)) => {
                reader == who && who >= 1 && who < self.processes
            }
            (Op::Read, TwoBitsTask::ReadLow { who: reader, high }) => {
                reader == who && who >= 1 && who < self.processes && high < 2
            }
            _ => false,
        }
    }

    ghost sound = { λ l. two_bits_sound l.processes l.some };

    ghost alike = { λ a b h. two_bits_table_alike a.processes b.processes h };

    ghost same_task = { two_bits_task_decides };
}
