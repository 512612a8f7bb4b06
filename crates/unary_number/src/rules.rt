//! The rules of a unary number, whichever register of two values is below it.

ghost use Rattle.std.specs.Prelude.{◌≡◌, ℕ, ◌<◌, ◌≤◌, ◌+◌, ◌-◌, ◌^◌, MatchResult, IfOk, Some, None};
ghost use Rattle.safe_bit.specs.Memory.{Memory};
ghost use Rattle.frames.specs.declared.types.Outcome.TheVariants.{Value};
ghost use Rattle.frames.specs.declared.limits.TheConstants.{LEAST_VALUES, MOST_VALUES};
ghost use Rattle.layers.specs.Nested.{layered};
ghost use Rattle.layers.specs.Settled.{settled};
ghost use Rattle.unary_number.specs.Program.{clears_below, looks_above, unary_table, unary_refusal, UnaryMayBeAt, unary_left};
ghost use Rattle.unary_number.specs.laws.Sound.{unary_sound, unary_task_decides, unary_table_alike};

use crate::task::UnaryTask;
use layers::prelude::*;

/// A register of 2 to 512 values. For each value it has a bit, which is a register of two values. A
/// write of x sets bit x to 1, and then clears the bits below bit x to 0, from bit x - 1 down to
/// bit 0. A read scans from bit 0 upward and returns the index of the first 1 that it finds
/// (Lamport 1986; Herlihy and Shavit, chapter 4).
pub type Unary<S> = Layered<UnaryRules, S>;

/// A unary number's own numbers, within their limits. They determine its rules.
#[derive(Clone, Copy, Debug, PartialEq, Eq)]
pub struct UnaryRules {
    /// The number of values, which is also the number of bits.
    pub values: u32,
    /// The number of processes: process 0 writes, the others read.
    pub processes: u32,
    ghost two: { LEAST_VALUES ≤ values },
    ghost few: { values ≤ MOST_VALUES },
    ghost some: { 0 < processes },
}

/// The trait that declares `Unary::new`. Import it to call `Unary::new`.
pub trait NewUnary<S: Register>: Sized {
    /// The unary number of `values` values over registers like `below`. The register below has two
    /// values, and its processes are the unary number's processes too. Refused as BadSize if
    /// `values` isn't 2 to 512, or if the register below doesn't have two values, doesn't have 2 to
    /// 5 processes, or has depth 8; otherwise refused as TooManyBits if there would be more than
    /// 4,096 cells or 65,536 words.
    fn new(below: S, values: u32) -> Result<Unary<S>, LayerError>
        ensures refused { MatchResult result (λ _. unary_refusal values (S.behaviour below) ≡ None)
            (λ e. unary_refusal values (S.behaviour below) ≡ Some e) }
        ensures built { IfOk result (λ r. ⟦<Layered<UnaryRules, S> as Behaves>⟧.behaviour r
            ≡ layered (unary_table values (S.behaviour below).processes) (S.behaviour below)) }
        ensures below { IfOk result (λ r. r.below ≡ below) };
}

impl<S: Register> NewUnary<S> for Unary<S> {
    fn new(below: S, values: u32) -> Result<Unary<S>, LayerError> {
        if !(LEAST_VALUES..=MOST_VALUES).contains(&values) {
            return Err(LayerError::BadSize);
        }
        let processes = below.processes();
        // The rules' field `some` needs this; `over` checks the limits.
        if processes == 0 {
            return Err(LayerError::BadSize);
        }
        Layered::over(below, UnaryRules { values, processes })
    }
}

impl UnaryRules {
    /// The next task, or the end, of a read by process `who` that found 0 in bit `i`. There are
    /// `left` bits above bit `i`.
    fn look_above(&self, who: u32, i: u32, left: u32) -> Continuation<UnaryTask>
        requires { i + left < self.now.values }
        ensures { (base : ℕ) (m : Memory) → settled base
            (looks_above (Value (self.now.values - 1)) who i left) m
            ≡ record { continuation = result; memory = m } }
    {
        if left == 0 {
            return Continuation::Ends(Outcome::Value(self.values - 1));
        }
        Continuation::Asks(UnaryTask::Looking {
            who,
            i: i + 1,
            left: left - 1,
        })
    }
}

/// The next task, or the end, of a write of `x` that still has to clear the bits below bit `i`.
fn clear_below(x: u32, i: u32) -> Continuation<UnaryTask>
    ensures { (base : ℕ) (m : Memory) → settled base (clears_below x i) m
        ≡ record { continuation = result; memory = m } }
{
    if i == 0 {
        return Continuation::Ends(Outcome::Written);
    }
    Continuation::Asks(UnaryTask::Clearing { x, i: i - 1 })
}

impl Rules for UnaryRules {
    type Task = UnaryTask;

    ghost table = { λ l. unary_table l.values l.processes };
}

impl Construction for UnaryRules {
    ghost MayBeAt = { λ l. UnaryMayBeAt l.values l.processes };

    ghost left = { λ _. unary_left };

    fn shape(&self) -> Shape {
        Shape {
            parts: self.values,
            words: 0,
            values: self.values,
            processes: self.processes,
            inner_values: 2,
            inner_processes: self.processes,
        }
    }

    fn fits(&self, who: u32, op: Op) -> bool {
        one_writer(self.values, self.processes, who, op)
    }

    fn first(&self, value: u32, bit: u32) -> u32 {
        u32::from(bit == value)
    }

    fn first_word(&self, _value: u32, _word: u32) -> u32
        ensures { result ≡ 0 }
    {
        0
    }

    fn start(&self, _store: &mut Store, _base: u32, who: u32, op: Op) -> Continuation<UnaryTask> {
        match op {
            Op::Write(x) => Continuation::Asks(UnaryTask::Setting(x)),
            Op::Read => Continuation::Asks(UnaryTask::Looking {
                who,
                i: 0,
                left: self.values - 1,
            }),
        }
    }

    fn after(
        &self,
        _store: &mut Store,
        _base: u32,
        task: UnaryTask,
        outcome: Outcome,
    ) -> Continuation<UnaryTask> {
        match task {
            UnaryTask::Setting(x) => clear_below(x, x),
            UnaryTask::Clearing { x, i } => clear_below(x, i),
            UnaryTask::Looking { who, i, left } => match outcome {
                Outcome::Value(bit) => {
                    if bit == 1 {
                        Continuation::Ends(Outcome::Value(i))
                    } else {
                        self.look_above(who, i, left)
                    }
                }
                Outcome::Written | Outcome::Spent(_) => Continuation::Ends(outcome),
            },
        }
    }

    fn asks(&self, task: UnaryTask) -> Ask {
        let (part, who, op) = match task {
            UnaryTask::Setting(x) => (x, 0, Op::Write(1)),
            UnaryTask::Clearing { i, .. } => (i, 0, Op::Write(0)),
            UnaryTask::Looking { who, i, .. } => (i, who, Op::Read),
        };
        Ask { part, who, op }
    }

    fn frame(&self, task: UnaryTask) -> Frame {
        let (op, i) = match task {
            UnaryTask::Setting(x) => (Op::Write(x), x),
            UnaryTask::Clearing { x, i } => (Op::Write(x), i),
            UnaryTask::Looking { who: _, i, left: _ } => (Op::Read, i),
        };
        Frame {
            layer: FrameLayer::Unary,
            op,
            i,
            x: 0,
        }
    }

    fn find(&self, who: u32, frame: Frame) -> UnaryTask {
        let i = frame.i;
        match frame.op {
            Op::Write(x) => {
                if i == x {
                    UnaryTask::Setting(x)
                } else {
                    UnaryTask::Clearing { x, i }
                }
            }
            Op::Read => {
                let left = (self.values - 1).saturating_sub(i);
                UnaryTask::Looking { who, i, left }
            }
        }
    }

    fn may_be_at(&self, who: u32, op: Op, task: UnaryTask) -> bool {
        match (op, task) {
            (Op::Write(w), UnaryTask::Setting(x)) => who == 0 && x == w && w < self.values,
            (Op::Write(w), UnaryTask::Clearing { x, i }) => {
                who == 0 && x == w && i < w && w < self.values
            }
            (
                Op::Read,
                UnaryTask::Looking {
                    who: reader,
                    i,
                    left,
                },
            ) => {
                let bits = u64::from(i) + u64::from(left) + 1;
                let reads = reader == who && who >= 1 && who < self.processes;
                reads && bits == u64::from(self.values)
            }
            _ => false,
        }
    }

    ghost sound = { λ l. unary_sound l.values l.processes l.two l.some };

    ghost alike = { λ a b h. unary_table_alike a.values b.values a.processes b.processes h };

    ghost same_task = { unary_task_decides };
}
