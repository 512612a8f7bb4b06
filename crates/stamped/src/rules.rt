//! The rules of a stamped register, whichever register is below it.

ghost use Rattle.std.specs.Prelude.{◌≡◌, ℕ, ◌+◌, ◌*◌, ◌<◌, ◌≤◌, ◌^◌, MatchResult, IfOk, Some, None};
ghost use Rattle.frames.specs.declared.limits.TheConstants.{LEAST_VALUES, MOST_VALUES};
ghost use Rattle.layers.specs.Nested.{layered};
ghost use Rattle.stamped.specs.Program.{stamped_table, StampedMayBeAt};
ghost use Rattle.stamped.specs.laws.Sound.{stamped_sound, stamped_task_decides, stamped_table_alike};
ghost use Rattle.stamped.specs.Limits.{stamped_refusal};

use crate::task::StampedTask;
use layers::prelude::*;

/// A register of one writer and one reader, over a register of `(last + 1) * values` codes; a code
/// is one number for a stamp and a value. A write of v takes the next stamp, and writes the code of
/// this stamp and v to the register below; if there is no next stamp, the write is spent. A read
/// reads a code, and returns the value in the greatest code that the reader has read so far
/// (Lamport 1986; Herlihy and Shavit, chapter 4).
pub type Stamped<S> = Layered<StampedRules, S>;

/// A stamped register's own numbers, within their limits. They determine its rules.
#[derive(Clone, Copy, Debug, PartialEq, Eq)]
pub struct StampedRules {
    /// The number of values that the stamped register can hold.
    pub values: u32,
    /// The last stamp. Once the register's stamp is this one, each later write is spent.
    pub last: u32,
    ghost some: { LEAST_VALUES ≤ values },
    ghost few: { values ≤ MOST_VALUES },
    ghost few_stamps: { last < MOST_VALUES },
    ghost few_codes: { (last + 1) * values ≤ MOST_VALUES },
}

/// The trait that declares `Stamped::new`. Import it to call `Stamped::new`.
pub trait NewStamped<S: Register>: Sized {
    /// The stamped register of `values` values, with stamps up to `last`, over `below`. `values` is
    /// 2 to 512, and `last` is at most 511. The register below has 2 processes, and it has
    /// `(last + 1) * values` values, at most 512. Refused as BadSize if one of these limits is
    /// broken, or if the register below has depth 8; otherwise refused as TooManyBits if there
    /// would be more than 4,096 cells or 65,536 words.
    fn new(below: S, values: u32, last: u32) -> Result<Stamped<S>, LayerError>
        ensures refused { MatchResult result
            (λ _. stamped_refusal values last (S.behaviour below) ≡ None)
            (λ e. stamped_refusal values last (S.behaviour below) ≡ Some e) }
        ensures built { IfOk result (λ r. ⟦<Layered<StampedRules, S> as Behaves>⟧.behaviour r
            ≡ layered (stamped_table values last) (S.behaviour below)) }
        ensures below { IfOk result (λ r. r.below ≡ below) };
}

impl<S: Register> NewStamped<S> for Stamped<S> {
    fn new(below: S, values: u32, last: u32) -> Result<Stamped<S>, LayerError> {
        if values < LEAST_VALUES || values > MOST_VALUES || last >= MOST_VALUES {
            return Err(LayerError::BadSize);
        }
        if (last + 1) * values > MOST_VALUES {
            return Err(LayerError::BadSize);
        }
        Layered::over(below, StampedRules { values, last })
    }
}

impl Rules for StampedRules {
    type Task = StampedTask;

    ghost table = { λ l. stamped_table l.values l.last };
}

impl Construction for StampedRules {
    ghost MayBeAt = { λ l. StampedMayBeAt l.values l.last };

    ghost left = { λ _ _. 0 };

    fn shape(&self) -> Shape {
        Shape {
            parts: 1,
            words: 2,
            values: self.values,
            processes: 2,
            inner_values: (self.last + 1) * self.values,
            inner_processes: 2,
        }
    }

    fn fits(&self, who: u32, op: Op) -> bool {
        one_writer(self.values, 2, who, op)
    }

    fn first(&self, value: u32, _part: u32) -> u32 {
        value
    }

    fn first_word(&self, value: u32, word: u32) -> u32 {
        if word == 0 { 0 } else { value }
    }

    fn start(&self, store: &mut Store, base: u32, _who: u32, op: Op) -> Continuation<StampedTask> {
        match op {
            Op::Write(v) => {
                let stamp = store.word(base);
                if stamp == self.last {
                    return Continuation::Ends(Outcome::Spent(Layer::Stamped));
                }
                store.set_word(base, stamp + 1);
                Continuation::Asks(StampedTask::Writing(v, (stamp + 1) * self.values + v))
            }
            Op::Read => Continuation::Asks(StampedTask::Reading),
        }
    }

    fn after(
        &self,
        store: &mut Store,
        base: u32,
        task: StampedTask,
        outcome: Outcome,
    ) -> Continuation<StampedTask> {
        match (task, outcome) {
            (StampedTask::Reading, Outcome::Value(code)) => {
                store.lemma_numbered();
                let best = store.word(base + 1).max(code);
                store.set_word(base + 1, best);
                Continuation::Ends(Outcome::Value(best % self.values))
            }
            _ => Continuation::Ends(outcome),
        }
    }

    fn asks(&self, task: StampedTask) -> Ask {
        let (who, op) = match task {
            StampedTask::Writing(_, code) => (0, Op::Write(code)),
            StampedTask::Reading => (1, Op::Read),
        };
        Ask { part: 0, who, op }
    }

    fn frame(&self, task: StampedTask) -> Frame {
        let (op, x) = match task {
            StampedTask::Writing(v, code) => (Op::Write(v), code),
            StampedTask::Reading => (Op::Read, 0),
        };
        Frame {
            layer: FrameLayer::Stamped,
            op,
            i: 0,
            x,
        }
    }

    fn find(&self, _who: u32, frame: Frame) -> StampedTask {
        match frame.op {
            Op::Write(v) => StampedTask::Writing(v, frame.x),
            Op::Read => StampedTask::Reading,
        }
    }

    fn may_be_at(&self, who: u32, op: Op, task: StampedTask) -> bool {
        match (op, task) {
            (Op::Write(w), StampedTask::Writing(v, code)) => {
                let own = code % self.values == v && code >= self.values;
                who == 0 && v == w && own && code < (self.last + 1) * self.values
            }
            (Op::Read, StampedTask::Reading) => who == 1,
            _ => false,
        }
    }

    ghost sound = { λ l. stamped_sound l.values l.last l.some };

    ghost alike = { λ a b h. stamped_table_alike a.values b.values a.last b.last h };

    ghost same_task = { stamped_task_decides };
}
