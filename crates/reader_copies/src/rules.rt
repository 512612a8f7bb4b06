//! The rules of a register made of copies, whichever register is copied.

ghost use Rattle.std.specs.Prelude.{◌≡◌, ℕ, ◌<◌, ◌≤◌, ◌^◌, MatchResult, IfOk, Some, None};
ghost use Rattle.frames.specs.declared.limits.TheConstants.{MOST_READERS};
ghost use Rattle.layers.specs.Nested.{layered};
ghost use Rattle.reader_copies.specs.Program.{copies_table, copies_refusal, CopiesMayBeAt, copies_left};
ghost use Rattle.reader_copies.specs.laws.Sound.{copies_sound, copies_task_decides, copies_table_alike};

use crate::task::CopiesTask;
use layers::prelude::*;

/// A register of several readers: for each of them it has a copy of a register of one reader. A
/// write writes the copies one after the other, beginning with the copy of reader 1. A reader reads
/// its own copy (Lamport 1986; Herlihy and Shavit, chapter 4).
pub type Copies<S> = Layered<CopiesRules, S>;

/// The two numbers that the rules of a register made of copies depend on.
#[derive(Clone, Copy, Debug, PartialEq, Eq)]
pub struct CopiesRules {
    /// The number of readers, each with its own copy.
    pub readers: u32,
    /// The number of values of each copy, and so of the register made of them.
    pub values: u32,
    ghost some: { 1 ≤ readers },
    ghost few: { readers ≤ MOST_READERS },
}

/// The trait that declares `Copies::new`. Import it to call `Copies::new`.
pub trait NewCopies<S: Register>: Sized {
    /// A register made of copies of the register below, one copy for each of `readers` readers.
    /// Refused as BadSize if `readers` isn't 1 to 4, or if the register below has fewer than 2
    /// values, doesn't have 2 processes, or has depth 8; otherwise refused as TooManyBits if there
    /// would be more than 4,096 cells or 65,536 words.
    fn new(below: S, readers: u32) -> Result<Copies<S>, LayerError>
        ensures refused { MatchResult result
            (λ _. copies_refusal readers (S.behaviour below) ≡ None)
            (λ e. copies_refusal readers (S.behaviour below) ≡ Some e) }
        ensures built { IfOk result (λ r. ⟦<Layered<CopiesRules, S> as Behaves>⟧.behaviour r
            ≡ layered (copies_table readers (S.behaviour below).values) (S.behaviour below)) }
        ensures below { IfOk result (λ r. r.below ≡ below) };
}

impl<S: Register> NewCopies<S> for Copies<S> {
    fn new(below: S, readers: u32) -> Result<Copies<S>, LayerError> {
        if readers == 0 || readers > MOST_READERS {
            return Err(LayerError::BadSize);
        }
        let layer = CopiesRules {
            readers,
            values: below.values(),
        };
        Layered::over(below, layer)
    }
}

impl Rules for CopiesRules {
    type Task = CopiesTask;

    ghost table = { λ l. copies_table l.readers l.values };
}

impl Construction for CopiesRules {
    ghost MayBeAt = { λ l. CopiesMayBeAt l.readers l.values };

    ghost left = { λ l. copies_left l.readers };

    fn shape(&self) -> Shape {
        Shape {
            parts: self.readers,
            words: 0,
            values: self.values,
            processes: self.readers + 1,
            inner_values: self.values,
            inner_processes: 2,
        }
    }

    fn fits(&self, who: u32, op: Op) -> bool {
        one_writer(self.values, self.readers + 1, who, op)
    }

    fn first(&self, value: u32, _part: u32) -> u32 {
        value
    }

    fn first_word(&self, _value: u32, _word: u32) -> u32
        ensures { result ≡ 0 }
    {
        0
    }

    #[tactic(auto, using(crate::specs::laws::Sound::settled_with_copies_left))]
    fn start(&self, _store: &mut Store, _base: u32, who: u32, op: Op) -> Continuation<CopiesTask> {
        Continuation::Asks(match op {
            Op::Write(v) => CopiesTask::Writing { v, reader: 1 },
            Op::Read => CopiesTask::Reading { reader: who },
        })
    }

    #[tactic(auto, using(crate::specs::laws::Sound::settled_with_copies_left, crate::specs::laws::Sound::settled_without_copies_left))]
    fn after(
        &self,
        _store: &mut Store,
        _base: u32,
        task: CopiesTask,
        outcome: Outcome,
    ) -> Continuation<CopiesTask> {
        match task {
            CopiesTask::Writing { v, reader } if reader < self.readers => Continuation::Asks(
                CopiesTask::Writing {
                    v,
                    reader: reader + 1,
                },
            ),
            CopiesTask::Writing { .. } => Continuation::Ends(Outcome::Written),
            CopiesTask::Reading { .. } => Continuation::Ends(outcome),
        }
    }

    fn asks(&self, task: CopiesTask) -> Ask {
        let (part, who, op) = match task {
            CopiesTask::Writing { v, reader } => (reader - 1, 0, Op::Write(v)),
            CopiesTask::Reading { reader } => (reader - 1, 1, Op::Read),
        };
        Ask { part, who, op }
    }

    fn frame(&self, task: CopiesTask) -> Frame {
        let (op, reader) = match task {
            CopiesTask::Writing { v, reader } => (Op::Write(v), reader),
            CopiesTask::Reading { reader } => (Op::Read, reader),
        };
        Frame {
            layer: FrameLayer::Copies,
            op,
            i: reader,
            x: 0,
        }
    }

    fn find(&self, _who: u32, frame: Frame) -> CopiesTask {
        match frame.op {
            Op::Write(v) => CopiesTask::Writing { v, reader: frame.i },
            Op::Read => CopiesTask::Reading { reader: frame.i },
        }
    }

    fn may_be_at(&self, who: u32, op: Op, task: CopiesTask) -> bool {
        match (op, task) {
            (Op::Write(w), CopiesTask::Writing { v, reader }) => {
                let there = reader >= 1 && reader <= self.readers;
                who == 0 && v == w && v < self.values && there
            }
            (Op::Read, CopiesTask::Reading { reader }) => {
                reader == who && reader >= 1 && reader <= self.readers
            }
            _ => false,
        }
    }

    ghost sound = { λ l. copies_sound l.readers l.values l.some l.few };

    ghost alike = { λ a b h. copies_table_alike a.readers b.readers a.values b.values h };

    ghost same_task = { copies_task_decides };
}
