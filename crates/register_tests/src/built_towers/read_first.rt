//! A register of 8 values that has to be read before it can be written: a write before the first
//! read is refused as spent. In a matrix of such registers, each process itself reads the part of
//! its row on the diagonal; the other parts of the row are read only by other processes.

use layers::prelude::*;

/// The rules of such a register: the word is 1 once the register has been read.
#[derive(Clone, Copy, Debug, PartialEq, Eq)]
pub struct ReadFirst;

/// One part and one word. The values and processes are those of the part.
const SHAPE: Shape = Shape {
    parts: 1,
    words: 1,
    values: 8,
    processes: 2,
    inner_values: 8,
    inner_processes: 2,
};

impl Rules for ReadFirst {
    ghost use Rattle.register_tests.specs.ReadFirst.{read_first_table};

    type Task = Op;

    ghost table = { λ _. read_first_table };
}

impl Construction for ReadFirst {
    ghost use Rattle.std.specs.Prelude.{refl};
    ghost use Rattle.register_tests.specs.ReadFirst.{ReadFirstMayBeAt};
    ghost use Rattle.register_tests.specs.laws.ReadFirst.{read_first_sound};
    ghost use Rattle.frames.specs.Equality.{op_decides};

    ghost MayBeAt = { λ _. ReadFirstMayBeAt };

    ghost left = { λ _ _. 0 };

    fn shape(&self) -> Shape {
        SHAPE
    }

    fn fits(&self, who: u32, op: Op) -> bool {
        one_writer(8, 2, who, op)
    }

    fn frame(&self, task: Op) -> Frame {
        Frame {
            layer: FrameLayer::Named(LayerName(b'1', b's', b't')),
            op: task,
            i: 0,
            x: 0,
        }
    }

    fn find(&self, _who: u32, frame: Frame) -> Op {
        frame.op
    }

    fn asks(&self, task: Op) -> Ask {
        let who = match task {
            Op::Write(_) => 0,
            Op::Read => 1,
        };
        Ask {
            part: 0,
            who,
            op: task,
        }
    }

    fn first_word(&self, _value: u32, _word: u32) -> u32 {
        0
    }

    fn first(&self, value: u32, _part: u32) -> u32 {
        value
    }

    fn after(&self, _: &mut Store, _: u32, _: Op, outcome: Outcome) -> Continuation<Op> {
        Continuation::Ends(outcome)
    }

    fn start(&self, store: &mut Store, base: u32, _who: u32, op: Op) -> Continuation<Op> {
        match op {
            Op::Write(v) => {
                if store.word(base) == 0 {
                    return Continuation::Ends(Outcome::Spent(Layer::Stamped));
                }
                Continuation::Asks(Op::Write(v))
            }
            Op::Read => {
                store.set_word(base, 1);
                Continuation::Asks(Op::Read)
            }
        }
    }

    fn may_be_at(&self, who: u32, op: Op, task: Op) -> bool {
        match (op, task) {
            (Op::Write(w), Op::Write(v)) => who == 0 && w == v && v < 8,
            (Op::Read, Op::Read) => who == 1,
            _ => false,
        }
    }

    ghost sound = { λ _. read_first_sound };

    ghost alike = { λ _ _ _. refl };

    ghost same_task = { op_decides };
}
