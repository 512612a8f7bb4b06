//! A register as a reader might write it, with only the eleven methods that a register must have: a
//! bit whose writes and reads take one action each.

ghost use Rattle.std.specs.Prelude.{◌≡◌, None};
ghost use Rattle.frames.specs.declared.types.Next.TheVariants.{Done};
ghost use Rattle.surface_tests.specs.Switch.{switch, switch_frame};

use frames::flat::FlatStack;
use frames::{
    Action, ActionKind, Behaves, Frame, FrameLayer, Next, Op, Outcome, Register, Stack, Turned,
};
use safe_bit::{Place, Store};
use std::alloc::Global;

/// The bit: process 0 writes, process 1 reads.
#[derive(Clone, Copy, Debug, PartialEq, Eq)]
pub(crate) struct Switch;

/// The frame of an operation.
fn frame_of(op: Op) -> Frame
    ensures { result ≡ switch_frame op }
{
    Frame {
        layer: FrameLayer::Safe,
        op,
        i: 0,
        x: 0,
    }
}

/// The end of an operation, at which no bit was chosen.
fn ended(outcome: Outcome) -> Turned<Op>
    ensures next { result.next ≡ Done outcome }
    ensures chosen { result.chosen ≡ None }
{
    Turned {
        next: Next::Done(outcome),
        chosen: None,
    }
}

impl Behaves for Switch {
    type Pending = Op;

    ghost behaviour = { λ _. switch };
}

impl Register for Switch {
    ghost use Rattle.std.specs.Prelude.{refl};
    ghost use Rattle.safe_bit.specs.Parts.{HasSize};
    ghost use Rattle.frames.specs.Equality.{op_decides};
    ghost use Rattle.surface_tests.specs.Switch.{switch_size, SwitchReaches, switch_point};
    ghost use Rattle.surface_tests.specs.laws.Switch.{switch_lawful, switch_frames_give_point};

    ghost Holds = { λ _. HasSize switch_size };

    ghost Reaches = { λ _. SwitchReaches };

    ghost point = { λ _. switch_point };

    fn size(&self) -> Place {
        Place { cell: 1, word: 0 }
    }

    fn values(&self) -> u32 {
        2
    }

    fn processes(&self) -> u32 {
        2
    }

    fn depth(&self) -> u32 {
        1
    }

    fn fits(&self, who: u32, op: Op) -> bool {
        layers::construction::one_writer(2, 2, who, op)
    }

    fn init(&self, store: &mut Store, at: Place, value: u32) {
        store.set_value(at.cell, value == 1);
    }

    fn begin(&self, _store: &mut Store, _at: Place, _who: u32, op: Op) -> Next<Op> {
        Next::Pending(op)
    }

    fn go(&self, store: &mut Store, at: Place, pending: Op, _choice: bool) -> Turned<Op> {
        match pending {
            Op::Write(value) => {
                store.set_value(at.cell, value == 1);
                ended(Outcome::Written)
            }
            Op::Read => ended(Outcome::Value(u32::from(store.cell(at.cell).value))),
        }
    }

    fn stack(&self, alloc: Global, pending: &Op) -> Stack {
        let mut stack = FlatStack::new();
        stack.push(frame_of(*pending));
        stack.to_stack(alloc)
    }

    fn action(&self, pending: &Op, at: Place) -> Action {
        let kind = match *pending {
            Op::Write(_) => ActionKind::WriteEnd,
            Op::Read => ActionKind::ReadEnd,
        };
        Action {
            kind,
            cell: at.cell,
        }
    }

    fn pending_on(&self, stack: &FlatStack, first: usize, who: u32) -> Option<Op> {
        if stack.len().saturating_sub(first) != 1 {
            return None;
        }
        let frame = stack.frame(first);
        if self.fits(who, frame.op) && frame.is(frame_of(frame.op)) {
            Some(frame.op)
        } else {
            None
        }
    }

    ghost reports = { λ _. switch_frames_give_point };

    ghost lawful = { λ _. switch_lawful };

    ghost alike = { λ _ _ _. refl };

    ghost finds_alike = { λ _ _ _. refl };

    ghost same_pending = { op_decides };
}
