//! The register of one safe bit.

ghost use Rattle.std.specs.Prelude.{◌≡◌, ℕ, ◌<◌, ◌+◌, [], ◌∷◌, true, Bool, None, Option};
ghost use Rattle.std.specs.Bool.{Decides};
ghost use Rattle.safe_bit.specs.Memory.{Memory};
ghost use Rattle.safe_bit.specs.Parts.{HasSize, LiesIn, IsPlaced, part, with_part};
ghost use Rattle.schedule_steps.specs.declared.types.Op.{Op};
ghost use Rattle.frames.specs.Flat.{IsPointByFrames};
ghost use Rattle.frames.specs.SafeBit.{safe_behaviour, SafeReaches, safe_frame, point_at, safe_point, bit_of, value_of};

use crate::flat::FlatStack;
use crate::register::{Behaves, Register};
use crate::types::{
    Action, ActionKind, Frame, FrameLayer, Next, Op, Outcome, Progress, Stack, Turned,
};
use safe_bit::{Place, Store};
use std::alloc::Global;

/// The point that an operation on a safe bit is at: its next bit action, and for a write the bit to
/// be written.
#[derive(Clone, Copy, Debug, PartialEq, Eq)]
pub enum SafePoint {
    WriteStart(bool),
    WriteEnd(bool),
    ReadStart,
    ReadEnd,
}

/// The register of one safe bit: process 0 writes, process 1 reads (Lamport 1986).
#[derive(Clone, Copy, Debug, PartialEq, Eq)]
pub struct Safe;

impl Safe {
    /// The point whose only frame is `frame`, if process `who` can reach such a point in an
    /// operation; else `None`.
    fn point_in(&self, frame: Frame, who: u32) -> Option<SafePoint>
        ensures { IsPointByFrames safe_behaviour.frames SafeReaches who (frame ∷ []) result }
    {
        let point = point_of(frame);
        if self.fits(who, frame.op) && frame.is(frame_of(point)) {
            Some(point)
        } else {
            None
        }
    }
}

impl Behaves for Safe {
    type Pending = SafePoint;

    ghost behaviour = { λ _. safe_behaviour };
}

impl Register for Safe {
    ghost use Rattle.std.specs.Prelude.{refl};
    ghost use Rattle.frames.specs.laws.Safe.{safe_lawful, safe_frames_give_point, point_decides};

    ghost Holds = { λ _. HasSize safe_behaviour.size };

    ghost Reaches = { λ _. SafeReaches };

    ghost point = { λ _. safe_point };

    fn size(&self) -> Place {
        Place { cell: 1, word: 0 }
    }

    fn values(&self) -> u32 {
        2
    }

    fn processes(&self) -> u32 {
        2
    }

    fn depth(&self) -> u32 {
        1
    }

    fn fits(&self, who: u32, op: Op) -> bool {
        match op {
            Op::Write(v) => who == 0 && v < 2,
            Op::Read => who == 1,
        }
    }

    fn init(&self, store: &mut Store, at: Place, value: u32) {
        store.set_value(at.cell, value == 1);
    }

    fn begin(&self, _store: &mut Store, _at: Place, _who: u32, op: Op) -> Next<SafePoint> {
        Next::Pending(match op {
            Op::Write(v) => SafePoint::WriteStart(v == 1),
            Op::Read => SafePoint::ReadStart,
        })
    }

    fn go(
        &self,
        store: &mut Store,
        at: Place,
        pending: SafePoint,
        choice: bool,
    ) -> Turned<SafePoint> {
        match pending {
            SafePoint::WriteStart(value) => {
                store.start_write(at.cell, value);
                unchosen(Next::Pending(SafePoint::WriteEnd(value)))
            }
            SafePoint::WriteEnd(_) => {
                store.end_write(at.cell);
                unchosen(Next::Done(Outcome::Written))
            }
            SafePoint::ReadStart => {
                store.start_read(at.cell);
                unchosen(Next::Pending(SafePoint::ReadEnd))
            }
            SafePoint::ReadEnd => {
                let was_hit = store.cell(at.cell).hit;
                let given = store.end_read(at.cell, choice);
                Turned {
                    next: Next::Done(Outcome::Value(u32::from(given))),
                    chosen: if was_hit {
                        Some((at.cell, given))
                    } else {
                        None
                    },
                }
            }
        }
    }

    fn stack(&self, alloc: Global, pending: &SafePoint) -> Stack {
        let mut stack = FlatStack::new();
        stack.push(frame_of(*pending));
        stack.to_stack(alloc)
    }

    fn action(&self, pending: &SafePoint, at: Place) -> Action {
        let kind = match *pending {
            SafePoint::WriteStart(_) => ActionKind::WriteStart,
            SafePoint::WriteEnd(_) => ActionKind::WriteEnd,
            SafePoint::ReadStart => ActionKind::ReadStart,
            SafePoint::ReadEnd => ActionKind::ReadEnd,
        };
        Action {
            kind,
            cell: at.cell,
        }
    }

    fn pending_on(&self, stack: &FlatStack, first: usize, who: u32) -> Option<SafePoint> {
        if stack.len().saturating_sub(first) == 1 {
            self.point_in(stack.frame(first), who)
        } else {
            None
        }
    }

    #[inline(always)]
    fn begin_on(
        &self,
        _store: &mut Store,
        _at: Place,
        _who: u32,
        op: Op,
        stack: &mut FlatStack,
    ) -> Option<Outcome> {
        stack.push(Frame {
            layer: FrameLayer::Safe,
            op,
            i: 0,
            x: 0,
        });
        None
    }

    #[inline(always)]
    fn go_on(
        &self,
        store: &mut Store,
        at: Place,
        _who: u32,
        stack: &mut FlatStack,
        first: usize,
        choice: bool,
    ) -> Progress {
        let frame = stack.frame(first);
        match point_of(frame) {
            SafePoint::WriteStart(bit) => {
                store.start_write(at.cell, bit);
                stack.set(first, frame_of(SafePoint::WriteEnd(bit)));
                Progress {
                    end: None,
                    chosen: None,
                }
            }
            SafePoint::WriteEnd(_) => {
                store.end_write(at.cell);
                stack.truncate(first);
                Progress {
                    end: Some(Outcome::Written),
                    chosen: None,
                }
            }
            SafePoint::ReadStart => {
                store.start_read(at.cell);
                stack.set(first, frame_of(SafePoint::ReadEnd));
                Progress {
                    end: None,
                    chosen: None,
                }
            }
            SafePoint::ReadEnd => {
                let hit = store.cell(at.cell).hit;
                let value = store.end_read(at.cell, choice);
                stack.truncate(first);
                Progress {
                    end: Some(Outcome::Value(u32::from(value))),
                    chosen: if hit { Some((at.cell, value)) } else { None },
                }
            }
        }
    }

    ghost reports = { λ _. safe_frames_give_point };

    ghost lawful = { λ _. safe_lawful };

    ghost alike = { λ _ _ _. refl };

    ghost finds_alike = { λ _ _ _. refl };

    ghost same_pending = { point_decides };
}

/// The result of an action that ended no hit read; `next` is the operation's state after it.
fn unchosen(next: Next<SafePoint>) -> Turned<SafePoint>
    ensures next { result.next ≡ next }
    ensures chosen { result.chosen ≡ None }
{
    Turned { next, chosen: None }
}

/// The frame of an operation at this point; its `i` is 0 before the start action, and 1 after it.
#[inline(always)]
fn frame_of(point: SafePoint) -> Frame
    ensures { result ≡ safe_frame point }
{
    let (op, started) = match point {
        SafePoint::WriteStart(bit) => (Op::Write(u32::from(bit)), 0),
        SafePoint::WriteEnd(bit) => (Op::Write(u32::from(bit)), 1),
        SafePoint::ReadStart => (Op::Read, 0),
        SafePoint::ReadEnd => (Op::Read, 1),
    };
    Frame {
        layer: FrameLayer::Safe,
        op,
        i: started,
        x: 0,
    }
}

/// The point that a frame describes.
#[inline(always)]
fn point_of(frame: Frame) -> SafePoint
    ensures { result ≡ point_at frame.op frame.i }
{
    match frame.op {
        Op::Write(v) if frame.i == 0 => SafePoint::WriteStart(v == 1),
        Op::Write(v) => SafePoint::WriteEnd(v == 1),
        Op::Read if frame.i == 0 => SafePoint::ReadStart,
        Op::Read => SafePoint::ReadEnd,
    }
}
