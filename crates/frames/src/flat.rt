//! A stack of frames, changed in place.

ghost use Rattle.std.specs.Prelude.{◌≡◌, ◌≤◌, ◌<◌, ◌+◌, ◌==◌, [], ◌∷◌, ◌++◌, length, take, drop, slice_set};
ghost use Rattle.frames.specs.declared.types.Frame.{Frame};
ghost use Rattle.frames.specs.declared.types.TheConstants.{STACK_FRAMES};
ghost use Rattle.frames.specs.Flat.{outermost};

use crate::types::{Frame, FrameLayer, Op, STACK_FRAMES, Stack};
use smallvec::SmallVec;
use std::alloc::Global;
use std::marker::Model;

/// The frame that fills the array of a new `FlatStack`.
const BLANK: Frame = Frame {
    layer: FrameLayer::Safe,
    op: Op::Read,
    i: 0,
    x: 0,
};

/// A stack of at most 8 frames: those of a process's pending operation, outermost first. It is
/// empty while the process is idle. Contracts see it as a list of frames.
#[derive(Debug, Drop)]
pub struct FlatStack {
    frames: [Frame; STACK_FRAMES],
    count: usize,
}

impl Model for FlatStack {
    ghost use Rattle.std.specs.Prelude.{◌≡◌, ◌≤◌, List, length, take};
    ghost use Rattle.frames.specs.declared.types.Frame.{Frame};
    ghost use Rattle.frames.specs.declared.types.TheConstants.{STACK_FRAMES};

    ghost Value = { List Frame };

    ghost view = { λ s. take s.count s.frames };

    ghost invariant = { λ s. (s.count ≤ STACK_FRAMES) × (length s.frames ≡ STACK_FRAMES) };
}

impl PartialEq for FlatStack {
    ghost use Rattle.frames.specs.laws.Flat.{stack_eq, stack_per};

    ghost eq = { stack_eq };

    ghost laws = { stack_per };

    fn eq(&self, other: &FlatStack) -> bool {
        self.as_slice() == other.as_slice()
    }
}

impl FlatStack {
    /// An empty stack.
    pub fn new() -> FlatStack
        ensures { result ≡ [] }
    {
        FlatStack {
            frames: [BLANK; STACK_FRAMES],
            count: 0,
        }
    }

    /// An equal copy.
    pub fn copy(&self) -> FlatStack
        ensures { result ≡ self.now }
    {
        FlatStack {
            frames: self.frames,
            count: self.count,
        }
    }

    /// The number of frames.
    #[inline(always)]
    pub fn len(&self) -> usize
        ensures { result ≡ length self.now }
    {
        self.count
    }

    /// Whether there are no frames.
    #[inline(always)]
    pub fn is_empty(&self) -> bool
        ensures { result ≡ (length self.now == 0) }
    {
        self.count == 0
    }

    /// The frames, outermost first; there are at most 8.
    pub fn as_slice(&self) -> &[Frame]
        ensures items { result.now ≡ self.now }
        ensures few { length self.now ≤ STACK_FRAMES }
    {
        &self.frames[..self.count]
    }

    /// A `Stack` with the same frames. It has its inline capacity of 8, so nothing is allocated.
    pub fn to_stack(&self, alloc: Global) -> Stack
        ensures items { result.items ≡ self.now }
        ensures inline { result.capacity ≡ 8 }
    {
        SmallVec::from_slice(alloc, self.as_slice()).unwrap()
    }

    /// The operation of the outermost frame; `None` if the stack is empty.
    pub fn op(&self) -> Option<Op>
        ensures { result ≡ outermost self.now }
    {
        if self.count == 0 {
            return None;
        }
        Some(self.frames[0].op)
    }

    /// The frame at `index`, which is below the number of frames; index 0 is the outermost frame.
    #[inline(always)]
    pub fn frame(&self, index: usize) -> Frame
        requires { index < length self.now }
        ensures { drop index self.now ≡ result ∷ drop (index + 1) self.now }
    {
        prove!(index < self.count);
        self.frames[index]
    }

    /// Replaces the frame at `index`, which is below the number of frames, by `frame`.
    #[inline(always)]
    pub fn set(&mut self, index: usize, frame: Frame)
        requires { index < length self.old }
        ensures { self.new ≡ slice_set self.old index frame }
    {
        prove!(index < self.count);
        self.frames[index] = frame;
    }

    /// Pushes `frame` after the others, of which there are fewer than 8.
    #[inline(always)]
    pub fn push(&mut self, frame: Frame)
        requires { length self.old < STACK_FRAMES }
        ensures { self.new ≡ self.old ++ frame ∷ [] }
    {
        // read once: LLVM has to assume that a store to the frames may change the count
        let count = self.count;
        self.frames[count] = frame;
        self.count = count + 1;
    }

    /// Pushes `frames` after the others, in order; the stack must have at most 8 frames afterwards.
    pub fn extend(&mut self, frames: &[Frame])
        requires { length self.old + length frames.now ≤ STACK_FRAMES }
        ensures { self.new ≡ self.old ++ frames.now }
    {
        for frame in frames {
            self.push(*frame);
        }
    }

    /// Keeps the first `count` frames and drops the rest; `count` is at most the number of frames.
    #[inline(always)]
    pub fn truncate(&mut self, count: usize)
        requires { count ≤ length self.old }
        ensures { self.new ≡ take count self.old }
    {
        // proved, not tested at run time, so that the compiler can set the count just once if
        // several layers drop their frames in one action
        prove!(count <= self.count);
        self.count = count;
    }
}
