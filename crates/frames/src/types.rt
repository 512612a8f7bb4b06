//! The vocabulary of schedules: steps, operations, events, actions and frames.
//! Steps and operations are those of the crate `schedule_steps`.

ghost use Rattle.std.specs.Prelude.{◌≡◌};
ghost use Rattle.std.specs.Bool.{Decides};

pub use schedule_steps::types::{HasStep, Op, Step};
use smallvec::SmallVec;

/// The layers that can run out of stamps or tags.
#[derive(Clone, Copy, Debug, PartialEq, Eq)]
pub enum Layer {
    Stamped,
    Matrix,
}

/// How an operation ends.
#[derive(Clone, Copy, Debug, PartialEq, Eq)]
pub enum Outcome {
    /// A read gives a value.
    Value(u32),
    /// A write is done.
    Written,
    /// The operation is refused, because a layer has no stamp or tag left.
    Spent(Layer),
}

/// The state of an operation after a step: it is pending at a point, or done with an outcome.
#[derive(Clone, Copy, Debug, PartialEq, Eq)]
pub enum Next<P> {
    Pending(P),
    Done(Outcome),
}

/// The progress that an operation, whose frames are on a stack, makes by a bit action: `end` is its
/// outcome, or `None` if it is still pending; `chosen` is the bit and the value of the hit read
/// that the action ended, if any, else `None`.
#[derive(Clone, Copy, Debug, PartialEq, Eq)]
pub struct Progress {
    pub end: Option<Outcome>,
    pub chosen: Option<(u32, bool)>,
}

/// What a bit action leaves: `next`, the operation's state after the action, with its new point if
/// it is still pending; and `chosen`, the bit and the value of the hit read that the action ended,
/// if any, else `None`.
#[derive(Clone, Copy, Debug, PartialEq, Eq)]
pub struct Turned<P> {
    pub next: Next<P>,
    pub chosen: Option<(u32, bool)>,
}

/// Why a step isn't enabled.
#[derive(Clone, Copy, Debug, PartialEq, Eq)]
pub enum Reason {
    /// An invocation by a process that has an operation pending.
    Busy,
    /// A bit action of a process that has no operation pending.
    Idle,
    /// A step of a process that has stopped.
    Stopped,
}

/// What a step records; the first number is the process.
#[derive(Clone, Copy, Debug, PartialEq, Eq)]
pub enum Event {
    /// An operation is invoked.
    Invoke(u32, Op),
    /// A read returns this value.
    Got(u32, u32),
    /// A write returns.
    Wrote(u32),
    /// An operation is refused because a layer is spent.
    Refused(u32, Layer),
    /// The step wasn't enabled, and changed nothing.
    Void(u32, Reason),
    /// A process stops.
    Stop(u32),
    /// A hit read of a bit ended; the second number is the bit, and the `bool` the read's value.
    Chosen(u32, u32, bool),
}

/// The events of one step, in order. If there is only one event, it is `first`.
#[derive(Clone, Copy, Debug, PartialEq, Eq)]
pub struct StepEvents {
    pub first: Option<Event>,
    pub second: Option<Event>,
}

/// The four actions on a cell, which is a safe bit.
#[derive(Clone, Copy, Debug, PartialEq, Eq)]
pub enum ActionKind {
    WriteStart,
    WriteEnd,
    ReadStart,
    ReadEnd,
}

/// A bit action: its kind, and the number of its cell.
#[derive(Clone, Copy, Debug, PartialEq, Eq)]
pub struct Action {
    pub kind: ActionKind,
    pub cell: u32,
}

/// The layer that a frame belongs to. A matrix has two frame layers: one while it reads a column,
/// one while it writes a row.
#[derive(Clone, Copy, Debug, PartialEq, Eq, Default)]
pub enum FrameLayer {
    #[default]
    Safe,
    Copies,
    Regular,
    Unary,
    Stamped,
    MatrixRead,
    MatrixWrite,
    /// A construction that isn't one of the six towers'.
    Named(LayerName),
}

/// The name that a construction gives itself: one to three ASCII letters or digits. A shorter name
/// is followed by spaces.
#[derive(Clone, Copy, Debug, PartialEq, Eq)]
pub struct LayerName(pub u8, pub u8, pub u8);

/// One layer's part of a pending operation. `op` is the operation on that layer. `i` says which of
/// the registers that the layer uses is at work; for a safe bit, it is 0 before the start action
/// and 1 after it. `x` is the code being written or, while a matrix reads a column, the greatest
/// code read so far, at first 0. Each of `i` and `x` is 0 if the layer doesn't need it.
#[derive(Clone, Copy, Debug, PartialEq, Eq, Default)]
pub struct Frame {
    pub layer: FrameLayer,
    pub op: Op,
    pub i: u32,
    pub x: u32,
}

impl Frame {
    /// Whether two frames are the same: `==`, with a contract that says so.
    pub fn is(self, other: Frame) -> bool
        ensures { Decides result (self ≡ other) }
    {
        self == other
    }
}

// Each step moves frames, and each stored run keeps some: a longer name would make them larger.
const _: () = prove!(size_of::<Frame>() == 20);

/// The most frames that a pending operation can have.
pub const STACK_FRAMES: usize = 8;

/// The frames of a pending operation, outermost first.
pub type Stack = SmallVec<Frame, STACK_FRAMES>;
