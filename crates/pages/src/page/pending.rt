//! The page that shows each pending operation as frames, one for each of its layers.

ghost use Rattle.std.specs.Prelude.{◌≡◌, ◌++◌, IfOk, OnOk, decimal};
ghost use Rattle.pages.specs.page.Memory.{after_space};
ghost use Rattle.pages.specs.page.Pending as spec;

use crate::page::head::{Head, push_head};
use crate::page::lines::{Line, push_lines};
use crate::page::names::push_frame_name;
use crate::page::process::{push_idle, push_process_number, stopped_text};
use branch_terms::listed::Listed;
use frames::config::Config;
use frames::register::Register;
use frames::types::{Frame, FrameLayer, Op};
use std::alloc::{AllocError, Global};
use words::text::{Pushed, push_labelled, push_text};

/// The operation that a process has pending, if any, as frames; and whether the process has
/// stopped.
#[derive(Clone, Drop)]
pub struct PendingStatus {
    /// The frames of the process's operation, outermost first; `None` if nothing is pending.
    pub frames: Option<Listed<Frame>>,
    /// Whether the process has stopped.
    pub stopped: bool,
}

/// A page that shows the pending operation of each process, as frames.
#[derive(Drop)]
pub struct PendingPage {
    pub head: Head,
    pub processes: Listed<PendingStatus>,
}

/// A clone is the same page, in newly allocated memory.
impl Clone for PendingPage {
    ghost use Rattle.std.specs.Prelude.{◌≡◌};

    ghost is_clone = { λ page copy. copy ≡ page };

    fn clone(&self) -> Result<PendingPage, AllocError> {
        let head = self.head;
        let processes = cloned(self.processes.allocator(), self.processes.as_slice())?;
        Ok(PendingPage { head, processes })
    }
}

/// A copy of `statuses`, in newly allocated memory.
fn cloned(alloc: Global, statuses: &[PendingStatus]) -> Result<Listed<PendingStatus>, AllocError>
    ensures { IfOk result (λ all. all ≡ statuses.now) }
{
    let mut all = Vec::with_capacity(alloc, statuses.len())?;
    for status in statuses {
        all.push(status.clone()?)?;
    }
    Ok(Listed::new(all))
}

/// Adds to `out` the text of a page of pending operations.
pub(crate) fn push_pending(out: &mut Vec<u8>, session: u32, page: &PendingPage) -> Pushed
    ensures { OnOk result (out.new.items ≡ out.old.items ++ spec.pending_text session page.now) }
{
    push_head(out, session, "pending", &page.head)?;
    push_lines(out, page.processes.as_slice())
}

/// For each process, in order: the operation it has pending, as frames, and whether it has stopped.
pub(crate) fn pending_statuses<R: Register>(
    alloc: Global,
    config: &Config<R>,
) -> Result<Listed<PendingStatus>, AllocError>
    ensures { IfOk result
        (λ all. all ≡ spec.pending_statuses (R.behaviour config.now.register) config.now) }
{
    let mut all = Vec::new(alloc);
    for p in 0..config.register().processes() {
        all.push(pending_status_at(alloc, config, p)?)?;
    }
    Ok(Listed::new(all))
}

/// The operation that process `p` has pending, as frames, and whether the process has stopped.
fn pending_status_at<R: Register>(
    alloc: Global,
    config: &Config<R>,
    p: u32,
) -> Result<PendingStatus, AllocError>
    ensures { IfOk result
        (λ s. s ≡ spec.pending_status_at (R.behaviour config.now.register) config.now p) }
{
    let stopped = config.stopped(p);
    let frames = match config.stack(alloc, p) {
        None => None,
        Some(stack) => {
            let frames = Vec::from_slice(alloc, stack.as_slice())?;
            Some(Listed::new(frames))
        }
    };
    Ok(PendingStatus { frames, stopped })
}

/// The line shows the pending operation as frames; `p` is the number of the process.
impl Line for PendingStatus {
    ghost line = { spec.pending_status_line };

    fn push_line(&self, out: &mut Vec<u8>, p: usize) -> Pushed {
        match &self.frames {
            None => push_idle(out, p, self.stopped),
            Some(frames) => push_frames_line(out, p, frames.as_slice(), self.stopped),
        }
    }
}

/// Adds the line of a process that has an operation pending, which is shown as frames.
fn push_frames_line(out: &mut Vec<u8>, p: usize, frames: &[Frame], stopped: bool) -> Pushed
    ensures { OnOk result (out.new.items ≡ out.old.items ++ spec.frames_line p frames.now stopped) }
{
    push_process_number(out, p)?;
    push_frames(out, frames)?;
    push_text(out, stopped_text(stopped))?;
    push_text(out, "\n")
}

/// Adds frames, outermost first.
fn push_frames(out: &mut Vec<u8>, frames: &[Frame]) -> Pushed
    ensures { OnOk result (out.new.items ≡ out.old.items ++ spec.frames_text frames.now) }
{
    let Some((outermost, inner)) = frames.split_first() else {
        return Ok(());
    };
    push_frame(out, *outermost)?;
    for frame in inner {
        push_inner_frame(out, *frame)?;
    }
    Ok(())
}

/// Adds a frame that isn't the outermost.
fn push_inner_frame(out: &mut Vec<u8>, frame: Frame) -> Pushed
    ensures { OnOk result (out.new.items ≡ out.old.items ++ spec.inner_frame frame) }
{
    push_text(out, " > ")?;
    push_frame(out, frame)
}

/// Adds a frame.
fn push_frame(out: &mut Vec<u8>, frame: Frame) -> Pushed
    ensures { OnOk result (out.new.items ≡ out.old.items ++ spec.frame_text frame) }
{
    push_frame_name(out, frame.layer)?;
    push_text(out, " ")?;
    push_frame_op(out, frame.layer, frame.op, frame.x)?;
    push_frame_rest(out, frame.layer, frame.i, frame.x)
}

/// Adds the operation of a frame. The text of a write has a number: the code `x` if the layer is
/// `Stamped`, else the write's value.
fn push_frame_op(out: &mut Vec<u8>, layer: FrameLayer, op: Op, x: u32) -> Pushed
    ensures { OnOk result (out.new.items ≡ out.old.items ++ spec.frame_op layer op x) }
{
    match op {
        Op::Write(v) => {
            let written = if layer == FrameLayer::Stamped { x } else { v };
            push_labelled(out, "w ", u64::from(written))
        }
        Op::Read => push_text(out, "r"),
    }
}

/// Adds what follows the operation in a frame's text.
fn push_frame_rest(out: &mut Vec<u8>, layer: FrameLayer, i: u32, x: u32) -> Pushed
    ensures { OnOk result (out.new.items ≡ out.old.items ++ spec.frame_rest layer i x) }
{
    match layer {
        FrameLayer::Safe | FrameLayer::Copies | FrameLayer::Unary => {
            push_labelled(out, " ", u64::from(i))
        }
        FrameLayer::Regular | FrameLayer::Stamped => Ok(()),
        FrameLayer::MatrixRead => push_two_numbers(out, " read ", i, x),
        FrameLayer::MatrixWrite => push_two_numbers(out, " write ", i, x),
        FrameLayer::Named(_) => push_two_numbers(out, " ", i, x),
    }
}

/// Adds what follows the operation in the text of a frame with two numbers: `phase`, `i` and `x`.
/// For a matrix, `i` is the number of the part in use within the column being read or the row being
/// written. In the phase `read`, `x` is the greatest code read so far, at first 0. In the phase
/// `write`, `x` is the code being written. A construction that names itself has no phase.
fn push_two_numbers(out: &mut Vec<u8>, phase: &str, i: u32, x: u32) -> Pushed
    ensures { OnOk result (out.new.items ≡ out.old.items
        ++ phase.now ++ decimal i ++ after_space x) }
{
    push_labelled(out, phase, u64::from(i))?;
    push_labelled(out, " ", u64::from(x))
}
