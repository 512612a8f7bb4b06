//! The page that shows one process. Also the lines of processes: other pages have such lines too.

ghost use Rattle.std.specs.Prelude.{◌≡◌, ◌++◌, IfOk, None, OnOk, codes, decimal};
ghost use Rattle.pages.specs.page.Head.{line_end};
ghost use Rattle.pages.specs.page.Names as names;
ghost use Rattle.pages.specs.page.Process as spec;

use crate::page::head::{Head, push_head};
use crate::page::lines::Line;
use crate::page::names::kind_name;
use branch_terms::listed::Listed;
use frames::config::Config;
use frames::register::Register;
use frames::types::{Action, Op};
use std::alloc::{AllocError, Global};
use words::text::{Pushed, push_labelled, push_text};

/// Whether a process has an operation pending, which one, and whether the process has stopped.
#[derive(Clone, Copy, Debug, PartialEq, Eq)]
pub enum ProcessStatus {
    /// It has nothing pending.
    Idle { stopped: bool },
    /// It has an operation pending and hasn't stopped. `next` is the operation's next bit action.
    Busy { op: Op, next: Action },
    /// It has stopped with an operation pending.
    Stopped { op: Op },
}

/// A page that shows what one process is doing. `status` is `None` if the register has no process
/// with the number `process`.
#[derive(Clone, Copy, Debug, PartialEq, Eq)]
pub struct ProcessPage {
    pub head: Head,
    pub process: u32,
    pub status: Option<ProcessStatus>,
}

/// The page that shows what the process with the number `process` is doing in a configuration.
pub(crate) fn process_page<R: Register>(
    head: &Head,
    process: u32,
    config: &Config<R>,
) -> ProcessPage
    ensures { result
        ≡ spec.process_page (R.behaviour config.now.register) head.now process config.now }
{
    ProcessPage {
        head: *head,
        process,
        status: status_of(config, process),
    }
}

/// Adds to `out` the text of a page of one process.
pub(crate) fn push_process(out: &mut Vec<u8>, session: u32, page: &ProcessPage) -> Pushed
    ensures { OnOk result (out.new.items ≡ out.old.items ++ spec.process_text session page.now) }
{
    push_head(out, session, "process", &page.head)?;
    push_process_line(out, page.process, page.status)
}

/// What each process is doing in a configuration, in the order of the processes.
pub(crate) fn statuses<R: Register>(
    alloc: Global,
    config: &Config<R>,
) -> Result<Listed<ProcessStatus>, AllocError>
    ensures { IfOk result
        (λ all. all ≡ spec.statuses (R.behaviour config.now.register) config.now) }
{
    let mut all = Vec::new(alloc);
    for p in 0..config.register().processes() {
        all.push(status_at(config, p))?;
    }
    Ok(Listed::new(all))
}

/// The status of process `p`, or `None` if the register has no such process.
fn status_of<R: Register>(config: &Config<R>, p: u32) -> Option<ProcessStatus>
    ensures { result ≡ spec.status_of (R.behaviour config.now.register) config.now p }
{
    if p < config.register().processes() {
        Some(status_at(config, p))
    } else {
        None
    }
}

/// The status of a process.
fn status_at<R: Register>(config: &Config<R>, p: u32) -> ProcessStatus
    ensures { result ≡ spec.status_at (R.behaviour config.now.register) config.now p }
{
    let stopped = config.stopped(p);
    let Some(op) = config.op(p) else {
        return ProcessStatus::Idle { stopped };
    };
    if stopped {
        return ProcessStatus::Stopped { op };
    }
    let Some(next) = config.action(p) else {
        return ProcessStatus::Idle { stopped };
    };
    ProcessStatus::Busy { op, next }
}

/// Adds the line of process `p`, which ends in `none` if the register has no such process.
fn push_process_line(out: &mut Vec<u8>, p: u32, status: Option<ProcessStatus>) -> Pushed
    ensures { OnOk result (out.new.items ≡ out.old.items ++ spec.process_line p status) }
{
    match status {
        None => push_none(out, p),
        Some(status) => status.push_line(out, p as usize),
    }
}

/// Adds the line of a process that the register doesn't have.
fn push_none(out: &mut Vec<u8>, p: u32) -> Pushed
    ensures { OnOk result (out.new.items ≡ out.old.items ++ spec.process_line p None) }
{
    push_labelled(out, "  p", u64::from(p))?;
    push_text(out, " none\n")
}

/// The line says what the process is doing; `p` is the number of the process.
impl Line for ProcessStatus {
    ghost line = { spec.status_line };

    fn push_line(&self, out: &mut Vec<u8>, p: usize) -> Pushed {
        match *self {
            ProcessStatus::Idle { stopped } => push_idle(out, p, stopped),
            ProcessStatus::Busy { op, next } => push_busy(out, p, op, next),
            ProcessStatus::Stopped { op } => push_stopped(out, p, op),
        }
    }
}

/// Adds to `out` the line of process `p`, which has nothing pending; `stopped` says whether it has
/// stopped.
pub(crate) fn push_idle(out: &mut Vec<u8>, p: usize, stopped: bool) -> Pushed
    ensures { OnOk result (out.new.items ≡ out.old.items ++ spec.idle_line p stopped) }
{
    push_labelled(out, "  p", p as u64)?;
    push_text(out, " idle")?;
    push_text(out, stopped_text(stopped))?;
    push_text(out, "\n")
}

/// What a process's line ends with: ` stopped` if the process has stopped, else nothing.
pub(crate) fn stopped_text(stopped: bool) -> &'static str
    ensures { result.now ≡ spec.stopped_text stopped }
{
    if stopped { " stopped" } else { "" }
}

/// Adds the line of a process that has an operation pending and hasn't stopped.
fn push_busy(out: &mut Vec<u8>, p: usize, op: Op, next: Action) -> Pushed
    ensures { OnOk result (out.new.items ≡ out.old.items ++ spec.busy_line p op next) }
{
    push_process_number(out, p)?;
    push_op(out, op)?;
    push_next(out, next)
}

/// Adds to `out` the beginning of the line of process `p`: two spaces, the letter p and the number,
/// a space.
pub(super) fn push_process_number(out: &mut Vec<u8>, p: usize) -> Pushed
    ensures { OnOk result
        (out.new.items ≡ out.old.items ++ codes "  p" ++ decimal p ++ codes " ") }
{
    push_labelled(out, "  p", p as u64)?;
    push_text(out, " ")
}

/// Adds the next bit action of an operation, and the end of its line.
fn push_next(out: &mut Vec<u8>, next: Action) -> Pushed
    ensures { OnOk result (out.new.items ≡ out.old.items ++ codes " next "
        ++ names.kind_name next.kind ++ codes " " ++ decimal next.cell ++ line_end) }
{
    push_text(out, " next ")?;
    push_text(out, kind_name(next.kind))?;
    push_labelled(out, " ", u64::from(next.cell))?;
    push_text(out, "\n")
}

/// Adds the line of a process that has stopped with an operation pending.
fn push_stopped(out: &mut Vec<u8>, p: usize, op: Op) -> Pushed
    ensures { OnOk result (out.new.items ≡ out.old.items ++ spec.stopped_line p op) }
{
    push_process_number(out, p)?;
    push_op(out, op)?;
    push_text(out, " stopped\n")
}

/// Adds the text of an operation: `write` and the value for a write, `read` for a read.
pub(crate) fn push_op(out: &mut Vec<u8>, op: Op) -> Pushed
    ensures { OnOk result (out.new.items ≡ out.old.items ++ spec.op_text op) }
{
    match op {
        Op::Write(v) => push_labelled(out, "write ", u64::from(v)),
        Op::Read => push_text(out, "read"),
    }
}
