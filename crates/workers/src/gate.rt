//! Gates, which are offered each job before it runs.

use std::sync::Wait;

/// A gate: each job is offered to it once, by the thread that is about to run the job.
pub trait Gate<W: Wait> {
    /// Offers the job with this index to the gate. The calling thread is about to run the job. The
    /// call may wait.
    fn offer(&self, rt: &W, index: usize);
}

/// A gate that does nothing.
#[derive(Clone, Copy, Debug, Drop)]
pub struct NoGate;

impl<W: Wait> Gate<W> for NoGate {
    fn offer(&self, _rt: &W, _index: usize) {}
}
