//! Jobs and their outcomes.

ghost use Rattle.std.specs.Prelude.{◌≡◌, IfOk};
ghost use Rattle.workers.specs.Outcomes.{IsDoneOf, IsOutcomeOf};

use crate::gate::Gate;
use std::alloc::{AllocError, Global};
use std::sync::Wait;

/// A job that a crew can run, in any thread. It has a key, and gives a result or runs out of
/// memory.
pub trait Runnable {
    /// The type of a job's key, which names the job.
    type Key: Drop;
    /// The type of what a job gives when it runs.
    type Run: Drop;

    /// The job's key, for contracts.
    ghost named: { Self → Self.Key };

    /// Whether the job can give this result, for contracts.
    ghost gives: { Self → Self.Run → Type 0 };

    /// The job's key.
    fn key(&self) -> Self::Key
        ensures { result ≡ named self.now };

    /// Runs the job and consumes it, so that its run may reuse the job's memory.
    fn into_run(self, alloc: Global) -> Result<Self::Run, AllocError>
        ensures { IfOk result (gives self) };
}

/// How a job ended: with a result, or out of memory.
#[derive(Debug, PartialEq, Eq, Drop)]
pub enum JobOutcome<R> {
    /// The job ran, with this result.
    Ran(R),
    /// The job ran out of memory.
    NoMemory,
}

/// How a job ended, with the job's key.
#[derive(Debug, PartialEq, Eq, Drop)]
pub struct Done<K, R> {
    pub key: K,
    pub outcome: JobOutcome<R>,
}

/// Offers the job with this index to the gate, then runs and consumes the job. Returns its outcome,
/// with its key.
pub(crate) fn run_job<W: Wait, J: Runnable, G: Gate<W>>(
    rt: &W,
    alloc: Global,
    gate: &G,
    index: usize,
    job: J,
) -> Done<J::Key, J::Run>
    ensures { IsDoneOf J.named J.gives job result }
{
    gate.offer(rt, index);
    let key = job.key();
    let outcome = outcome_of(alloc, job);
    Done { key, outcome }
}

/// Runs and consumes a job, and returns its outcome.
fn outcome_of<J: Runnable>(alloc: Global, job: J) -> JobOutcome<J::Run>
    ensures { IsOutcomeOf J.gives job result }
{
    match job.into_run(alloc) {
        Ok(run) => JobOutcome::Ran(run),
        Err(AllocError) => JobOutcome::NoMemory,
    }
}
