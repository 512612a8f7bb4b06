//! A crew of the caller alone.

ghost use Rattle.std.specs.Prelude.{IfOk};
ghost use Rattle.workers.specs.Outcomes.{OneForEach};

use crate::crew::Crew;
use crate::gate::Gate;
use crate::job::{Done, Runnable, run_job};
use std::alloc::{AllocError, Global};
use std::sync::Wait;

impl Crew {
    /// Runs each job in the caller's thread, and returns one outcome for each job, with the job's
    /// key, in the order of the jobs. The outcome is the job's result, or `NoMemory` if the job ran
    /// out of memory. Each job is offered to the gate before it runs. No thread is started: that
    /// needs `Threads`, which isn't asked for here.
    ///
    /// Memory for all outcomes is reserved before the first job runs; without that memory the call
    /// fails, and the jobs are dropped.
    pub fn run_alone<W: Wait, J: Runnable + Drop, G: Gate<W>>(
        rt: &W,
        alloc: Global,
        jobs: Vec<J>,
        gate: &G,
    ) -> Result<Vec<Done<J::Key, J::Run>>, AllocError>
        ensures { IfOk result (λ all. OneForEach J.named J.gives jobs.items all.items) }
    {
        let mut all = Vec::with_capacity(alloc, jobs.len())?;
        for job in jobs {
            let done = run_job(rt, alloc, gate, all.len(), job);
            all.push_reserved(done);
        }
        Ok(all)
    }
}
