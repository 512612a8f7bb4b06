//! A crew that runs the jobs of a plan.

ghost use Rattle.std.specs.Prelude.{◌≤◌};

use crate::branches::charts::opened;
use crate::branches::jobs::Planner;
use crate::branches::name;
use crate::registers::switch::Switch;
use checkpoints::Run;
use cutoff::Job;
use schedule_trie::{Refusal, SegKey};
use std::alloc::Global;
use std::process::Abort;
use std::sync::atomic::{AtomicU64, Ordering};
use std::sync::{Arc, Wait};
use std::test::Fail;
use std::thread::Threads;
use workers::{Crew, Done, Gate, JobOutcome, NoGate};

/// A gate that counts the offers made to it.
#[derive(Drop)]
struct Offers {
    count: AtomicU64,
}

impl<W: Wait> Gate<W> for Offers {
    fn offer(&self, _rt: &W, _index: usize) {
        self.count.fetch_add(1, Ordering::SeqCst);
    }
}

/// The jobs for a branch of one read.
fn plan_of_one(rt: &impl Abort, alloc: Global) -> Result<Vec<Job<Switch>>, Refusal> {
    let chart = opened(alloc)?;
    chart.jobs(alloc, &name(rt, b"main"))
}

/// Whether a job ran.
fn has_run(done: &Done<SegKey, Arc<Run<Switch>>>) -> bool {
    matches!(done.outcome, JobOutcome::Ran(_))
}

/// Runs the jobs of `plan_of_one`. Returns whether there is just one, and it ran.
fn one_runs<R, G>(rt: &R, alloc: Global, thieves: u32, gate: &G) -> Result<bool, Refusal>
where
    R: Abort + Threads + Wait + Sync,
    G: Gate<R> + Sync,
    requires { thieves ≤ 4 }
{
    let jobs = plan_of_one(rt, alloc)?;
    let all = Crew::run(rt, alloc, jobs, thieves, gate)?;
    Ok(all.len() == 1 && all.iter().all(has_run))
}

/// Runs the jobs of `plan_of_one` in this thread. Returns whether there is just one, and it ran.
fn one_runs_alone<R: Abort + Wait>(rt: &R, alloc: Global) -> Result<bool, Refusal> {
    let jobs = plan_of_one(rt, alloc)?;
    let all = Crew::run_alone(rt, alloc, jobs, &NoGate)?;
    Ok(all.len() == 1 && all.iter().all(has_run))
}

#[test]
fn crew_runs_each_job(rt: HostRuntime) -> Result<(), Fail> {
    let offers = Offers {
        count: AtomicU64::new(0),
    };
    assert!(rt; one_runs(&rt, rt.alloc(), 2, &offers)?);
    assert_eq!(rt; offers.count.load(Ordering::SeqCst), 1);
    assert!(rt; one_runs(&rt, rt.alloc(), 0, &NoGate)?);
    assert!(rt; one_runs_alone(&rt, rt.alloc())?);
    Ok(())
}
