//! Runs of jobs, and plans whose jobs are run and installed.

use crate::registers::switch::Switch;
use checkpoints::{Run, run_segment};
use cutoff::{Chart, Installation, Job};
use schedule_trie::{Name, Refusal, SegKey};
use sessions::Book;
use std::alloc::{AllocError, Global};
use std::sync::Arc;

/// A chart or a book: it plans jobs, and is offered their runs.
pub(crate) trait Planner {
    /// The jobs of a branch's plan.
    fn jobs(&self, alloc: Global, branch: &Name) -> Result<Vec<Job<Switch>>, Refusal>;

    /// Offers a run of the segment with this key.
    fn offer(&mut self, key: SegKey, run: Arc<Run<Switch>>) -> Installation;
}

impl Planner for Chart<Switch> {
    fn jobs(&self, alloc: Global, branch: &Name) -> Result<Vec<Job<Switch>>, Refusal> {
        self.plan(alloc, branch)
    }

    fn offer(&mut self, key: SegKey, run: Arc<Run<Switch>>) -> Installation {
        self.install(key, run)
    }
}

impl Planner for Book<Switch> {
    fn jobs(&self, alloc: Global, branch: &Name) -> Result<Vec<Job<Switch>>, Refusal> {
        self.plan(alloc, branch)
    }

    fn offer(&mut self, key: SegKey, run: Arc<Run<Switch>>) -> Installation {
        self.install(key, run)
    }
}

/// The run of a job.
fn run_of(alloc: Global, job: &Job<Switch>) -> Result<Arc<Run<Switch>>, AllocError> {
    let run = run_segment(alloc, &job.entry, job.steps.as_slice())?;
    Ok(Arc::new(alloc, run)?)
}

/// Runs a job, and returns whether its run was installed.
fn run_and_install(
    alloc: Global,
    planner: &mut impl Planner,
    job: &Job<Switch>,
) -> Result<bool, AllocError> {
    let run = run_of(alloc, job)?;
    Ok(planner.offer(job.key, run) == Installation::Installed)
}

/// Runs these jobs and installs their runs. Returns how many jobs there are, or `None` if a run
/// wasn't installed.
fn install_all(
    alloc: Global,
    planner: &mut impl Planner,
    jobs: &[Job<Switch>],
) -> Result<Option<usize>, Refusal> {
    let mut all = true;
    for job in jobs {
        all &= run_and_install(alloc, planner, job)?;
    }
    Ok(all.then_some(jobs.len()))
}

/// Runs all jobs of a branch's plan and installs their runs. Returns how many jobs there are, or
/// `None` if a run wasn't installed.
pub(crate) fn install_plan(
    alloc: Global,
    planner: &mut impl Planner,
    branch: &Name,
) -> Result<Option<usize>, Refusal> {
    let jobs = planner.jobs(alloc, branch)?;
    install_all(alloc, planner, jobs.as_slice())
}
