//! How many threads a round of a fill is worth.

ghost use Rattle.std.specs.Prelude.{◌≤◌, ◌*◌};
ghost use Rattle.desk.specs.Worth.{AreWorth, steps_of_all};

use cutoff::plan::Job;
use frames::register::Register;

/// The least number of steps for which a thread is started. To start one takes as long as some
/// thousand steps, so with fewer the caller alone is done sooner.
const STEPS_FOR_A_THREAD: usize = 1 << 14;

/// The number of thieves for a round with these jobs: one for each 16,384 steps, at most `most`.
pub(crate) fn thieves_for<R: Register>(jobs: &[Job<R>], most: u32) -> u32
    ensures few { result ≤ most }
    ensures worth { AreWorth result jobs.now }
{
    if most == 0 {
        return 0;
    }
    let worth = step_count(jobs) / STEPS_FOR_A_THREAD;
    if worth < most as usize {
        worth as u32
    } else {
        most
    }
}

/// How many steps the jobs replay, or `usize::MAX` if they are more.
fn step_count<R: Register>(jobs: &[Job<R>]) -> usize
    ensures { result ≤ steps_of_all jobs.now }
{
    let mut steps: usize = 0;
    for job in jobs {
        steps = steps.saturating_add(job.steps.as_slice().len());
    }
    steps
}
