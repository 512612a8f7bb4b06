//! The crew: the caller and its thieves, which are other threads. The caller puts the jobs into a
//! deque, which is a queue that the thieves can also take from. The caller and its thieves take the
//! jobs from the deque, and run them.

ghost use Rattle.std.specs.Prelude.{◌≡◌, ◌<◌, ◌≤◌, ◌-◌, [], length, replicate, vec_capacity, None, IfOk};
ghost use denote.Param.Send.{IsSend, IsSync};
ghost use Rattle.crossbeam_deque.specs.Handles.{view, IsPassOf, stealer_deque, worker_deque, worker_flavor, worker_view};
ghost use Rattle.workers.specs.Hands.{hand, HasAllJobs};
ghost use Rattle.workers.specs.Outcomes.{IsDoneOf, OneForEach};
ghost use Rattle.workers.specs.Owner.{SameOwner};
ghost use Rattle.workers.specs.Slots.{HasRunItsJobs, IsAtWork};

use crate::gate::Gate;
use crate::hand::{ComesBack, Deals, Numbered, Owner, Pops};
use crate::job::{Done, Runnable, run_job};
use crate::slots::{Slots, into_outcomes, put, put_all};
use crate::thief::{hire, steal_all};
use std::alloc::{AllocError, Global};
use std::sync::Wait;
use std::thread;
use std::thread::Threads;

/// A crew: the caller and its thieves (other threads), which run a list of jobs together.
pub struct Crew;

/// What the caller works with: its end of the deque, and a slot for the outcome of each job.
type Workplace<J, D> = (Owner<J>, Slots<D>);

/// A new deque with these jobs, in order, and an empty slot for each.
fn deal<J: Drop, D: Drop>(alloc: Global, jobs: Vec<J>) -> Result<Workplace<J, D>, AllocError>
    ensures { IfOk result (λ workplace. (worker_flavor workplace.0 ≡ 0)
        × (worker_view workplace.0 ≡ hand 8 jobs.items [])
        × (workplace.1.items ≡ replicate (length jobs.items) None)) }
{
    let mut slots = Vec::with_capacity(alloc, jobs.len())?;
    let mut owner = Owner::fifo_as(alloc, jobs.len())?;
    for job in jobs {
        let index = slots.len();
        let Ok(()) = owner.push_as::<Deals>(Numbered { index, job }) else {
            unreachable!()
        };
        slots.push_reserved(None);
    }
    Ok((owner, slots))
}

/// The caller takes jobs from the deque and runs them, until the deque is empty. The outcomes go
/// into `slots`.
fn work<W: Wait, J: Runnable + Drop, G: Gate<W>>(
    rt: &W,
    alloc: Global,
    gate: &G,
    workplace: Workplace<J, Done<J::Key, J::Run>>,
) -> Workplace<J, Done<J::Key, J::Run>>
    requires fifo { worker_flavor workplace.0 ≡ 0 }
    requires ready { IsAtWork (IsDoneOf J.named J.gives) (worker_view workplace.0).jobs
        (worker_view workplace.0) workplace.1.items }
    ensures same { SameOwner workplace.0 result.0 }
    ensures done { IsAtWork (IsDoneOf J.named J.gives) (worker_view workplace.0).jobs
        (worker_view result.0) result.1.items }
    ensures all { HasAllJobs (worker_view result.0) }
{
    let (mut owner, mut slots) = workplace;
    while let Some(taken) = owner.pop_as::<Pops>() {
        let Numbered { index, job } = taken;
        let done = run_job(rt, alloc, gate, index, job);
        put(&mut slots, index, done);
    }
    (owner, slots)
}

/// Runs the jobs in the deque, with at most `thieves` thieves, each in a thread of its own. At the
/// end, the jobs that the thieves have taken count as the caller's, and their outcomes are in the
/// caller's slots. If there is no memory for a thief, no more thieves are used. If no thread can be
/// made for a thief, the caller does that thief's work itself, after its own; by then the deque is
/// empty.
fn work_with_thieves<R: Threads + Wait + Sync, J: Runnable + Send + Drop, G: Gate<R> + Sync>(
    rt: &R,
    alloc: Global,
    gate: &G,
    thieves: u32,
    workplace: Workplace<J, Done<J::Key, J::Run>>,
) -> Workplace<J, Done<J::Key, J::Run>>
where
    J::Key: Send,
    J::Run: Send,
    requires fifo { worker_flavor workplace.0 ≡ 0 }
    requires parts { thieves < (worker_view workplace.0).parts }
    requires ready { IsAtWork (IsDoneOf J.named J.gives) (worker_view workplace.0).jobs
        (worker_view workplace.0) workplace.1.items }
    ensures same { SameOwner workplace.0 result.0 }
    ensures done { IsAtWork (IsDoneOf J.named J.gives) (worker_view workplace.0).jobs
        (worker_view result.0) result.1.items }
{
    let (mut owner, slots) = workplace;
    if thieves == 0 {
        return work(rt, alloc, gate, (owner, slots));
    }
    let Ok(thief) = hire(alloc, &mut owner, slots.len()) else {
        return work(rt, alloc, gate, (owner, slots));
    };
    let (thief, (mut owner, mut slots)) = thread::join(
        rt,
        move ||
            requires pass { IsPassOf (stealer_deque thief.deque) thief.pass }
            requires room { length (view thief.pass).jobs ≤ vec_capacity thief.ran }
            requires ran { HasRunItsJobs (IsDoneOf J.named J.gives) (view thief.pass).jobs
                (view thief.pass) thief.ran.items }
            ensures { IsPassOf (stealer_deque thief.deque) result.pass
                × HasRunItsJobs (IsDoneOf J.named J.gives) (view thief.pass).jobs
                (view result.pass) result.ran.items }
        { steal_all(rt, alloc, gate, thief) },
        move ||
            requires sync { IsSync R.row × IsSend J.row × IsSync G.row × IsSend J.Key.row
                × IsSend J.Run.row }
            requires fifo { worker_flavor owner ≡ 0 }
            requires parts { (0 < thieves) × (thieves - 1 < (worker_view owner).parts) }
            requires ready { IsAtWork (IsDoneOf J.named J.gives) (worker_view owner).jobs
                (worker_view owner) slots.items }
            ensures { SameOwner owner result.0 × IsAtWork (IsDoneOf J.named J.gives)
                (worker_view owner).jobs (worker_view result.0) result.1.items }
        { work_with_thieves(rt, alloc, gate, thieves - 1, (owner, slots)) },
    );
    owner.absorb::<ComesBack>(thief.pass);
    put_all(&mut slots, thief.ran);
    (owner, slots)
}

/// How many thieves to use: `thieves`, or the number of jobs less one if that is less (0 if there
/// are no jobs). More threads than jobs aren't needed, and the caller is one of the threads.
fn needed(thieves: u32, jobs: usize) -> u32
    ensures { result ≤ thieves }
{
    if (thieves as usize) < jobs {
        thieves
    } else {
        jobs.saturating_sub(1) as u32
    }
}

impl Crew {
    /// Runs each job once, and returns one outcome for each job, with the job's key, in the order
    /// of the jobs. The outcome is the job's result, or `NoMemory` if the job ran out of memory.
    /// The caller and its thieves, which are other threads, take the jobs from one deque, in order.
    /// The thread that is about to run a job first offers it to the gate.
    ///
    /// At most `thieves` thieves are used (`thieves` has to be at most 4), and at most one for each
    /// job but the first. A thief that can't be started isn't used; without thieves, the caller
    /// runs all jobs. Memory for the deque and for all outcomes is reserved before the first job
    /// runs; without that memory the call fails, and the jobs are dropped.
    pub fn run<R: Threads + Wait + Sync, J: Runnable + Send + Drop, G: Gate<R> + Sync>(
        rt: &R,
        alloc: Global,
        jobs: Vec<J>,
        thieves: u32,
        gate: &G,
    ) -> Result<Vec<Done<J::Key, J::Run>>, AllocError>
    where
        J::Key: Send,
        J::Run: Send,
        requires { thieves ≤ 4 }
        ensures { IfOk result (λ all. OneForEach J.named J.gives jobs.items all.items) }
    {
        let count = jobs.len();
        let all = Vec::with_capacity(alloc, count)?;
        let workplace = deal(alloc, jobs)?;
        let workplace = work_with_thieves(rt, alloc, gate, needed(thieves, count), workplace);
        let (_, slots) = work(rt, alloc, gate, workplace);
        Ok(into_outcomes(slots, all))
    }
}
