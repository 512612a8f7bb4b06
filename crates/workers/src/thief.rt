//! Thieves: each takes jobs from the caller's deque, in a thread of its own.

ghost use Rattle.std.specs.Prelude.{◌≡◌, ◌<◌, ◌≤◌, ◌-◌, [], length, vec_capacity, IfOk, OnOk, OnErr};
ghost use Rattle.crossbeam_deque.specs.Handles.{view, IsPassOf, stealer_deque, worker_deque, worker_view, SameWorker};
ghost use Rattle.workers.specs.Hands.{hand};
ghost use Rattle.workers.specs.Outcomes.{IsDoneOf};
ghost use Rattle.workers.specs.Slots.{HasRunItsJobs};

use crate::gate::Gate;
use crate::hand::{Hires, Numbered, Owner, Steals, ThiefEnd, ThiefPass};
use crate::job::{Done, Runnable, run_job};
use crossbeam_deque::Steal;
use std::alloc::{AllocError, Global};
use std::sync::Wait;

/// A job's outcome, with the job's index.
#[derive(Drop)]
pub(crate) struct Taken<D> {
    pub index: usize,
    pub done: D,
}

/// What a thief works with: its end of the deque, its pass (its right to steal), and the outcomes
/// of the jobs that it has run.
#[derive(Drop)]
pub(crate) struct Thief<J, D> {
    pub deque: ThiefEnd<J>,
    pub pass: ThiefPass<J>,
    pub ran: Vec<Taken<D>>,
}

/// A new thief, with one of the owner's parts (the owner, which is the caller's end of the deque,
/// has to have more than one) and memory reserved for the outcomes of `jobs` jobs. If memory runs
/// out, the owner keeps its parts.
pub(crate) fn hire<J: Runnable + Drop>(
    alloc: Global,
    owner: &mut Owner<J>,
    jobs: usize,
) -> Result<Thief<J, Done<J::Key, J::Run>>, AllocError>
    requires parts { 1 < (worker_view owner.old).parts }
    requires room { length (worker_view owner.old).jobs ≤ jobs }
    ensures same { SameWorker owner.old owner.new }
    ensures pass { IfOk result (λ t. IsPassOf (stealer_deque t.deque) t.pass
        × (stealer_deque t.deque ≡ worker_deque owner.old)) }
    ensures room { IfOk result (λ t. length (view t.pass).jobs ≤ vec_capacity t.ran) }
    ensures ran { IfOk result (λ t. HasRunItsJobs (IsDoneOf J.named J.gives) (view t.pass).jobs
        (view t.pass) t.ran.items) }
    ensures knows { IfOk result (λ t. (view t.pass).jobs ≡ (worker_view owner.old).jobs) }
    ensures left { let v = worker_view owner.old in OnOk result
        (worker_view owner.new ≡ hand (v.parts - 1) v.jobs v.taken) }
    ensures alone { OnErr result (worker_view owner.new ≡ worker_view owner.old) }
{
    let deque = owner.stealer()?;
    let ran = Vec::with_capacity(alloc, jobs)?;
    let pass = owner.another::<Hires>();
    Ok(Thief { deque, pass, ran })
}

/// The thief takes jobs from the deque and runs them, until the deque is empty. Returns the thief,
/// with an outcome of each job that it has taken.
pub(crate) fn steal_all<W: Wait, J: Runnable + Drop, G: Gate<W>>(
    rt: &W,
    alloc: Global,
    gate: &G,
    thief: Thief<J, Done<J::Key, J::Run>>,
) -> Thief<J, Done<J::Key, J::Run>>
    requires pass { IsPassOf (stealer_deque thief.deque) thief.pass }
    requires room { length (view thief.pass).jobs ≤ vec_capacity thief.ran }
    requires ran { HasRunItsJobs (IsDoneOf J.named J.gives) (view thief.pass).jobs
        (view thief.pass) thief.ran.items }
    ensures pass { IsPassOf (stealer_deque thief.deque) result.pass }
    ensures ran { HasRunItsJobs (IsDoneOf J.named J.gives) (view thief.pass).jobs
        (view result.pass) result.ran.items }
{
    let Thief {
        deque,
        mut pass,
        mut ran,
    } = thief;
    for _ in rt.forever() {
        match deque.steal_as::<Steals>(&mut pass) {
            Steal::Success(taken) => {
                let Numbered { index, job } = taken;
                let done = run_job(rt, alloc, gate, index, job);
                ran.push_reserved(Taken { index, done });
            }
            Steal::Retry => {}
            Steal::Empty => break,
        }
    }
    Thief { deque, pass, ran }
}
