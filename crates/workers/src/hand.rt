//! What the caller's end of the deque of jobs, and each thief's pass (its right to steal), know of
//! the deque; and what each call on the deque guarantees.

use crossbeam_deque::protocol::{Join, Outcome, Protocol, Split};
use crossbeam_deque::{Pass, Stealer, Worker};
use std::alloc::Global;
use std::collections::LinkedList;

/// A job, with its index in the crew's list of jobs.
#[derive(Drop)]
pub(crate) struct Numbered<J> {
    pub index: usize,
    pub job: J,
}

/// A hand: what the caller's end of the deque, or a thief's pass, knows of the deque. `parts` is
/// how many of the 8 parts of the deque's ownership the hand has. If the hand has any part, `jobs`
/// are the jobs that were dealt (put into the deque). `taken` has the numbers of the jobs that the
/// hand has taken. The caller's hand has all 8 parts at first, and gives one part to each thief's
/// pass. When a pass returns, its parts and its taken jobs are added to those of the caller's hand.
/// If one hand has all 8 parts, the `taken` of each other hand is empty. For contracts alone: no
/// `Hand` is ever made.
pub(crate) struct Hand<J> {
    pub parts: u32,
    pub jobs: LinkedList<J>,
    pub taken: LinkedList<usize>,
}

/// The invariant of the deque: each job that was dealt is in the deque, or was taken once, by the
/// caller or by one thief.
pub(crate) struct Dealt;

impl<J> Protocol<Numbered<J>, Hand<J>> for Dealt {
    ghost use Rattle.std.specs.Prelude.{[]};
    ghost use Rattle.workers.specs.Hands.{hand, IsDealt};

    ghost holds = { IsDealt };

    ghost first = { hand 8 [] [] };

    ghost guest = { hand 0 [] [] };
}

/// A push: the caller puts the next job into the deque.
pub(crate) struct Deals;

impl<J> Outcome<Numbered<J>, Hand<J>> for Deals {
    ghost use Rattle.std.specs.Prelude.{◌≡◌, ◌++◌, map};
    ghost use Rattle.workers.specs.Hands.{hand};

    ghost then = { λ v items w. w ≡ hand v.parts (v.jobs ++ map (λ item. item.job) items) v.taken };
}

/// A pop: the owner (the caller's end) takes a job, or finds the deque empty. If the owner finds
/// the deque empty and has all 8 parts of the deque's ownership, it has taken each job that was
/// dealt, exactly once. After a thief's pass has returned, the jobs that it has taken count as the
/// owner's.
pub(crate) struct Pops;

impl<J> Outcome<Numbered<J>, Hand<J>> for Pops {
    ghost use Rattle.workers.specs.Hands.{HasTaken, HasAllJobs};

    ghost then = { HasTaken };

    ghost empty = { HasAllJobs };
}

/// A steal: a thief takes a job with its pass.
pub(crate) struct Steals;

impl<J> Outcome<Numbered<J>, Hand<J>> for Steals {
    ghost use Rattle.workers.specs.Hands.{HasTaken};

    ghost then = { HasTaken };
}

/// The owner (the caller's end) gives one of its parts to a new thief's pass, which has taken no
/// job.
pub(crate) struct Hires;

impl<J> Split<Hand<J>> for Hires {
    ghost use Rattle.std.specs.Prelude.{◌-◌, []};
    ghost use Rattle.workers.specs.Hands.{hand};

    ghost left = { λ v. hand (v.parts - 1) v.jobs v.taken };

    ghost right = { λ v. hand 1 v.jobs [] };
}

/// A thief's pass returns to the owner, which is the end of the deque that the caller holds. The
/// owner then has the pass's parts too, and the jobs that the pass has taken count as the owner's.
pub(crate) struct ComesBack;

impl<J> Join<Hand<J>> for ComesBack {
    ghost use Rattle.std.specs.Prelude.{◌+◌, ◌++◌, []};
    ghost use Rattle.workers.specs.Hands.{hand};

    ghost both = { λ v w. hand (v.parts + w.parts) v.jobs (v.taken ++ w.taken) };

    ghost spent = { hand 0 [] [] };
}

/// The caller's end of the deque. The caller puts the jobs in here, and takes some itself.
pub(crate) type Owner<J> = Worker<Numbered<J>, Global, Hand<J>, Dealt>;

/// A thief's end of the deque, from which the thief steals jobs.
pub(crate) type ThiefEnd<J> = Stealer<Numbered<J>, Global, Hand<J>, Dealt>;

/// A thief's pass: the right to steal, and (in contracts alone) what the pass knows of the deque.
pub(crate) type ThiefPass<J> = Pass<Numbered<J>, Hand<J>>;
