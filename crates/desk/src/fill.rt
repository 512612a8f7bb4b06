//! Fills: several threads replay segments that no stored run fits, without holding the desk's lock,
//! and the runs are stored before looks need them.

ghost use Rattle.std.specs.Prelude.{◌≡◌, ◌≤◌, IfOk};
ghost use Rattle.turn.specs.Histories.{OwnsItsCalls};
ghost use Rattle.turn.specs.Chairs.{view};
ghost use Rattle.desk.specs.Items.{made_under};
ghost use Rattle.desk.specs.Works.{NeedsBranch};
ghost use Rattle.desk.specs.Chairs.{IsChairOf, Reads, KeepsSeen, Filled, book_at_first};
ghost use Rattle.desk.specs.Reports.{IsSum};

use crate::desk::{Chair, Desk};
use crate::install::Install;
use crate::plan::Plan;
use crate::report::Report;
use crate::worth::thieves_for;
use checkpoints::run::Run;
use cutoff::install::Installation;
use cutoff::plan::Job;
use frames::register::Register;
use schedule_trie::name::Name;
use schedule_trie::refusal::Refusal;
use schedule_trie::trie::SegKey;
use std::alloc::{AllocError, Global};
use std::sync::{Arc, Wait};
use std::thread::Threads;
use workers::Crew;
use workers::gate::{Gate, NoGate};
use workers::job::{Done, JobOutcome};

/// The most rounds that a fill has.
const MOST_ROUNDS: u32 = 64;

/// The outcome of a job of a plan.
type Ran<R> = Done<SegKey, Arc<Run<R>>>;

/// What a fill works with: threads and memory; the branch to plan first; and, for its crew, the
/// number of thieves (threads that take jobs from the caller) and the gate, to which each job is
/// offered before it runs.
#[derive(Drop)]
struct Filling<'a, W, G> {
    rt: &'a W,
    alloc: Global,
    branch: &'a Name,
    thieves: u32,
    gate: &'a G,
}

impl<R: Register + Send + Sync> Desk<R>
where
    R::Pending: Send + Sync,
{
    /// Stores runs (replayed segments) for segments that no stored run fits, in at most 64 rounds.
    /// A round has three parts: a plan lists jobs (segments to replay), and begins with the job of
    /// `branch` if there is one; the caller and up to `thieves` other threads (at most 4) run the
    /// jobs without holding the turn, one thread for each 16,384 steps, so the caller alone if
    /// there are fewer or `thieves` is 0; then the runs are installed. The fill ends early if a
    /// plan has no job, if all jobs of a round run out of memory, or if a later plan finds no such
    /// branch. The fill adds no call to the history. Afterwards the chair has seen at least the
    /// history that the first plan found. The report counts how the jobs ended.
    ///
    /// # Errors
    ///
    /// NoBranch if there is no such branch at the first plan; Memory if a plan runs out of memory,
    /// or the crew (the threads that run the jobs) does. Runs that were already installed stay.
    pub fn fill<W: Threads + Wait + Sync>(
        &self,
        rt: &W,
        alloc: Global,
        chair: &mut Chair<R>,
        branch: &Name,
        thieves: u32,
    ) -> Result<Report, Refusal>
        requires at { IsChairOf R.behaviour self.now chair.old }
        requires thieves { thieves ≤ 4 }
        ensures chair { IsChairOf R.behaviour self.now chair.new }
        ensures filled { Filled R.behaviour (book_at_first self.now) branch.now (view chair.old)
            (view chair.new) result }
        ensures sum { IfOk result IsSum }
        ensures owns { OwnsItsCalls made_under (view chair.new) }
    {
        self.fill_with(rt, alloc, chair, branch, thieves, &NoGate)
    }

    /// Does what `fill` does. Also, before a thread runs a job, it offers the job to `gate`; it
    /// doesn't hold the turn then. The gate may wait, and may take the turn with another chair. The
    /// fill itself adds no call to the history. The report counts how the jobs ended.
    ///
    /// # Errors
    ///
    /// Those of `fill`.
    pub fn fill_with<W: Threads + Wait + Sync, G: Gate<W> + Sync>(
        &self,
        rt: &W,
        alloc: Global,
        chair: &mut Chair<R>,
        branch: &Name,
        thieves: u32,
        gate: &G,
    ) -> Result<Report, Refusal>
        requires at { IsChairOf R.behaviour self.now chair.old }
        requires thieves { thieves ≤ 4 }
        ensures chair { IsChairOf R.behaviour self.now chair.new }
        ensures filled { Filled R.behaviour (book_at_first self.now) branch.now (view chair.old)
            (view chair.new) result }
        ensures sum { IfOk result IsSum }
        ensures owns { OwnsItsCalls made_under (view chair.new) }
    {
        let filling = Filling {
            rt,
            alloc,
            branch,
            thieves,
            gate,
        };
        let jobs = match self.planned(&filling, chair) {
            Ok(jobs) => jobs,
            Err(refusal) => return Err(refusal),
        };
        match self.rounds(&filling, chair, jobs) {
            Ok(report) => Ok(report),
            Err(AllocError) => Err(Refusal::Memory),
        }
    }

    /// Does a round with these jobs, and further rounds with new plans, until the fill ends.
    fn rounds<W: Threads + Wait + Sync, G: Gate<W> + Sync>(
        &self,
        filling: &Filling<'_, W, G>,
        chair: &mut Chair<R>,
        jobs: Vec<Job<R>>,
    ) -> Result<Report, AllocError>
        requires at { IsChairOf R.behaviour self.now chair.old }
        requires owns { OwnsItsCalls made_under (view chair.old) }
        requires thieves { filling.now.thieves ≤ 4 }
        ensures chair { IsChairOf R.behaviour self.now chair.new }
        ensures stays { KeepsSeen (view chair.old) (view chair.new) }
        ensures owns { OwnsItsCalls made_under (view chair.new) }
        ensures sum { IfOk result IsSum }
    {
        let outcomes = outcomes_of(filling, jobs)?;
        let mut round = self.install_all(filling.rt, chair, outcomes);
        let mut report = round;
        for _ in 1..MOST_ROUNDS {
            if round.is_idle() {
                break;
            }
            let jobs = match self.planned(filling, chair) {
                Ok(jobs) => jobs,
                Err(Refusal::NoBranch) => break,
                Err(_) => return Err(AllocError),
            };
            let outcomes = outcomes_of(filling, jobs)?;
            round = self.install_all(filling.rt, chair, outcomes);
            let Some(sum) = report.plus(round) else {
                break;
            };
            report = sum;
        }
        Ok(report)
    }
}

impl<R: Register> Desk<R> {
    /// Waits for the turn, and plans the jobs of the next round.
    fn planned<W: Wait, G>(
        &self,
        filling: &Filling<'_, W, G>,
        chair: &mut Chair<R>,
    ) -> Result<Vec<Job<R>>, Refusal>
        requires { IsChairOf R.behaviour self.now chair.old }
        ensures chair { IsChairOf R.behaviour self.now chair.new }
        ensures reads { let branch = filling.now.branch.now in
            Reads R.behaviour (book_at_first self.now) (λ _ world. NeedsBranch branch world result)
            (view chair.old) (view chair.new) }
        ensures owns { OwnsItsCalls made_under (view chair.new) }
    {
        let mut plan = Plan {
            alloc: filling.alloc,
            branch: filling.branch,
        };
        self.turn.with(filling.rt, chair, &mut plan)
    }

    /// Waits for the turn once for each outcome, to install its run, and counts how the jobs ended.
    fn install_all<W: Wait>(&self, rt: &W, chair: &mut Chair<R>, outcomes: Vec<Ran<R>>) -> Report
        requires at { IsChairOf R.behaviour self.now chair.old }
        requires owns { OwnsItsCalls made_under (view chair.old) }
        ensures chair { IsChairOf R.behaviour self.now chair.new }
        ensures stays { KeepsSeen (view chair.old) (view chair.new) }
        ensures owns { OwnsItsCalls made_under (view chair.new) }
        ensures sum { IsSum result }
    {
        let mut report = Report::new();
        for done in outcomes {
            let answer = self.install(rt, chair, done);
            report.add(answer);
        }
        report
    }

    /// Waits for the turn, and installs the run of a job; `None` if the job ran out of memory.
    fn install<W: Wait>(&self, rt: &W, chair: &mut Chair<R>, done: Ran<R>) -> Option<Installation>
        requires { IsChairOf R.behaviour self.now chair.old }
        ensures chair { IsChairOf R.behaviour self.now chair.new }
        ensures stays { KeepsSeen (view chair.old) (view chair.new) }
        ensures owns { OwnsItsCalls made_under (view chair.new) }
    {
        let Done { key, outcome } = done;
        let run = match outcome {
            JobOutcome::Ran(run) => Some(run),
            JobOutcome::NoMemory => None,
        };
        self.turn.with(rt, chair, &mut Install { key, run })
    }
}

/// Runs these jobs without holding the turn, and returns an outcome for each. Only as many threads
/// are started as the jobs' steps are worth; none for a small round.
fn outcomes_of<R: Register + Send + Sync, W: Threads + Wait + Sync, G: Gate<W> + Sync>(
    filling: &Filling<'_, W, G>,
    jobs: Vec<Job<R>>,
) -> Result<Vec<Ran<R>>, AllocError>
where
    R::Pending: Send + Sync,
    requires thieves { filling.now.thieves ≤ 4 }
{
    let Filling {
        rt,
        alloc,
        thieves,
        gate,
        ..
    } = filling;
    if jobs.is_empty() {
        return Ok(Vec::new(*alloc));
    }
    let helping = thieves_for(jobs.as_slice(), *thieves);
    if helping == 0 {
        return Crew::run_alone(*rt, *alloc, jobs, *gate);
    }
    Crew::run(*rt, *alloc, jobs, helping, *gate)
}
