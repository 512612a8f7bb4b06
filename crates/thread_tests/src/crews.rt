//! Tests of crews at work on jobs of a plan, on jobs that square numbers, and on jobs that run out
//! of memory: which threads run the jobs, how often, and which offers a gate gets. No contract
//! covers this.

ghost use Rattle.std.specs.Prelude.{◌≤◌, IfOk};
ghost use Rattle.frames.specs.SafeBit.{safe_behaviour};
ghost use Rattle.schedule_trie.specs.Trie.{AreLimits};

use crate::desks::name;
use checkpoints::run::Run;
use cutoff::chart::Chart;
use cutoff::plan;
use frames::safe::Safe;
use frames::types::Step;
use schedule_trie::limits::Limits;
use schedule_trie::refusal::Refusal;
use schedule_trie::trie::SegKey;
use std::alloc::{AllocError, Global};
use std::process::Abort;
use std::sync::atomic::{AtomicU64, Ordering};
use std::sync::{Arc, Wait};
use std::test::Fail;
use std::thread;
use std::thread::Threads;
use workers::Crew;
use workers::gate::{Gate, NoGate};
use workers::job::{Done, JobOutcome, Runnable};

/// A job that squares a number. Without a number it fails as if memory had run out.
#[derive(Drop)]
struct Square {
    key: char,
    number: Option<u64>,
}

impl Runnable for Square {
    type Key = char;

    type Run = u64;

    ghost use Rattle.std.specs.Prelude.{◌≡◌, ◌*◌, IfSome};

    ghost named = { λ job. job.key };

    ghost gives = { λ job square. IfSome job.number (λ n. square ≡ n * n) };

    fn key(&self) -> char {
        self.key
    }

    fn into_run(self, _alloc: Global) -> Result<u64, AllocError> {
        match self.number {
            Some(number) => number.checked_mul(number).ok_or(AllocError),
            None => Err(AllocError),
        }
    }
}

/// The most iterations of a loop for which an offer is held.
const ITERATIONS: u32 = 1 << 24;

/// A gate that holds offer 0 until offer 1 has come, and offer 1 until offer 0 has come, each for
/// at most `ITERATIONS` iterations.
#[derive(Drop)]
struct Meeting {
    came: [AtomicU64; 2],
    met: [AtomicU64; 2],
}

impl Meeting {
    fn new() -> Meeting {
        Meeting {
            came: [AtomicU64::new(0), AtomicU64::new(0)],
            met: [AtomicU64::new(0), AtomicU64::new(0)],
        }
    }

    /// Whether the two offers met before the limit.
    fn both_met(&self) -> bool {
        self.met[0].load(Ordering::SeqCst) == 1 && self.met[1].load(Ordering::SeqCst) == 1
    }
}

impl<W: Wait> Gate<W> for Meeting {
    fn offer(&self, _rt: &W, index: usize) {
        if index > 1 {
            return;
        }
        self.came[index].store(1, Ordering::SeqCst);
        for _ in 0..ITERATIONS {
            if self.came[1 - index].load(Ordering::SeqCst) == 1 {
                self.met[index].store(1, Ordering::SeqCst);
                return;
            }
            thread::yield_now();
        }
    }
}

/// A gate that counts the offers of each job.
#[derive(Drop)]
struct Counts {
    offers: Vec<AtomicU64>,
}

impl<W: Wait> Gate<W> for Counts {
    fn offer(&self, _rt: &W, index: usize) {
        if let Some(offers) = self.offers.get(index) {
            offers.fetch_add(1, Ordering::SeqCst);
        }
    }
}

const READ: Step = Step::Read { p: 1 };

const WRITE: Step = Step::Write { p: 0, v: 1 };

/// Limits that allow two branches of one step each.
fn small_limits() -> Limits
    ensures { AreLimits result }
{
    Limits {
        cells: 16,
        branches: 2,
        log: 16,
    }
}

/// A chart on a safe bit, with a read on `main`. Unlike that of `Chart::new`, this contract
/// promises nothing about the chart.
fn chart_of_read(alloc: Global) -> Result<Chart<Safe>, Refusal> {
    Chart::new(alloc, Safe, 0, small_limits(), &[READ])
}

/// Forks `a` from the beginning of `main`.
fn fork_a(rt: &impl Abort, alloc: Global, chart: &mut Chart<Safe>) -> Result<(), Refusal> {
    chart.fork(alloc, &name(rt, b"main"), 0, name(rt, b"a"))
}

/// Gives `a` a write as its first step.
fn write_on_a(rt: &impl Abort, alloc: Global, chart: &mut Chart<Safe>) -> Result<(), Refusal> {
    chart.insert(alloc, &name(rt, b"a"), 0, WRITE)
}

/// Forks `a` with a write, and plans the chart.
fn plan_of_fork(
    rt: &impl Abort,
    alloc: Global,
    chart: &mut Chart<Safe>,
) -> Result<Vec<plan::Job<Safe>>, Refusal> {
    fork_a(rt, alloc, chart)?;
    write_on_a(rt, alloc, chart)?;
    chart.plan(alloc, &name(rt, b"main"))
}

/// The plan of a chart on a safe bit, with a read on `main` and a write on `a`. It has a job for
/// each branch, from the initial state.
fn plan_of_two(rt: &impl Abort, alloc: Global) -> Result<Vec<plan::Job<Safe>>, Refusal> {
    let mut chart = chart_of_read(alloc)?;
    plan_of_fork(rt, alloc, &mut chart)
}

/// The outcome of a job of a chart, with the job's key.
type ChartJobDone = Done<SegKey, Arc<Run<Safe>>>;

/// The key of a job, and the one step of its run; `None` if there is no run, or if the run doesn't
/// have exactly one step.
fn only_step(done: &ChartJobDone) -> Option<(SegKey, Step)> {
    let JobOutcome::Ran(run) = &done.outcome else {
        return None;
    };
    match run.steps() {
        [step] => Some((done.key, *step)),
        _ => None,
    }
}

/// Runs jobs of a plan by the caller and one thief. Unlike that of `Crew::run`, this contract
/// promises nothing about the outcomes.
fn run_by_two<W: Threads + Wait + Sync>(
    rt: &W,
    alloc: Global,
    jobs: Vec<plan::Job<Safe>>,
    gate: &Meeting,
) -> Result<Vec<ChartJobDone>, AllocError> {
    Crew::run(rt, alloc, jobs, 1, gate)
}

/// The keys of a plan's two jobs, each with its one step.
fn expected_of(rt: &impl Abort, jobs: &[plan::Job<Safe>]) -> [Option<(SegKey, Step)>; 2] {
    let [read, write] = jobs else {
        panic!(rt; "the plan has no job for each branch")
    };
    [Some((read.key, READ)), Some((write.key, WRITE))]
}

/// Whether the outcomes are runs of these jobs, each of this one step.
fn have_steps(all: &[ChartJobDone], expected: [Option<(SegKey, Step)>; 2]) -> bool {
    all.iter().map(only_step).eq(expected)
}

/// Runs the jobs of a plan of two, and compares the outcomes with the jobs. The offers have to
/// meet.
fn run_plan<W: Abort + Threads + Wait + Sync>(
    rt: &W,
    alloc: Global,
    jobs: Vec<plan::Job<Safe>>,
) -> Result<(), AllocError> {
    let gate = Meeting::new();
    let expected = expected_of(rt, &jobs);
    let all = run_by_two(rt, alloc, jobs, &gate)?;
    assert!(rt; gate.both_met());
    assert!(rt; have_steps(&all, expected));
    Ok(())
}

/// The caller and one thief have one of two jobs each at the same time; otherwise the gate would
/// hold the first offer until its limit. A crew that ran all jobs on one thread would have the same
/// outcomes and meet each contract: only this test would fail.
#[test]
fn two_threads(rt: HostRuntime) -> Result<(), Fail> {
    let jobs = plan_of_two(&rt, rt.alloc())?;
    run_plan(&rt, rt.alloc(), jobs)?;
    Ok(())
}

/// How many letters there are.
const LETTERS: u8 = 26;

/// The letter at an index, and its place in the alphabet, counted from 1.
fn letter(index: u8) -> (char, u64) {
    let key = char::from(b'a'.wrapping_add(index));
    (key, u64::from(index).wrapping_add(1))
}

/// The number of a letter's job. The job of `q` has none, so it runs out of memory.
fn number_of(key: char, n: u64) -> Option<u64> {
    if key == 'q' { None } else { Some(n) }
}

/// The job of the letter at an index.
fn job_of(index: u8) -> Square {
    let (key, n) = letter(index);
    let number = number_of(key, n);
    Square { key, number }
}

/// A job for each letter.
fn letters(alloc: Global) -> Result<Vec<Square>, AllocError> {
    let mut jobs = Vec::new(alloc);
    for index in 0..LETTERS {
        jobs.push(job_of(index))?;
    }
    Ok(jobs)
}

/// The expected outcome of the job of the letter at an index.
fn outcome_of(index: u8) -> Done<char, u64> {
    let (key, n) = letter(index);
    let outcome = if key == 'q' {
        JobOutcome::NoMemory
    } else {
        JobOutcome::Ran(n.wrapping_mul(n))
    };
    Done { key, outcome }
}

/// The expected outcomes of the letters' jobs.
fn squared_letters(alloc: Global) -> Result<Vec<Done<char, u64>>, AllocError> {
    let mut all = Vec::new(alloc);
    for index in 0..LETTERS {
        all.push(outcome_of(index))?;
    }
    Ok(all)
}

impl Counts {
    fn new(alloc: Global, jobs: usize) -> Result<Counts, AllocError> {
        let mut offers = Vec::new(alloc);
        for _ in 0..jobs {
            offers.push(AtomicU64::new(0))?;
        }
        Ok(Counts { offers })
    }

    /// Whether a job was offered.
    fn has_offered(&self, index: usize) -> bool {
        match self.offers.get(index) {
            Some(offers) => offers.load(Ordering::SeqCst) > 0,
            None => false,
        }
    }

    /// Whether each job was offered once.
    fn each_once(&self) -> bool {
        self.offers
            .iter()
            .all(|offers| offers.load(Ordering::SeqCst) == 1)
    }
}

/// The outcomes of the letters' jobs with `thieves` thieves, and whether each job was offered once.
fn run_letters<R: Threads + Wait + Sync>(
    rt: &R,
    alloc: Global,
    thieves: u32,
) -> Result<(Vec<Done<char, u64>>, bool), AllocError>
    requires { thieves ≤ 4 }
{
    let jobs = letters(alloc)?;
    let gate = Counts::new(alloc, jobs.len())?;
    let all = Crew::run(rt, alloc, jobs, thieves, &gate)?;
    Ok((all, gate.each_once()))
}

/// The outcomes of the letters' jobs if the caller runs them alone, and whether each job was
/// offered once.
fn run_letters_alone<R: Wait>(
    rt: &R,
    alloc: Global,
) -> Result<(Vec<Done<char, u64>>, bool), AllocError> {
    let jobs = letters(alloc)?;
    let gate = Counts::new(alloc, jobs.len())?;
    let all = Crew::run_alone(rt, alloc, jobs, &gate)?;
    Ok((all, gate.each_once()))
}

/// The outcomes are the same with any number of thieves and for the caller alone, and each job is
/// offered once. A job that runs out of memory keeps its place among the others.
#[test]
fn any_number_of_thieves(rt: HostRuntime) -> Result<(), Fail> {
    let expected = squared_letters(rt.alloc())?;
    for thieves in [0, 1, 3] {
        let (all, each_once) = run_letters(&rt, rt.alloc(), thieves)?;
        assert!(rt; each_once && all.as_slice() == expected.as_slice());
    }
    let (all, each_once) = run_letters_alone(&rt, rt.alloc())?;
    assert!(rt; each_once && all.as_slice() == expected.as_slice());
    Ok(())
}

/// A job that gives a number, or runs out of memory. It counts how often it is run after its own
/// offer.
#[derive(Drop)]
struct Watched<'a> {
    index: usize,
    number: Option<u64>,
    gate: &'a Counts,
    runs: &'a AtomicU64,
}

impl Runnable for Watched<'_> {
    type Key = usize;

    type Run = u64;

    ghost named = { λ job. job.index };

    ghost gives = { λ _ _. Unit {0} };

    fn key(&self) -> usize {
        self.index
    }

    fn into_run(self, _alloc: Global) -> Result<u64, AllocError> {
        if self.gate.has_offered(self.index) {
            self.runs.fetch_add(1, Ordering::SeqCst);
        }
        self.number.ok_or(AllocError)
    }
}

/// How often, in all, three jobs are run after their own offers. The jobs give `number`, or run out
/// of memory if `number` is `None`.
fn runs_of_three<W: Threads + Wait + Sync>(
    rt: &W,
    alloc: Global,
    number: Option<u64>,
    thieves: u32,
) -> Result<u64, AllocError>
    requires { thieves ≤ 4 }
{
    let gate = Counts::new(alloc, 3)?;
    let runs = AtomicU64::new(0);
    let mut jobs = Vec::new(alloc);
    for index in 0..3usize {
        jobs.push(Watched {
            index,
            number,
            gate: &gate,
            runs: &runs,
        })?;
    }
    Crew::run(rt, alloc, jobs, thieves, &gate)?;
    Ok(runs.load(Ordering::SeqCst))
}

/// Each job is run once, after its own offer, even if it runs out of memory.
#[test]
fn each_job_runs_once_after_its_offer(rt: HostRuntime) -> Result<(), Fail> {
    for thieves in [0, 2] {
        for number in [Some(1), None] {
            let runs = runs_of_three(&rt, rt.alloc(), number, thieves)?;
            assert_eq!(rt; runs, 3);
        }
    }
    Ok(())
}

/// Without jobs there are no outcomes.
#[test]
fn no_jobs(rt: HostRuntime) -> Result<(), Fail> {
    let jobs: Vec<Square> = Vec::new(rt.alloc());
    let all = Crew::run(&rt, rt.alloc(), jobs, 1, &NoGate)?;
    assert!(rt; all.is_empty());
    Ok(())
}
