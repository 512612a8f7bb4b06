//! Tests of how many steps a settle replays, and that no other call of a chart makes a step. The
//! calls are data, so that only one function makes a chart.

ghost use Rattle.std.specs.Prelude.{◌<◌};
ghost use Rattle.frames.specs.SafeBit.{safe_behaviour};
ghost use Rattle.frames.specs.Recorded.{AllFit};

use super::counting::Counting;
use super::single::{KeyedRun, edit, fork, installs_first, is_of, jobs_of, keeps_only, settle};
use super::steps::{Kind, limits, step_of, writes};
use crate::given::{Branch, name, name_of, none_wrong};
use cutoff::chart::Chart;
use cutoff::plan::Job;
use frames::types::Step;
use schedule_trie::edit::Edit;
use schedule_trie::name::Name;
use schedule_trie::refusal::Refusal;
use std::alloc::Global;
use std::process::Abort;
use std::sync::atomic::{AtomicU64, Ordering};

/// What a chart is asked, and the expected result.
#[derive(Clone, Copy)]
pub(super) enum Ask {
    /// Settles the place after this number of cells. The number of steps replayed is at least the
    /// second number, and at most the third.
    Settle(u32, u32, u32),
    Replace(u32, Kind),
    Insert(u32, Kind),
    /// The branch is forked from the first cell of `main`.
    Fork,
    Drop,
    /// The plan has one job, of this step alone. The job's run is made, by one call of the
    /// register, and kept.
    Plan(Kind),
    /// The run that was kept first is offered, and is installed if this is true.
    Install(bool),
    /// The plan has this number of jobs.
    JobsLeft(usize),
}

/// What a settle is asked for: all runs, or the last one alone. It replays the same steps for both.
#[derive(Clone, Copy)]
pub(super) enum Wanted {
    All,
    Last,
}

/// A chart on a register that counts its calls, and runs that were made elsewhere. A call that runs
/// out of memory is repeated; it is made at most `tries` times.
#[derive(Drop)]
pub(super) struct Subject<'a> {
    alloc: Global,
    calls: &'a AtomicU64,
    wanted: Wanted,
    tries: u32,
    chart: Chart<Counting<'a>>,
    runs: Vec<KeyedRun<Counting<'a>>>,
}

/// The number of jobs in a plan.
fn jobs_left(alloc: Global, chart: &Chart<Counting<'_>>, branch: &Name) -> Result<usize, Refusal> {
    let jobs = jobs_of(alloc, chart, branch)?;
    Ok(jobs.len())
}

/// Keeps the run of the only job, if there is just one and it is of this step alone. Returns
/// whether it did.
fn keeps_only_of<'a>(
    alloc: Global,
    jobs: &[Job<Counting<'a>>],
    step: Step,
    runs: &mut Vec<KeyedRun<Counting<'a>>>,
) -> Result<bool, Refusal> {
    match jobs {
        [job] if is_of(job, step) => keeps_only(alloc, jobs, runs),
        _ => Ok(false),
    }
}

/// Makes the edit of a branch that is asked for; does nothing if what is asked isn't an edit.
fn make_asked_edit(
    rt: &impl Abort,
    alloc: Global,
    chart: &mut Chart<Counting<'_>>,
    branch: &Name,
    ask: Ask,
) -> Result<(), Refusal> {
    match ask {
        Ask::Replace(place, kind) => {
            edit(alloc, chart, &Edit::Replace(branch, place, step_of(kind)))
        }
        Ask::Insert(place, kind) => {
            edit(alloc, chart, &Edit::Insert(branch, place, step_of(kind)))
        }
        Ask::Fork => fork(alloc, chart, &name(rt, b"main"), *branch),
        Ask::Drop => edit(alloc, chart, &Edit::Drop(branch)),
        _ => Ok(()),
    }
}

/// A branch, and what the chart is asked about it.
pub(super) type Row = (Branch, Ask);

impl Subject<'_> {
    /// The number of steps that a settle reports as replayed.
    fn replayed(&mut self, branch: &Name, place: u32) -> Result<u32, Refusal> {
        match self.wanted {
            Wanted::All => settle(self.alloc, &mut self.chart, branch, place),
            Wanted::Last => Ok(self.chart.settle_last(self.alloc, branch, place)?.replayed),
        }
    }

    /// Makes and keeps the run of the only job in a plan, if the job is of this step alone. Returns
    /// whether it did.
    fn keeps_run(&mut self, branch: &Name, kind: Kind) -> Result<bool, Refusal> {
        let jobs = jobs_of(self.alloc, &self.chart, branch)?;
        keeps_only_of(self.alloc, &jobs, step_of(kind), &mut self.runs)
    }

    /// Settles a place. Returns whether at least `least` and at most `most` steps were replayed,
    /// and how many.
    fn settles(
        &mut self,
        branch: &Name,
        place: u32,
        least: u32,
        most: u32,
    ) -> Result<(bool, u32), Refusal> {
        let steps = self.replayed(branch, place)?;
        Ok((least <= steps && steps <= most, steps))
    }

    /// Asks the chart. Returns whether the result is the expected one, and how many steps the chart
    /// reports as replayed, or a run took.
    fn ask(&mut self, rt: &impl Abort, branch: &Name, ask: Ask) -> Result<(bool, u32), Refusal> {
        match ask {
            Ask::Settle(place, least, most) => self.settles(branch, place, least, most),
            Ask::Plan(kind) => Ok((self.keeps_run(branch, kind)?, 1)),
            Ask::Install(is_wanted) => {
                Ok((
                    installs_first(&mut self.chart, &mut self.runs) == is_wanted,
                    0,
                ))
            }
            Ask::JobsLeft(jobs) => Ok((jobs_left(self.alloc, &self.chart, branch)? == jobs, 0)),
            _ => {
                make_asked_edit(rt, self.alloc, &mut self.chart, branch, ask)?;
                Ok((true, 0))
            }
        }
    }

    /// Asks the chart. Returns whether the result is the expected one, and the register was called
    /// once for each of these steps.
    fn is_expected(&mut self, rt: &impl Abort, row: Row) -> Result<bool, Refusal> {
        let (branch, ask) = row;
        let branch = name_of(rt, self.alloc, branch);
        let before = self.calls.load(Ordering::SeqCst);
        let (is_wanted, steps) = self.ask(rt, &branch, ask)?;
        let made = self.calls.load(Ordering::SeqCst).wrapping_sub(before);
        Ok(is_wanted && made == u64::from(steps))
    }

    /// Asks as `is_expected` does, again each time that memory runs out, at most `tries` times.
    fn is_expected_at_last(&mut self, rt: &impl Abort, row: Row) -> Result<bool, Refusal> {
        for _ in 0..self.tries {
            match self.is_expected(rt, row) {
                Err(Refusal::Memory) => {}
                reported => return reported,
            }
        }
        Err(Refusal::Memory)
    }

    /// The index of the first row with a wrong result, or with a wrong number of calls.
    pub(super) fn first_wrong(
        &mut self,
        rt: &impl Abort,
        rows: &[Row],
    ) -> Result<Option<usize>, Refusal> {
        for (i, row) in rows.iter().enumerate() {
            if !self.is_expected_at_last(rt, *row)? {
                return Ok(Some(i));
            }
        }
        Ok(None)
    }
}

/// A chart of these steps, from an initial value, on a register that counts its calls in `calls`.
pub(super) fn chart_of<'a>(
    alloc: Global,
    calls: &'a AtomicU64,
    value: u32,
    steps: &[Step],
) -> Result<Chart<Counting<'a>>, Refusal>
    requires value { value < 2 }
    requires fits { AllFit safe_behaviour steps.now }
{
    Chart::new(alloc, Counting::new(calls), value, limits(), steps)
}

/// A subject for these steps, on a register that counts its calls in `calls`; Memory if there is no
/// chart after `tries` tries.
fn subject_of<'a>(
    alloc: Global,
    calls: &'a AtomicU64,
    steps: &[Step],
    wanted: Wanted,
    tries: u32,
) -> Result<Subject<'a>, Refusal>
    requires { AllFit safe_behaviour steps.now }
{
    for _ in 0..tries {
        if let Ok(chart) = chart_of(alloc, calls, 0, steps) {
            let runs = Vec::new(alloc);
            return Ok(Subject {
                alloc,
                calls,
                wanted,
                tries,
                chart,
                runs,
            });
        }
    }
    Err(Refusal::Memory)
}

/// The index of the first row that goes wrong in a chart of these steps. Each call is made at most
/// `tries` times.
pub(super) fn first_wrong_with(
    rt: &impl Abort,
    alloc: Global,
    steps: &[Step],
    wanted: Wanted,
    tries: u32,
    rows: &[Row],
) -> Result<Option<usize>, Refusal>
    requires { AllFit safe_behaviour steps.now }
{
    let calls = AtomicU64::new(0);
    let mut subject = subject_of(alloc, &calls, steps, wanted, tries)?;
    subject.first_wrong(rt, rows)
}

/// The index of the first row that goes wrong in a chart of these steps: first all runs are wanted,
/// then only the last. Each call is made once.
fn first_wrong(
    rt: &impl Abort,
    alloc: Global,
    steps: &[Step],
    rows: &[Row],
) -> Result<Option<usize>, Refusal>
    requires { AllFit safe_behaviour steps.now }
{
    match first_wrong_with(rt, alloc, steps, Wanted::All, 1, rows)? {
        Some(index) => Ok(Some(index)),
        None => first_wrong_with(rt, alloc, steps, Wanted::Last, 1, rows),
    }
}

/// Settles a chart of 1,000 steps, edits it, and settles it twice up to a place: the first time
/// `least` to `most` steps are replayed, and the second time none. Returns the index of the first
/// of these calls that goes wrong.
fn first_wrong_around(
    rt: &impl Abort,
    alloc: Global,
    edit: Ask,
    place: u32,
    least: u32,
    most: u32,
) -> Result<Option<usize>, Refusal> {
    let rows = [
        (Branch::Main, Ask::Settle(1000, 1000, 1000)),
        (Branch::Main, edit),
        (Branch::Main, Ask::Settle(place, least, most)),
        (Branch::Main, Ask::Settle(place, 0, 0)),
    ];
    let steps = writes(alloc).expect(rt, "memory");
    first_wrong(rt, alloc, &steps, &rows)
}

#[test]
fn thousand_steps(rt: HostRuntime) {
    let edit = Ask::Replace(10, Kind::Go1);
    none_wrong(&rt, first_wrong_around(&rt, rt.alloc(), edit, 1000, 1, 128));
}

/// A write of 0 is replaced by a write of 1. The next write is also of 1, and after that everything
/// is as before.
#[test]
fn rejoined_suffix(rt: HostRuntime) {
    let edit = Ask::Replace(3, Kind::Write1);
    none_wrong(&rt, first_wrong_around(&rt, rt.alloc(), edit, 1000, 1, 256));
}

/// Places at which a read is inserted into 1,000 cells, and how many steps are then replayed. The
/// read stays pending at every later place, so no later segment begins from the same configuration
/// as before: the segment with the read and all segments after it are replayed, and none before it.
/// Segments begin at 0, 128, and so on to 896. A full segment is cut into two new ones. Each step
/// makes one call.
const READS: [(u32, u32); 4] = [(0, 1001), (512, 489), (630, 489), (1000, 105)];

/// The index of the first of `READS` with which something goes wrong.
fn first_wrong_read(rt: &impl Abort, alloc: Global) -> Result<Option<usize>, Refusal> {
    for (i, (place, replayed)) in READS.iter().enumerate() {
        let edit = Ask::Insert(*place, Kind::Read);
        if first_wrong_around(rt, alloc, edit, 1001, *replayed, *replayed)?.is_some() {
            return Ok(Some(i));
        }
    }
    Ok(None)
}

#[test]
fn a_read_in_the_middle(rt: HostRuntime) {
    none_wrong(&rt, first_wrong_read(&rt, rt.alloc()));
}

/// A write and a read are settled; then the write gets another value.
#[test]
fn settles_again_what_was_edited(rt: HostRuntime) {
    let rows = [
        (Branch::Main, Ask::Settle(2, 2, 2)),
        (Branch::Main, Ask::Settle(2, 0, 0)),
        (Branch::Main, Ask::Replace(0, Kind::Write0)),
        (Branch::Main, Ask::Settle(1, 2, 2)),
        (Branch::Main, Ask::JobsLeft(0)),
    ];
    let steps = [step_of(Kind::Write1), step_of(Kind::Read)];
    none_wrong(&rt, first_wrong(&rt, rt.alloc(), &steps, &rows));
}

/// A run that was made for a dropped branch isn't installed; a run for the branch that is forked
/// next is installed.
pub(super) const LATE: [Row; 10] = [
    (Branch::A, Ask::Fork),
    (Branch::A, Ask::Insert(1, Kind::Write1)),
    (Branch::Main, Ask::Settle(1, 1, 1)),
    (Branch::A, Ask::Plan(Kind::Write1)),
    (Branch::A, Ask::Drop),
    (Branch::B, Ask::Fork),
    (Branch::B, Ask::Insert(1, Kind::Write0)),
    (Branch::B, Ask::Plan(Kind::Write0)),
    (Branch::B, Ask::Install(false)),
    (Branch::B, Ask::Install(true)),
];

/// The index of the first of these rows that goes wrong, in a chart of one read.
fn first_wrong_late(rt: &impl Abort, alloc: Global) -> Result<Option<usize>, Refusal> {
    first_wrong(rt, alloc, &[step_of(Kind::Read)], &LATE)
}

#[test]
fn late_run(rt: HostRuntime) {
    none_wrong(&rt, first_wrong_late(&rt, rt.alloc()));
}
