//! Old runs are offered at every key of a chart whose branches are dropped and forked in turn.

ghost use Rattle.std.specs.Prelude.{◌≡◌, true};
ghost use Rattle.frames.specs.Configuration.{fits_step};
ghost use Rattle.frames.specs.SafeBit.{safe_behaviour};

use super::single::{
    KeyedRun, edit, first_run, fork_with, install, jobs_of, keep, settle, state_text,
};
use super::steps::{Kind, limits, step_of};
use crate::given::{Branch, name_of, none_wrong};
use checkpoints::run::Run;
use cutoff::chart::Chart;
use cutoff::install::Installation;
use cutoff::plan::Job;
use frames::safe::Safe;
use frames::types::Step;
use schedule_trie::edit::Edit;
use schedule_trie::name::Name;
use schedule_trie::refusal::Refusal;
use schedule_trie::trie::SegKey;
use std::alloc::Global;
use std::process::Abort;
use std::sync::Arc;

/// Runs are offered at the keys below this number. There are fewer segments than such keys.
const KEYS: SegKey = 8;

/// The segment of a branch that follows the read that all branches share: one write, of 1 or of 0.
#[derive(Clone, Copy)]
struct OwnSegment {
    key: SegKey,
    is_one: bool,
}

/// The segment that all branches share, whether a run is stored at it, and the segments of `a` and
/// `b`.
#[derive(Clone, Copy)]
struct Segments {
    shared: SegKey,
    is_settled: bool,
    a: Option<OwnSegment>,
    b: Option<OwnSegment>,
}

/// A run of a write after the read. The segment that the run was made for may be gone.
#[derive(Drop)]
struct OldRun {
    is_one: bool,
    run: Arc<Run<Safe>>,
}

/// A chart, its expected segments, and all runs that were made of its jobs.
#[derive(Drop)]
struct TestedChart {
    chart: Chart<Safe>,
    segments: Segments,
    runs: Vec<OldRun>,
}

/// A write of 1 or of 0.
fn write_of(is_one: bool) -> Step
    ensures { fits_step safe_behaviour result ≡ true }
{
    step_of(if is_one { Kind::Write1 } else { Kind::Write0 })
}

/// The expected result of installing a run of a write at `key`; `None` unless `segment` has that
/// key. `is_settled` is whether a run is stored at the shared read.
fn expected_on(
    segment: Option<OwnSegment>,
    key: SegKey,
    is_settled: bool,
    is_one: bool,
) -> Option<Installation> {
    match segment {
        Some(segment) if segment.key != key => None,
        Some(segment) if is_settled && segment.is_one == is_one => Some(Installation::Installed),
        Some(_) => Some(Installation::Stale),
        None => None,
    }
}

/// The expected result of installing a run of a write at a key: Gone if no segment has the key,
/// Installed if the key's segment is that write and a run is stored at the shared read, and
/// otherwise Stale.
fn expected_install(segments: Segments, key: SegKey, is_one: bool) -> Installation {
    let of_a = expected_on(segments.a, key, segments.is_settled, is_one);
    let of_b = expected_on(segments.b, key, segments.is_settled, is_one);
    match (of_a, of_b) {
        (Some(expected), _) | (_, Some(expected)) => expected,
        _ if key == segments.shared => Installation::Stale,
        _ => Installation::Gone,
    }
}

/// Another owner of an old run.
fn clone_of(run: &Arc<Run<Safe>>) -> Result<Arc<Run<Safe>>, Refusal> {
    Arc::try_clone(run).or(Err(Refusal::Memory))
}

/// Whether the install of an old run has the expected result at a key.
fn installs_as_expected_at(
    chart: &mut Chart<Safe>,
    segments: Segments,
    old: &OldRun,
    key: SegKey,
) -> Result<bool, Refusal> {
    let run = clone_of(&old.run)?;
    Ok(install(chart, key, run) == expected_install(segments, key, old.is_one))
}

/// Whether the install of an old run has the expected result at each key.
fn installs_as_expected(
    chart: &mut Chart<Safe>,
    segments: Segments,
    old: &OldRun,
) -> Result<bool, Refusal> {
    let mut all = true;
    for key in 0..KEYS {
        all &= installs_as_expected_at(chart, segments, old, key)?;
    }
    Ok(all)
}

/// Whether the installs of all old runs have the expected results at each key.
fn all_install_as_expected(
    chart: &mut Chart<Safe>,
    segments: Segments,
    runs: &[OldRun],
) -> Result<bool, Refusal> {
    let mut all = true;
    for old in runs {
        all &= installs_as_expected(chart, segments, old)?;
    }
    Ok(all)
}

/// The run of the first job of a branch's plan; `None` unless the job is of this write alone.
fn first_run_of(
    alloc: Global,
    chart: &Chart<Safe>,
    branch: &Name,
    write: Step,
) -> Result<Option<KeyedRun<Safe>>, Refusal> {
    let jobs = jobs_of(alloc, chart, branch)?;
    first_run(alloc, &jobs, write)
}

/// Keeps a run of a write, and returns the write's segment.
fn own_segment(
    runs: &mut Vec<OldRun>,
    is_one: bool,
    made: KeyedRun<Safe>,
) -> Result<OwnSegment, Refusal> {
    let (key, run) = made;
    keep(runs, OldRun { is_one, run })?;
    Ok(OwnSegment { key, is_one })
}

/// Forks a branch after the read, gives it a write, and keeps a run of the write. Returns the
/// write's segment; `None` if the branch's job isn't of the write alone.
fn forked(
    alloc: Global,
    tested: &mut TestedChart,
    main: &Name,
    branch: &Name,
    is_one: bool,
) -> Result<Option<OwnSegment>, Refusal> {
    let write = write_of(is_one);
    fork_with(alloc, &mut tested.chart, main, *branch, write)?;
    match first_run_of(alloc, &tested.chart, branch, write)? {
        Some(made) => Ok(Some(own_segment(&mut tested.runs, is_one, made)?)),
        None => Ok(None),
    }
}

/// The expected text of the page of `a`'s or `b`'s state after the read and its write.
fn state_of(is_a: bool, is_one: bool) -> &'static [u8] {
    match (is_a, is_one) {
        (true, false) =>
            b"0: state a 2 of 2\n  p0 write 0 next ws 0\n  p1 read next rs 0\n  bits 0\n  words -\n",
        (true, true) =>
            b"0: state a 2 of 2\n  p0 write 1 next ws 0\n  p1 read next rs 0\n  bits 0\n  words -\n",
        (false, false) =>
            b"0: state b 2 of 2\n  p0 write 0 next ws 0\n  p1 read next rs 0\n  bits 0\n  words -\n",
        (false, true) =>
            b"0: state b 2 of 2\n  p0 write 1 next ws 0\n  p1 read next rs 0\n  bits 0\n  words -\n",
    }
}

/// What is done with a chart.
#[derive(Clone, Copy)]
enum Ask {
    /// `a` or `b` is forked after the read, and gets a write of 1 or of 0.
    Forks(bool, bool),
    /// `a` or `b` is dropped.
    Drops(bool),
    /// The read is replaced by itself, so that no run is stored at it.
    Unsettles,
    /// A run is stored at the read.
    Settles,
    /// The page of `a`'s or `b`'s state has the expected text.
    Shows(bool),
}

/// Forks `a` or `b`, and returns whether the new branch has the expected job.
fn forks(
    rt: &impl Abort,
    alloc: Global,
    tested: &mut TestedChart,
    is_a: bool,
    is_one: bool,
) -> Result<bool, Refusal> {
    let main = name_of(rt, alloc, Branch::Main);
    let branch = branch_of(rt, alloc, is_a);
    let segment = forked(alloc, tested, &main, &branch, is_one)?;
    set_segment(&mut tested.segments, is_a, segment);
    Ok(segment.is_some())
}

/// The name of `a` or of `b`.
fn branch_of(rt: &impl Abort, alloc: Global, is_a: bool) -> Name {
    name_of(rt, alloc, if is_a { Branch::A } else { Branch::B })
}

/// Sets the expected segment of `a` or of `b`.
fn set_segment(segments: &mut Segments, is_a: bool, segment: Option<OwnSegment>) {
    if is_a {
        segments.a = segment;
    } else {
        segments.b = segment;
    }
}

/// Whether the page of `a`'s or `b`'s state has the expected text.
fn shows(
    rt: &impl Abort,
    alloc: Global,
    tested: &mut TestedChart,
    is_a: bool,
) -> Result<bool, Refusal> {
    let segment = if is_a {
        tested.segments.a
    } else {
        tested.segments.b
    };
    let Some(segment) = segment else {
        return Ok(false);
    };
    let text = state_text(alloc, &mut tested.chart, branch_of(rt, alloc, is_a), 2)?;
    Ok(text.as_slice() == state_of(is_a, segment.is_one))
}

/// Drops `a` or `b`.
fn drops(
    rt: &impl Abort,
    alloc: Global,
    tested: &mut TestedChart,
    is_a: bool,
) -> Result<(), Refusal> {
    let branch = branch_of(rt, alloc, is_a);
    edit(alloc, &mut tested.chart, &Edit::Drop(&branch))?;
    set_segment(&mut tested.segments, is_a, None);
    Ok(())
}

/// Replaces the read by itself.
fn unsettles(alloc: Global, tested: &mut TestedChart, main: &Name) -> Result<(), Refusal> {
    let read = Edit::Replace(main, 0, step_of(Kind::Read));
    edit(alloc, &mut tested.chart, &read)?;
    tested.segments.is_settled = false;
    Ok(())
}

/// Stores a run at the read.
fn settles(alloc: Global, tested: &mut TestedChart, main: &Name) -> Result<(), Refusal> {
    settle(alloc, &mut tested.chart, main, 1)?;
    tested.segments.is_settled = true;
    Ok(())
}

/// Does what is asked, and returns whether the result is the expected one.
fn is_expected(
    rt: &impl Abort,
    alloc: Global,
    tested: &mut TestedChart,
    ask: Ask,
) -> Result<bool, Refusal> {
    let main = name_of(rt, alloc, Branch::Main);
    match ask {
        Ask::Forks(is_a, is_one) => return forks(rt, alloc, tested, is_a, is_one),
        Ask::Shows(is_a) => return shows(rt, alloc, tested, is_a),
        Ask::Drops(is_a) => drops(rt, alloc, tested, is_a)?,
        Ask::Unsettles => unsettles(alloc, tested, &main)?,
        Ask::Settles => settles(alloc, tested, &main)?,
    }
    Ok(true)
}

/// Does what is asked. Returns whether the result is the expected one, and the installs of all old
/// runs then have the expected results at each key.
fn is_expected_with_installs(
    rt: &impl Abort,
    alloc: Global,
    tested: &mut TestedChart,
    ask: Ask,
) -> Result<bool, Refusal> {
    if !is_expected(rt, alloc, tested, ask)? {
        return Ok(false);
    }
    all_install_as_expected(&mut tested.chart, tested.segments, &tested.runs)
}

/// The index of the first of `asks` that has a wrong result, or after which the install of an old
/// run has a wrong result at some key.
fn first_wrong(
    rt: &impl Abort,
    alloc: Global,
    tested: &mut TestedChart,
    asks: &[Ask],
) -> Result<Option<usize>, Refusal> {
    for (i, ask) in asks.iter().enumerate() {
        if !is_expected_with_installs(rt, alloc, tested, *ask)? {
            return Ok(Some(i));
        }
    }
    Ok(None)
}

/// The key of the first job of a branch's plan; `None` if the plan has no job.
fn first_key(alloc: Global, chart: &Chart<Safe>, branch: &Name) -> Result<Option<SegKey>, Refusal> {
    let jobs = jobs_of(alloc, chart, branch)?;
    Ok(key_of(&jobs))
}

/// The key of the first job, if there is one.
fn key_of(jobs: &[Job<Safe>]) -> Option<SegKey> {
    match jobs.first() {
        Some(job) => Some(job.key),
        None => None,
    }
}

/// A chart of one read, without runs. Its shared segment isn't known yet.
fn new_tested_chart(alloc: Global) -> Result<TestedChart, Refusal> {
    let segments = Segments {
        shared: 0,
        is_settled: false,
        a: None,
        b: None,
    };
    Ok(TestedChart {
        chart: Chart::new(alloc, Safe, 0, limits(), &[step_of(Kind::Read)])?,
        segments,
        runs: Vec::new(alloc),
    })
}

/// The index that `first_wrong` returns for a chart of one read, without runs; 0 if the chart has
/// no job.
fn first_wrong_from(
    rt: &impl Abort,
    alloc: Global,
    tested: &mut TestedChart,
    asks: &[Ask],
) -> Result<Option<usize>, Refusal> {
    let main = name_of(rt, alloc, Branch::Main);
    let Some(shared) = first_key(alloc, &tested.chart, &main)? else {
        return Ok(Some(0));
    };
    tested.segments.shared = shared;
    first_wrong(rt, alloc, tested, asks)
}

/// What `first_wrong_from` returns for a new chart. The chart's owner makes only this call, so that
/// the proof that the chart is dropped stays small.
fn first_wrong_in_new_chart(
    rt: &impl Abort,
    alloc: Global,
    asks: &[Ask],
) -> Result<Option<usize>, Refusal> {
    let mut tested = new_tested_chart(alloc)?;
    first_wrong_from(rt, alloc, &mut tested, asks)
}

/// The branch `a`, in an `Ask`.
const A: bool = true;

/// The branch `b`, in an `Ask`.
const B: bool = false;

/// The branches `a` and `b` are dropped and forked again in turn, with the same write and with the
/// other write.
const ASKS: [Ask; 21] = [
    Ask::Settles,
    Ask::Forks(A, true),
    Ask::Forks(B, false),
    Ask::Shows(A),
    Ask::Drops(A),
    Ask::Shows(B),
    Ask::Forks(A, false),
    Ask::Shows(A),
    Ask::Drops(B),
    Ask::Forks(B, true),
    Ask::Shows(B),
    Ask::Shows(A),
    Ask::Unsettles,
    Ask::Settles,
    Ask::Drops(A),
    Ask::Forks(A, false),
    Ask::Drops(B),
    Ask::Drops(A),
    Ask::Forks(B, false),
    Ask::Forks(A, true),
    Ask::Shows(A),
];

#[test]
fn old_runs_under_every_key(rt: HostRuntime) {
    none_wrong(&rt, first_wrong_in_new_chart(&rt, rt.alloc(), &ASKS));
}
