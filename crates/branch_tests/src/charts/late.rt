//! Row `late-run`: a branch's page is the same right before and after the install of a run that is
//! too late; then a run that fits is installed.

use super::single::{
    KeyedRun, edit, fork_with, installs_first, jobs_of, keeps_only, settle, state_text,
};
use super::steps::{Kind, limits, step_of};
use crate::given::{name, none_wrong};
use cutoff::chart::Chart;
use frames::safe::Safe;
use schedule_trie::edit::Edit;
use schedule_trie::name::Name;
use schedule_trie::refusal::Refusal;
use std::alloc::Global;
use std::process::Abort;

/// The text of the page of `b`'s state at place 2.
const STATE: &[u8] =
    b"0: state b 2 of 2\n  p0 write 0 next ws 0\n  p1 read next rs 0\n  bits 0\n  words -\n";

/// Keeps the run of the only job in a branch's plan. Returns whether there is just one job.
fn keeps_run(
    alloc: Global,
    chart: &Chart<Safe>,
    branch: &Name,
    runs: &mut Vec<KeyedRun<Safe>>,
) -> Result<bool, Refusal> {
    let jobs = jobs_of(alloc, chart, branch)?;
    keeps_only(alloc, &jobs, runs)
}

/// Whether the page of the branch's state at place 2 has the text `STATE`.
fn is_shown(alloc: Global, chart: &mut Chart<Safe>, branch: Name) -> Result<bool, Refusal> {
    Ok(state_text(alloc, chart, branch, 2)?.as_slice() == STATE)
}

/// Keeps a run of `a`, drops `a`, forks `b` from the same cell of `main`, and gives `b` another
/// step. Returns whether `a` had just one job.
fn keeps_old_run(
    rt: &impl Abort,
    alloc: Global,
    chart: &mut Chart<Safe>,
    runs: &mut Vec<KeyedRun<Safe>>,
) -> Result<bool, Refusal> {
    let (main, a, b) = (name(rt, b"main"), name(rt, b"a"), name(rt, b"b"));
    fork_with(alloc, chart, &main, a, step_of(Kind::Write1))?;
    settle(alloc, chart, &main, 1)?;
    let is_kept = keeps_run(alloc, chart, &a, runs)?;
    edit(alloc, chart, &Edit::Drop(&a))?;
    fork_with(alloc, chart, &main, b, step_of(Kind::Write0))?;
    Ok(is_kept)
}

/// The number of the first check that fails in a chart of one read, for which no run is kept;
/// `None` if none does.
fn first_wrong_in(
    rt: &impl Abort,
    alloc: Global,
    chart: &mut Chart<Safe>,
    runs: &mut Vec<KeyedRun<Safe>>,
) -> Result<Option<usize>, Refusal> {
    let b = name(rt, b"b");
    if !keeps_old_run(rt, alloc, chart, runs)? {
        return Ok(Some(0));
    }
    if !keeps_run(alloc, chart, &b, runs)? {
        return Ok(Some(1));
    }
    if !is_shown(alloc, chart, b)? {
        return Ok(Some(2));
    }
    if installs_first(chart, runs) {
        return Ok(Some(3));
    }
    if !is_shown(alloc, chart, b)? {
        return Ok(Some(4));
    }
    Ok((!installs_first(chart, runs)).then_some(5))
}

/// The number of the first check that fails; `None` if none does.
fn first_wrong(rt: &impl Abort, alloc: Global) -> Result<Option<usize>, Refusal> {
    let mut chart = Chart::new(alloc, Safe, 0, limits(), &[step_of(Kind::Read)])?;
    let mut runs = Vec::new(alloc);
    first_wrong_in(rt, alloc, &mut chart, &mut runs)
}

#[test]
fn state_around_a_late_run(rt: HostRuntime) {
    none_wrong(&rt, first_wrong(&rt, rt.alloc()));
}
