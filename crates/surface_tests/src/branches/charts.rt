//! Charts of `Switch`, and pages of their places. Each call that promises much is in a function
//! without `ensures` clauses, so that no later proof carries what it promises.

use super::jobs::install_plan;
use super::shown::text_of_slip;
use super::{are_edited, edits, limits, name, names};
use crate::registers::READ;
use crate::registers::switch::Switch;
use cutoff::{Chart, Spot};
use frames::Config;
use schedule_trie::{Edit, Name, Refusal};
use std::alloc::{AllocError, Global};
use std::process::Abort;
use std::test::Fail;
use views::{Query, Slip};

/// A chart whose `main` is one read.
pub(crate) fn opened(alloc: Global) -> Result<Chart<Switch>, Refusal> {
    Chart::new(alloc, Switch, 0, limits(), &[READ])
}

/// Makes an edit, by the call for its kind, if its step fits.
fn make(alloc: Global, chart: &mut Chart<Switch>, edit: &Edit<'_>) -> Result<(), Refusal> {
    match *edit {
        Edit::Insert(branch, place, step) if chart.initial().fits(step) => {
            chart.insert(alloc, branch, place, step)
        }
        Edit::Replace(branch, place, step) if chart.initial().fits(step) => {
            chart.replace(branch, place, step)
        }
        Edit::Remove(branch, place) => chart.remove(branch, place),
        Edit::Fork(branch, place, name) => chart.fork(alloc, branch, place, *name),
        Edit::Detach(branch) => chart.detach(alloc, branch),
        Edit::Drop(branch) => chart.drop_branch(branch),
        _ => Err(Refusal::BadStep),
    }
}

/// Makes each edit.
fn make_all(alloc: Global, chart: &mut Chart<Switch>, names: &[Name; 3]) -> Result<(), Refusal> {
    for edit in &edits(names) {
        make(alloc, chart, edit)?;
    }
    Ok(())
}

/// A chart after all edits. The contract promises nothing, so that the tests' proofs stay small.
fn edited(alloc: Global, names: &[Name; 3]) -> Result<Chart<Switch>, Refusal> {
    let mut chart = opened(alloc)?;
    make_all(alloc, &mut chart, names)?;
    Ok(chart)
}

/// Whether the initial configuration of a chart is that of `Switch` at 0.
fn begins_at_0(alloc: Global, chart: &Chart<Switch>) -> Result<bool, AllocError> {
    let initial = Config::initial(alloc, Switch, 0)?;
    Ok(chart.initial() == &initial)
}

/// Compares what is read of branches after all edits.
fn check_branches(rt: &impl Abort, chart: &Chart<Switch>, main: &Name, a: &Name) {
    assert_eq!(rt; (chart.value(), chart.branches(), chart.made()), (0, 2, 5));
    assert_eq!(rt; (chart.len(main), chart.len(a)), (Some(3), Some(1)));
    assert!(rt; chart.cell_at(main, 0) == Some(4) && chart.place_of(main, 4) == Some(0));
    assert!(rt; chart.name_at(1) == Some(*a));
}

/// Whether `main` has the steps that all edits give it.
fn has_steps(alloc: Global, chart: &Chart<Switch>, main: &Name) -> bool {
    are_edited(&chart.path(alloc, main))
}

#[test]
fn each_reading_of_a_chart(rt: HostRuntime) -> Result<(), Fail> {
    let names = names(&rt);
    let [main, a, _] = &names;
    let chart = edited(rt.alloc(), &names)?;
    check_branches(&rt, &chart, main, a);
    assert!(rt; has_steps(rt.alloc(), &chart, main));
    assert!(rt; begins_at_0(rt.alloc(), &chart)?);
    Ok(())
}

/// Settles the end of `main`.
fn spot(alloc: Global, chart: &mut Chart<Switch>, main: &Name) -> Result<Spot<Switch>, Refusal> {
    chart.settle(alloc, main, 3)
}

/// How many steps are replayed to settle the end of `main`, and whether the spot has runs.
fn settled(alloc: Global, chart: &mut Chart<Switch>, main: &Name) -> Result<(u32, bool), Refusal> {
    let spot = spot(alloc, chart, main)?;
    Ok((spot.replayed, !spot.runs.as_slice().is_empty()))
}

#[test]
fn jobs_of_a_plan_are_installed(rt: HostRuntime) -> Result<(), Fail> {
    let names = names(&rt);
    let [main, a, _] = &names;
    let mut chart = edited(rt.alloc(), &names)?;
    assert!(rt; settled(rt.alloc(), &mut chart, main) == Ok((3, true)));
    assert!(rt; install_plan(rt.alloc(), &mut chart, a) == Ok(Some(1)));
    Ok(())
}

/// The slip of process 1 at the end of `main`.
fn slip(alloc: Global, chart: &mut Chart<Switch>, main: Name) -> Result<Slip<Switch>, Refusal> {
    let query = Query::Process {
        b: main,
        k: 3,
        p: 1,
    };
    Slip::at(alloc, chart, query)
}

/// The text of the page of process 1 at the end of `main`.
fn text(alloc: Global, chart: &mut Chart<Switch>, main: Name) -> Result<Vec<u8>, Refusal> {
    let slip = slip(alloc, chart, main)?;
    text_of_slip(alloc, &slip).or(Err(Refusal::Memory))
}

#[test]
fn slip_has_a_page(rt: HostRuntime) -> Result<(), Fail> {
    let mut chart = edited(rt.alloc(), &names(&rt))?;
    let text = text(rt.alloc(), &mut chart, name(&rt, b"main"))?;
    assert!(rt; text.as_slice() == b"0: process main 3 of 3\n  p1 idle\n".as_slice());
    Ok(())
}

/// A chart that is loaded from this chart's limbs.
fn reloaded(alloc: Global, chart: &Chart<Switch>) -> Result<Chart<Switch>, Refusal> {
    let limbs = chart.limbs(alloc)?;
    Chart::load(alloc, Switch, 0, limits(), limbs.as_slice())
}

#[test]
fn limbs_are_loaded(rt: HostRuntime) -> Result<(), Fail> {
    let chart = edited(rt.alloc(), &names(&rt))?;
    let loaded = reloaded(rt.alloc(), &chart)?;
    assert!(rt; loaded.len(&name(&rt, b"main")) == Some(3));
    Ok(())
}
