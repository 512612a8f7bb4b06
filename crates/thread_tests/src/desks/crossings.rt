//! Tests of an edit that another chair makes just before a fill runs its first job.

ghost use Rattle.std.specs.Prelude.{◌≡◌, IfOk};
ghost use Rattle.frames.specs.SafeBit.{safe_behaviour};
ghost use Rattle.turn.specs.Shares.{every_share};
ghost use Rattle.turn.specs.Chairs.{view};
ghost use Rattle.desk.specs.Chairs.{IsChairOf};

use super::openings::{limits, opened_with_thousand};
use super::{READ, Tester, halves, is_text, name};
use desk::{Chair, Desk, Item, Journal, Report};
use frames::register::Register;
use frames::safe::Safe;
use frames::types::Step;
use schedule_trie::refusal::Refusal;
use sessions::command::Command;
use std::alloc::Global;
use std::marker::Model;
use std::process::Abort;
use std::sync::{Mutex, Wait};
use std::test::Fail;
use std::thread::Threads;
use turn::Counted;
use views::query::Query;
use workers::gate::Gate;

/// A chair, its desk, and whether the chair has made its edit. Contracts see only `has_edited`.
#[derive(Drop)]
struct Crossing<'a, R: Register>
where
    Journal<R>: Counted<Entry = Item<R>>,
{
    desk: &'a Desk<R>,
    chair: Chair<R>,
    has_edited: bool,
}

impl<'a, R: Register> Model for Crossing<'a, R>
where
    Journal<R>: Counted<Entry = Item<R>>,
{
    ghost use Rattle.std.specs.Prelude.{Bool};
    ghost use Rattle.desk.specs.Chairs.{IsChairOf};

    ghost Value = { Bool };

    ghost view = { λ c. c.has_edited };

    ghost invariant = { λ c. IsChairOf R.behaviour c.desk.now c.chair };
}

impl<'a, R: Register> Crossing<'a, R> {
    /// A chair that hasn't made its edit yet.
    fn new(desk: &'a Desk<R>, chair: Chair<R>) -> Crossing<'a, R>
        requires { IsChairOf R.behaviour desk.now chair }
    {
        Crossing {
            desk,
            chair,
            has_edited: false,
        }
    }

    /// Makes the edit, unless the chair has made it before.
    fn edit<W: Wait>(&mut self, rt: &W, alloc: Global, edit: &Command) {
        if self.has_edited {
            return;
        }
        self.has_edited = true;
        self.desk.act(rt, alloc, &mut self.chair, 1, None, edit);
    }
}

/// A gate at whose first offer another chair makes an edit.
#[derive(Drop)]
struct EditsOnce<'a, R: Register>
where
    Journal<R>: Counted<Entry = Item<R>>,
{
    alloc: Global,
    edit: Command,
    crossing: Mutex<Crossing<'a, R>>,
}

impl<R: Register, W: Wait> Gate<W> for EditsOnce<'_, R> {
    fn offer(&self, rt: &W, _index: usize) {
        self.crossing.lock(rt).edit(rt, self.alloc, &self.edit);
    }
}

/// A desk of one read, and its chair.
fn opened_with_read(alloc: Global) -> Result<(Desk<Safe>, Chair<Safe>), Refusal>
    ensures { IfOk result (λ r. IsChairOf (λ _. safe_behaviour) r.0 r.1
        × ((view r.1).shares ≡ every_share)) }
{
    Desk::open(alloc, Safe, 0, limits(16), &[READ])
}

/// Fills `main` by one chair. At the first offer the other chair inserts a write at the beginning.
fn filled_while_edited<R: Abort + Threads + Wait + Sync>(
    rt: &R,
    alloc: Global,
    desk: &Desk<Safe>,
    chair: &mut Chair<Safe>,
    other: Chair<Safe>,
) -> Result<Report, Refusal>
    requires { IsChairOf (λ _. safe_behaviour) desk.now chair.old
        × IsChairOf (λ _. safe_behaviour) desk.now other }
    ensures { IsChairOf (λ _. safe_behaviour) desk.now chair.new }
{
    let branch = name(rt, b"main");
    let edit = Command::Insert {
        b: branch,
        k: 0,
        step: Step::Write { p: 0, v: 0 },
    };
    let gate = EditsOnce {
        alloc,
        edit,
        crossing: Mutex::new(Crossing::new(desk, other)),
    };
    desk.fill_with(rt, alloc, chair, &branch, 0, &gate)
}

/// Whether one run came too late, one or two were installed, and none ran out of memory.
fn is_crossed(report: Report) -> bool {
    is_crossed_once(report, 1) && report.installed <= 2
}

/// The text of the page of the state after the write and the read.
const STATE_AFTER_BOTH: &[u8] =
    b"0: state main 2 of 2\n  p0 write 0 next ws 0\n  p1 read next rs 0\n  bits 0\n  words -\n";

/// Fills by one chair while the other edits, and then looks.
fn cross_and_look<R: Abort + Threads + Wait + Sync>(
    tester: &Tester<'_, R>,
    first: &mut Chair<Safe>,
    second: Chair<Safe>,
) -> Result<(), Refusal>
    requires { IsChairOf (λ _. safe_behaviour) tester.now.desk.now first.old
        × IsChairOf (λ _. safe_behaviour) tester.now.desk.now second }
{
    let report = filled_while_edited(tester.rt, tester.alloc, tester.desk, first, second)?;
    assert!(tester.rt; is_crossed(report));
    let (at, text) = tester.text_at(first, &state_at(tester.rt, 2))?;
    assert_eq!(tester.rt; at, 1);
    assert!(tester.rt; is_text(&text, STATE_AFTER_BOTH));
    Ok(())
}

/// The query for the state at a place of `main`.
fn state_at(rt: &impl Abort, place: u32) -> Query {
    Query::State {
        b: name(rt, b"main"),
        k: place,
    }
}

#[test]
fn crossing_install(rt: HostRuntime) -> Result<(), Fail> {
    let (desk, first) = opened_with_read(rt.alloc())?;
    let (mut first, second) = halves(&desk, first);
    cross_and_look(&Tester::new(&rt, rt.alloc(), &desk), &mut first, second)?;
    Ok(())
}

/// Whether one run came too late, and all others, at least `least`, were installed; so none ran out
/// of memory.
fn is_crossed_once(report: Report, least: u64) -> bool {
    let late = report.stale.wrapping_add(report.gone);
    late == 1
        && report.installed >= least
        && report.planned == report.installed.wrapping_add(1)
        && report.memory == 0
}

/// A segment whose run comes too late is planned again, and the runs of the later rounds are all
/// installed.
#[test]
fn crossing_a_long_branch(rt: HostRuntime) -> Result<(), Fail> {
    let (desk, first) = opened_with_thousand(rt.alloc(), 1024)?;
    let (mut first, second) = halves(&desk, first);
    let report = filled_while_edited(&rt, rt.alloc(), &desk, &mut first, second)?;
    assert!(rt; is_crossed_once(report, 8));
    Ok(())
}

/// Fills by one chair while the other edits. Either the report is allowed, or memory ran out.
fn cross<R: Abort + Threads + Wait + Sync>(
    tester: &Tester<'_, R>,
    first: &mut Chair<Safe>,
    second: Chair<Safe>,
)
    requires { IsChairOf (λ _. safe_behaviour) tester.now.desk.now first.old
        × IsChairOf (λ _. safe_behaviour) tester.now.desk.now second }
    ensures { IsChairOf (λ _. safe_behaviour) tester.now.desk.now first.new }
{
    match filled_while_edited(tester.rt, tester.alloc, tester.desk, first, second) {
        Ok(report) => assert!(tester.rt; report.memory <= 1),
        Err(refusal) => assert!(tester.rt; refusal == Refusal::Memory),
    }
}

/// Splits a new desk's chair. One half fills while the other edits; then the first looks.
fn cross_at<R: Abort + Threads + Wait + Sync>(tester: &Tester<'_, R>, chair: Chair<Safe>)
    requires chair { IsChairOf (λ _. safe_behaviour) tester.now.desk.now chair }
    requires every { (view chair).shares ≡ every_share }
{
    let (mut first, second) = halves(tester.desk, chair);
    cross(tester, &mut first, second);
    let (at, _) = tester.text_again(&mut first, &state_at(tester.rt, 0));
    assert!(tester.rt; at <= 1);
}

/// If memory runs out, the other chair's edit may be refused, and a run may be missing. The desk
/// still works after that.
#[test]
fn crossing_out_of_memory(rt: HostRuntime) {
    if let Ok((desk, chair)) = opened_with_read(rt.alloc()) {
        cross_at(&Tester::new(&rt, rt.alloc(), &desk), chair);
    }
}
