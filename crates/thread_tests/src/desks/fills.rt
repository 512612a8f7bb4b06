//! Tests of fills: of a thousand steps by up to 4 thieves, of a branch that isn't there, of more
//! segments than a fill has rounds, and while another chair edits.

ghost use Rattle.std.specs.Prelude.{◌≤◌};
ghost use Rattle.frames.specs.SafeBit.{safe_behaviour};
ghost use Rattle.frames.specs.Recorded.{AllFit};
ghost use Rattle.schedule_trie.specs.Trie.{AreLimits};
ghost use Rattle.desk.specs.Chairs.{IsChairOf};

use super::openings::{opened_with_thousand, opened_with_writes, writes};
use super::side_by_side::Work;
use super::{Tester, book_of, is_text, log_and_text, name, replies_to, text_of};
use desk::{Chair, Report};
use frames::safe::Safe;
use frames::types::Step;
use schedule_trie::limits::Limits;
use schedule_trie::name::Name;
use schedule_trie::refusal::Refusal;
use sessions::book::Book;
use sessions::command::Command;
use sessions::log::Log;
use std::alloc::Global;
use std::process::Abort;
use std::sync::Wait;
use std::test::Fail;
use std::thread::Threads;
use views::lens::Lens;
use views::page::Page;
use views::query::Query;
use views::slip::Slip;

impl<R: Threads + Wait + Sync> Tester<'_, R> {
    /// Fills a branch. Unlike that of `Desk::fill`, this contract promises nothing about histories.
    pub(super) fn filled(
        &self,
        chair: &mut Chair<Safe>,
        branch: &Name,
        thieves: u32,
    ) -> Result<Report, Refusal>
        requires at { IsChairOf (λ _. safe_behaviour) self.now.desk.now chair.old }
        requires thieves { thieves ≤ 4 }
        ensures { IsChairOf (λ _. safe_behaviour) self.now.desk.now chair.new }
    {
        self.desk.fill(self.rt, self.alloc, chair, branch, thieves)
    }
}

/// The report of a fill that planned `count` jobs and installed all their runs.
pub(super) fn all_installed(count: u64) -> Report {
    Report {
        planned: count,
        installed: count,
        stale: 0,
        gone: 0,
        memory: 0,
    }
}

impl<R: Threads + Wait + Sync> Tester<'_, R> {
    /// Fills a branch, and returns whether the report has `count` jobs, all of them installed.
    fn installs(
        &self,
        chair: &mut Chair<Safe>,
        branch: &Name,
        thieves: u32,
        count: u64,
    ) -> Result<bool, Refusal>
        requires at { IsChairOf (λ _. safe_behaviour) self.now.desk.now chair.old }
        requires thieves { thieves ≤ 4 }
        ensures { IsChairOf (λ _. safe_behaviour) self.now.desk.now chair.new }
    {
        let report = self.filled(chair, branch, thieves)?;
        Ok(report == all_installed(count))
    }

    /// Fills a branch, and returns the refusal; `None` if there is a report.
    fn refused(&self, chair: &mut Chair<Safe>, branch: &Name, thieves: u32) -> Option<Refusal>
        requires at { IsChairOf (λ _. safe_behaviour) self.now.desk.now chair.old }
        requires thieves { thieves ≤ 4 }
        ensures { IsChairOf (λ _. safe_behaviour) self.now.desk.now chair.new }
    {
        self.filled(chair, branch, thieves).err()
    }
}

/// Fills a branch that isn't there, and `main` twice, at a desk of the thousand steps.
fn fill_at<R: Abort + Threads + Wait + Sync>(
    tester: &Tester<'_, R>,
    chair: &mut Chair<Safe>,
    thieves: u32,
) -> Result<(), Refusal>
    requires at { IsChairOf (λ _. safe_behaviour) tester.now.desk.now chair.old }
    requires thieves { thieves ≤ 4 }
{
    let (main, zed) = (name(tester.rt, b"main"), name(tester.rt, b"zed"));
    let missing = tester.refused(chair, &zed, thieves);
    assert!(tester.rt; missing == Some(Refusal::NoBranch));
    assert!(tester.rt; tester.installs(chair, &main, thieves, 8)?);
    assert!(tester.rt; tester.installs(chair, &main, thieves, 0)?);
    Ok(())
}

/// Fills the thousand steps with `thieves` thieves.
fn fill_thousand<R: Abort + Threads + Wait + Sync>(
    rt: &R,
    alloc: Global,
    thieves: u32,
) -> Result<(), Refusal>
    requires { thieves ≤ 4 }
{
    let (desk, mut chair) = opened_with_thousand(alloc, 1024)?;
    fill_at(&Tester::new(rt, alloc, &desk), &mut chair, thieves)
}

/// A segment has at most 128 cells, so the thousand steps have 8 segments. Each round installs the
/// run of one segment, since there is only one branch.
#[test]
fn thousand_steps(rt: HostRuntime) -> Result<(), Fail> {
    for thieves in [0, 1, 2, 4] {
        fill_thousand(&rt, rt.alloc(), thieves)?;
    }
    Ok(())
}

/// Limits that allow 66 full segments.
fn long_limits() -> Limits
    ensures { AreLimits result }
{
    Limits {
        cells: 16_384,
        branches: 1,
        log: 16,
    }
}

/// Fills 66 segments in two fills.
fn fill_long<R: Abort + Threads + Wait + Sync>(
    tester: &Tester<'_, R>,
    chair: &mut Chair<Safe>,
) -> Result<(), Refusal>
    requires { IsChairOf (λ _. safe_behaviour) tester.now.desk.now chair.old }
{
    let main = name(tester.rt, b"main");
    assert!(tester.rt; tester.installs(chair, &main, 0, 64)?);
    assert!(tester.rt; tester.installs(chair, &main, 0, 2)?);
    Ok(())
}

/// A fill ends after 64 rounds, though some segments have no run yet.
#[test]
fn sixty_four_rounds(rt: HostRuntime) -> Result<(), Fail> {
    let (desk, mut chair) = opened_with_writes(rt.alloc(), 66 * 128, long_limits())?;
    fill_long(&Tester::new(&rt, rt.alloc(), &desk), &mut chair)?;
    Ok(())
}

/// How often a filler fills. Meanwhile an editor makes `INSERTS` inserts, and then drops the
/// branch.
const FILLS: u32 = 8;

const INSERTS: u32 = 20;

/// How many pairs of a filler and an editor there are, one after the other.
const PAIRS: u32 = 100;

/// Whether a fill reported numbers that add up to the planned jobs, or was refused because the
/// branch is gone.
fn is_sum_or_gone(reported: Result<Report, Refusal>) -> bool {
    match reported {
        Ok(report) => {
            let unfit = report.stale.wrapping_add(report.gone);
            let runs = report.installed.wrapping_add(report.memory);
            report.planned == runs.wrapping_add(unfit)
        }
        Err(refusal) => refusal == Refusal::NoBranch,
    }
}

impl<R: Abort + Threads + Wait + Sync> Tester<'_, R> {
    /// Fills branch `a` over and over. Returns whether the result of each fill is one that
    /// `is_sum_or_gone` accepts.
    pub(super) fn fill_all(&self, chair: &mut Chair<Safe>) -> bool
        requires { IsChairOf (λ _. safe_behaviour) self.now.desk.now chair.old }
        ensures { IsChairOf (λ _. safe_behaviour) self.now.desk.now chair.new }
    {
        let branch = name(self.rt, b"a");
        let mut fine = true;
        for _ in 0..FILLS {
            let reported = self.filled(chair, &branch, 1);
            fine &= is_sum_or_gone(reported);
        }
        fine
    }

    /// Inserts `count` reads among cells that `a` shares with `main`, and then drops `a`. Returns
    /// whether each edit was accepted.
    pub(super) fn insert_and_drop(&self, chair: &mut Chair<Safe>, count: u32) -> bool
        requires { IsChairOf (λ _. safe_behaviour) self.now.desk.now chair.old }
        ensures { IsChairOf (λ _. safe_behaviour) self.now.desk.now chair.new }
    {
        let all = self.insert_all(chair, count);
        let branch = name(self.rt, b"a");
        self.accepts(chair, &Command::Drop { b: branch }) && all
    }
}

/// The slip of a look at a book.
fn slip_on(alloc: Global, book: &mut Book<Safe>, query: &Query) -> Result<Slip<Safe>, Refusal> {
    book.look(alloc, *query)
}

/// The page of a slip.
fn page_of(alloc: Global, slip: &Slip<Safe>) -> Result<Page, Refusal> {
    let Ok(mut lens) = Lens::new(alloc) else {
        return Err(Refusal::Memory);
    };
    slip.page(alloc, &mut lens).or(Err(Refusal::Memory))
}

/// The page of a look at a book.
fn page_on(alloc: Global, book: &mut Book<Safe>, query: &Query) -> Result<Page, Refusal> {
    let slip = slip_on(alloc, book, query)?;
    page_of(alloc, &slip)
}

/// The text of a look's page on a book.
fn text_on(alloc: Global, book: &mut Book<Safe>, query: &Query) -> Result<Vec<u8>, Refusal> {
    let page = page_on(alloc, book, query)?;
    text_of(alloc, &page)
}

/// Whether the page of a look at a book has this text.
fn shows(
    alloc: Global,
    book: &mut Book<Safe>,
    query: &Query,
    text: &[u8],
) -> Result<bool, Refusal> {
    let shown = text_on(alloc, book, query)?;
    Ok(is_text(text, &shown))
}

/// Whether a look's page has this text on a new book of these steps, after the calls of a log. Each
/// reply has to be the logged one.
pub(super) fn is_replayed(
    rt: &impl Abort,
    alloc: Global,
    steps: &[Step],
    log: &Log,
    query: &Query,
    text: &[u8],
) -> Result<bool, Refusal>
    requires { AllFit safe_behaviour steps.now }
{
    let mut book = book_of(alloc, steps)?;
    if !replies_to(alloc, &mut book, log) {
        panic!(rt; "the log is illegal")
    }
    shows(alloc, &mut book, query, text)
}

/// Whether a look's page has this text on a new book of the thousand steps, after the calls of a
/// log.
fn is_replayed_on_thousand(
    rt: &impl Abort,
    alloc: Global,
    log: &Log,
    query: &Query,
    text: &[u8],
) -> Result<bool, Refusal> {
    let Ok(steps) = writes(alloc, 1000) else {
        return Err(Refusal::Memory);
    };
    is_replayed(rt, alloc, &steps, log, query, text)
}

/// The command that forks `a` from the first 500 cells of `main`.
fn fork_in_the_middle(rt: &impl Abort) -> Command {
    Command::Fork {
        b: name(rt, b"main"),
        k: 500,
        name: name(rt, b"a"),
    }
}

/// An editor and a filler work at a new desk of the thousand steps. A book that is given the logged
/// calls has to make the same replies, and its page of the look has to have the same text.
fn fill_and_edit<R: Abort + Threads + Wait + Sync>(
    rt: &R,
    alloc: Global,
    query: &Query,
) -> Result<(), Refusal> {
    let fork = [fork_in_the_middle(rt)];
    let works = (Work::InsertsAndDrop(INSERTS), Work::Fills);
    let desk = opened_with_thousand(alloc, 1024)?;
    let Some((log, text)) = log_and_text(rt, alloc, desk, &fork, works, query)? else {
        panic!(rt; "a report, an edit or the log is missing")
    };
    assert_eq!(rt; log.as_slice().len(), 2 + INSERTS as usize);
    assert!(rt; is_replayed_on_thousand(rt, alloc, &log, query, &text)?);
    Ok(())
}

#[test]
fn fills_beside_an_editor(rt: HostRuntime) -> Result<(), Fail> {
    let query = Query::History {
        b: name(&rt, b"main"),
        k: 1000 + INSERTS,
    };
    for _ in 0..PAIRS {
        fill_and_edit(&rt, rt.alloc(), &query)?;
    }
    Ok(())
}
