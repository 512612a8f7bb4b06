//! A desk over `Switch`, at which two chairs work in one thread.

ghost use Rattle.std.specs.Prelude.{◌≡◌, ◌≤◌, IfOk};
ghost use Rattle.turn.specs.Shares.{every_share};
ghost use Rattle.turn.specs.Chairs.{view};
ghost use Rattle.desk.specs.Chairs.{IsChairOf};
ghost use Rattle.surface_tests.specs.Switch.{switch};

use crate::branches::shown::{text_of, text_of_slip};
use crate::branches::{limits, name};
use crate::registers::switch::Switch;
use crate::registers::{GO, READ};
use cutoff::Chart;
use desk::{Chair, Desk, Receipt, Report};
use schedule_trie::Refusal;
use sessions::{Command, Log, Reply};
use std::alloc::Global;
use std::process::Abort;
use std::sync::Wait;
use std::test::Fail;
use std::thread::Threads;
use views::{Lens, Page, Query, Slip};
use workers::NoGate;

/// A desk whose `main` is one read, and its first chair.
pub(crate) fn opened(alloc: Global) -> Result<(Desk<Switch>, Chair<Switch>), Refusal>
    ensures { IfOk result (λ r. IsChairOf (λ _. switch) r.0 r.1
        × ((view r.1).shares ≡ every_share)) }
{
    Desk::open(alloc, Switch, 0, limits(), &[READ])
}

/// An insert of the reader's bit action at the end of `main`.
fn insert(rt: &impl Abort) -> Command {
    Command::Insert {
        b: name(rt, b"main"),
        k: 1,
        step: GO,
    }
}

/// Splits a chair with half of the shares off a chair that has all of them.
fn split(desk: &Desk<Switch>, chair: &mut Chair<Switch>) -> Chair<Switch>
    requires chair { IsChairOf (λ _. switch) desk.now chair.old }
    requires every { (view chair.old).shares ≡ every_share }
    ensures { IsChairOf (λ _. switch) desk.now chair.new
        × IsChairOf (λ _. switch) desk.now result }
{
    desk.split(chair, 8)
}

/// Joins another chair to this one. This contract promises nothing about histories.
fn join(desk: &Desk<Switch>, chair: &mut Chair<Switch>, other: Chair<Switch>)
    requires { IsChairOf (λ _. switch) desk.now chair.old
        × IsChairOf (λ _. switch) desk.now other }
    ensures { IsChairOf (λ _. switch) desk.now chair.new }
{
    desk.join(chair, other);
}

/// The length of the history. Unlike that of `Desk::news`, this contract promises nothing about it.
fn news(desk: &Desk<Switch>, chair: &mut Chair<Switch>) -> u64
    requires { IsChairOf (λ _. switch) desk.now chair.old }
    ensures { IsChairOf (λ _. switch) desk.now chair.new }
{
    desk.news(chair)
}

/// A desk, with what its calls need. The contracts of its calls promise nothing about histories.
#[derive(Drop)]
pub(crate) struct Tester<'a, R> {
    rt: &'a R,
    alloc: Global,
    desk: &'a Desk<Switch>,
}

impl<'a, R> Tester<'a, R> {
    pub(crate) fn new(rt: &'a R, alloc: Global, desk: &'a Desk<Switch>) -> Tester<'a, R>
        ensures { result.desk.now ≡ desk.now }
    {
        Tester { rt, alloc, desk }
    }
}

impl<R: Abort + Wait> Tester<'_, R> {
    /// Makes the insert, guarded by edit count 0.
    fn insert_guarded(&self, chair: &mut Chair<Switch>, who: u32) -> Receipt
        requires { IsChairOf (λ _. switch) self.now.desk.now chair.old }
        ensures { IsChairOf (λ _. switch) self.now.desk.now chair.new }
    {
        self.desk
            .act(self.rt, self.alloc, chair, who, Some(0), &insert(self.rt))
    }

    /// Makes the same insert by each of two chairs, both guarded by edit count 0, and joins the
    /// chairs. Returns both receipts.
    pub(crate) fn insert_by_two(&self, chair: &mut Chair<Switch>) -> (Receipt, Receipt)
        requires at { IsChairOf (λ _. switch) self.now.desk.now chair.old }
        requires every { (view chair.old).shares ≡ every_share }
        ensures at { IsChairOf (λ _. switch) self.now.desk.now chair.new }
    {
        let mut other = split(self.desk, chair);
        let first = self.insert_guarded(chair, 0);
        let second = self.insert_guarded(&mut other, 1);
        join(self.desk, chair, other);
        (first, second)
    }

    /// The page of a look.
    fn page(&self, chair: &mut Chair<Switch>, query: Query) -> Result<Page, Refusal>
        requires { IsChairOf (λ _. switch) self.now.desk.now chair.old }
        ensures { IsChairOf (λ _. switch) self.now.desk.now chair.new }
    {
        let Ok(mut lens) = Lens::new(self.alloc) else {
            return Err(Refusal::Memory);
        };
        self.desk
            .look(self.rt, self.alloc, chair, &mut lens, query)
            .result
    }

    /// The text of a look.
    fn text(&self, chair: &mut Chair<Switch>, query: Query) -> Result<Vec<u8>, Refusal>
        requires { IsChairOf (λ _. switch) self.now.desk.now chair.old }
        ensures { IsChairOf (λ _. switch) self.now.desk.now chair.new }
    {
        let page = self.page(chair, query)?;
        text_of(self.alloc, &page).or(Err(Refusal::Memory))
    }

    /// The slip of a look.
    fn slip(&self, chair: &mut Chair<Switch>, query: Query) -> Result<Slip<Switch>, Refusal>
        requires { IsChairOf (λ _. switch) self.now.desk.now chair.old }
        ensures { IsChairOf (λ _. switch) self.now.desk.now chair.new }
    {
        let (_, slip) = self.desk.slip(self.rt, self.alloc, chair, query);
        slip
    }

    /// The text of a look, whose page is made from its slip.
    fn text_by_slip(&self, chair: &mut Chair<Switch>, query: Query) -> Result<Vec<u8>, Refusal>
        requires { IsChairOf (λ _. switch) self.now.desk.now chair.old }
        ensures { IsChairOf (λ _. switch) self.now.desk.now chair.new }
    {
        let slip = self.slip(chair, query)?;
        text_of_slip(self.alloc, &slip).or(Err(Refusal::Memory))
    }

    /// Looks at the branches twice, the second time by a slip.
    fn look_twice(&self, chair: &mut Chair<Switch>) -> Result<(), Refusal>
        requires { IsChairOf (λ _. switch) self.now.desk.now chair.old }
        ensures { IsChairOf (λ _. switch) self.now.desk.now chair.new }
    {
        let shown = self.text(chair, Query::Branches)?;
        let again = self.text_by_slip(chair, Query::Branches)?;
        assert!(self.rt;
            shown.as_slice() == b"0: branches 1 edits 1 made 2\n  main 2\n".as_slice()
        );
        assert!(self.rt; again.as_slice() == shown.as_slice());
        Ok(())
    }

    /// How many limbs are saved.
    fn count_limbs(&self, chair: &mut Chair<Switch>) -> Result<usize, Refusal>
        requires { IsChairOf (λ _. switch) self.now.desk.now chair.old }
        ensures { IsChairOf (λ _. switch) self.now.desk.now chair.new }
    {
        let saved = self.desk.limbs(self.rt, self.alloc, chair)?;
        Ok(saved.limbs.as_slice().len())
    }
}

impl<R: Abort + Threads + Wait + Sync> Tester<'_, R> {
    /// Fills `main` with one thief.
    fn fill(&self, chair: &mut Chair<Switch>) -> Result<Report, Refusal>
        requires { IsChairOf (λ _. switch) self.now.desk.now chair.old }
        ensures { IsChairOf (λ _. switch) self.now.desk.now chair.new }
    {
        let main = name(self.rt, b"main");
        self.desk.fill(self.rt, self.alloc, chair, &main, 1)
    }

    /// Fills `main` with no thief, through the gate that does nothing.
    fn fill_with_gate(&self, chair: &mut Chair<Switch>) -> Result<Report, Refusal>
        requires { IsChairOf (λ _. switch) self.now.desk.now chair.old }
        ensures { IsChairOf (λ _. switch) self.now.desk.now chair.new }
    {
        let main = name(self.rt, b"main");
        self.desk
            .fill_with(self.rt, self.alloc, chair, &main, 0, &NoGate)
    }

    /// Looks, fills twice, and saves.
    fn look_fill_and_save(&self, chair: &mut Chair<Switch>) -> Result<(), Refusal>
        requires { IsChairOf (λ _. switch) self.now.desk.now chair.old }
        ensures { IsChairOf (λ _. switch) self.now.desk.now chair.new }
    {
        self.look_twice(chair)?;
        let full = self.fill(chair)?;
        assert_eq!(self.rt; (full.planned, full.installed), (1, 1));
        let empty = self.fill_with_gate(chair)?;
        assert_eq!(self.rt; empty.planned, 0);
        assert_eq!(self.rt; self.count_limbs(chair)?, 1);
        Ok(())
    }
}

/// Closes the desk and returns its log; `None` if the chair lacks a share.
fn close(desk: Desk<Switch>, chair: Chair<Switch>) -> Option<Log>
    requires { IsChairOf (λ _. switch) desk chair }
{
    desk.close(chair).ok()
}

/// The receipt of an insert.
fn receipt(at: u64, reply: Reply) -> Receipt {
    Receipt { at, reply }
}

/// Makes each call at a desk of one read.
fn use_all<R: Abort + Threads + Wait + Sync>(tester: &Tester<'_, R>, chair: &mut Chair<Switch>)
    requires at { IsChairOf (λ _. switch) tester.now.desk.now chair.old }
    requires every { (view chair.old).shares ≡ every_share }
    ensures { IsChairOf (λ _. switch) tester.now.desk.now chair.new }
{
    let (first, second) = tester.insert_by_two(chair);
    assert!(tester.rt; first == receipt(1, Reply::Edited(1)));
    assert!(tester.rt; second == receipt(2, Reply::No(Refusal::Newer(1))));
    assert_eq!(tester.rt; news(tester.desk, chair), 2);
    assert!(tester.rt; tester.look_fill_and_save(chair).is_ok());
}

#[test]
fn each_call_of_a_desk(rt: HostRuntime) -> Result<(), Fail> {
    let (desk, mut chair) = opened(rt.alloc())?;
    use_all(&Tester::new(&rt, rt.alloc(), &desk), &mut chair);
    let Some(log) = close(desk, chair) else {
        panic!(rt; "a share is missing")
    };
    assert_eq!(rt; log.as_slice().len(), 2);
    Ok(())
}

/// A desk that is opened from the limbs of a chart of one read, and its first chair.
fn opened_from_limbs(alloc: Global) -> Result<(Desk<Switch>, Chair<Switch>), Refusal>
    ensures { IfOk result (λ r. IsChairOf (λ _. switch) r.0 r.1) }
{
    let chart = Chart::new(alloc, Switch, 0, limits(), &[READ])?;
    let limbs = chart.limbs(alloc)?;
    Desk::open_limbs(alloc, Switch, 0, limits(), limbs.as_slice())
}

#[test]
fn desk_is_opened_from_limbs(rt: HostRuntime) -> Result<(), Fail> {
    let (desk, chair) = opened_from_limbs(rt.alloc())?;
    assert!(rt; close(desk, chair).is_some_and(|log| log.as_slice().is_empty()));
    Ok(())
}
