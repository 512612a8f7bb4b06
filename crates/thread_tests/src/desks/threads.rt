//! Tests of chairs on threads of their own.

ghost use Rattle.std.specs.Prelude.{◌≡◌, IfSome};
ghost use denote.Param.Send.{IsSync};
ghost use Rattle.frames.specs.SafeBit.{safe_behaviour};
ghost use Rattle.turn.specs.Shares.{every_share};
ghost use Rattle.turn.specs.Chairs.{view};
ghost use Rattle.desk.specs.Chairs.{IsChairOf};
ghost use Rattle.thread_tests.specs.Chairs.{AreChairsOf};

use super::openings::opened;
use super::side_by_side::Work;
use super::{
    Tester, asked, book_of, closed, closed_with, halves, insert_at, name, replies_to, take_in,
};
use desk::{Chair, Desk};
use frames::safe::Safe;
use schedule_trie::refusal::Refusal;
use sessions::command::Command;
use sessions::log::{Entry, Log};
use std::alloc::Global;
use std::process::Abort;
use std::sync::Wait;
use std::test::Fail;
use std::thread;
use std::thread::Threads;
use views::lens::Lens;
use views::query::Query;

impl<R: Abort + Wait> Tester<'_, R> {
    /// Inserts `count` reads, at place 0, at place 1, and so on. Returns whether each insert was
    /// accepted.
    pub(super) fn insert_all(&self, chair: &mut Chair<Safe>, count: u32) -> bool
        requires { IsChairOf (λ _. safe_behaviour) self.now.desk.now chair.old }
        ensures { IsChairOf (λ _. safe_behaviour) self.now.desk.now chair.new }
    {
        let mut all = true;
        for place in 0..count {
            all &= self.accepts(chair, &insert_at(self.rt, place));
        }
        all
    }
}

/// Two threads make `count` inserts each; then the chairs join and the desk is closed. Returns the
/// log; `None` if something went wrong.
pub(super) fn inserted_by_two<R: Abort + Threads + Wait + Sync>(
    rt: &R,
    alloc: Global,
    desk: Desk<Safe>,
    chair: Chair<Safe>,
    count: u32,
) -> Option<Log>
    requires chair { IsChairOf (λ _. safe_behaviour) desk chair }
    requires every { (view chair).shares ≡ every_share }
{
    let (first, second) = halves(&desk, chair);
    let tester = Tester::new(rt, alloc, &desk);
    let work = Work::Inserts(count);
    let (chair, all) = tester.side_by_side((first, work), (second, work));
    let log = closed(desk, chair);
    if all { log } else { None }
}

/// The place of a logged insert; `None` if the entry is another command.
fn place_of(entry: &Entry) -> Option<u32> {
    match entry.command {
        Command::Insert { k: place, .. } => Some(place),
        _ => None,
    }
}

/// Whether a chair's calls are `count` inserts, at place 0, at place 1, and so on.
fn has_inserts(log: &Log, chair: u32, count: u32) -> bool {
    let made = log.as_slice().iter().filter(|entry| entry.chair == chair);
    made.map(place_of).eq((0..count).map(Some))
}

/// The log after two threads have made 100 inserts each at a new desk; `None` if something went
/// wrong.
fn log_of_two<R: Abort + Threads + Wait + Sync>(
    rt: &R,
    alloc: Global,
) -> Result<Option<Log>, Refusal> {
    let (desk, chair) = opened(alloc, 1024)?;
    Ok(inserted_by_two(rt, alloc, desk, chair, 100))
}

/// Compares the log of two threads with their inserts.
fn insert_by_two<R: Abort + Threads + Wait + Sync>(rt: &R, alloc: Global) -> Result<(), Refusal> {
    let Some(log) = log_of_two(rt, alloc)? else {
        panic!(rt; "an insert or the log is missing")
    };
    assert_eq!(rt; log.as_slice().len(), 200);
    assert!(rt; has_inserts(&log, 0, 100) && has_inserts(&log, 1, 100));
    Ok(())
}

#[test]
fn two_threads(rt: HostRuntime) -> Result<(), Fail> {
    for _ in 0..50 {
        insert_by_two(&rt, rt.alloc())?;
    }
    Ok(())
}

/// How many rounds each of four threads makes. Such a round isn't one of a fill: it has seven
/// calls, two of which are logged.
const ROUNDS: u32 = 40;

/// Splits `shares` shares off a chair; `None` if `shares` is 0, or if no share would be left.
fn split_off(desk: &Desk<Safe>, chair: &mut Chair<Safe>, shares: u32) -> Option<Chair<Safe>>
    requires { IsChairOf (λ _. safe_behaviour) desk.now chair.old }
    ensures chair { IsChairOf (λ _. safe_behaviour) desk.now chair.new }
    ensures other { IfSome result (λ r. IsChairOf (λ _. safe_behaviour) desk.now r) }
{
    if shares == 0 || chair.shares() <= shares {
        return None;
    }
    Some(desk.split(chair, shares))
}

impl<R: Abort + Wait> Tester<'_, R> {
    /// Looks at the steps of `main`, and returns the length of the history.
    fn look_at_steps(&self, chair: &mut Chair<Safe>, lens: &mut Lens<Safe>) -> u64
        requires { IsChairOf (λ _. safe_behaviour) self.now.desk.now chair.old }
        ensures { IsChairOf (λ _. safe_behaviour) self.now.desk.now chair.new }
    {
        let branch = name(self.rt, b"main");
        self.answered(chair, lens, Query::Steps { b: branch }).at
    }

    /// The calls of one round by two chairs. The second makes an edit and asks for news; the first
    /// looks, asks for news and makes a guarded edit. Returns whether no chair got a length of the
    /// history that is less than one it got before.
    fn round_of_two(
        &self,
        chair: &mut Chair<Safe>,
        other: &mut Chair<Safe>,
        lens: &mut Lens<Safe>,
        who: u32,
    ) -> bool
        requires { IsChairOf (λ _. safe_behaviour) self.now.desk.now chair.old
            × IsChairOf (λ _. safe_behaviour) self.now.desk.now other.old }
        ensures { IsChairOf (λ _. safe_behaviour) self.now.desk.now chair.new
            × IsChairOf (λ _. safe_behaviour) self.now.desk.now other.new }
    {
        let insert = insert_at(self.rt, 0);
        let edited = self.act(other, (who, None, &insert)).at;
        let news = asked(self.desk, other);
        let seen = self.look_at_steps(chair, lens);
        let later = asked(self.desk, chair);
        let insert = insert_at(self.rt, 1);
        let guarded = self.act(chair, (who, Some(later), &insert)).at;
        edited <= news && seen <= later && later <= guarded
    }

    /// One round. A second chair is split off; both make their calls, and then the two join.
    /// Returns the result of `round_of_two`.
    fn round(&self, chair: &mut Chair<Safe>, lens: &mut Lens<Safe>, who: u32) -> bool
        requires { IsChairOf (λ _. safe_behaviour) self.now.desk.now chair.old }
        ensures { IsChairOf (λ _. safe_behaviour) self.now.desk.now chair.new }
    {
        let Some(mut other) = split_off(self.desk, chair, 2) else {
            return false;
        };
        let fine = self.round_of_two(chair, &mut other, lens, who);
        take_in(self.desk, chair, other);
        fine
    }

    /// Makes the rounds of a thread by this lens. Returns whether everything went well.
    fn rounds_by(&self, chair: &mut Chair<Safe>, lens: &mut Lens<Safe>, who: u32) -> bool
        requires { IsChairOf (λ _. safe_behaviour) self.now.desk.now chair.old }
        ensures { IsChairOf (λ _. safe_behaviour) self.now.desk.now chair.new }
    {
        let mut all = true;
        for _ in 0..ROUNDS {
            all &= self.round(chair, lens, who);
        }
        all
    }

    /// Makes the rounds of a thread. Returns whether everything went well.
    pub(super) fn rounds(&self, chair: &mut Chair<Safe>, who: u32) -> bool
        requires { IsChairOf (λ _. safe_behaviour) self.now.desk.now chair.old }
        ensures { IsChairOf (λ _. safe_behaviour) self.now.desk.now chair.new }
    {
        let Ok(mut lens) = Lens::new(self.alloc) else {
            return false;
        };
        self.rounds_by(chair, &mut lens, who)
    }
}

/// Two chairs of a desk.
type TwoChairs = (Chair<Safe>, Chair<Safe>);

/// Two chairs make the rounds of two sessions, each on a thread. Returns the chair joined from
/// them, and whether everything went well.
fn rounds_of_two<R: Abort + Threads + Wait + Sync>(
    tester: &Tester<'_, R>,
    chairs: TwoChairs,
    sessions: (u32, u32),
) -> (Chair<Safe>, bool)
    requires { AreChairsOf tester.now.desk.now chairs }
    ensures { IsChairOf (λ _. safe_behaviour) tester.now.desk.now result.0 }
{
    tester.side_by_side(
        (chairs.0, Work::Rounds(sessions.0)),
        (chairs.1, Work::Rounds(sessions.1)),
    )
}

/// Four threads make their rounds; then the chairs join and the desk is closed. Returns the log;
/// `None` if something went wrong.
fn rounds_of_four<R: Abort + Threads + Wait + Sync>(
    rt: &R,
    alloc: Global,
    desk: Desk<Safe>,
    one: TwoChairs,
    other: TwoChairs,
) -> Option<Log>
    requires one { AreChairsOf desk one }
    requires other { AreChairsOf desk other }
{
    let shared = &desk;
    let ((chair, fine), (last, well)) = thread::join(
        rt,
        move || -> (Chair<Safe>, bool)
            requires sync { IsSync R.row }
            requires chairs { AreChairsOf shared.now one }
            ensures { IsChairOf (λ _. safe_behaviour) shared.entry.now result.0 }
        { rounds_of_two(&Tester::new(rt, alloc, shared), one, (0, 1)) },
        move || -> (Chair<Safe>, bool)
            requires sync { IsSync R.row }
            requires chairs { AreChairsOf shared.now other }
            ensures { IsChairOf (λ _. safe_behaviour) shared.entry.now result.0 }
        { rounds_of_two(&Tester::new(rt, alloc, shared), other, (2, 3)) },
    );
    let log = closed_with(desk, chair, last);
    if fine && well { log } else { None }
}

/// Splits a chair into two, each with half its shares; `None` if the chair has only one share.
fn halved(desk: &Desk<Safe>, mut chair: Chair<Safe>) -> Option<TwoChairs>
    requires { IsChairOf (λ _. safe_behaviour) desk.now chair }
    ensures { IfSome result (AreChairsOf desk.now) }
{
    let half = chair.shares() / 2;
    let other = split_off(desk, &mut chair, half)?;
    Some((chair, other))
}

/// Splits a chair into four, each with a quarter of its shares; `None` if the chair has fewer than
/// four shares.
fn quarters(desk: &Desk<Safe>, chair: Chair<Safe>) -> Option<(TwoChairs, TwoChairs)>
    requires { IsChairOf (λ _. safe_behaviour) desk.now chair }
    ensures one { IfSome result (λ r. AreChairsOf desk.now r.0) }
    ensures other { IfSome result (λ r. AreChairsOf desk.now r.1) }
{
    let (one, other) = halved(desk, chair)?;
    let one = halved(desk, one)?;
    let other = halved(desk, other)?;
    Some((one, other))
}

/// The log after four threads, with a quarter of the shares each, have made their rounds; `None` if
/// something went wrong.
fn log_of_four<R: Abort + Threads + Wait + Sync>(
    rt: &R,
    alloc: Global,
) -> Result<Option<Log>, Refusal> {
    let (desk, chair) = opened(alloc, 1024)?;
    match quarters(&desk, chair) {
        Some((one, other)) => Ok(rounds_of_four(rt, alloc, desk, one, other)),
        None => Ok(None),
    }
}

/// Whether a new book's replies to the calls of a log are the logged ones.
fn is_legal(alloc: Global, log: &Log) -> Result<bool, Refusal> {
    let mut book = book_of(alloc, &[])?;
    Ok(replies_to(alloc, &mut book, log))
}

#[test]
fn four_threads(rt: HostRuntime) -> Result<(), Fail> {
    let Some(log) = log_of_four(&rt, rt.alloc())? else {
        panic!(rt; "a round or the log is wrong")
    };
    assert_eq!(rt; log.as_slice().len(), 4 * 2 * ROUNDS as usize);
    assert!(rt; is_legal(rt.alloc(), &log)?);
    Ok(())
}
