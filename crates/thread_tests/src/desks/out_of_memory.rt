//! Rows that may run out of memory. With two chairs, each call is answered as with ample memory, or
//! refused as Memory. Later calls, also the same call made again, are answered as if the refused
//! call hadn't been made. With a thousand steps, a fill is refused, or reports the jobs that ran
//! out of memory; later fills install the missing runs.

ghost use Rattle.std.specs.Prelude.{◌≡◌, ◌≤◌};
ghost use Rattle.frames.specs.SafeBit.{safe_behaviour};
ghost use Rattle.turn.specs.Shares.{every_share};
ghost use Rattle.turn.specs.Chairs.{view};
ghost use Rattle.desk.specs.Chairs.{IsChairOf};

use super::openings::{opened, opened_with_thousand};
use super::two_chairs::{STATE, insert_by_both, state_after_one};
use super::{Tester, asked, halves, insert_at, is_text, name};
use desk::{Chair, Receipt};
use frames::safe::Safe;
use schedule_trie::refusal::Refusal;
use sessions::command::Command;
use sessions::reply::Reply;
use std::alloc::Global;
use std::process::Abort;
use std::sync::Wait;
use std::thread::Threads;
use views::query::Query;

/// Whether two inserts, both guarded by edit count 0, have allowed receipts. At most one of them
/// may have run out of memory.
fn are_allowed_receipts(first: Receipt, second: Receipt) -> bool {
    match (first.at, first.reply, second.at, second.reply) {
        (1, Reply::Edited(1), 2, Reply::No(Refusal::Newer(1))) => true,
        (1, Reply::Edited(1), 1, Reply::No(Refusal::Memory)) => true,
        (0, Reply::No(Refusal::Memory), 1, Reply::Edited(1)) => true,
        _ => false,
    }
}

/// Looks at the state after the first step of `main`, and compares the page's text, unless memory
/// runs out.
fn look_once<R: Abort + Wait>(tester: &Tester<'_, R>, chair: &mut Chair<Safe>)
    requires { IsChairOf (λ _. safe_behaviour) tester.now.desk.now chair.old }
{
    match tester.text_at(chair, &state_after_one(tester.rt)) {
        Ok((_, text)) => assert!(tester.rt; is_text(&text, STATE)),
        Err(refusal) => assert!(tester.rt; refusal == Refusal::Memory),
    }
}

/// Two chairs each insert a read at the beginning. Returns the length of the history in the last
/// receipt.
fn insert_once_each<R: Abort + Wait>(
    tester: &Tester<'_, R>,
    first: &mut Chair<Safe>,
    second: &mut Chair<Safe>,
) -> u64
    requires { IsChairOf (λ _. safe_behaviour) tester.now.desk.now first.old
        × IsChairOf (λ _. safe_behaviour) tester.now.desk.now second.old }
    ensures { IsChairOf (λ _. safe_behaviour) tester.now.desk.now first.new }
{
    let insert = insert_at(tester.rt, 0);
    let done = tester.act(first, (0, Some(0), &insert));
    let late = tester.act(second, (1, Some(0), &insert));
    let at = late.at;
    assert!(tester.rt; are_allowed_receipts(done, late));
    at
}

/// Two chairs of a new desk each make an insert; then the first asks for news and looks.
fn insert_and_look<R: Abort + Wait>(tester: &Tester<'_, R>, chair: Chair<Safe>)
    requires chair { IsChairOf (λ _. safe_behaviour) tester.now.desk.now chair }
    requires every { (view chair).shares ≡ every_share }
{
    let (mut first, mut second) = halves(tester.desk, chair);
    let at = insert_once_each(tester, &mut first, &mut second);
    assert_eq!(tester.rt; asked(tester.desk, &mut first), at);
    look_once(tester, &mut first);
}

#[test]
fn two_chairs_out_of_memory(rt: HostRuntime) {
    match opened(rt.alloc(), 16) {
        Ok((desk, chair)) => insert_and_look(&Tester::new(&rt, rt.alloc(), &desk), chair),
        Err(refusal) => assert!(rt; refusal == Refusal::Memory),
    }
}

/// The most times that a call is tried. Fewer growths are refused in a row.
const TRIES: u32 = 10;

impl<R: Abort + Wait> Tester<'_, R> {
    /// Gives the desk a command guarded by edit count 0, at most `tries` times, until it isn't
    /// refused as Memory.
    pub(super) fn act_again(
        &self,
        chair: &mut Chair<Safe>,
        who: u32,
        command: &Command,
        tries: u32,
    ) -> Receipt
        requires { IsChairOf (λ _. safe_behaviour) self.now.desk.now chair.old }
        ensures { IsChairOf (λ _. safe_behaviour) self.now.desk.now chair.new }
    {
        for _ in 0..tries {
            let receipt = self.act(chair, (who, Some(0), command));
            if receipt.reply != Reply::No(Refusal::Memory) {
                return receipt;
            }
        }
        panic!(self.rt; "each try was refused memory")
    }

    /// The length of the history at a look, and the text of its page. The look is repeated until
    /// there is memory.
    pub(super) fn text_again(&self, chair: &mut Chair<Safe>, query: &Query) -> (u64, Vec<u8>)
        requires { IsChairOf (λ _. safe_behaviour) self.now.desk.now chair.old }
        ensures { IsChairOf (λ _. safe_behaviour) self.now.desk.now chair.new }
    {
        for _ in 0..TRIES {
            match self.text_at(chair, query) {
                Ok(reported) => return reported,
                Err(refusal) => assert!(self.rt; refusal == Refusal::Memory),
            }
        }
        panic!(self.rt; "each try was refused memory")
    }
}

/// Looks again and again until there is memory, and compares the length of the history and the
/// text of the page.
fn look_again<R: Abort + Wait>(
    tester: &Tester<'_, R>,
    chair: &mut Chair<Safe>,
    query: &Query,
    expected: (u64, &[u8]),
)
    requires { IsChairOf (λ _. safe_behaviour) tester.now.desk.now chair.old }
{
    let (at, text) = tester.text_again(chair, query);
    assert!(tester.rt; at == expected.0 && is_text(&text, expected.1));
}

/// Two chairs of a new desk each make an insert, and then the first looks. All calls are made again
/// and again until there is memory.
fn insert_and_look_again<R: Abort + Wait>(tester: &Tester<'_, R>, chair: Chair<Safe>)
    requires chair { IsChairOf (λ _. safe_behaviour) tester.now.desk.now chair }
    requires every { (view chair).shares ≡ every_share }
{
    let (mut first, mut second) = halves(tester.desk, chair);
    insert_by_both(tester, &mut first, &mut second, TRIES);
    look_again(tester, &mut first, &state_after_one(tester.rt), (2, STATE));
}

#[test]
fn two_chairs_asking_again(rt: HostRuntime) {
    if let Ok((desk, chair)) = opened(rt.alloc(), 16) {
        insert_and_look_again(&Tester::new(&rt, rt.alloc(), &desk), chair);
    }
}

impl<R: Abort + Threads + Wait + Sync> Tester<'_, R> {
    /// Fills `main` until no job is left; every run fits. Returns how many runs were installed, and
    /// whether no fill was refused.
    fn fill_again(&self, chair: &mut Chair<Safe>, thieves: u32) -> (u64, bool)
        requires at { IsChairOf (λ _. safe_behaviour) self.now.desk.now chair.old }
        requires thieves { thieves ≤ 4 }
        ensures { IsChairOf (λ _. safe_behaviour) self.now.desk.now chair.new }
    {
        let branch = name(self.rt, b"main");
        let mut installed = 0u64;
        let mut all = true;
        for _ in 0..TRIES {
            match self.filled(chair, &branch, thieves) {
                Ok(report) => {
                    assert!(self.rt; report.stale == 0 && report.gone == 0);
                    if report.planned == 0 {
                        return (installed, all);
                    }
                    installed = installed.wrapping_add(report.installed);
                }
                Err(refusal) => {
                    assert!(self.rt; refusal == Refusal::Memory);
                    all = false;
                }
            }
        }
        panic!(self.rt; "some job is left after each try")
    }
}

/// The text of the page of the state after the thousand steps.
const LAST_STATE: &[u8] =
    b"0: state main 1000 of 1000\n  p0 write 0 next ws 0\n  p1 idle\n  bits 1\n  words -\n";

/// Fills a desk of the thousand steps, counts the installed runs, and looks at the state at the end
/// of the steps.
fn fill_and_look<R: Abort + Threads + Wait + Sync>(
    tester: &Tester<'_, R>,
    chair: &mut Chair<Safe>,
    thieves: u32,
)
    requires at { IsChairOf (λ _. safe_behaviour) tester.now.desk.now chair.old }
    requires thieves { thieves ≤ 4 }
{
    let (installed, all) = tester.fill_again(chair, thieves);
    assert!(tester.rt; installed == 8 || (installed < 8 && !all));
    let state = Query::State {
        b: name(tester.rt, b"main"),
        k: 1000,
    };
    look_again(tester, chair, &state, (0, LAST_STATE));
}

/// Fills and looks at a new desk of a thousand steps.
fn fill_thousand_and_look<R: Abort + Threads + Wait + Sync>(rt: &R, alloc: Global, thieves: u32)
    requires { thieves ≤ 4 }
{
    if let Ok((desk, mut chair)) = opened_with_thousand(alloc, 1024) {
        fill_and_look(&Tester::new(rt, alloc, &desk), &mut chair, thieves);
    }
}

#[test]
fn thousand_steps_out_of_memory(rt: HostRuntime) {
    fill_thousand_and_look(&rt, rt.alloc(), 0);
}

#[test]
fn thousand_steps_by_four_out_of_memory(rt: HostRuntime) {
    fill_thousand_and_look(&rt, rt.alloc(), 4);
}
