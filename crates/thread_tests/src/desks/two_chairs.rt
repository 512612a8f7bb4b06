//! Rows of calls by two chairs in one thread.

ghost use Rattle.std.specs.Prelude.{IfOk};
ghost use Rattle.frames.specs.SafeBit.{safe_behaviour};
ghost use Rattle.desk.specs.Chairs.{IsChairOf};

use super::openings::opened;
use super::{Call, Tester, asked, closed_with, halves, insert_at, is_text, name};
use desk::{Chair, Desk, Receipt};
use frames::safe::Safe;
use schedule_trie::refusal::Refusal;
use sessions::command::Command;
use sessions::log::Log;
use sessions::reply::Reply;
use std::alloc::Global;
use std::process::Abort;
use std::sync::Wait;
use std::test::Fail;
use views::query::Query;

/// The text of the page of the state after an insert of a read.
pub(super) const STATE: &[u8] =
    b"0: state main 1 of 1\n  p0 idle\n  p1 read next rs 0\n  bits 0\n  words -\n";

impl<R: Wait> Tester<'_, R> {
    /// Gives the desk a command, and returns whether it gets this receipt.
    fn gets(&self, chair: &mut Chair<Safe>, call: Call<'_>, receipt: Receipt) -> bool
        requires { IsChairOf (λ _. safe_behaviour) self.now.desk.now chair.old }
        ensures { IsChairOf (λ _. safe_behaviour) self.now.desk.now chair.new }
    {
        self.act(chair, call) == receipt
    }
}

/// The receipt with this length of the history and this reply.
fn receipt(at: u64, reply: Reply) -> Receipt {
    Receipt { at, reply }
}

/// Two chairs each insert a read at the beginning, and try this at most `tries` times while there
/// is no memory. Both inserts are guarded by edit count 0, so the second is refused.
pub(super) fn insert_by_both<R: Abort + Wait>(
    tester: &Tester<'_, R>,
    first: &mut Chair<Safe>,
    second: &mut Chair<Safe>,
    tries: u32,
)
    requires { IsChairOf (λ _. safe_behaviour) tester.now.desk.now first.old
        × IsChairOf (λ _. safe_behaviour) tester.now.desk.now second.old }
    ensures { IsChairOf (λ _. safe_behaviour) tester.now.desk.now first.new
        × IsChairOf (λ _. safe_behaviour) tester.now.desk.now second.new }
{
    let insert = insert_at(tester.rt, 0);
    let done = tester.act_again(first, 0, &insert, tries);
    assert!(tester.rt; done == receipt(1, Reply::Edited(1)));
    let late = tester.act_again(second, 1, &insert, tries);
    assert!(tester.rt; late == receipt(2, Reply::No(Refusal::Newer(1))));
}

/// A desk and two chairs of it, after the inserts of `insert_by_both`.
fn two_inserts<R: Abort + Wait>(
    rt: &R,
    alloc: Global,
) -> Result<(Desk<Safe>, Chair<Safe>, Chair<Safe>), Refusal>
    ensures { IfOk result (λ r. IsChairOf (λ _. safe_behaviour) r.0 r.1
        × IsChairOf (λ _. safe_behaviour) r.0 r.2) }
{
    let (desk, first) = opened(alloc, 16)?;
    let (mut first, mut second) = halves(&desk, first);
    insert_by_both(&Tester::new(rt, alloc, &desk), &mut first, &mut second, 1);
    Ok((desk, first, second))
}

/// The query for the state after the first step of `main`.
pub(super) fn state_after_one(rt: &impl Abort) -> Query {
    Query::State {
        b: name(rt, b"main"),
        k: 1,
    }
}

/// Looks at the state after the first step of `main`, and compares the length of the history and
/// the text of the page with those after two inserts.
fn look_after_two<R: Abort + Wait>(
    tester: &Tester<'_, R>,
    chair: &mut Chair<Safe>,
) -> Result<(), Refusal>
    requires { IsChairOf (λ _. safe_behaviour) tester.now.desk.now chair.old }
    ensures { IsChairOf (λ _. safe_behaviour) tester.now.desk.now chair.new }
{
    let (at, text) = tester.text_at(chair, &state_after_one(tester.rt))?;
    assert_eq!(tester.rt; at, 2);
    assert!(tester.rt; is_text(&text, STATE));
    Ok(())
}

#[test]
fn two_chairs(rt: HostRuntime) -> Result<(), Fail> {
    let (desk, mut first, second) = two_inserts(&rt, rt.alloc())?;
    assert_eq!(rt; asked(&desk, &mut first), 2);
    look_after_two(&Tester::new(&rt, rt.alloc(), &desk), &mut first)?;
    assert!(rt; first.shares() == 8 && second.shares() == 8);
    Ok(())
}

/// Closes a desk by two chairs that together have all shares, and returns the log. Before that, a
/// close by only one of them is refused.
fn closed_by_both(
    rt: &impl Abort,
    desk: Desk<Safe>,
    first: Chair<Safe>,
    second: Chair<Safe>,
) -> Option<Log>
    requires { IsChairOf (λ _. safe_behaviour) desk first
        × IsChairOf (λ _. safe_behaviour) desk second }
{
    match desk.close(first) {
        Ok(_) => None,
        Err((out, desk, first)) => {
            assert_eq!(rt; out.number(), 50);
            closed_with(desk, first, second)
        }
    }
}

/// Whether a log has one call of each of two chairs, in order.
fn is_by_both(log: &Log) -> bool {
    let chairs = log.as_slice().iter().map(|entry| entry.chair);
    chairs.eq([0, 1])
}

/// Session 0 joins twice at a desk whose log has place for one call, so the second join is refused.
fn join_twice<R: Abort + Wait>(tester: &Tester<'_, R>, chair: &mut Chair<Safe>)
    requires { IsChairOf (λ _. safe_behaviour) tester.now.desk.now chair.old }
    ensures { IsChairOf (λ _. safe_behaviour) tester.now.desk.now chair.new }
{
    let joined = receipt(1, Reply::Joined);
    assert!(tester.rt; tester.gets(chair, (0, None, &Command::Join), joined));
    let full = receipt(1, Reply::No(Refusal::LogFull));
    assert!(tester.rt; tester.gets(chair, (0, None, &Command::Join), full));
}

/// Fills the log of a new desk.
fn fill_a_log<R: Abort + Wait>(rt: &R, alloc: Global) -> Result<(), Fail> {
    let (desk, mut chair) = opened(alloc, 1)?;
    join_twice(&Tester::new(rt, alloc, &desk), &mut chair);
    Ok(())
}

#[test]
fn chairs_out(rt: HostRuntime) -> Result<(), Fail> {
    let (desk, first, second) = two_inserts(&rt, rt.alloc())?;
    let Some(log) = closed_by_both(&rt, desk, first, second) else {
        panic!(rt; "a share is missing")
    };
    assert!(rt; is_by_both(&log));
    fill_a_log(&rt, rt.alloc())
}
