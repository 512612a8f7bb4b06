//! Tests of news while another chair holds the turn nearly all the time.

ghost use Rattle.frames.specs.SafeBit.{safe_behaviour};
ghost use Rattle.desk.specs.Chairs.{IsChairOf};

use super::openings::opened_with_thousand;
use super::{Tester, asked, halves, take_in};
use crate::flags::Flags;
use desk::{Chair, Desk};
use frames::safe::Safe;
use schedule_trie::refusal::Refusal;
use sessions::command::Command;
use sessions::reply::Reply;
use std::alloc::Global;
use std::process::Abort;
use std::sync::Wait;
use std::test::Fail;
use std::thread;
use std::thread::Threads;
use views::breakpoint::Break;

/// How often a chair asks for news, while another chair seeks. A seek through 1,000 steps holds the
/// turn much longer than the turn is free between two seeks. If news waited for the turn, the seeks
/// would end first.
const NEWS: u32 = 1_000_000;

const SEEKS: u32 = 20_000;

impl<R: Wait> Tester<'_, R> {
    /// Session 0 joins, and sets a breakpoint that no step meets.
    fn set_break(&self, chair: &mut Chair<Safe>)
        requires { IsChairOf (λ _. safe_behaviour) self.now.desk.now chair.old }
        ensures { IsChairOf (λ _. safe_behaviour) self.now.desk.now chair.new }
    {
        let unmet = Command::Break(Break::Refused);
        self.act(chair, (0, None, &Command::Join));
        self.act(chair, (0, None, &unmet));
    }

    /// Seeks, at most `SEEKS` times, until the other chair signals that it has all its news.
    /// Returns whether it did, and the last seek had no hit.
    fn seek_until_released(&self, chair: &mut Chair<Safe>, flags: &Flags) -> bool
        requires { IsChairOf (λ _. safe_behaviour) self.now.desk.now chair.old }
        ensures { IsChairOf (λ _. safe_behaviour) self.now.desk.now chair.new }
    {
        for _ in 0..SEEKS {
            let receipt = self.act(chair, (0, None, &Command::Seek));
            flags.say_held();
            if flags.is_released() {
                return matches!(receipt.reply, Reply::NoHit);
            }
        }
        false
    }
}

/// Asks for news `NEWS` times once the seeks have begun, and then signals. Returns the last news;
/// `None` if no seek was made.
fn ask_often(desk: &Desk<Safe>, chair: &mut Chair<Safe>, flags: &Flags) -> Option<u64>
    requires { IsChairOf (λ _. safe_behaviour) desk.now chair.old }
    ensures { IsChairOf (λ _. safe_behaviour) desk.now chair.new }
{
    if !flags.wait_until_held() {
        return None;
    }
    let mut news = 0;
    for _ in 0..NEWS {
        news = asked(desk, chair);
    }
    flags.release();
    Some(news)
}

/// One thread seeks while another asks for news; then the chairs join. Returns the chair, whether
/// the seeks ended by the signal, and the last news.
fn news_while_seeking<R: Threads + Wait + Sync>(
    tester: &Tester<'_, R>,
    mut first: Chair<Safe>,
    mut second: Chair<Safe>,
    flags: &Flags,
) -> (Chair<Safe>, bool, Option<u64>)
    requires { IsChairOf (λ _. safe_behaviour) tester.now.desk.now first
        × IsChairOf (λ _. safe_behaviour) tester.now.desk.now second }
    ensures { IsChairOf (λ _. safe_behaviour) tester.now.desk.now result.0 }
{
    let (rt, alloc, desk) = (tester.rt, tester.alloc, tester.desk);
    let ((mut first, released), (second, news)) = thread::join(
        rt,
        move || -> (Chair<Safe>, bool)
            requires { IsChairOf (λ _. safe_behaviour) desk.now first }
            ensures { IsChairOf (λ _. safe_behaviour) desk.entry.now result.0 }
        {
            let released = Tester::new(rt, alloc, desk).seek_until_released(&mut first, flags);
            (first, released)
        },
        move || -> (Chair<Safe>, Option<u64>)
            requires { IsChairOf (λ _. safe_behaviour) desk.now second }
            ensures { IsChairOf (λ _. safe_behaviour) desk.entry.now result.0 }
        {
            let news = ask_often(desk, &mut second, flags);
            (second, news)
        },
    );
    take_in(desk, &mut first, second);
    (first, released, news)
}

/// One thread seeks while another asks for news at a desk of the thousand steps. Returns whether
/// the seeks ended by the signal, the last news, and the news after the chairs join.
fn news_of_two<R: Abort + Threads + Wait + Sync>(
    tester: &Tester<'_, R>,
    mut first: Chair<Safe>,
    second: Chair<Safe>,
) -> (bool, Option<u64>, u64)
    requires { IsChairOf (λ _. safe_behaviour) tester.now.desk.now first
        × IsChairOf (λ _. safe_behaviour) tester.now.desk.now second }
{
    let flags = Flags::new();
    tester.set_break(&mut first);
    let (mut chair, released, news) = news_while_seeking(tester, first, second, &flags);
    (released, news, asked(tester.desk, &mut chair))
}

/// The result of `news_of_two` at a new desk.
fn news_at_a_desk<R: Abort + Threads + Wait + Sync>(
    rt: &R,
    alloc: Global,
) -> Result<(bool, Option<u64>, u64), Refusal> {
    let (desk, chair) = opened_with_thousand(alloc, 65_536)?;
    let (first, second) = halves(&desk, chair);
    Ok(news_of_two(&Tester::new(rt, alloc, &desk), first, second))
}

#[test]
fn news_while_held(rt: HostRuntime) -> Result<(), Fail> {
    let (released, news, last) = news_at_a_desk(&rt, rt.alloc())?;
    let Some(news) = news else {
        panic!(rt; "no seek held the turn")
    };
    assert!(rt; released && 2 < news && news <= last);
    Ok(())
}
