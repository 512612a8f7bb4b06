//! Two chairs make guarded edits of one branch. After a refusal, a chair tries again with the edit
//! count that the refusal reports.

ghost use Rattle.frames.specs.SafeBit.{safe_behaviour};
ghost use Rattle.desk.specs.Chairs.{IsChairOf};

use super::fills::is_replayed;
use super::openings::opened;
use super::side_by_side::Work;
use super::{READ, Tester, log_and_text, name};
use desk::{Chair, Receipt};
use frames::safe::Safe;
use frames::types::Step;
use schedule_trie::refusal::Refusal;
use sessions::command::Command;
use sessions::log::{Entry, Log};
use sessions::reply::Reply;
use std::alloc::Global;
use std::process::Abort;
use std::sync::Wait;
use std::test::Fail;
use std::thread::Threads;
use views::query::Query;

/// How many edits each chair makes.
const EDITS: u32 = 50;

/// The insert that a session makes over and over. Session 0 inserts reads, and session 1 inserts
/// writes.
fn insert_of(rt: &impl Abort, who: u32) -> Command {
    let write = Step::Write { p: 0, v: 1 };
    Command::Insert {
        b: name(rt, b"main"),
        k: 0,
        step: if who == 0 { READ } else { write },
    }
}

/// The edit count that a receipt reports, and whether the edit was made; `None` if the receipt
/// reports no edit count.
fn count_reported(receipt: Receipt) -> Option<(u64, bool)> {
    match receipt.reply {
        Reply::Edited(count) => Some((count, true)),
        Reply::No(Refusal::Newer(count)) => Some((count, false)),
        _ => None,
    }
}

impl<R: Abort + Wait> Tester<'_, R> {
    /// Makes `EDITS` inserts of a session, each guarded by the edit count that the previous reply
    /// reports. Returns whether all were made within `2 * EDITS` calls: each refusal is due to an
    /// edit of the other chair, which also makes `EDITS`.
    pub(super) fn insert_guarded(&self, chair: &mut Chair<Safe>, who: u32) -> bool
        requires { IsChairOf (λ _. safe_behaviour) self.now.desk.now chair.old }
        ensures { IsChairOf (λ _. safe_behaviour) self.now.desk.now chair.new }
    {
        let insert = insert_of(self.rt, who);
        let mut guard = 0u64;
        let mut made = 0u32;
        for _ in 0..2 * EDITS {
            let receipt = self.act(chair, (who, Some(guard), &insert));
            let Some((count, is_made)) = count_reported(receipt) else {
                return false;
            };
            guard = count;
            made = made.wrapping_add(u32::from(is_made));
            if made == EDITS {
                return true;
            }
        }
        false
    }
}

/// Whether an entry is an edit that this chair made.
fn is_edit_of(entry: &Entry, chair: u32) -> bool {
    entry.chair == chair && matches!(entry.reply, Reply::Edited(_))
}

/// How many edits a chair made.
fn edits_of(log: &Log, chair: u32) -> usize {
    let edits = log
        .as_slice()
        .iter()
        .filter(|entry| is_edit_of(entry, chair));
    edits.count()
}

/// Two chairs make their guarded edits at a new desk. Counts the edits of each. A book that is
/// given the logged calls has to make the same replies, and its page of the look has to have the
/// same text.
fn guard_edits<R: Abort + Threads + Wait + Sync>(
    rt: &R,
    alloc: Global,
    query: &Query,
) -> Result<(), Refusal> {
    let works = (Work::GuardedInserts(0), Work::GuardedInserts(1));
    let desk = opened(alloc, 1024)?;
    let Some((log, text)) = log_and_text(rt, alloc, desk, &[], works, query)? else {
        panic!(rt; "an edit or the log is missing")
    };
    let all = EDITS as usize;
    assert!(rt; edits_of(&log, 0) == all && edits_of(&log, 1) == all);
    assert!(rt; is_replayed(rt, alloc, &[], &log, query, &text)?);
    Ok(())
}

#[test]
fn fifty_guarded_edits_each(rt: HostRuntime) -> Result<(), Fail> {
    let query = Query::Steps {
        b: name(&rt, b"main"),
    };
    for _ in 0..10 {
        guard_edits(&rt, rt.alloc(), &query)?;
    }
    Ok(())
}
