//! Tests of tens of thousands of edits: on a book, and at a desk by one thread and by two. Their
//! cost is measured by `tests/cost`.

ghost use Rattle.frames.specs.SafeBit.{safe_behaviour};
ghost use Rattle.turn.specs.Shares.{every_share};
ghost use Rattle.turn.specs.Chairs.{view};
ghost use Rattle.std.specs.Prelude.{◌≡◌, IfOk};
ghost use Rattle.desk.specs.Chairs.{IsChairOf};
ghost use Rattle.schedule_trie.specs.Trie.{AreLimits};

use super::threads::inserted_by_two;
use super::{Tester, insert_at};
use desk::{Chair, Desk};
use frames::safe::Safe;
use schedule_trie::limits::Limits;
use schedule_trie::refusal::Refusal;
use sessions::book::Book;
use sessions::reply::Reply;
use std::alloc::Global;
use std::process::Abort;
use std::sync::Wait;
use std::test::Fail;

/// How many edits a thread makes.
const EDITS: u32 = 20_000;

/// Limits that allow `EDITS` edits by each of two threads.
fn wide_limits() -> Limits
    ensures { AreLimits result }
{
    Limits {
        cells: 65_536,
        branches: 1,
        log: 65_536,
    }
}

/// A desk with no steps and with `wide_limits`, and its first chair.
fn opened_wide(alloc: Global) -> Result<(Desk<Safe>, Chair<Safe>), Refusal>
    ensures { IfOk result (λ r. IsChairOf (λ _. safe_behaviour) r.0 r.1
        × ((view r.1).shares ≡ every_share)) }
{
    Desk::open(alloc, Safe, 0, wide_limits(), &[])
}

/// Inserts a read at a place of `main`, and returns whether it was accepted.
fn insert_is_accepted(rt: &impl Abort, alloc: Global, book: &mut Book<Safe>, place: u32) -> bool {
    let reply = book.act(alloc, 0, 0, None, &insert_at(rt, place));
    matches!(reply, Reply::Edited(_))
}

/// Inserts `EDITS` reads, at place 0, at place 1, and so on. Returns whether each insert was
/// accepted.
fn insert_all_on(rt: &impl Abort, alloc: Global, book: &mut Book<Safe>) -> bool {
    let mut all = true;
    for place in 0..EDITS {
        all &= insert_is_accepted(rt, alloc, book, place);
    }
    all
}

/// A book with no steps. Unlike that of `Book::new`, this contract promises nothing about the book.
fn wide_book(alloc: Global) -> Result<Book<Safe>, Refusal> {
    Book::new(alloc, Safe, 0, wide_limits(), &[])
}

/// Makes `EDITS` inserts on a new book, and returns whether each was accepted.
fn insert_on_a_book(rt: &impl Abort, alloc: Global) -> Result<bool, Refusal> {
    let mut book = wide_book(alloc)?;
    Ok(insert_all_on(rt, alloc, &mut book))
}

#[test]
fn on_a_book(rt: HostRuntime) -> Result<(), Fail> {
    assert!(rt; insert_on_a_book(&rt, rt.alloc())?);
    Ok(())
}

/// Makes `count` inserts at a new desk, and returns whether each was accepted.
fn insert_at_a_desk<R: Abort + Wait>(rt: &R, alloc: Global, count: u32) -> Result<bool, Refusal> {
    let (desk, mut chair) = opened_wide(alloc)?;
    Ok(Tester::new(rt, alloc, &desk).insert_all(&mut chair, count))
}

#[test]
fn at_a_desk(rt: HostRuntime) -> Result<(), Fail> {
    assert!(rt; insert_at_a_desk(&rt, rt.alloc(), EDITS)?);
    Ok(())
}

#[test]
fn twice_as_many_by_one_thread(rt: HostRuntime) -> Result<(), Fail> {
    assert!(rt; insert_at_a_desk(&rt, rt.alloc(), 2 * EDITS)?);
    Ok(())
}

#[test]
fn as_many_by_each_of_two_threads(rt: HostRuntime) -> Result<(), Fail> {
    let (desk, chair) = opened_wide(rt.alloc())?;
    let log = inserted_by_two(&rt, rt.alloc(), desk, chair, EDITS);
    assert!(rt; log.is_some());
    Ok(())
}
