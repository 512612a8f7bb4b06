//! Rows worked out by hand: drops, seeks, looks, and a run that is made elsewhere.

use super::commands::{drop_branch, fork, go, remove};
use super::{Ask, first_wrong_in_new_book};
use crate::given::{GO, READ, name, none_wrong};
use frames::types::Step;
use schedule_trie::limits::Limits;
use schedule_trie::name::Name;
use schedule_trie::refusal::Refusal;
use sessions::command::Command;
use sessions::reply::Reply;
use views::breakpoint::Break;
use views::query::Query;

const LIMITS: Limits = Limits {
    cells: 64,
    branches: 2,
    log: 64,
};

/// A write of 1, and a read that overlaps it.
const OVERLAPPED: [Step; 6] = [
    Step::Write { p: 0, v: 1 },
    Step::Go { p: 0, c: 0 },
    READ,
    GO,
    Step::Go { p: 0, c: 0 },
    GO,
];

/// A branch can't be dropped while a cursor is on it, and is dropped when none is.
fn drop_rows(main: &Name, a: &Name, b: &Name) -> [Ask<'static>; 9] {
    [
        Ask::Replies(Command::Join, Reply::Joined),
        Ask::Replies(fork(main, 0, a), Reply::Edited(1)),
        Ask::Replies(go(a, 0), Reply::Moved(*a, 0)),
        Ask::Refuses(drop_branch(a), Refusal::Occupied),
        Ask::Refuses(fork(main, 0, b), Refusal::TooManyBranches),
        Ask::Replies(Command::Leave, Reply::Left),
        Ask::Replies(drop_branch(a), Reply::Edited(2)),
        Ask::Refuses(remove(a, 0), Refusal::NoBranch),
        Ask::HasEdits(2),
    ]
}

#[test]
fn drops(rt: HostRuntime) {
    let rows = drop_rows(&name(&rt, b"main"), &name(&rt, b"a"), &name(&rt, b"b"));
    none_wrong(
        &rt,
        first_wrong_in_new_book(rt.alloc(), LIMITS, &[READ, GO, GO], &rows, 8),
    );
}

/// Seeks from the beginning of a branch, and back.
fn seek_rows(main: &Name) -> [Ask<'static>; 20] {
    let on_bit = Break::Bit(0, 1);
    [
        Ask::Replies(Command::Join, Reply::Joined),
        Ask::Replies(Command::Seek, Reply::NoHit),
        Ask::Replies(Command::Break(Break::Chosen), Reply::BreakSet),
        Ask::Replies(Command::Break(Break::Chosen), Reply::BreakSet),
        Ask::Replies(Command::Seek, Reply::Moved(*main, 6)),
        Ask::Replies(Command::Seek, Reply::NoHit),
        Ask::Replies(Command::Clear(Break::Chosen), Reply::BreakCleared),
        Ask::Refuses(Command::Clear(Break::Chosen), Refusal::NoBreak),
        Ask::Replies(Command::Join, Reply::Joined),
        Ask::Replies(Command::Break(on_bit), Reply::BreakSet),
        Ask::Replies(Command::Seek, Reply::Moved(*main, 5)),
        Ask::Replies(go(main, 6), Reply::Moved(*main, 6)),
        Ask::Replies(Command::Back, Reply::Moved(*main, 5)),
        Ask::Replies(Command::Back, Reply::NoHit),
        Ask::Replies(Command::Break(Break::Bit(0, 0)), Reply::BreakSet),
        Ask::Replies(Command::Back, Reply::Moved(*main, 4)),
        Ask::Replies(Command::Clear(on_bit), Reply::BreakCleared),
        Ask::Replies(Command::Break(Break::Returns(0)), Reply::BreakSet),
        Ask::Replies(Command::Seek, Reply::Moved(*main, 5)),
        Ask::Shows(
            Query::Cursor { who: 0 },
            b"0: cursor main 5 breaks 2\n  bit 0 0\n  returns 0\n",
        ),
    ]
}

#[test]
fn seeks(rt: HostRuntime) {
    let rows = seek_rows(&name(&rt, b"main"));
    none_wrong(
        &rt,
        first_wrong_in_new_book(rt.alloc(), LIMITS, &OVERLAPPED, &rows, 19),
    );
}

/// The query for the verdicts at a place of a branch.
fn verdict(branch: &Name, place: u32) -> Query {
    Query::Verdict {
        b: *branch,
        k: place,
    }
}

/// Looks that are refused, and looks that give pages.
fn look_rows(main: &Name, zed: &Name) -> [Ask<'static>; 7] {
    let state = Query::State { b: *zed, k: 7 };
    [
        Ask::RefusesLook(Query::Cursor { who: 16 }, Refusal::NoSession),
        Ask::RefusesLook(Query::Cursor { who: 0 }, Refusal::NoSession),
        Ask::RefusesLook(state, Refusal::NoBranch),
        Ask::RefusesLook(verdict(main, 7), Refusal::NoPlace),
        Ask::RefusesLook(Query::Steps { b: *zed }, Refusal::NoBranch),
        Ask::Shows(
            verdict(main, 6),
            b"0: verdict main 6 of 6\n  5 p1 0 fresh\n",
        ),
        Ask::Shows(Query::Branches, b"0: branches 1 edits 0 made 6\n  main 6\n"),
    ]
}

#[test]
fn looks(rt: HostRuntime) {
    let rows = look_rows(&name(&rt, b"main"), &name(&rt, b"zed"));
    none_wrong(
        &rt,
        first_wrong_in_new_book(rt.alloc(), LIMITS, &OVERLAPPED, &rows, 0),
    );
}

#[test]
fn a_run_made_elsewhere(rt: HostRuntime) {
    let main = name(&rt, b"main");
    let rows = [
        Ask::Replies(Command::Join, Reply::Joined),
        Ask::Fills(&main),
    ];
    none_wrong(
        &rt,
        first_wrong_in_new_book(rt.alloc(), LIMITS, &OVERLAPPED, &rows, 1),
    );
}
