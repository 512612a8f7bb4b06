//! How a cursor moves at edits before, at and after it. The edits are of the cursor's branch, of a
//! branch that shares the edited cell, and of one that doesn't.

use super::commands::{detach, fork, insert, remove, replace};
use super::{Ask, first_wrong_in_new_book};
use crate::given::{GO, READ, name, none_wrong};
use schedule_trie::limits::Limits;
use schedule_trie::name::Name;
use schedule_trie::refusal::Refusal;
use sessions::command::Command;
use sessions::reply::Reply;
use std::alloc::Global;

const LIMITS: Limits = Limits {
    cells: 64,
    branches: 3,
    log: 64,
};

/// The names of three branches of three cells. `a` shares the first two cells of `main`, and has a
/// third of its own; `b` has three of its own.
#[derive(Clone, Copy)]
struct Branches<'a> {
    main: &'a Name,
    a: &'a Name,
    b: &'a Name,
}

/// The places of four cursors each on `main`, on `a` and on `b`.
type Places = ([u32; 4], [u32; 4], [u32; 4]);

/// Moves cursors to places 0 to 3 of each branch, makes an edit, and compares the cursors' places
/// with the given ones. Each of these is a row; returns the index of the first row with a wrong
/// result.
fn first_wrong_move(
    alloc: Global,
    on: Branches<'_>,
    edit: &Command,
    (main, a, b): &Places,
) -> Result<Option<usize>, Refusal> {
    let rows = [
        Ask::Replies(fork(on.main, 2, on.a), Reply::Edited(1)),
        Ask::Replies(insert(on.a, 2, GO), Reply::Edited(2)),
        Ask::Replies(fork(on.main, 3, on.b), Reply::Edited(3)),
        Ask::Replies(detach(on.b), Reply::Edited(4)),
        Ask::GoToFourPlaces(0, on.main),
        Ask::GoToFourPlaces(4, on.a),
        Ask::GoToFourPlaces(8, on.b),
        Ask::Replies(*edit, Reply::Edited(5)),
        Ask::AreAt(0, on.main, *main),
        Ask::AreAt(4, on.a, *a),
        Ask::AreAt(8, on.b, *b),
    ];
    first_wrong_in_new_book(alloc, LIMITS, &[READ, GO, GO], &rows, 29)
}

/// The places of four cursors that don't move.
const STAY: [u32; 4] = [0, 1, 2, 3];

/// Edits, and the places to which each moves the cursors at places 0 to 3 of each branch. An insert
/// raises the cursors after it, a removal lowers them, and a replacement moves none.
fn moves(on: Branches<'_>) -> [(Command, Places); 14] {
    [
        (insert(on.main, 0, READ), ([0, 2, 3, 4], [0, 2, 3, 4], STAY)),
        (insert(on.main, 1, READ), ([0, 1, 3, 4], [0, 1, 3, 4], STAY)),
        (insert(on.main, 2, READ), ([0, 1, 2, 4], STAY, STAY)),
        (insert(on.main, 3, READ), (STAY, STAY, STAY)),
        (insert(on.a, 1, READ), ([0, 1, 3, 4], [0, 1, 3, 4], STAY)),
        (insert(on.a, 2, READ), (STAY, [0, 1, 2, 4], STAY)),
        (insert(on.b, 0, READ), (STAY, STAY, [0, 2, 3, 4])),
        (replace(on.main, 1, READ), (STAY, STAY, STAY)),
        (remove(on.main, 0), ([0, 0, 1, 2], [0, 0, 1, 2], STAY)),
        (remove(on.main, 1), ([0, 1, 1, 2], [0, 1, 1, 2], STAY)),
        (remove(on.main, 2), ([0, 1, 2, 2], STAY, STAY)),
        (remove(on.a, 0), ([0, 0, 1, 2], [0, 0, 1, 2], STAY)),
        (remove(on.a, 2), (STAY, [0, 1, 2, 2], STAY)),
        (remove(on.b, 1), (STAY, STAY, [0, 1, 1, 2])),
    ]
}

/// The index of the first edit after which a cursor is at a wrong place.
fn first_wrong_edit(alloc: Global, on: Branches<'_>) -> Result<Option<usize>, Refusal> {
    let rows = moves(on);
    for (i, (edit, places)) in rows.iter().enumerate() {
        if first_wrong_move(alloc, on, edit, places)?.is_some() {
            return Ok(Some(i));
        }
    }
    Ok(None)
}

#[test]
fn edits_move_cursors(rt: HostRuntime) {
    let (main, a, b) = (name(&rt, b"main"), name(&rt, b"a"), name(&rt, b"b"));
    let on = Branches {
        main: &main,
        a: &a,
        b: &b,
    };
    none_wrong(&rt, first_wrong_edit(rt.alloc(), on));
}
