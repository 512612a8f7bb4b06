//! The cursors of sessions, and how edits move them.

ghost use Rattle.std.specs.Prelude.{◌≡◌, ◌<◌, ◌≤◌, IfSome, length};
ghost use Rattle.std.specs.List.{list_any};
ghost use Rattle.std.specs.Option.{option_map};
ghost use Rattle.schedule_trie.specs.Forest.{cell_on_branch};
ghost use Rattle.schedule_trie.specs.Trie.{forest};
ghost use Rattle.sessions.specs.Bounds.{AreWithin};
ghost use Rattle.sessions.specs.Cursors as spec;
ghost use Rattle.branch_terms.specs.declared.limits.TheConstants.{MOST_CELLS_MADE};

use cutoff::chart::Chart;
use frames::register::Register;
use schedule_trie::name::Name;

/// How many sessions a desk has, joined or not. They are numbered 0 to 15.
pub const SESSIONS: usize = 16;

/// A session's position: a place of a branch.
#[derive(Clone, Copy, Debug, PartialEq, Eq)]
pub struct Cursor {
    pub branch: Name,
    pub place: u32,
}

/// The direction in which an edit moves the cursors after its place, on each branch that it
/// changes.
#[derive(Clone, Copy, Debug, PartialEq, Eq)]
pub enum Shift {
    /// Towards the end by one, for an insert.
    Up,
    /// Towards the beginning by one, for a remove.
    Down,
}

impl Shift {
    /// The new place of a cursor at `place`, which is after the edit's place. Adding 1 can't
    /// overflow, since `place` is at most MOST_CELLS_MADE.
    fn new_place(self, place: u32) -> u32
        requires following { 0 < place }
        requires within { place ≤ MOST_CELLS_MADE }
        ensures { result ≡ spec.shifted_place self place }
    {
        match self {
            Shift::Up => place + 1,
            Shift::Down => place - 1,
        }
    }
}

/// Whether an insert or a remove at `cell` changes the branch `other`. If `cell` is `None`, the
/// edit is at the end of `branch`, and changes `branch` alone.
fn acts_in<R: Register>(chart: &Chart<R>, cell: Option<u32>, branch: &Name, other: &Name) -> bool
    ensures { result ≡ spec.acts_in cell (forest chart.now.trie) branch.now other.now }
{
    match cell {
        None => branch == other,
        Some(cell) => chart.place_of(other, cell).is_some(),
    }
}

/// The position of a session's cursor after an insert (Up) or a remove (Down) at `place` of
/// `branch`; `None` if the session has no cursor. `chart` is the chart before that edit. `cell` has
/// to be the number of the cell at `place` of `branch`, or `None` if there is no such cell.
fn shifted_one<R: Register>(
    chart: &Chart<R>,
    cell: Option<u32>,
    branch: &Name,
    place: u32,
    shift: Shift,
    cursor: &Option<Cursor>,
) -> Option<Cursor>
    requires cell { cell ≡ cell_on_branch (forest chart.now.trie) branch.now place }
    requires within { IfSome cursor.now (λ c. c.place ≤ MOST_CELLS_MADE) }
    ensures { result
        ≡ option_map (spec.shifted shift (forest chart.now.trie) branch.now place) cursor.now }
{
    let Some(cursor) = cursor else {
        return None;
    };
    if !acts_in(chart, cell, branch, &cursor.branch) || cursor.place <= place {
        return Some(*cursor);
    }
    Some(Cursor {
        branch: cursor.branch,
        place: shift.new_place(cursor.place),
    })
}

/// The cursors of all sessions after an insert (Up) or a remove (Down) at `place` of `branch`.
/// `chart` is the chart before that edit.
pub(crate) fn shifted<R: Register>(
    chart: &Chart<R>,
    cursors: &[Option<Cursor>],
    branch: &Name,
    place: u32,
    shift: Shift,
) -> [Option<Cursor>; SESSIONS]
    requires sessions { length cursors.now ≡ 16 }
    requires within { AreWithin cursors.now }
    ensures { result
        ≡ spec.each_cursor (spec.shifted shift (forest chart.now.trie) branch.now place)
        cursors.now }
{
    let cell = chart.cell_at(branch, place);
    let mut moved = [None; SESSIONS];
    for i in 0..SESSIONS {
        moved[i] = shifted_one(chart, cell, branch, place, shift, &cursors[i]);
    }
    moved
}

/// Whether some cursor, on any branch, is after `place`. If none is, an edit at `place` moves no
/// cursor.
pub(crate) fn any_after(cursors: &[Option<Cursor>], place: u32) -> bool
    ensures { result ≡ list_any (spec.is_after_place place) cursors.now }
{
    cursors.iter().any(|cursor| is_after_place(place, cursor))
}

/// Whether there is a cursor, and it is after `place`.
fn is_after_place(place: u32, cursor: &Option<Cursor>) -> bool
    ensures { result ≡ spec.is_after_place place cursor.now }
{
    match cursor {
        None => false,
        Some(cursor) => place < cursor.place,
    }
}

/// Whether some cursor is on this branch.
pub(crate) fn is_occupied(cursors: &[Option<Cursor>], branch: &Name) -> bool
    ensures { result ≡ spec.is_occupied branch.now cursors.now }
{
    cursors.iter().any(|cursor| is_on_branch(branch, cursor))
}

/// Whether there is a cursor, and it is on this branch.
fn is_on_branch(branch: &Name, cursor: &Option<Cursor>) -> bool
    ensures { result ≡ spec.is_on_branch branch.now cursor.now }
{
    match cursor {
        None => false,
        Some(cursor) => *branch == cursor.branch,
    }
}
