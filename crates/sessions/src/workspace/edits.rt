//! Edits of a workspace's branches. Each accepted edit is counted.

ghost use Rattle.std.specs.Prelude.{◌≡◌, ℕ, true, false, Some, Err, OnOk, OnErr};
ghost use Rattle.cutoff.specs.Edits.{Edits, FitsEdit};
ghost use Rattle.sessions.specs.Bounds.{AreWithin, CanAct};
ghost use Rattle.sessions.specs.Edits.{edit_of, is_held_up, moved_by};
ghost use Rattle.sessions.specs.Books.{IsResult, stored};
ghost use Rattle.sessions.specs.declared.command.Command.{Command};
ghost use Rattle.schedule_trie.specs.Trie.{forest};
ghost use Rattle.schedule_trie.specs.Edits.{Insert, Remove, Drop, edit_in};
ghost use Rattle.frames.specs.Configuration.{fits_step};

use super::Workspace;
use crate::cursor::{Cursor, SESSIONS, Shift, any_after, is_occupied, shifted};
use crate::reply::Reply;
use cutoff::chart::Chart;
use frames::register::Register;
use frames::types::Step;
use schedule_trie::edit::Edit;
use schedule_trie::name::Name;
use schedule_trie::refusal::Refusal;
use std::alloc::Global;

impl<R: Register> Workspace<R> {
    /// Makes an edit, and counts it. An insert or a remove also moves the cursors that are after
    /// its place, on each branch that it changes.
    ///
    /// # Errors
    ///
    /// The first reason why the branches or the limits don't allow the edit; Occupied if the edit
    /// drops a branch that has a cursor on it; otherwise Memory, if memory runs out. In each case
    /// nothing that commands see is changed.
    pub(super) fn edit(&mut self, alloc: Global, edit: &Edit<'_>) -> Result<Reply, Refusal>
        requires can { CanAct self.old }
        requires fits { FitsEdit (R.behaviour self.old.chart.start.register) (edit_in edit.now) }
        ensures { (n who : ℕ) (c : Command) → edit_of c ≡ Some (edit_in edit.now)
            → IsResult R.behaviour who c (stored self.old n) (stored self.new n) result }
    {
        change_and_move(alloc, &mut self.chart, &mut self.cursors, edit)?;
        self.edits += 1;
        Ok(Reply::Edited(self.edits))
    }
}

/// Makes an edit in a chart. An insert or a remove also moves the cursors that are after its place,
/// on each branch that it changes. Fails with the edit's errors, or with Occupied if only a cursor
/// prevents a drop; then nothing is changed.
fn change_and_move<R: Register>(
    alloc: Global,
    chart: &mut Chart<R>,
    cursors: &mut [Option<Cursor>; SESSIONS],
    edit: &Edit<'_>,
) -> Result<(), Refusal>
    requires fits { FitsEdit (R.behaviour chart.old.start.register) (edit_in edit.now) }
    requires within { AreWithin cursors.old }
    ensures held_up { is_held_up (edit_in edit.now) (forest chart.old.trie) cursors.old ≡ true
        → result ≡ Err Refusal.Occupied }
    ensures chart { is_held_up (edit_in edit.now) (forest chart.old.trie) cursors.old ≡ false
        → Edits chart.old chart.new (edit_in edit.now) result }
    ensures moved { OnOk result
        (cursors.new ≡ moved_by (edit_in edit.now) (forest chart.old.trie) cursors.old) }
    ensures kept { OnErr result ((chart.new ≡ chart.old) × (cursors.new ≡ cursors.old)) }
{
    match *edit {
        Edit::Insert(branch, place, step) if any_after(cursors, place) => {
            insert_and_shift(alloc, chart, cursors, branch, place, step)
        }
        Edit::Insert(branch, place, step) => chart.insert(alloc, branch, place, step),
        Edit::Remove(branch, place) if any_after(cursors, place) => {
            remove_and_shift(chart, cursors, branch, place)
        }
        Edit::Remove(branch, place) => chart.remove(branch, place),
        Edit::Replace(branch, place, step) => chart.replace(branch, place, step),
        Edit::Fork(branch, place, name) => chart.fork(alloc, branch, place, *name),
        Edit::Detach(branch) => chart.detach(alloc, branch),
        Edit::Drop(branch) if holds_up(chart, cursors, branch) => Err(Refusal::Occupied),
        Edit::Drop(branch) => chart.drop_branch(branch),
    }
}

/// Inserts a cell at a place of a branch, and moves the cursors after it. Fails with the insert's
/// errors; then nothing is changed. It isn't inlined, since each call sets up an array of cursors.
#[inline(never)]
fn insert_and_shift<R: Register>(
    alloc: Global,
    chart: &mut Chart<R>,
    cursors: &mut [Option<Cursor>; SESSIONS],
    branch: &Name,
    place: u32,
    step: Step,
) -> Result<(), Refusal>
    requires fits { fits_step (R.behaviour chart.old.start.register) step ≡ true }
    requires within { AreWithin cursors.old }
    ensures chart { Edits chart.old chart.new (Insert branch.now place step) result }
    ensures moved { OnOk result (cursors.new
        ≡ moved_by (Insert branch.now place step) (forest chart.old.trie) cursors.old) }
    ensures kept { OnErr result (cursors.new ≡ cursors.old) }
{
    let moved = shifted(chart, cursors, branch, place, Shift::Up);
    chart.insert(alloc, branch, place, step)?;
    *cursors = moved;
    Ok(())
}

/// Removes the cell at a place of a branch, and moves the cursors after it, as `insert_and_shift`.
#[inline(never)]
fn remove_and_shift<R: Register>(
    chart: &mut Chart<R>,
    cursors: &mut [Option<Cursor>; SESSIONS],
    branch: &Name,
    place: u32,
) -> Result<(), Refusal>
    requires { AreWithin cursors.old }
    ensures chart { Edits chart.old chart.new (Remove branch.now place) result }
    ensures moved { OnOk result
        (cursors.new ≡ moved_by (Remove branch.now place) (forest chart.old.trie) cursors.old) }
    ensures kept { OnErr result (cursors.new ≡ cursors.old) }
{
    let moved = shifted(chart, cursors, branch, place, Shift::Down);
    chart.remove(branch, place)?;
    *cursors = moved;
    Ok(())
}

/// Whether a branch exists and isn't the only one, but has a cursor on it.
fn holds_up<R: Register>(chart: &Chart<R>, cursors: &[Option<Cursor>], branch: &Name) -> bool
    ensures { result ≡ is_held_up (Drop branch.now) (forest chart.now.trie) cursors.now }
{
    chart.len(branch).is_some() && chart.branches() > 1 && is_occupied(cursors, branch)
}
