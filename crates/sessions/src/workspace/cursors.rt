//! The commands that begin or end a session, move its cursor, or change its breaks.

ghost use Rattle.std.specs.Prelude.{◌≡◌, ℕ, ◌<◌, IfOk, length};
ghost use Rattle.schedule_trie.specs.Trie.{forest};
ghost use Rattle.sessions.specs.Cursors as spec;
ghost use Rattle.sessions.specs.Books.{IsResult, IsCarriedOut, seek_command, stored, world_of};
ghost use Rattle.sessions.specs.Bounds.{CanAct};
ghost use Rattle.std.specs.Option.{option_map};
ghost use Rattle.sessions.specs.Acts.{hit_of, hit_reply};
ghost use Rattle.sessions.specs.BreakLists.{breaks_at};
ghost use Rattle.sessions.specs.Seeks.{hits, next_place};
ghost use Rattle.views.specs.Looks.{IsChartKept, steps_in};

use super::Workspace;
use crate::breaks::Breaks;
use crate::command::Command;
use crate::cursor::Cursor;
use crate::reply::Reply;
use crate::seek::{Search, next_hit};
use crate::way::Way;
use cutoff::chart::Chart;
use frames::register::Register;
use schedule_trie::name::Name;
use schedule_trie::refusal::Refusal;
use std::alloc::{AllocError, Global};
use views::breakpoint::Break;

impl<R: Register> Workspace<R> {
    /// Begins a session, or begins it again if it has joined. Its cursor is then at the beginning
    /// of the first branch, and it has no breaks.
    pub(super) fn join(&mut self, alloc: Global, who: u32) -> Reply
        requires can { CanAct self.old }
        requires session { who < 16 }
        ensures { (n : ℕ) → IsCarriedOut R.behaviour who Command.Join (stored self.old n)
            (stored self.new n) result }
    {
        self.cursors[who as usize] = first_cursor(&self.chart);
        self.breaks[who as usize] = Breaks::new(alloc);
        Reply::Joined
    }

    /// Ends a session, and removes its cursor and its breaks.
    pub(super) fn leave(&mut self, alloc: Global, who: u32) -> Reply
        requires can { CanAct self.old }
        requires session { who < 16 }
        ensures { (n : ℕ) → IsCarriedOut R.behaviour who Command.Leave (stored self.old n)
            (stored self.new n) result }
    {
        self.cursors[who as usize] = None;
        self.breaks[who as usize] = Breaks::new(alloc);
        Reply::Left
    }

    /// Moves the session's cursor to a place of a branch.
    ///
    /// # Errors
    ///
    /// NoBranch; NoPlace if the branch is shorter than `place`.
    pub(super) fn go(&mut self, who: u32, branch: &Name, place: u32) -> Result<Reply, Refusal>
        requires can { CanAct self.old }
        requires session { who < 16 }
        ensures { (n : ℕ) → IsResult R.behaviour who (Command.Go branch.now place)
            (stored self.old n) (stored self.new n) result }
    {
        let Some(len) = self.chart.len(branch) else {
            return Err(Refusal::NoBranch);
        };
        if len < place {
            return Err(Refusal::NoPlace);
        }
        self.cursors[who as usize] = Some(Cursor {
            branch: *branch,
            place,
        });
        Ok(Reply::Moved(*branch, place))
    }

    /// Moves the session's cursor to the nearest place in this direction, other than its own, at
    /// which a break of the session is met. If there is no such place, the cursor stays.
    ///
    /// # Errors
    ///
    /// Memory.
    pub(super) fn seek(&mut self, alloc: Global, who: u32, way: Way) -> Result<Reply, Refusal>
        requires can { CanAct self.old }
        requires session { who < 16 }
        ensures { (n : ℕ) → IsResult R.behaviour who (seek_command way) (stored self.old n)
            (stored self.new n) result }
    {
        let hit = self.hit_of(alloc, who, way)?;
        let reply = hit_reply(&hit);
        if hit.is_some() {
            self.cursors[who as usize] = hit;
        }
        Ok(reply)
    }

    /// The next hit of a session's seek; `None` if there is no hit, or the session hasn't joined.
    fn hit_of(&mut self, alloc: Global, who: u32, way: Way) -> Result<Option<Cursor>, AllocError>
        requires can { CanAct self.old }
        requires session { who < 16 }
        ensures hit { (n : ℕ) → IfOk result
            (λ hit. hit ≡ hit_of way (world_of R.behaviour (stored self.old n)) who) }
        ensures world { (n : ℕ) → world_of R.behaviour (stored self.new n)
            ≡ world_of R.behaviour (stored self.old n) }
    {
        let cursor = cursor_of(&self.cursors, who);
        let breaks = breaks_of(&self.breaks, who);
        match &cursor {
            None => Ok(None),
            Some(cursor) => hit_from(alloc, &mut self.chart, cursor, breaks, way),
        }
    }

    /// Sets a break of a session, unless it is already set.
    ///
    /// # Errors
    ///
    /// Memory.
    pub(super) fn set_break(&mut self, who: u32, added: Break) -> Result<Reply, Refusal>
        requires can { CanAct self.old }
        requires session { who < 16 }
        ensures { (n : ℕ) → IsResult R.behaviour who (Command.Break added) (stored self.old n)
            (stored self.new n) result }
    {
        self.breaks[who as usize].add(added)?;
        Ok(Reply::BreakSet)
    }

    /// Removes a break of a session.
    ///
    /// # Errors
    ///
    /// NoBreak if the session hasn't set this break.
    pub(super) fn clear_break(&mut self, who: u32, gone: Break) -> Result<Reply, Refusal>
        requires can { CanAct self.old }
        requires session { who < 16 }
        ensures { (n : ℕ) → IsResult R.behaviour who (Command.Clear gone) (stored self.old n)
            (stored self.new n) result }
    {
        if !self.breaks[who as usize].has(gone) {
            return Err(Refusal::NoBreak);
        }
        self.breaks[who as usize].remove(gone);
        Ok(Reply::BreakCleared)
    }
}

/// A cursor at the beginning of the first branch; `None` if there is no branch.
fn first_cursor<R: Register>(chart: &Chart<R>) -> Option<Cursor>
    ensures { result ≡ spec.first_cursor (forest chart.now.trie) }
{
    chart.name_at(0).map(|branch| Cursor { branch, place: 0 })
}

/// The next hit of a seek from a cursor, if any.
fn hit_from<R: Register>(
    alloc: Global,
    chart: &mut Chart<R>,
    cursor: &Cursor,
    breaks: &[Break],
    way: Way,
) -> Result<Option<Cursor>, AllocError>
    ensures hit { let all = hits (R.behaviour chart.old.start.register) chart.old.value
        (steps_in (forest chart.old.trie) cursor.now.branch) breaks.now in
        IfOk result (λ hit. hit ≡ option_map (spec.cursor cursor.now.branch)
        (next_place way cursor.now.place all)) }
    ensures kept { IsChartKept chart.old chart.new }
{
    let search = Search {
        breaks,
        way,
        from: cursor.place,
    };
    match next_hit(alloc, chart, &cursor.branch, &search)? {
        None => Ok(None),
        Some(place) => Ok(Some(Cursor {
            branch: cursor.branch,
            place,
        })),
    }
}

/// The reply to a seek that finds this hit, or none.
fn hit_reply(hit: &Option<Cursor>) -> Reply
    ensures { result ≡ hit_reply hit.now }
{
    match hit {
        None => Reply::NoHit,
        Some(cursor) => Reply::Moved(cursor.branch, cursor.place),
    }
}

/// The cursor of a session; `None` if the session hasn't joined.
fn cursor_of(cursors: &[Option<Cursor>], who: u32) -> Option<Cursor>
    requires { who < length cursors.now }
    ensures { result ≡ spec.cursor_at cursors.now who }
{
    cursors[who as usize]
}

/// The breaks of a session.
fn breaks_of(breaks: &[Breaks], who: u32) -> &[Break]
    requires { who < length breaks.now }
    ensures { result.now ≡ breaks_at breaks.now who }
{
    breaks[who as usize].as_slice()
}
