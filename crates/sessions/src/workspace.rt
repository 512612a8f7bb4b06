//! What a book's commands change, and how each command is answered.

ghost use Rattle.std.specs.Prelude.{◌≡◌, ◌<◌, ℕ, true, false, option_and_then};
ghost use Rattle.std.specs.Option.{option_map};
ghost use Rattle.sessions.specs.Acts.{early_refusals, first_refusal, fits_command, is_full, needs_session};
ghost use Rattle.sessions.specs.Acts as spec;
ghost use Rattle.schedule_trie.specs.Edits.{edit_in, step_in};
ghost use Rattle.sessions.specs.Edits.{edit_of};
ghost use Rattle.sessions.specs.Books.{HasAnswer, IsResult, stored, world_of};
ghost use Rattle.sessions.specs.Bounds.{CanAct};

mod cursors;
mod edits;

use crate::breaks::Breaks;
use crate::command::Command;
use crate::cursor::{Cursor, SESSIONS};
use crate::reply::Reply;
use crate::way::Way;
use cutoff::chart::Chart;
use frames::register::Register;
use frames::roles::step_fits;
use frames::types::Step;
use schedule_trie::edit::Edit;
use schedule_trie::refusal::Refusal;
use std::alloc::{AllocError, Global};

/// What commands change: the chart, which has the branches and their stored runs; the sessions'
/// cursors and breaks; and the number of accepted edits.
#[derive(Drop)]
pub(crate) struct Workspace<R: Register> {
    pub(crate) chart: Chart<R>,
    pub(crate) cursors: [Option<Cursor>; SESSIONS],
    pub(crate) breaks: Vec<Breaks>,
    pub(crate) edits: u64,
}

impl<R: Register> Workspace<R> {
    /// Answers a command; the log must not be full. Fails only if memory runs out and there is no
    /// reason to refuse the command; then nothing that commands see is changed.
    pub(crate) fn answer(
        &mut self,
        alloc: Global,
        who: u32,
        if_at: Option<u64>,
        command: &Command,
    ) -> Result<Reply, AllocError>
        requires { CanAct self.old }
        ensures { (n : ℕ) → is_full (world_of R.behaviour (stored self.old n)) ≡ false
            → HasAnswer R.behaviour who if_at command.now (stored self.old n) (stored self.new n)
            result }
    {
        let (session, step, edit) = parts_of_command(command);
        if let Some(refusal) = self.early_refusal(who, if_at, session, step) {
            return Ok(Reply::No(refusal));
        }
        match self.carry_out(alloc, who, command, edit) {
            Ok(reply) => Ok(reply),
            Err(refusal) => {
                if let Refusal::Memory = refusal {
                    return Err(AllocError);
                }
                Ok(Reply::No(refusal))
            }
        }
    }

    /// The first reason to refuse a command before its branch is looked up, if the log isn't full;
    /// `None` if there is none. `session` says whether its session must have joined; `step` is its
    /// step, if it has one.
    fn early_refusal(
        &self,
        who: u32,
        if_at: Option<u64>,
        session: bool,
        step: Option<Step>,
    ) -> Option<Refusal>
        ensures { (n : ℕ) (c : Command) → needs_session c ≡ session
            → option_and_then step_in (edit_of c) ≡ step → result ≡ first_refusal
            (early_refusals who if_at c (world_of R.behaviour (stored self.now n))) }
    {
        let index = who as usize;
        if index >= SESSIONS || (session && self.cursors[index].is_none()) {
            return Some(Refusal::NoSession);
        }
        if is_missed(if_at, self.edits) {
            return Some(Refusal::Newer(self.edits));
        }
        let register = self.chart.initial().register();
        if step.is_some_and(|step| !step_fits(&register, step)) {
            return Some(Refusal::BadStep);
        }
        None
    }

    /// Carries out a command that `early_refusal` doesn't refuse; `edit` is its edit, if it is one.
    /// Fails with the first reason that `late_refusals` gives, if it gives one; otherwise with
    /// Memory, if memory runs out. After a failure nothing that commands see is changed.
    fn carry_out(
        &mut self,
        alloc: Global,
        who: u32,
        command: &Command,
        edit: Option<Edit<'_>>,
    ) -> Result<Reply, Refusal>
        requires can { CanAct self.old }
        requires session { who < 16 }
        requires fits { fits_command (R.behaviour self.old.chart.start.register) command.now
            ≡ true }
        requires edit { edit_of command.now ≡ option_map edit_in edit }
        ensures { (n : ℕ)
            → IsResult R.behaviour who command.now (stored self.old n) (stored self.new n) result }
    {
        if let Some(edit) = edit {
            return self.edit(alloc, &edit);
        }
        match command {
            Command::Join => Ok(self.join(alloc, who)),
            Command::Leave => Ok(self.leave(alloc, who)),
            Command::Go { b, k } => self.go(who, b, *k),
            Command::Seek => self.seek(alloc, who, Way::Forth),
            Command::Back => self.seek(alloc, who, Way::Back),
            Command::Break(added) => self.set_break(who, *added),
            Command::Clear(gone) => self.clear_break(who, *gone),
            _ => unreachable!(),
        }
    }
}

/// Whether a command needs its session to have joined; the command's step, if it has one; and its
/// edit, if it is one.
fn parts_of_command(command: &Command) -> (bool, Option<Step>, Option<Edit<'_>>)
    ensures session { needs_session command.now ≡ result.0 }
    ensures step { option_and_then step_in (edit_of command.now) ≡ result.1 }
    ensures edit { edit_of command.now ≡ option_map edit_in result.2 }
{
    match command {
        Command::Join => (false, None, None),
        Command::Insert { b, k, step } => (false, Some(*step), Some(Edit::Insert(b, *k, *step))),
        Command::Remove { b, k } => (false, None, Some(Edit::Remove(b, *k))),
        Command::Replace { b, k, step } => (false, Some(*step), Some(Edit::Replace(b, *k, *step))),
        Command::Fork { b, k, name } => (false, None, Some(Edit::Fork(b, *k, name))),
        Command::Detach { b } => (false, None, Some(Edit::Detach(b))),
        Command::Drop { b } => (false, None, Some(Edit::Drop(b))),
        _ => (true, None, None),
    }
}

/// Whether a guard is given and differs from the edit count.
fn is_missed(if_at: Option<u64>, edits: u64) -> bool
    ensures { result ≡ spec.is_missed if_at edits }
{
    match if_at {
        None => false,
        Some(guard) => guard != edits,
    }
}
