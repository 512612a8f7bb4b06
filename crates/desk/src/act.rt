//! A session's command, as work that a chair does on the journal while it has the turn, which is
//! the desk's lock.

use crate::journal::Journal;
use crate::receipt::Receipt;
use frames::register::Register;
use sessions::command::Command;
use std::alloc::Global;
use turn::Work;

/// The work that answers one command of a session.
#[derive(Drop)]
pub(crate) struct Act<'a> {
    pub(crate) alloc: Global,
    pub(crate) session: u32,
    pub(crate) if_at: Option<u64>,
    pub(crate) command: &'a Command,
}

impl<R: Register> Work<Journal<R>> for Act<'_> {
    ghost use Rattle.desk.specs.Works.{IsAct};

    type Out = Receipt;

    ghost relation = { λ work before after receipt _. IsAct R.behaviour work.session work.if_at work.command.now before after receipt };

    fn work(&mut self, journal: &mut Journal<R>, number: u32) -> Receipt {
        let book = &mut *journal.book;
        let reply = book.act(self.alloc, number, self.session, self.if_at, self.command);
        let at = u64::from(book.len());
        Receipt { at, reply }
    }
}
