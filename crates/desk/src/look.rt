//! A look, as work that a chair does on the journal while it has the turn, which is the desk's
//! lock.

use crate::journal::Journal;
use frames::register::Register;
use schedule_trie::refusal::Refusal;
use std::alloc::Global;
use turn::Work;
use views::query::Query;
use views::slip::Slip;

/// The work that looks. It returns the history's length, and either a slip, from which the page is
/// made after the turn is given back, or why the look is refused.
#[derive(Drop)]
pub(crate) struct Look {
    pub(crate) alloc: Global,
    pub(crate) query: Query,
}

impl<R: Register> Work<Journal<R>> for Look {
    ghost use Rattle.desk.specs.Works.{IsLook, answer_by};

    type Out = (u64, Result<Slip<R>, Refusal>);

    ghost relation = { λ work before after out _. IsLook R.behaviour work.query before after out.0 (answer_by out.1) };

    fn work(&mut self, journal: &mut Journal<R>, _number: u32) -> (u64, Result<Slip<R>, Refusal>) {
        let book = &mut *journal.book;
        let slip = book.look(self.alloc, self.query);
        (u64::from(book.len()), slip)
    }
}
