//! The journal: the value that a desk's turn (its lock) guards.

ghost use Rattle.std.specs.Prelude.{◌≡◌, ◌+◌, [], length, ◌↔◌, IfOk};
ghost use Rattle.sessions.specs.Logs.{IsLegal};
ghost use Rattle.sessions.specs.Books.{opening_of};
ghost use Rattle.desk.specs.Items.{calls_in, items, made_under};

use crate::item::Item;
use frames::register::Register;
use sessions::book::Book;
use sessions::log::Log;
use snapshots::Snapshot;
use std::alloc::{AllocError, Global};
use std::marker::Model;
use turn::Counted;

/// A desk's book, and for proofs the book that the desk opened with. In contracts a journal is a
/// list: the opening, then the logged calls. The book is boxed, because a chair that takes the turn
/// moves the journal out of the turn, and later back.
#[derive(Drop)]
pub struct Journal<R: Register> {
    first: Snapshot<Book<R>>,
    pub(crate) book: Box<Book<R>>,
}

impl<R: Register> Model for Journal<R> {
    ghost use Rattle.std.specs.Prelude.{◌≡◌, List};
    ghost use Rattle.desk.specs.declared.item.Item.{Item};
    ghost use Rattle.desk.specs.Items.{items};
    ghost use Rattle.sessions.specs.Books.{opening_of};

    ghost Value = { List (Item R R.Pending) };

    ghost view = { λ j. items j.first.value j.book.value.log };

    ghost invariant = { λ j. opening_of R.behaviour j.book.value ≡ opening_of R.behaviour j.first.value };
}

impl<R: Register> Journal<R> {
    /// A journal that opens with this book, and has the calls in the book's log.
    pub(crate) fn new(alloc: Global, book: Book<R>) -> Result<Journal<R>, AllocError>
        ensures { IfOk result (λ journal. journal ≡ items book book.log) }
    {
        let first = Snapshot::of(&book);
        let book = Box::new(alloc, book)?;
        Ok(Journal { first, book })
    }

    /// The log of the journal's book, which has the journal's calls.
    pub(crate) fn into_log(self) -> Log
        ensures { result ≡ calls_in self }
    {
        let Self { first: _, book } = self;
        Box::into_inner(book).into_log()
    }
}

impl<R: Register> Counted for Journal<R> {
    ghost use Rattle.desk.specs.Items.{made_under};

    type Entry = Item<R>;

    ghost entries = { λ list. list };

    ghost by = { made_under };

    fn len(&self) -> u64 {
        u64::from(self.book.len()) + 1
    }
}
