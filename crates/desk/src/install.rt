//! The install of a job's run, as work that a chair does on the journal while it has the turn,
//! which is the desk's lock.

ghost use Rattle.std.specs.Arc.{arc_value};
ghost use Rattle.cutoff.specs.Installs.{Installs};
ghost use Rattle.sessions.specs.Books.{KeepsWorld};

use crate::journal::Journal;
use checkpoints::run::Run;
use cutoff::install::Installation;
use frames::register::Register;
use schedule_trie::trie::SegKey;
use sessions::book::Book;
use std::sync::Arc;
use turn::Work;

/// The work that installs a job's run. It stores the run if the job's segment, which has the key
/// `key`, is still there, and the run fits this segment, and stored runs fit all segments above it.
/// If the job ran out of memory, `run` is `None`, and the work does nothing.
#[derive(Drop)]
pub(crate) struct Install<R: Register> {
    pub(crate) key: SegKey,
    pub(crate) run: Option<Arc<Run<R>>>,
}

impl<R: Register> Work<Journal<R>> for Install<R> {
    ghost use Rattle.desk.specs.Works.{IsReading};

    type Out = Option<Installation>;

    ghost relation = { λ _ before after _ _. IsReading R.behaviour (λ _ _. Unit {0}) before after };

    fn work(&mut self, journal: &mut Journal<R>, _number: u32) -> Option<Installation> {
        let book = &mut *journal.book;
        book.lemma_invariant();
        let run = self.run.take()?;
        let answer = install_in(book, self.key, run);
        book.lemma_invariant();
        Some(answer)
    }
}

/// Stores a run in a book, as `Book::install` does. World and log are unchanged. This contract says
/// which run is stored; the work's relation doesn't.
fn install_in<R: Register>(book: &mut Book<R>, key: SegKey, run: Arc<Run<R>>) -> Installation
    ensures installs { let old = book.old.now.chart in
        Installs R.PartialEq.eq (R.behaviour old.start.register) old book.new.now.chart key
        (arc_value run) result }
    ensures kept { KeepsWorld R.behaviour book.old book.new }
{
    book.install(key, run)
}
