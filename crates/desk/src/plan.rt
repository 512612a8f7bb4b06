//! The plan of a fill's round, as work that a chair does on the journal while it has the turn,
//! which is the desk's lock.

ghost use Rattle.cutoff.specs.Plans.{AnswersPlan};

use crate::journal::Journal;
use cutoff::plan::Job;
use frames::register::Register;
use schedule_trie::name::Name;
use schedule_trie::refusal::Refusal;
use sessions::book::Book;
use std::alloc::Global;
use turn::Work;

/// The work that lists the jobs (segments to replay) of a fill's round. The job of `branch`, if it
/// has one, comes first, then the jobs of the other branches.
#[derive(Drop)]
pub(crate) struct Plan<'a> {
    pub(crate) alloc: Global,
    pub(crate) branch: &'a Name,
}

impl<R: Register> Work<Journal<R>> for Plan<'_> {
    ghost use Rattle.desk.specs.Works.{IsReading, NeedsBranch};

    type Out = Result<Vec<Job<R>>, Refusal>;

    ghost relation = { λ work before after out _. IsReading R.behaviour (λ _ world. NeedsBranch work.branch.now world out) before after };

    fn work(&mut self, journal: &mut Journal<R>, _number: u32) -> Result<Vec<Job<R>>, Refusal> {
        let book = &*journal.book;
        book.lemma_invariant();
        jobs_left(self.alloc, book, self.branch)
    }
}

/// For each branch of a book, a job for its first segment that no stored run fits. The job of the
/// branch called `branch`, if it has one, comes first. No segment has two jobs. This contract says
/// which jobs are listed; the work's relation doesn't.
fn jobs_left<R: Register>(
    alloc: Global,
    book: &Book<R>,
    branch: &Name,
) -> Result<Vec<Job<R>>, Refusal>
    ensures { let chart = book.now.now.chart in
        AnswersPlan R.PartialEq.eq (R.behaviour chart.start.register) chart branch.now result }
{
    book.plan(alloc, branch)
}
