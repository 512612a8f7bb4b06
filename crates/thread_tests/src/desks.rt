//! Tests of desks on one safe bit: rows of calls, and chairs on threads of their own.

ghost use Rattle.std.specs.Prelude.{◌≡◌};
ghost use Rattle.frames.specs.SafeBit.{safe_behaviour};
ghost use Rattle.frames.specs.Recorded.{AllFit};
ghost use Rattle.turn.specs.Shares.{every_share};
ghost use Rattle.turn.specs.Chairs.{view};
ghost use Rattle.desk.specs.Chairs.{IsChairOf};

mod crossings;
mod fills;
mod forests;
mod guarded;
mod limbs;
mod many_edits;
mod news;
mod openings;
mod out_of_memory;
mod rounds;
mod side_by_side;
mod threads;
mod two_chairs;

use self::openings::limits;
use self::side_by_side::Work;
use desk::{Answer, Chair, Desk, Receipt};
use frames::safe::Safe;
use frames::types::Step;
use schedule_trie::name::Name;
use schedule_trie::refusal::Refusal;
use sessions::book::Book;
use sessions::command::Command;
use sessions::log::{Entry, Log};
use sessions::reply::Reply;
use std::alloc::Global;
use std::process::Abort;
use std::sync::Wait;
use std::thread::Threads;
use views::lens::Lens;
use views::page::{Page, page_text};
use views::query::Query;

const READ: Step = Step::Read { p: 1 };

/// Splits a chair with every share into two halves.
fn halves(desk: &Desk<Safe>, mut chair: Chair<Safe>) -> (Chair<Safe>, Chair<Safe>)
    requires chair { IsChairOf (λ _. safe_behaviour) desk.now chair }
    requires every { (view chair).shares ≡ every_share }
    ensures { IsChairOf (λ _. safe_behaviour) desk.now result.0
        × IsChairOf (λ _. safe_behaviour) desk.now result.1 }
{
    let other = desk.split(&mut chair, 8);
    (chair, other)
}

/// The name with this text, which has to be short enough for one.
pub(crate) fn name(rt: &impl Abort, text: &[u8]) -> Name {
    Name::new(text).expect(rt, "a short name")
}

/// An insert of a read at a place of `main`.
fn insert_at(rt: &impl Abort, place: u32) -> Command {
    Command::Insert {
        b: name(rt, b"main"),
        k: place,
        step: READ,
    }
}

/// A desk, with the runtime and the memory that its calls need.
#[derive(Drop)]
struct Tester<'a, R> {
    rt: &'a R,
    alloc: Global,
    desk: &'a Desk<Safe>,
}

impl<'a, R> Tester<'a, R> {
    fn new(rt: &'a R, alloc: Global, desk: &'a Desk<Safe>) -> Tester<'a, R>
        ensures { result.desk.now ≡ desk.now }
    {
        Tester { rt, alloc, desk }
    }
}

/// A session, its guard and its command.
type Call<'a> = (u32, Option<u64>, &'a Command);

impl<R: Wait> Tester<'_, R> {
    /// Gives the desk a command. Unlike that of `Desk::act`, this contract promises nothing about
    /// histories.
    fn act(&self, chair: &mut Chair<Safe>, call: Call<'_>) -> Receipt
        requires { IsChairOf (λ _. safe_behaviour) self.now.desk.now chair.old }
        ensures { IsChairOf (λ _. safe_behaviour) self.now.desk.now chair.new }
    {
        let (who, if_at, command) = call;
        self.desk
            .act(self.rt, self.alloc, chair, who, if_at, command)
    }

    /// Gives the desk an edit of session 0, and returns whether it was accepted.
    fn accepts(&self, chair: &mut Chair<Safe>, edit: &Command) -> bool
        requires { IsChairOf (λ _. safe_behaviour) self.now.desk.now chair.old }
        ensures { IsChairOf (λ _. safe_behaviour) self.now.desk.now chair.new }
    {
        let receipt = self.act(chair, (0, None, edit));
        matches!(receipt.reply, Reply::Edited(_))
    }

    /// Looks. Unlike that of `Desk::look`, this contract promises nothing about the answer.
    fn answered(&self, chair: &mut Chair<Safe>, lens: &mut Lens<Safe>, query: Query) -> Answer
        requires { IsChairOf (λ _. safe_behaviour) self.now.desk.now chair.old }
        ensures { IsChairOf (λ _. safe_behaviour) self.now.desk.now chair.new }
    {
        self.desk.look(self.rt, self.alloc, chair, lens, query)
    }

    /// The length of the history at a look by this lens, and the text of its page.
    fn text_by(
        &self,
        chair: &mut Chair<Safe>,
        lens: &mut Lens<Safe>,
        query: &Query,
    ) -> Result<(u64, Vec<u8>), Refusal>
        requires { IsChairOf (λ _. safe_behaviour) self.now.desk.now chair.old }
        ensures { IsChairOf (λ _. safe_behaviour) self.now.desk.now chair.new }
    {
        let answer = self.answered(chair, lens, *query);
        text_of_answer(self.alloc, &answer)
    }

    /// The length of the history at a look, and the text of its page.
    fn text_at(&self, chair: &mut Chair<Safe>, query: &Query) -> Result<(u64, Vec<u8>), Refusal>
        requires { IsChairOf (λ _. safe_behaviour) self.now.desk.now chair.old }
        ensures { IsChairOf (λ _. safe_behaviour) self.now.desk.now chair.new }
    {
        let Ok(mut lens) = Lens::new(self.alloc) else {
            return Err(Refusal::Memory);
        };
        self.text_by(chair, &mut lens, query)
    }
}

/// The text of a page.
fn text_of(alloc: Global, page: &Page) -> Result<Vec<u8>, Refusal> {
    page_text(alloc, 0, page).or(Err(Refusal::Memory))
}

/// The length of the history in an answer, and the text of its page.
fn text_of_answer(alloc: Global, answer: &Answer) -> Result<(u64, Vec<u8>), Refusal> {
    match &answer.result {
        Ok(page) => Ok((answer.at, text_of(alloc, page)?)),
        Err(refusal) => Err(*refusal),
    }
}

/// Whether two texts are equal. A test that owns a desk compares by this call, which promises
/// nothing.
fn is_text(text: &[u8], expected: &[u8]) -> bool {
    text == expected
}

/// Asks for news. Unlike that of `Desk::news`, this contract promises nothing about the answer.
fn asked(desk: &Desk<Safe>, chair: &mut Chair<Safe>) -> u64
    requires { IsChairOf (λ _. safe_behaviour) desk.now chair.old }
    ensures { IsChairOf (λ _. safe_behaviour) desk.now chair.new }
{
    desk.news(chair)
}

/// Joins another chair to this one. Unlike that of `Desk::join`, this contract promises nothing
/// about histories.
fn take_in(desk: &Desk<Safe>, chair: &mut Chair<Safe>, other: Chair<Safe>)
    requires { IsChairOf (λ _. safe_behaviour) desk.now chair.old
        × IsChairOf (λ _. safe_behaviour) desk.now other }
    ensures { IsChairOf (λ _. safe_behaviour) desk.now chair.new }
{
    desk.join(chair, other);
}

/// Closes the desk and returns its log; `None` if the chair lacks a share.
fn closed(desk: Desk<Safe>, chair: Chair<Safe>) -> Option<Log>
    requires { IsChairOf (λ _. safe_behaviour) desk chair }
{
    desk.close(chair).ok()
}

/// Joins two chairs, and closes the desk. Returns the log; `None` if the chairs together lack a
/// share.
fn closed_with(desk: Desk<Safe>, mut first: Chair<Safe>, second: Chair<Safe>) -> Option<Log>
    requires { IsChairOf (λ _. safe_behaviour) desk first
        × IsChairOf (λ _. safe_behaviour) desk second }
{
    take_in(&desk, &mut first, second);
    closed(desk, first)
}

/// Gives a book a logged call, and returns whether its reply is the logged one.
fn replies_as_logged(alloc: Global, book: &mut Book<Safe>, entry: &Entry) -> bool {
    book.act(alloc, entry.chair, entry.who, entry.if_at, &entry.command) == entry.reply
}

/// A new book of these steps. Unlike that of `Book::new`, this contract promises nothing about the
/// book.
fn book_of(alloc: Global, steps: &[Step]) -> Result<Book<Safe>, Refusal>
    requires { AllFit safe_behaviour steps.now }
{
    Book::new(alloc, Safe, 0, limits(1024), steps)
}

/// Gives a book the calls of a log, and returns whether each reply is the logged one.
fn replies_to(alloc: Global, book: &mut Book<Safe>, log: &Log) -> bool {
    let mut all = true;
    for entry in log.as_slice() {
        all &= replies_as_logged(alloc, book, entry);
    }
    all
}

/// A log and a text; `None` if something went wrong, or there is no log.
fn log_and_text_if(
    fine: bool,
    log: Option<Log>,
    text: Result<(u64, Vec<u8>), Refusal>,
) -> Result<Option<(Log, Vec<u8>)>, Refusal> {
    let (_, text) = text?;
    match log {
        Some(log) if fine => Ok(Some((log, text))),
        _ => Ok(None),
    }
}

/// Splits a desk's only chair into halves, the first of which makes these edits. Then the two do
/// their work at the same time, a look is made, and the desk is closed. Returns the log and the
/// text of the look's page; `None` if something went wrong.
fn log_and_text<R: Abort + Threads + Wait + Sync>(
    rt: &R,
    alloc: Global,
    opened: (Desk<Safe>, Chair<Safe>),
    edits: &[Command],
    works: (Work, Work),
    query: &Query,
) -> Result<Option<(Log, Vec<u8>)>, Refusal>
    requires chair { IsChairOf (λ _. safe_behaviour) opened.0 opened.1 }
    requires every { (view opened.1).shares ≡ every_share }
{
    let (desk, chair) = opened;
    let (mut first, second) = halves(&desk, chair);
    let tester = Tester::new(rt, alloc, &desk);
    let edited = tester.act_all(&mut first, edits);
    let (mut chair, fine) = tester.side_by_side((first, works.0), (second, works.1));
    let text = tester.text_at(&mut chair, query);
    let log = closed(desk, chair);
    log_and_text_if(edited && fine, log, text)
}
