//! Tests of books on one safe bit. What a book is asked is data, so that only one function makes a
//! book. Each call is in a function without `ensures` clauses, so that no later proof carries what
//! the call promises.

ghost use Rattle.std.specs.Prelude.{◌<◌};
ghost use Rattle.frames.specs.SafeBit.{safe_behaviour};
ghost use Rattle.frames.specs.Recorded.{AllFit};
ghost use Rattle.schedule_trie.specs.Trie.{AreLimits};

mod commands;
mod cursors;
mod drops_and_seeks;
mod refusals;
mod refused_writes;

use self::commands::go;
use crate::charts::single::{KeyedRun, only_run, page_once, text_once};
use cutoff::install::Installation;
use cutoff::plan::Job;
use frames::register::Register;
use frames::safe::Safe;
use frames::types::Step;
use schedule_trie::limits::Limits;
use schedule_trie::name::Name;
use schedule_trie::refusal::Refusal;
use sessions::book::Book;
use sessions::command::Command;
use sessions::reply::Reply;
use std::alloc::Global;
use views::page::Page;
use views::query::Query;
use views::slip::Slip;

/// What a book is asked, and the expected result.
#[derive(Clone, Copy)]
enum Ask<'a> {
    /// Session 0 gives this command without a guard, and gets this reply.
    Replies(Command, Reply),
    /// Session 0 gives this command without a guard, and is refused for this reason.
    Refuses(Command, Refusal),
    /// A session gives these commands with a guard that fails; each is refused for this reason.
    RefusesEach(u32, &'a [Command], Refusal),
    /// Session 0 gives these commands without a guard; each is refused for this reason.
    RefusesUnguarded(&'a [Command], Refusal),
    /// Session 0 gives these commands without a guard; each is refused for the reason next to it.
    RefusesAll(&'a [(Command, Refusal)]),
    /// A look's page has this text.
    Shows(Query, &'a [u8]),
    /// A look is refused for this reason.
    RefusesLook(Query, Refusal),
    /// Four sessions, numbered from this number on, join and move their cursors to places 0 to 3 of
    /// a branch.
    GoToFourPlaces(u32, &'a Name),
    /// The cursors of the four sessions from this number on are at these places of a branch.
    AreAt(u32, &'a Name, [u32; 4]),
    /// The log has this number of commands.
    HasLogged(u32),
    /// This number of edits was accepted.
    HasEdits(u64),
    /// A branch has one job, and has none after the run of that job is installed.
    Fills(&'a Name),
}

/// A guard that fails.
const MISSED: Option<u64> = Some(9);

/// A book's reply to a command.
fn answer<R: Register>(
    alloc: Global,
    book: &mut Book<R>,
    who: u32,
    if_at: Option<u64>,
    command: &Command,
) -> Reply {
    book.act(alloc, 0, who, if_at, command)
}

/// Whether a command is refused for this reason.
fn is_refused(
    alloc: Global,
    book: &mut Book<Safe>,
    who: u32,
    if_at: Option<u64>,
    command: &Command,
    refusal: Refusal,
) -> bool {
    answer(alloc, book, who, if_at, command) == Reply::No(refusal)
}

/// Gives a session's commands with this guard. Returns whether each is refused for this reason.
fn refuses_each(
    alloc: Global,
    book: &mut Book<Safe>,
    who: u32,
    if_at: Option<u64>,
    commands: &[Command],
    refusal: Refusal,
) -> bool {
    for command in commands {
        if !is_refused(alloc, book, who, if_at, command, refusal) {
            return false;
        }
    }
    true
}

/// Gives commands of session 0 without a guard. Returns whether each is refused for the reason next
/// to it.
fn refuses_all(alloc: Global, book: &mut Book<Safe>, rows: &[(Command, Refusal)]) -> bool {
    for (command, refusal) in rows {
        if !is_refused(alloc, book, 0, None, command, *refusal) {
            return false;
        }
    }
    true
}

/// The slip of a look.
fn slip<R: Register>(alloc: Global, book: &mut Book<R>, query: Query) -> Result<Slip<R>, Refusal> {
    book.look(alloc, query)
}

/// The page of a look.
fn page<R: Register>(alloc: Global, book: &mut Book<R>, query: Query) -> Result<Page, Refusal> {
    page_once(alloc, slip(alloc, book, query)?)
}

/// The text of a look's page.
fn text<R: Register>(alloc: Global, book: &mut Book<R>, query: Query) -> Result<Vec<u8>, Refusal> {
    text_once(alloc, slip(alloc, book, query)?)
}

/// Whether a look's page has this text.
fn shows(
    alloc: Global,
    book: &mut Book<Safe>,
    query: Query,
    expected: &[u8],
) -> Result<bool, Refusal> {
    Ok(text(alloc, book, query)?.as_slice() == expected)
}

/// Whether a look is refused for this reason.
fn refuses_look(alloc: Global, book: &mut Book<Safe>, query: Query, refusal: Refusal) -> bool {
    page(alloc, book, query).err() == Some(refusal)
}

/// A session joins, and moves its cursor to a place of a branch. Returns whether both were
/// accepted.
fn goes_to(alloc: Global, book: &mut Book<Safe>, who: u32, branch: &Name, place: u32) -> bool {
    let joined = answer(alloc, book, who, None, &Command::Join);
    let moved = answer(alloc, book, who, None, &go(branch, place));
    joined == Reply::Joined && moved == Reply::Moved(*branch, place)
}

/// Four sessions, numbered from `first` on, join and move their cursors to places 0 to 3 of a
/// branch. Returns whether all were accepted.
fn go_to_four_places(alloc: Global, book: &mut Book<Safe>, first: u32, branch: &Name) -> bool
    requires { first < 16 }
{
    for place in 0..4 {
        if !goes_to(alloc, book, first + place, branch, place) {
            return false;
        }
    }
    true
}

/// Whether a session's cursor is at a place of a branch.
fn is_cursor_of_session_at(
    alloc: Global,
    book: &mut Book<Safe>,
    who: u32,
    branch: &Name,
    place: u32,
) -> Result<bool, Refusal> {
    let page = page(alloc, book, Query::Cursor { who })?;
    Ok(is_cursor_at(&page, branch, place))
}

/// Whether the cursors of the four sessions from `first` on are at these places of a branch.
fn are_cursors_at(
    alloc: Global,
    book: &mut Book<Safe>,
    first: u32,
    branch: &Name,
    places: &[u32; 4],
) -> Result<bool, Refusal>
    requires { first < 16 }
{
    for i in 0..4u32 {
        if !is_cursor_of_session_at(alloc, book, first + i, branch, places[i as usize])? {
            return Ok(false);
        }
    }
    Ok(true)
}

/// Whether a page shows a cursor at this place of this branch.
fn is_cursor_at(page: &Page, branch: &Name, place: u32) -> bool {
    match page {
        Page::Cursor(page) => page.branch == *branch && page.place == place,
        _ => false,
    }
}

/// The jobs of a branch's plan.
fn jobs_of(alloc: Global, book: &Book<Safe>, branch: &Name) -> Result<Vec<Job<Safe>>, Refusal> {
    book.plan(alloc, branch)
}

/// The run of the only job in a branch's plan; `None` unless there is just one job.
fn only_run_of(
    alloc: Global,
    book: &Book<Safe>,
    branch: &Name,
) -> Result<Option<KeyedRun<Safe>>, Refusal> {
    let jobs = jobs_of(alloc, book, branch)?;
    only_run(alloc, &jobs)
}

/// Offers a run, and returns whether it was installed.
fn installs(book: &mut Book<Safe>, made: KeyedRun<Safe>) -> bool {
    let (key, run) = made;
    book.install(key, run) == Installation::Installed
}

/// Runs the only job of a branch, and installs the run. Returns whether there was just one job, and
/// the run was installed.
fn installs_only(alloc: Global, book: &mut Book<Safe>, branch: &Name) -> Result<bool, Refusal> {
    match only_run_of(alloc, book, branch)? {
        Some(made) => Ok(installs(book, made)),
        None => Ok(false),
    }
}

/// Runs the only job of a branch, and installs the run. Returns whether there was just one job, the
/// run was installed, and no job is left.
fn fills(alloc: Global, book: &mut Book<Safe>, branch: &Name) -> Result<bool, Refusal> {
    Ok(installs_only(alloc, book, branch)? && jobs_left(alloc, book, branch)? == 0)
}

/// The number of jobs in a branch's plan.
fn jobs_left(alloc: Global, book: &Book<Safe>, branch: &Name) -> Result<usize, Refusal> {
    let jobs = jobs_of(alloc, book, branch)?;
    Ok(jobs.len())
}

/// Whether the log has this number of commands.
fn has_logged(book: &Book<Safe>, count: u32) -> bool {
    book.len() == count
}

/// Whether this number of edits was accepted.
fn has_edits(book: &Book<Safe>, edits: u64) -> bool {
    book.edits() == edits
}

/// Asks a book, and returns whether the result is the expected one.
fn is_expected(alloc: Global, book: &mut Book<Safe>, ask: &Ask<'_>) -> Result<bool, Refusal> {
    match ask {
        Ask::Replies(command, reply) => Ok(answer(alloc, book, 0, None, command) == *reply),
        Ask::Refuses(command, refusal) => {
            Ok(is_refused(alloc, book, 0, None, command, *refusal))
        }
        Ask::RefusesEach(who, commands, refusal) => {
            Ok(refuses_each(alloc, book, *who, MISSED, commands, *refusal))
        }
        Ask::RefusesUnguarded(commands, refusal) => {
            Ok(refuses_each(alloc, book, 0, None, commands, *refusal))
        }
        Ask::RefusesAll(rows) => Ok(refuses_all(alloc, book, rows)),
        Ask::Shows(query, text) => shows(alloc, book, *query, text),
        Ask::RefusesLook(query, refusal) => Ok(refuses_look(alloc, book, *query, *refusal)),
        Ask::GoToFourPlaces(first, branch) => Ok(
            *first < 16 && go_to_four_places(alloc, book, *first, branch),
        ),
        Ask::AreAt(first, branch, places) => {
            Ok(*first < 16 && are_cursors_at(alloc, book, *first, branch, places)?)
        }
        Ask::HasLogged(count) => Ok(has_logged(book, *count)),
        Ask::HasEdits(edits) => Ok(has_edits(book, *edits)),
        Ask::Fills(branch) => fills(alloc, book, branch),
    }
}

/// The index of the first ask with a wrong result.
fn first_wrong(
    alloc: Global,
    book: &mut Book<Safe>,
    asks: &[Ask<'_>],
) -> Result<Option<usize>, Refusal> {
    for (i, ask) in asks.iter().enumerate() {
        if !is_expected(alloc, book, ask)? {
            return Ok(Some(i));
        }
    }
    Ok(None)
}

/// The index of the first ask with a wrong result, in a book with these steps on `main`; the number
/// of asks if the book's log doesn't have `entries` entries after them.
fn first_wrong_in_new_book(
    alloc: Global,
    limits: Limits,
    steps: &[Step],
    asks: &[Ask<'_>],
    entries: usize,
) -> Result<Option<usize>, Refusal>
    requires limits { AreLimits limits }
    requires fits { AllFit safe_behaviour steps.now }
{
    let mut book = Book::new(alloc, Safe, 0, limits, steps)?;
    let wrong = first_wrong(alloc, &mut book, asks);
    if entries_of(book) == entries {
        wrong
    } else {
        Ok(Some(asks.len()))
    }
}

/// The number of entries in a book's log.
fn entries_of(book: Book<Safe>) -> usize {
    book.into_log().as_slice().len()
}
