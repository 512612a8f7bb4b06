//! Books over `Switch`. Each call that promises much is in a function without `ensures` clauses, so
//! that no later proof carries what it promises.

use super::jobs::install_plan;
use super::shown::{both_texts, is_text, page_of};
use super::{limits, name};
use crate::registers::switch::Switch;
use crate::registers::{GO, READ, WRITE};
use schedule_trie::Refusal;
use sessions::{Book, Command, Entry, Reply};
use std::alloc::Global;
use std::process::Abort;
use std::test::Fail;
use views::{Break, Page, Query, Slip};

/// Each command once, by session 0, and the expected reply.
fn commands(rt: &impl Abort) -> [(Command, Reply); 13] {
    let (branch, a) = (name(rt, b"main"), name(rt, b"a"));
    [
        (Command::Join, Reply::Joined),
        (
            Command::Insert {
                b: branch,
                k: 1,
                step: GO,
            },
            Reply::Edited(1),
        ),
        (
            Command::Fork {
                b: branch,
                k: 2,
                name: a,
            },
            Reply::Edited(2),
        ),
        (Command::Detach { b: a }, Reply::Edited(3)),
        (Command::Remove { b: a, k: 1 }, Reply::Edited(4)),
        (
            Command::Replace {
                b: a,
                k: 0,
                step: WRITE,
            },
            Reply::Edited(5),
        ),
        (Command::Break(Break::Chosen), Reply::BreakSet),
        (Command::Go { b: branch, k: 1 }, Reply::Moved(branch, 1)),
        (Command::Seek, Reply::NoHit),
        (Command::Back, Reply::NoHit),
        (Command::Clear(Break::Chosen), Reply::BreakCleared),
        (Command::Drop { b: a }, Reply::Edited(6)),
        (Command::Leave, Reply::Left),
    ]
}

/// A book whose `main` is one read.
fn opened(alloc: Global) -> Result<Book<Switch>, Refusal> {
    Book::new(alloc, Switch, 0, limits(), &[READ])
}

/// Whether the reply to a command of session 0 is this one.
fn replies(alloc: Global, book: &mut Book<Switch>, command: &Command, reply: &Reply) -> bool {
    book.act(alloc, 0, 0, None, command) == *reply
}

/// Makes the calls of `commands`. Returns whether each reply was the expected one.
fn all_reply_as_expected(rt: &impl Abort, alloc: Global, book: &mut Book<Switch>) -> bool {
    let mut all = true;
    for (command, reply) in &commands(rt) {
        all &= replies(alloc, book, command, reply);
    }
    all
}

/// The slip of a look.
fn look(alloc: Global, book: &mut Book<Switch>, query: Query) -> Result<Slip<Switch>, Refusal> {
    book.look(alloc, query)
}

/// Looks, and makes the page.
fn page(alloc: Global, book: &mut Book<Switch>, query: Query) -> Result<Page, Refusal> {
    let slip = look(alloc, book, query)?;
    page_of(alloc, &slip).or(Err(Refusal::Memory))
}

/// Runs and installs all jobs of `main`'s plan. Returns whether each run was installed.
fn fill_main(rt: &impl Abort, alloc: Global, book: &mut Book<Switch>) -> Result<bool, Refusal> {
    Ok(install_plan(alloc, book, &name(rt, b"main"))?.is_some())
}

/// A book that is loaded from this book's limbs.
fn reloaded(alloc: Global, book: &Book<Switch>) -> Result<Book<Switch>, Refusal> {
    let limbs = book.limbs(alloc)?;
    Book::load(alloc, Switch, 0, limits(), limbs.as_slice())
}

/// The length of the log of a book that is loaded from this book's limbs.
fn loaded_log_len(alloc: Global, book: &Book<Switch>) -> Result<u32, Refusal> {
    let loaded = reloaded(alloc, book)?;
    Ok(loaded.len())
}

/// Whether the log begins with the call by which session 0 joined.
fn begins_with_join(book: Book<Switch>) -> bool {
    let log = book.into_log();
    let first = Entry {
        chair: 0,
        who: 0,
        if_at: None,
        command: Command::Join,
        reply: Reply::Joined,
    };
    log.as_slice().first() == Some(&first)
}

/// Whether the page of all branches has this text, both from the look and from a slip of the page.
fn shows_branches(alloc: Global, book: &mut Book<Switch>, text: &[u8]) -> Result<bool, Refusal> {
    let found = page(alloc, book, Query::Branches)?;
    let (first, again) = both_texts(alloc, found);
    Ok(is_text(&first, text) && is_text(&again, text))
}

/// The number of logged calls, and the number of edits.
fn counts(book: &Book<Switch>) -> (u32, u64) {
    (book.len(), book.edits())
}

#[test]
fn each_call_of_a_book(rt: HostRuntime) -> Result<(), Fail> {
    let mut book = opened(rt.alloc())?;
    assert!(rt; all_reply_as_expected(&rt, rt.alloc(), &mut book) && counts(&book) == (13, 6));
    let text = b"0: branches 1 edits 6 made 4\n  main 2\n".as_slice();
    assert!(rt; shows_branches(rt.alloc(), &mut book, text) == Ok(true));
    assert!(rt; fill_main(&rt, rt.alloc(), &mut book) == Ok(true));
    assert!(rt; loaded_log_len(rt.alloc(), &book) == Ok(0));
    assert!(rt; begins_with_join(book));
    Ok(())
}
