//! Branches: forests, charts and books.

ghost use Rattle.schedule_trie.specs.Trie.{AreLimits};

mod books;
pub(crate) mod charts;
mod forests;
pub(crate) mod jobs;
mod lists;
mod made_pages;
pub(crate) mod shown;

use crate::registers::{GO, READ, WRITE};
use frames::Step;
use schedule_trie::{Edit, Limits, Name, Refusal};
use std::process::Abort;

/// Limits that are ample for these tests.
pub(crate) fn limits() -> Limits
    ensures { AreLimits result }
{
    Limits {
        cells: 64,
        branches: 4,
        log: 64,
    }
}

/// A branch name.
pub(crate) fn name(rt: &impl Abort, text: &[u8]) -> Name {
    Name::new(text).expect(rt, "a short name")
}

/// The names of the branches that `edits` edits.
fn names(rt: &impl Abort) -> [Name; 3] {
    [name(rt, b"main"), name(rt, b"a"), name(rt, b"b")]
}

/// Each kind of edit, for branches of which `main` is one read. Then `main` is a write, a read and
/// a bit action, and `a` is only the read.
fn edits(names: &[Name; 3]) -> [Edit<'_>; 8] {
    let [main, a, b] = names;
    [
        Edit::Insert(main, 1, GO),
        Edit::Fork(main, 2, a),
        Edit::Detach(a),
        Edit::Remove(a, 1),
        Edit::Fork(main, 1, b),
        Edit::Drop(b),
        Edit::Insert(main, 0, READ),
        Edit::Replace(main, 0, WRITE),
    ]
}

/// Whether these are the steps of `main` after `edits`.
fn are_edited(steps: &Result<Vec<Step>, Refusal>) -> bool {
    match steps {
        Ok(steps) => steps.as_slice() == [WRITE, READ, GO].as_slice(),
        Err(_) => false,
    }
}
