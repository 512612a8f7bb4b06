//! What the tests share: steps, names, and edits of branches as data.

use frames::types::Step;
use schedule_trie::name::Name;
use schedule_trie::refusal::Refusal;
use schedule_trie::trie::Trie;
use std::alloc::Global;
use std::process::Abort;

/// A read by process 1 of a safe bit.
pub(crate) const READ: Step = Step::Read { p: 1 };

/// The next bit action of process 1, with choice 0.
pub(crate) const GO: Step = Step::Go { p: 1, c: 0 };

/// The next bit action of process 1, with choice 1.
pub(crate) const GO_CHOICE_1: Step = Step::Go { p: 1, c: 1 };

/// The name with this text, which must have at most 16 bytes.
pub(crate) fn name(rt: &impl Abort, text: &[u8]) -> Name {
    Name::new(text).expect(rt, "a short name")
}

/// A branch: `main`, `a`, `b`, or one that is named by a number.
#[derive(Clone, Copy)]
pub(crate) enum Branch {
    Main,
    A,
    B,
    Other(u32),
}

/// The name of a branch.
pub(crate) fn name_of(rt: &impl Abort, alloc: Global, branch: Branch) -> Name {
    match branch {
        Branch::Main => name(rt, b"main"),
        Branch::A => name(rt, b"a"),
        Branch::B => name(rt, b"b"),
        Branch::Other(number) => numbered_name(rt, alloc, number),
    }
}

/// The name of a branch by its number: the letter `b`, and the number.
fn numbered_name(rt: &impl Abort, alloc: Global, number: u32) -> Name {
    let text = format!(in alloc; "b{number}").expect(rt, "memory");
    name(rt, text.as_bytes())
}

/// What is done to a branch.
#[derive(Clone, Copy)]
pub(crate) enum Change {
    Insert(u32, Step),
    Replace(u32, Step),
    /// A new branch is forked from this one, after this number of cells.
    Fork(u32, Branch),
    Detach,
    Drop,
}

/// A branch, and a change of it.
pub(crate) type BranchEdit = (Branch, Change);

/// Makes an edit.
fn make_edit(
    rt: &impl Abort,
    alloc: Global,
    trie: &mut Trie<u32>,
    edit: BranchEdit,
) -> Result<(), Refusal> {
    let (branch, change) = edit;
    let branch = name_of(rt, alloc, branch);
    match change {
        Change::Insert(place, step) => trie.insert(alloc, &branch, place, step),
        Change::Replace(place, step) => trie.replace(&branch, place, step),
        Change::Fork(place, fresh) => trie.fork(alloc, &branch, place, name_of(rt, alloc, fresh)),
        Change::Detach => trie.detach(alloc, &branch),
        Change::Drop => trie.drop_branch(&branch),
    }
}

/// Makes edits one after the other.
pub(crate) fn make_edits(
    rt: &impl Abort,
    alloc: Global,
    trie: &mut Trie<u32>,
    edits: &[BranchEdit],
) -> Result<(), Refusal> {
    for edit in edits {
        make_edit(rt, alloc, trie, *edit)?;
    }
    Ok(())
}

/// Fails if a row went wrong, or a call was refused. Tests fail only in this function: wherever a
/// test may fail, a proof is needed that what the test holds is dropped.
pub(crate) fn none_wrong(rt: &impl Abort, wrong: Result<Option<usize>, Refusal>) {
    assert_eq!(rt; wrong, Ok(None));
}
