//! Forests of branches that share steps, with a note for each segment.

use super::{are_edited, edits, limits, name, names};
use crate::registers::{READ, WRITE};
use schedule_trie::{Edit, Limb, Name, Refusal, Slot, Steps, Trie};
use std::alloc::Global;
use std::process::Abort;
use std::test::Fail;

/// Makes an edit, by the call for its kind.
fn make(alloc: Global, trie: &mut Trie<u32>, edit: &Edit<'_>) -> Result<(), Refusal> {
    match *edit {
        Edit::Insert(branch, place, step) => trie.insert(alloc, branch, place, step),
        Edit::Remove(branch, place) => trie.remove(branch, place),
        Edit::Replace(branch, place, step) => trie.replace(branch, place, step),
        Edit::Fork(branch, place, name) => trie.fork(alloc, branch, place, *name),
        Edit::Detach(branch) => trie.detach(alloc, branch),
        Edit::Drop(branch) => trie.drop_branch(branch),
    }
}

/// Makes each edit.
fn make_all(alloc: Global, trie: &mut Trie<u32>, names: &[Name; 3]) -> Result<(), Refusal> {
    for edit in &edits(names) {
        make(alloc, trie, edit)?;
    }
    Ok(())
}

/// A forest after all edits. The contract promises nothing, so that the tests' proofs stay small.
fn edited(alloc: Global, names: &[Name; 3]) -> Result<Trie<u32>, Refusal> {
    let mut trie = Trie::new(alloc, limits(), &[READ])?;
    make_all(alloc, &mut trie, names)?;
    Ok(trie)
}

/// Whether `main` and `a` have three steps and one.
fn has_lengths(trie: &Trie<u32>, main: &Name, a: &Name) -> bool {
    (trie.len(main), trie.len(a)) == (Some(3), Some(1))
}

/// Compares what is read of branches after all edits.
fn check_branches(rt: &impl Abort, trie: &Trie<u32>, main: &Name, a: &Name) {
    assert_eq!(rt; (trie.branches(), trie.made()), (2, 5));
    assert!(rt; has_lengths(trie, main, a));
    assert!(rt; trie.cell_at(main, 0) == Some(4) && trie.place_of(main, 4) == Some(0));
    assert!(rt; trie.name_at(1) == Some(*a));
}

/// Whether `main` has the steps that all edits give it.
fn has_steps(alloc: Global, trie: &Trie<u32>, main: &Name) -> bool {
    are_edited(&trie.path(alloc, main))
}

/// Whether a note of `main`'s first segment is kept and then removed, the segment begins with
/// `main`'s first cell, and there is no segment above it.
fn has_notes(alloc: Global, trie: &mut Trie<u32>, main: &Name) -> Result<bool, Refusal> {
    let keys = trie.segments(alloc, main)?;
    let Some(key) = keys.as_slice().first().copied() else {
        return Ok(false);
    };
    trie.set_note(key, Some(5));
    let kept = trie.note(key) == Some(&5);
    trie.set_note(key, None);
    let first = Slot {
        cell: 4,
        step: WRITE,
    };
    let is_first = trie
        .cells_of(key)
        .is_some_and(|cells| cells.first() == Some(&first));
    Ok(kept && is_first && trie.note(key).is_none() && trie.above(key).is_none())
}

#[test]
fn each_call_of_a_forest(rt: HostRuntime) -> Result<(), Fail> {
    let names = names(&rt);
    let [main, a, _] = &names;
    let mut trie = edited(rt.alloc(), &names)?;
    check_branches(&rt, &trie, main, a);
    assert!(rt; has_steps(rt.alloc(), &trie, main));
    assert!(rt; has_notes(rt.alloc(), &mut trie, main) == Ok(true));
    Ok(())
}

/// A forest that is loaded from this forest's limbs.
fn reloaded(alloc: Global, trie: &Trie<u32>) -> Result<Trie<u32>, Refusal> {
    let limbs = trie.limbs(alloc)?;
    Trie::load(alloc, limits(), limbs.as_slice())
}

#[test]
fn limbs_are_loaded(rt: HostRuntime) -> Result<(), Fail> {
    let names = names(&rt);
    let [main, a, _] = &names;
    let trie = edited(rt.alloc(), &names)?;
    let loaded = reloaded(rt.alloc(), &trie)?;
    assert!(rt; has_lengths(&loaded, main, a));
    Ok(())
}

#[test]
fn limb_has_a_list_of_steps(rt: HostRuntime) -> Result<(), Fail> {
    let mut steps = Steps::new(Vec::new(rt.alloc()));
    steps.push(READ)?;
    let limb = Limb {
        name: name(&rt, b"main"),
        from: 0,
        shared: 0,
        steps,
    };
    assert_eq!(rt; limb.steps.as_slice(), [READ].as_slice());
    Ok(())
}
