//! Tests of branches: their names, their refusals, and the segments into which edits cut them.
//! Edits are data, so that only one function holds a trie.

ghost use Rattle.std.specs.Prelude.{◌<◌, ◌≤◌};
ghost use Rattle.schedule_trie.specs.Trie.{AreLimits};
ghost use Rattle.branch_terms.specs.declared.limits.TheConstants.{MOST_CELLS_MADE};

mod limbs;

use crate::given::{
    Branch, BranchEdit, Change, GO, GO_CHOICE_1, READ, make_edits, name, none_wrong,
};
use frames::types::Step;
use schedule_trie::limits::Limits;
use schedule_trie::name::Name;
use schedule_trie::refusal::Refusal;
use schedule_trie::trie::{SegKey, Trie};
use std::alloc::{AllocError, Global};
use std::process::Abort;

/// `count` reads.
fn reads(alloc: Global, count: u32) -> Result<Vec<Step>, AllocError> {
    let mut steps = Vec::new(alloc);
    for _ in 0..count {
        steps.push(READ)?;
    }
    Ok(steps)
}

/// Limits that allow this number of cells.
fn limits(cells: u32) -> Limits
    requires { 0 < cells × cells ≤ MOST_CELLS_MADE }
    ensures { AreLimits result }
{
    Limits {
        cells,
        branches: 1024,
        log: 1024,
    }
}

/// Whether a text may be the name of a new branch; `None` if it isn't a name at all.
fn is_well_formed(text: &[u8]) -> Option<bool> {
    match Name::new(text) {
        Some(name) => Some(name.is_well_formed()),
        None => None,
    }
}

/// Whether names have at most 16 bytes, and a new branch's name is a lower-case letter, followed by
/// lower-case letters or digits.
fn name_rules_hold() -> bool {
    is_well_formed(b"abcdefghijklmnop") == Some(true)
        && is_well_formed(b"abcdefghijklmnopq").is_none()
        && is_well_formed(b"a1") == Some(true)
        && is_well_formed(b"aB") == Some(false)
        && is_well_formed(b"9x") == Some(false)
        && is_well_formed(b"") == Some(false)
}

#[test]
fn names(rt: HostRuntime) {
    assert!(rt; name_rules_hold());
}

/// Whether a name equals its clone, and differs from `other`.
fn is_itself(rt: &impl Abort, name: &Name, other: &Name) -> bool {
    let copy = name.clone().expect(rt, "memory");
    copy == *name && name != other
}

#[test]
fn a_name_is_its_clone(rt: HostRuntime) {
    let (a1, digit) = (name(&rt, b"a1"), name(&rt, b"9x"));
    assert!(rt; is_itself(&rt, &a1, &digit));
}

/// What is checked of a trie: the steps of `main`, the number of `main`'s segments, how many cells
/// were ever made, and whether each segment in memory is one of `main`'s.
#[derive(Drop)]
struct Summary {
    steps: Vec<Step>,
    segments: usize,
    made: u32,
    is_alone: bool,
}

/// The summary of a trie; `main` is the name of its first branch.
fn summary_of(alloc: Global, trie: &Trie<u32>, main: &Name) -> Result<Summary, Refusal> {
    let (segments, is_alone) = segments_of(alloc, trie, main)?;
    Ok(Summary {
        steps: trie.path(alloc, main)?,
        segments,
        made: trie.made(),
        is_alone,
    })
}

/// The number of a branch's segments, and whether each segment in memory is one of them.
fn segments_of(alloc: Global, trie: &Trie<u32>, branch: &Name) -> Result<(usize, bool), Refusal> {
    let keys = trie.segments(alloc, branch)?;
    Ok((keys.len(), holds_alone(trie, &keys)))
}

/// Whether each segment in memory has one of these keys. Keys from 4,096 on aren't tried.
fn holds_alone(trie: &Trie<u32>, keys: &[SegKey]) -> bool {
    for key in 0..4096 {
        if trie.cells_of(key).is_some() && !keys.contains(&key) {
            return false;
        }
    }
    true
}

/// The summary of a trie that has these steps on `main`, after edits.
fn summary_of_new_trie(
    rt: &impl Abort,
    alloc: Global,
    steps: &[Step],
    edits: &[BranchEdit],
) -> Result<Summary, Refusal> {
    let mut trie: Trie<u32> = Trie::new(alloc, limits(2046), steps)?;
    summary_after(rt, alloc, &mut trie, edits)
}

/// Makes edits of a trie, and returns its summary.
fn summary_after(
    rt: &impl Abort,
    alloc: Global,
    trie: &mut Trie<u32>,
    edits: &[BranchEdit],
) -> Result<Summary, Refusal> {
    make_edits(rt, alloc, trie, edits)?;
    summary_of(alloc, trie, &name(rt, b"main"))
}

/// Why a trie of these steps is refused if at most `cells` cells may be made; `None` if it isn't.
fn refused(alloc: Global, cells: u32, steps: &[Step]) -> Option<Refusal>
    requires { 0 < cells × cells ≤ MOST_CELLS_MADE }
{
    let trie: Result<Trie<u32>, Refusal> = Trie::new(alloc, limits(cells), steps);
    trie.err()
}

/// Whether five steps are refused if at most four cells may be made, and accepted if five may.
fn five_fit_in_five(rt: &impl Abort, alloc: Global) -> bool {
    let steps = reads(alloc, 5).expect(rt, "memory");
    refused(alloc, 4, &steps) == Some(Refusal::Full) && refused(alloc, 5, &steps).is_none()
}

#[test]
fn the_last_cell_that_fits(rt: HostRuntime) {
    assert!(rt; five_fit_in_five(&rt, rt.alloc()));
}

/// How many reads `main` has at first, a change of `main`, if any, and the numbers after it: the
/// segments of `main`, its cells, and the cells ever made.
type Cut = (u32, Option<Change>, (usize, usize, u32));

/// Segments have at most 128 cells. An insert cuts a full segment, and a fork cuts the segment that
/// it is within. A detached branch has new cells.
const CUTS: [Cut; 15] = [
    (0, None, (0, 0, 0)),
    (1, None, (1, 1, 1)),
    (128, None, (1, 128, 128)),
    (129, None, (2, 129, 129)),
    (300, None, (3, 300, 300)),
    (128, Some(Change::Insert(0, GO)), (2, 129, 129)),
    (128, Some(Change::Insert(63, GO)), (2, 129, 129)),
    (128, Some(Change::Insert(64, GO)), (2, 129, 129)),
    (128, Some(Change::Insert(127, GO)), (2, 129, 129)),
    (128, Some(Change::Insert(128, GO)), (2, 129, 129)),
    (128, Some(Change::Fork(0, Branch::A)), (1, 128, 128)),
    (128, Some(Change::Fork(1, Branch::A)), (2, 128, 128)),
    (128, Some(Change::Fork(127, Branch::A)), (2, 128, 128)),
    (128, Some(Change::Fork(128, Branch::A)), (1, 128, 128)),
    (1023, Some(Change::Detach), (8, 1023, 2046)),
];

/// The summary of a trie that has `count` reads on `main`, after the change, if any.
fn summary_of_reads(
    rt: &impl Abort,
    alloc: Global,
    count: u32,
    change: Option<Change>,
) -> Result<Summary, Refusal> {
    let steps = reads(alloc, count).expect(rt, "memory");
    match change {
        Some(change) => summary_of_new_trie(rt, alloc, &steps, &[(Branch::Main, change)]),
        None => summary_of_new_trie(rt, alloc, &steps, &[]),
    }
}

/// The index of the first row with wrong numbers.
fn first_wrong(rt: &impl Abort, alloc: Global) -> Result<Option<usize>, Refusal> {
    for (i, (count, change, expected)) in CUTS.iter().enumerate() {
        let summary = summary_of_reads(rt, alloc, *count, *change)?;
        if (summary.segments, summary.steps.len(), summary.made) != *expected {
            return Ok(Some(i));
        }
    }
    Ok(None)
}

#[test]
fn cuts(rt: HostRuntime) {
    none_wrong(&rt, first_wrong(&rt, rt.alloc()));
}

/// `a` is forked from both cells of `main`, and detached; then the last cell of `main` gets another
/// step.
const DETACH_REPLACE: [BranchEdit; 3] = [
    (Branch::Main, Change::Fork(2, Branch::A)),
    (Branch::A, Change::Detach),
    (Branch::Main, Change::Replace(1, GO_CHOICE_1)),
];

/// Whether `main` has the new step after `DETACH_REPLACE`, and one or two segments.
fn has_the_new_step(rt: &impl Abort, alloc: Global) -> Result<bool, Refusal> {
    let summary = summary_of_new_trie(rt, alloc, &[READ, GO], &DETACH_REPLACE)?;
    let steps: &[Step] = &[READ, GO_CHOICE_1];
    Ok(summary.steps.as_slice() == steps && (summary.segments == 1 || summary.segments == 2))
}

#[test]
fn detach_replace(rt: HostRuntime) {
    assert_eq!(rt; has_the_new_step(&rt, rt.alloc()), Ok(true));
}

/// The order in which 1,023 branches are dropped: from the first, from the last, or every seventh,
/// counted modulo 1,023.
#[derive(Clone, Copy)]
enum Order {
    FromTheFirst,
    FromTheLast,
    EverySeventh,
}

impl Order {
    /// The number of the branch that is dropped after `count` others.
    fn at(self, count: u32) -> u32
        requires { count < 1023 }
    {
        match self {
            Order::FromTheFirst => count,
            Order::FromTheLast => 1022 - count,
            Order::EverySeventh => count * 7 % 1023,
        }
    }
}

/// Edits of a trie that has 1,023 cells on `main`. They fork 1,023 branches, each one cell later
/// than the one before, and give each a cell of its own; then they drop all of them in this order.
fn branches_and_drops(alloc: Global, order: Order) -> Result<Vec<BranchEdit>, AllocError> {
    let mut edits = Vec::new(alloc);
    for number in 0..1023 {
        let branch = Branch::Other(number);
        edits.push((Branch::Main, Change::Fork(number + 1, branch)))?;
        edits.push((branch, Change::Insert(number + 1, GO)))?;
    }
    for count in 0..1023 {
        edits.push((Branch::Other(order.at(count)), Change::Drop))?;
    }
    Ok(edits)
}

/// Whether each segment in memory is one of `main`'s after all other branches are dropped in this
/// order.
fn leaves_nothing(rt: &impl Abort, alloc: Global, order: Order) -> Result<bool, Refusal> {
    let steps = reads(alloc, 1023).expect(rt, "memory");
    let edits = branches_and_drops(alloc, order).expect(rt, "memory");
    Ok(summary_of_new_trie(rt, alloc, &steps, &edits)?.is_alone)
}

/// The index of the first of three orders of drops after which a segment is left that isn't
/// `main`'s.
fn first_that_leaves(rt: &impl Abort, alloc: Global) -> Result<Option<usize>, Refusal> {
    let orders = [Order::FromTheFirst, Order::FromTheLast, Order::EverySeventh];
    for (i, order) in orders.iter().enumerate() {
        if !leaves_nothing(rt, alloc, *order)? {
            return Ok(Some(i));
        }
    }
    Ok(None)
}

#[test]
fn dropped_branches_leave_nothing(rt: HostRuntime) {
    none_wrong(&rt, first_that_leaves(&rt, rt.alloc()));
}

/// Whether refusals have their numbers and names.
fn refusals_are_reported(rt: &impl Abort, alloc: Global) -> bool {
    let text = format!(in alloc; "{}", Refusal::Newer(7)).expect(rt, "memory");
    text.as_str() == "34 Newer"
        && Refusal::TooManyBranches.number() == 26
        && Refusal::LastBranch.name() == "LastBranch"
}

#[test]
fn refusals_have_numbers_and_names(rt: HostRuntime) {
    assert!(rt; refusals_are_reported(&rt, rt.alloc()));
}
