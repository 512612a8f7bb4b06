//! Tests of the limbs of a trie, and of tries that are loaded from limbs.

ghost use Rattle.std.specs.Prelude.{◌<◌, ◌≤◌, IfOk, length};
ghost use Rattle.schedule_trie.specs.Trie.{AreLimits};
ghost use Rattle.schedule_trie.specs.Limbs.{AreLawfulLimbs};
ghost use Rattle.branch_terms.specs.declared.limits.TheConstants.{MOST_CELLS_MADE};

use crate::given::{Branch, BranchEdit, Change, GO, GO_CHOICE_1, READ, make_edits};
use frames::types::Step;
use schedule_trie::limb::Limb;
use schedule_trie::limits::Limits;
use schedule_trie::refusal::Refusal;
use schedule_trie::trie::Trie;
use std::alloc::Global;
use std::process::Abort;

/// A write of 1 by process 0.
const WRITE_1: Step = Step::Write { p: 0, v: 1 };

/// A write of 0 by process 0.
const WRITE_0: Step = Step::Write { p: 0, v: 0 };

/// A limb: the branch's name, the index of the branch whose first cells it shares, how many cells
/// the two share, and the branch's own steps.
type Row = (&'static [u8], u32, u32, &'static [Step]);

/// Edits of a trie that has a read and a write on `main`. They make `a`, which shares the first
/// cell of `main`, and `b`, which shares both cells of `a`.
const THREE_BRANCHES: [BranchEdit; 4] = [
    (Branch::Main, Change::Fork(1, Branch::A)),
    (Branch::A, Change::Insert(1, GO)),
    (Branch::A, Change::Fork(2, Branch::B)),
    (Branch::B, Change::Insert(2, GO_CHOICE_1)),
];

/// The limbs of the three branches.
const LIMBS: [Row; 3] = [
    (b"main", 0, 0, &[READ, WRITE_1]),
    (b"a", 0, 1, &[GO]),
    (b"b", 1, 2, &[GO_CHOICE_1]),
];

/// The limbs of the three branches after a write of 0 is inserted before `a`'s own cell.
const INSERTED: [Row; 3] = [
    (b"main", 0, 0, &[READ, WRITE_1]),
    (b"a", 0, 1, &[WRITE_0, GO]),
    (b"b", 1, 3, &[GO_CHOICE_1]),
];

/// The limbs of the other two branches after the same insert and a drop of `a`.
const DROPPED: [Row; 2] = [
    (b"main", 0, 0, &[READ, WRITE_1]),
    (b"b", 0, 1, &[WRITE_0, GO, GO_CHOICE_1]),
];

/// Limits that allow these numbers of cells and of branches.
fn limits(cells: u32, branches: u32) -> Limits
    requires cells { 0 < cells × cells ≤ MOST_CELLS_MADE }
    requires branches { 0 < branches × branches ≤ 1024 }
    ensures { AreLimits result }
{
    Limits {
        cells,
        branches,
        log: 1,
    }
}

/// Makes edits of a trie, and returns its limbs.
fn limbs_after(
    rt: &impl Abort,
    alloc: Global,
    trie: &mut Trie<u32>,
    edits: &[BranchEdit],
) -> Result<Vec<Limb>, Refusal>
    ensures lawful { IfOk result (λ r. AreLawfulLimbs r.items) }
    ensures some { IfOk result (λ r. 0 < length r.items) }
{
    make_edits(rt, alloc, trie, edits)?;
    Ok(trie.limbs(alloc)?)
}

/// Makes edits of a trie that has a read and a write on `main`, and returns its limbs.
fn limbs_of(rt: &impl Abort, alloc: Global, edits: &[BranchEdit]) -> Result<Vec<Limb>, Refusal>
    ensures lawful { IfOk result (λ r. AreLawfulLimbs r.items) }
    ensures some { IfOk result (λ r. 0 < length r.items) }
{
    let mut trie: Trie<u32> = Trie::new(alloc, limits(64, 64), &[READ, WRITE_1])?;
    limbs_after(rt, alloc, &mut trie, edits)
}

/// Loads a trie from `limbs`, makes edits of it, and returns its limbs.
fn limbs_again(
    rt: &impl Abort,
    alloc: Global,
    limits: Limits,
    limbs: &[Limb],
    edits: &[BranchEdit],
) -> Result<Vec<Limb>, Refusal>
    requires limits { AreLimits limits }
    requires lawful { AreLawfulLimbs limbs.now }
    requires some { 0 < length limbs.now }
{
    let mut trie: Trie<u32> = Trie::load(alloc, limits, limbs)?;
    limbs_after(rt, alloc, &mut trie, edits)
}

/// Whether a limb is that of the row.
fn is_row(limb: &Limb, row: &Row) -> bool {
    let (name, from, shared, steps) = *row;
    limb.name.as_bytes() == name
        && (limb.from, limb.shared) == (from, shared)
        && limb.steps.as_slice() == steps
}

/// Whether the limbs are those of `rows`, in this order.
fn are_rows(limbs: &[Limb], rows: &[Row]) -> bool {
    limbs.len() == rows.len() && limbs.iter().zip(rows).all(|(limb, row)| is_row(limb, row))
}

/// Whether three branches have the same limbs after a load, and the expected ones after edits of a
/// loaded trie.
fn are_kept(rt: &impl Abort, alloc: Global) -> Result<bool, Refusal> {
    let limbs = limbs_of(rt, alloc, &THREE_BRANCHES)?;
    let again = limbs_again(rt, alloc, limits(64, 64), &limbs, &[])?;
    let insert = (Branch::A, Change::Insert(1, WRITE_0));
    let inserted = limbs_again(rt, alloc, limits(64, 64), &limbs, &[insert])?;
    let drop = (Branch::A, Change::Drop);
    let dropped = limbs_again(rt, alloc, limits(64, 64), &limbs, &[insert, drop])?;
    Ok(
        are_rows(&limbs, &LIMBS)
            && are_rows(&again, &LIMBS)
            && are_rows(&inserted, &INSERTED)
            && are_rows(&dropped, &DROPPED),
    )
}

#[test]
fn limbs_are_kept(rt: HostRuntime) {
    assert_eq!(rt; are_kept(&rt, rt.alloc()), Ok(true));
}

/// Why a load of the three branches is refused under these limits; `None` if it isn't.
fn refused(rt: &impl Abort, alloc: Global, cells: u32, branches: u32) -> Option<Refusal>
    requires cells { 0 < cells × cells ≤ MOST_CELLS_MADE }
    requires branches { 0 < branches × branches ≤ 1024 }
{
    let limbs = limbs_of(rt, alloc, &THREE_BRANCHES).ok()?;
    limbs_again(rt, alloc, limits(cells, branches), &limbs, &[]).err()
}

#[test]
fn loads_are_refused(rt: HostRuntime) {
    assert_eq!(rt; refused(&rt, rt.alloc(), 4, 3), None);
    assert_eq!(rt; refused(&rt, rt.alloc(), 3, 3), Some(Refusal::Full));
    assert_eq!(rt; refused(&rt, rt.alloc(), 3, 2), Some(Refusal::Full));
    assert_eq!(rt;
        refused(&rt, rt.alloc(), 4, 2),
        Some(Refusal::TooManyBranches)
    );
}
