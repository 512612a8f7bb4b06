//! Row `bench-file` by calls: a chart, a book and a desk that are loaded from limbs have the same
//! limbs.

ghost use Rattle.std.specs.Prelude.{◌≡◌, ◌<◌, Some, IfOk, length};
ghost use Rattle.frames.specs.SafeBit.{safe_behaviour};
ghost use Rattle.schedule_trie.specs.Names.{name_of_bytes};
ghost use Rattle.schedule_trie.specs.Limbs.{AreLawfulLimbs};
ghost use Rattle.cutoff.specs.Charts.{LimbsFit};
ghost use Rattle.desk.specs.Chairs.{IsChairOf};

use super::openings::limits;
use super::{READ, Tester};
use cutoff::chart::Chart;
use desk::{Chair, Desk, Saved};
use frames::safe::Safe;
use frames::types::Step;
use schedule_trie::limb::{Limb, Steps};
use schedule_trie::name::Name;
use schedule_trie::refusal::Refusal;
use sessions::book::Book;
use std::alloc::{AllocError, Global};
use std::process::Abort;
use std::sync::Wait;

/// A write of 1 by process 0.
const WRITE: Step = Step::Write { p: 0, v: 1 };

/// The next bit action of process 1, with choice 0; that of `GO_ON` has choice 1.
const GO: Step = Step::Go { p: 1, c: 0 };

const GO_ON: Step = Step::Go { p: 1, c: 1 };

/// The limb of the branch that is named `text`, shares the first `shared` cells of the branch with
/// index `from`, and has these steps of its own.
fn limb(
    rt: &impl Abort,
    alloc: Global,
    text: &[u8],
    from: u32,
    shared: u32,
    steps: &[Step],
) -> Result<Limb, AllocError>
    ensures name_of_bytes { IfOk result (λ l. name_of_bytes text.now ≡ Some l.name) }
    ensures shares { IfOk result (λ l. (l.from ≡ from) × (l.shared ≡ shared)) }
    ensures steps { IfOk result (λ l. l.steps ≡ steps.now) }
{
    Ok(Limb {
        name: Name::new(text).expect(rt, "a short name"),
        from,
        shared,
        steps: Steps::new(Vec::from_slice(alloc, steps)?),
    })
}

/// The limbs of three branches. `main` has a read and a write; `a` shares the first cell of `main`,
/// and `b` both cells of `a`.
fn three_branches(rt: &impl Abort, alloc: Global) -> Result<Vec<Limb>, AllocError>
    ensures lawful { IfOk result (λ r. AreLawfulLimbs r.items) }
    ensures some { IfOk result (λ r. 0 < length r.items) }
    ensures fit { IfOk result (λ r. LimbsFit safe_behaviour r.items) }
{
    let mut limbs = Vec::new(alloc);
    limbs.push(limb(rt, alloc, b"main", 0, 0, &[READ, WRITE])?)?;
    limbs.push(limb(rt, alloc, b"a", 0, 1, &[GO])?)?;
    limbs.push(limb(rt, alloc, b"b", 1, 2, &[GO_ON])?)?;
    Ok(limbs)
}

/// Whether two limbs have the same own steps.
fn has_same_steps(a: &Limb, b: &Limb) -> bool {
    a.steps.as_slice() == b.steps.as_slice()
}

/// Whether two limbs are equal.
fn is_same(a: &Limb, b: &Limb) -> bool {
    a.name == b.name && a.from == b.from && a.shared == b.shared && has_same_steps(a, b)
}

fn are_same(some: &[Limb], others: &[Limb]) -> bool {
    some.len() == others.len() && some.iter().zip(others).all(|(a, b)| is_same(a, b))
}

/// A chart that is loaded from limbs. Unlike that of `Chart::load`, this contract promises nothing
/// about the chart.
fn loaded_chart(alloc: Global, limbs: &[Limb]) -> Result<Chart<Safe>, Refusal>
    requires { AreLawfulLimbs limbs.now × (0 < length limbs.now)
        × LimbsFit safe_behaviour limbs.now }
{
    Chart::load(alloc, Safe, 0, limits(1), limbs)
}

/// A book that is loaded from limbs. Unlike that of `Book::load`, this contract promises nothing
/// about the book.
fn loaded_book(alloc: Global, limbs: &[Limb]) -> Result<Book<Safe>, Refusal>
    requires { AreLawfulLimbs limbs.now × (0 < length limbs.now)
        × LimbsFit safe_behaviour limbs.now }
{
    Book::load(alloc, Safe, 0, limits(1), limbs)
}

/// A chart or a book, which has limbs.
trait Branching {
    fn limbs_now(&self, alloc: Global) -> Result<Vec<Limb>, AllocError>;
}

impl Branching for Chart<Safe> {
    fn limbs_now(&self, alloc: Global) -> Result<Vec<Limb>, AllocError> {
        self.limbs(alloc)
    }
}

impl Branching for Book<Safe> {
    fn limbs_now(&self, alloc: Global) -> Result<Vec<Limb>, AllocError> {
        self.limbs(alloc)
    }
}

/// Whether what was loaded from limbs has the same limbs.
fn keeps_limbs<T: Branching + Drop>(
    alloc: Global,
    loaded: Result<T, Refusal>,
    limbs: &[Limb],
) -> Result<bool, Refusal> {
    let loaded = loaded?;
    Ok(are_same(&loaded.limbs_now(alloc)?, limbs))
}

/// A desk that is opened from limbs, and its first chair.
fn loaded_desk(alloc: Global, limbs: &[Limb]) -> Result<(Desk<Safe>, Chair<Safe>), Refusal>
    requires { AreLawfulLimbs limbs.now × (0 < length limbs.now)
        × LimbsFit safe_behaviour limbs.now }
    ensures { IfOk result (λ r. IsChairOf (λ _. safe_behaviour) r.0 r.1) }
{
    Desk::open_limbs(alloc, Safe, 0, limits(1), limbs)
}

/// Whether a save was made before the first call, and has these limbs.
fn is_saved_at_opening(saved: &Saved, limbs: &[Limb]) -> bool {
    saved.at == 0 && are_same(saved.limbs.as_slice(), limbs)
}

impl<R: Wait> Tester<'_, R> {
    /// Saves the desk. Unlike that of `Desk::limbs`, this contract promises nothing about the
    /// limbs.
    fn saved(&self, chair: &mut Chair<Safe>) -> Result<Saved, Refusal>
        requires { IsChairOf (λ _. safe_behaviour) self.now.desk.now chair.old }
        ensures { IsChairOf (λ _. safe_behaviour) self.now.desk.now chair.new }
    {
        self.desk.limbs(self.rt, self.alloc, chair)
    }

    /// Whether the desk has these limbs before its first call.
    fn has_limbs(&self, chair: &mut Chair<Safe>, limbs: &[Limb]) -> Result<bool, Refusal>
        requires { IsChairOf (λ _. safe_behaviour) self.now.desk.now chair.old }
        ensures { IsChairOf (λ _. safe_behaviour) self.now.desk.now chair.new }
    {
        let saved = self.saved(chair)?;
        Ok(is_saved_at_opening(&saved, limbs))
    }
}

/// Whether a desk that is opened from limbs has the same limbs before its first call.
fn desk_keeps_limbs<R: Wait>(rt: &R, alloc: Global, limbs: &[Limb]) -> Result<bool, Refusal>
    requires { AreLawfulLimbs limbs.now × (0 < length limbs.now)
        × LimbsFit safe_behaviour limbs.now }
{
    let (desk, mut chair) = loaded_desk(alloc, limbs)?;
    Tester::new(rt, alloc, &desk).has_limbs(&mut chair, limbs)
}

/// Whether a chart, a book and a desk that are loaded from limbs have the same limbs.
fn all_keep_limbs<R: Wait>(rt: &R, alloc: Global, limbs: &[Limb]) -> Result<bool, Refusal>
    requires { AreLawfulLimbs limbs.now × (0 < length limbs.now)
        × LimbsFit safe_behaviour limbs.now }
{
    let by_chart = keeps_limbs(alloc, loaded_chart(alloc, limbs), limbs)?;
    let by_book = keeps_limbs(alloc, loaded_book(alloc, limbs), limbs)?;
    Ok(by_chart && by_book && desk_keeps_limbs(rt, alloc, limbs)?)
}

/// Whether a chart, a book and a desk that are loaded from three branches have the same limbs.
fn all_keep_three_branches<R: Abort + Wait>(rt: &R, alloc: Global) -> Result<bool, Refusal> {
    let limbs = three_branches(rt, alloc)?;
    all_keep_limbs(rt, alloc, &limbs)
}

#[test]
fn limbs_are_reported_again(rt: HostRuntime) {
    assert_eq!(rt; all_keep_three_branches(&rt, rt.alloc()), Ok(true));
}

/// If memory runs out, the refusal is always Memory.
#[test]
fn limbs_out_of_memory(rt: HostRuntime) {
    let reported = all_keep_three_branches(&rt, rt.alloc());
    assert!(rt; reported == Ok(true) || reported == Err(Refusal::Memory));
}
