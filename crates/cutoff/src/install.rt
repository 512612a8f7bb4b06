//! Installing a run that was made outside the chart: tests whether it fits a segment.

ghost use Rattle.std.specs.Prelude.{◌≡◌, ℕ, None, Some, IsSome, true, false, map};
ghost use Rattle.std.specs.Bool.{Decides};
ghost use Rattle.schedule_trie.specs.Forest.{step_of};
ghost use Rattle.schedule_trie.specs.Trie.{has, keys_in, segment_at, IsCut};
ghost use Rattle.checkpoints.specs.Runs.{IsTrueRun};
ghost use Rattle.cutoff.specs.Fitting.{steps_at};
ghost use Rattle.frames.specs.Recorded.{without_register};
ghost use Rattle.cutoff.specs.Links.{AreLinked, IsLinked, IsLinkedAt};
ghost use Rattle.cutoff.specs.Plans.{FitsDown};
ghost use Rattle.cutoff.specs.Prefixes.{RunsLeadTo, AreFresh};

use crate::climb::runs_lead_to;
use crate::number::RunNumber;
use crate::segment::segment_cells;
use crate::stored::{Stored, entry_below, stored_at};
use checkpoints::run::Run;
use frames::config::Config;
use frames::register::Register;
use frames::types::Step;
use schedule_trie::slot::Slot;
use schedule_trie::trie::{SegKey, Trie};

/// The result of an attempt to store a run that was made outside the chart.
#[derive(Clone, Copy, Debug, PartialEq, Eq)]
pub enum Installation {
    /// The run fits, and is stored.
    Installed,
    /// The run doesn't fit, or a segment above has no stored run that fits.
    Stale,
    /// No segment has the key.
    Gone,
}

/// Whether `run` fits the segment `key`, and stored runs fit all segments above. Down to a run that
/// was last found to fit with the number `fresh` or a greater one, stored runs are known to fit. If
/// all fit, also returns the number of the run stored right above `key`, if there is such a run and
/// it has a number.
pub(crate) fn fits_down<R: Register>(
    trie: &Trie<Stored<R>>,
    start: &Config<R>,
    fresh: RunNumber,
    key: SegKey,
    run: &Run<R>,
) -> (bool, RunNumber)
    requires linked { AreLinked R.PartialEq.eq start.now trie.now }
    requires cut { IsCut trie.now }
    requires fresh { AreFresh R.PartialEq.eq R.behaviour trie.now start.now fresh }
    requires there { IsSome (segment_at trie.now.segments key) }
    ensures fits { (i : ℕ) → has key (keys_in trie.now.branches i) ≡ true
        → Decides result.0
        (FitsDown R.PartialEq.eq (R.behaviour start.now.register) trie.now key run.now
        start.now (keys_in trie.now.branches i)) }
    ensures moved { result.0 ≡ true → (next : ℕ)
        → IsLinkedAt R.PartialEq.eq start.now next None trie.now
        → IsLinked R.PartialEq.eq start.now.register next result.1 (without_register run.now.entry)
        trie.now }
    ensures runs { result.0 ≡ true
        → RunsLeadTo R.PartialEq.eq R.behaviour trie.now start.now key run.now }
    ensures kept { result.0 ≡ true → IsTrueRun (R.behaviour run.now.entry.register) run.now }
{
    if !has_steps(trie, key, run.steps()) {
        return (false, RunNumber::none());
    }
    let above = trie.above(key);
    if !runs_lead_to(trie, start, fresh, above, run.entry()) {
        return (false, RunNumber::none());
    }
    let (_, number) = entry_below(start, stored_at(trie, above));
    (true, number)
}

/// Whether there is a segment with this key.
pub(crate) fn has_segment<R: Register>(trie: &Trie<Stored<R>>, key: SegKey) -> bool
    ensures yes { result ≡ true → IsSome (segment_at trie.now.segments key) }
    ensures no { result ≡ false → segment_at trie.now.segments key ≡ None }
{
    trie.cells_of(key).is_some()
}

/// Whether the segment `key` has these steps.
fn has_steps<R: Register>(trie: &Trie<Stored<R>>, key: SegKey, steps: &[Step]) -> bool
    ensures { Decides result (steps.now ≡ steps_at trie.now key) }
{
    are_steps(segment_cells(trie, key), steps)
}

/// Whether the cells `slots` have these steps.
fn are_steps(slots: &[Slot], steps: &[Step]) -> bool
    ensures { Decides result (steps.now ≡ map step_of slots.now) }
{
    if slots.len() != steps.len() {
        return false;
    }
    for (index, slot) in slots.iter().enumerate() {
        if !is_same(&steps[index], &slot.step) {
            return false;
        }
    }
    true
}

/// Whether two steps are the same. Most steps are bit actions (`Go`), so these are tested first,
/// without a jump table. A step's two numbers are compared at once, as one word of memory; the
/// derived comparison compares them one by one.
#[inline(always)]
fn is_same(a: &Step, b: &Step) -> bool
    ensures { Decides result (a.now ≡ b.now) }
{
    if let Step::Go { p: who, c: choice } = b {
        return match a {
            Step::Go { p, c } => [*p, *c] == [*who, *choice],
            Step::Write { .. } | Step::Read { .. } | Step::Stop { .. } => false,
        };
    }
    match (a, b) {
        (Step::Write { p, v }, Step::Write { p: who, v: value }) => [*p, *v] == [*who, *value],
        (Step::Read { p }, Step::Read { p: who }) | (Step::Stop { p }, Step::Stop { p: who }) => {
            *p == *who
        }
        _ => false,
    }
}
