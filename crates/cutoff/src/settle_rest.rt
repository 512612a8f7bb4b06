//! Settling what is left of a branch's first cells, and the last of their stored runs. If some of
//! these cells are in the marked segment, the segments above it aren't visited: stored runs are
//! already known to fit them.

ghost use Rattle.std.specs.Prelude.{◌≡◌, ◌≤◌, ℕ, Option, None, Some, IfOk, OnErr, length};
ghost use Rattle.std.specs.Option.{option_copied, option_map};
ghost use Rattle.checkpoints.specs.Runs.{IsTrueRun};
ghost use Rattle.frames.specs.Recorded.{AllFit};
ghost use Rattle.schedule_trie.specs.Trie.{keys_in, line, segment_at, IsCut};
ghost use Rattle.cutoff.specs.Fitting.{KeepsRuns, part_of_stored, part_of, reached, bare_run, steps_at};
ghost use Rattle.cutoff.specs.Settles.{IsSegmentSettled, GetsRun, SettlesTo};
ghost use Rattle.cutoff.specs.Links.{IsLinkedAt};
ghost use Rattle.cutoff.specs.Prefixes.{AreFresh, IsLeftToSettle, exit_or, note_if_any};

use crate::prefix::{Rest, keys_down_to};
use crate::segment::{fitting, replay_segment};
use crate::stored::{Stored, entry_below, shared_entry, stored_at};
use checkpoints::run::Run;
use frames::config::Config;
use frames::register::Register;
use schedule_trie::trie::{SegKey, Trie};
use std::alloc::{AllocError, Global};
use std::sync::Arc;

/// The result of settling a branch's first cells, with only the last of their stored runs. `len` is
/// the branch's length. `part` is that run, with how many of its steps are steps of these cells;
/// `None` if no cell was settled. `replayed` is how many steps were replayed.
#[derive(Drop)]
pub struct SettledLast<R: Register> {
    pub len: u32,
    pub part: Option<(Arc<Run<R>>, u32)>,
    pub replayed: u32,
}

/// A copy of what is stored in a segment; `None` if there is no segment or no run.
fn copy_at<R: Register>(
    trie: &Trie<Stored<R>>,
    key: Option<SegKey>,
) -> Result<Option<Stored<R>>, AllocError>
    ensures { IfOk result (λ stored. stored ≡ note_if_any trie.now key) }
{
    match stored_at(trie, key) {
        Some(stored) => Ok(Some(stored.copy()?)),
        None => Ok(None),
    }
}

/// Settles the segment `key`, right above which `above` is stored. Returns what is now stored in
/// it, and how many steps were replayed. On an error no segment changes.
fn settle_below<R: Register>(
    alloc: Global,
    trie: &mut Trie<Stored<R>>,
    next: &mut u64,
    start: &Config<R>,
    above: Option<&Stored<R>>,
    key: SegKey,
) -> Result<(Stored<R>, u32), AllocError>
    requires linked { IsLinkedAt R.PartialEq.eq start.now next.old None trie.old }
    requires above { (k : Option ℕ) × (note_if_any trie.old k ≡ option_copied above) }
    requires short { length (steps_at trie.old key) ≤ 128 }
    requires fits { AllFit (R.behaviour start.now.register) (steps_at trie.old key) }
    ensures settled { let c = exit_or start.now (option_map bare_run (option_copied above.entry)) in
        IfOk result (λ r. IsSegmentSettled R.PartialEq.eq trie.old trie.new c key r.0 r.1
        × IsTrueRun (R.behaviour r.0.run.entry.register) r.0.run) }
    ensures linked { IsLinkedAt R.PartialEq.eq start.now next.new None trie.new }
    ensures unchanged { OnErr result (trie.new ≡ trie.old) }
{
    let (config, number) = entry_below(start, above);
    if let Some(stored) = fitting(trie, key, config, number) {
        if stored.keeps_link(number) {
            return Ok((stored.copy()?, 0));
        }
        let again = stored.linked_to(number)?;
        let copy = again.copy()?;
        trie.set_note(key, Some(again));
        return Ok((copy, 0));
    }
    let config = shared_entry(alloc, start, above)?;
    let made = replay_segment(alloc, trie, next, key, config, number)?;
    Ok(made)
}

/// Settles the segments `rest.keys`, and then those below `rest.top` down to `key`. Stops once
/// `rest.top` or a segment below it needs no replay: the runs stored below that segment, down to
/// `key`, then still fit. Returns what is now stored in the segment `key`, and how many steps were
/// replayed.
pub(crate) fn settle_rest<R: Register>(
    alloc: Global,
    trie: &mut Trie<Stored<R>>,
    next: &mut u64,
    start: &Config<R>,
    rest: &Rest,
    key: SegKey,
) -> Result<(Option<Stored<R>>, u32), AllocError>
    requires linked { IsLinkedAt R.PartialEq.eq start.now next.old None trie.old }
    requires cut { IsCut trie.old }
    requires left { (i : ℕ) × (count : ℕ) × (place : ℕ)
        × IsLeftToSettle R.PartialEq.eq R.behaviour trie.old
        start.now rest.now.fitted rest.now.keys.items rest.now.top key count place i
        × (length (line (segment_at trie.old.segments) (keys_in trie.old.branches i))
        ≤ 4294967295) }
    ensures stored { IfOk result (λ r. r.0 ≡ note_if_any trie.new (Some key)) }
    ensures settles { IfOk result
        (λ r. (i count place : ℕ) → IsLeftToSettle R.PartialEq.eq R.behaviour trie.old
        start.now rest.now.fitted rest.now.keys.items rest.now.top key count place i
        → SettlesTo R.PartialEq.eq R.behaviour trie.old trie.new start.now key count place i r.1) }
    ensures keeps { (i count place : ℕ)
        → IsLeftToSettle R.PartialEq.eq R.behaviour trie.old start.now
        rest.now.fitted rest.now.keys.items rest.now.top key count place i
        → KeepsRuns trie.old trie.new (GetsRun R.PartialEq.eq (R.behaviour start.now.register)
        trie.old trie.new start.now (reached trie.old place (keys_in trie.old.branches i))) }
    ensures linked { IsLinkedAt R.PartialEq.eq start.now next.new None trie.new }
    ensures fresh { (first : Option ℕ)
        → AreFresh R.PartialEq.eq R.behaviour trie.old start.now first
        → AreFresh R.PartialEq.eq R.behaviour trie.new start.now first }
{
    let mut replayed = 0;
    let mut last = 0;
    let mut above = copy_at(trie, rest.fitted)?;
    for segment in &rest.keys {
        let (stored, here) = settle_below(alloc, trie, next, start, above.as_ref(), *segment)?;
        replayed += here;
        last = here;
        above = Some(stored);
    }
    if last == 0 {
        return Ok((copy_at(trie, Some(key))?, replayed));
    }
    trie.lemma_invariant();
    let (_, hanging) = keys_down_to(alloc, trie, Some(rest.top), Some(key))?;
    for below in &hanging {
        let (lower, here) = settle_below(alloc, trie, next, start, above.as_ref(), *below)?;
        replayed += here;
        above = Some(lower);
        if here == 0 {
            return Ok((copy_at(trie, Some(key))?, replayed));
        }
    }
    Ok((above, replayed))
}

/// The run of `stored`, of which `count` steps count; `None` if nothing is stored.
pub(crate) fn into_part<R: Register>(
    stored: Option<Stored<R>>,
    count: u32,
) -> Option<(Arc<Run<R>>, u32)>
    ensures { option_map part_of result ≡ option_map (part_of_stored count) stored }
{
    match stored {
        Some(stored) => Some((stored.into_run(), count)),
        None => None,
    }
}
