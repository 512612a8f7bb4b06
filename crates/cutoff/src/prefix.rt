//! A climb up a branch from one of its segments. Of that segment and those above it, the climb
//! finds the lowest one down to which, from the branch's first segment on, stored runs are known to
//! fit. A run hangs from the run right above it if the lower run's link is the upper run's number:
//! the lower run then begins at the upper run's exit.

ghost use Rattle.std.specs.Prelude.{◌≡◌, ◌<◌, ◌≤◌, ℕ, [], None, Some, true, IfOk, OnOk, MatchOption, length, reverse};
ghost use Rattle.std.specs.Option.{option_copied};
ghost use Rattle.checkpoints.specs.Runs.{IsTrueRun};
ghost use Rattle.frames.specs.Configuration.{Configuration};
ghost use Rattle.frames.specs.Equality.{SameConfiguration};
ghost use Rattle.schedule_trie.specs.Trie.{has, keys_in, IsCut};
ghost use Rattle.schedule_trie.specs.Climbs.{keys_to, HasClimbedTo};
ghost use Rattle.cutoff.specs.Links.{AreLinked};
ghost use Rattle.cutoff.specs.Prefixes.{AreKeysAfter, RunsToOnAllWith, IsPlaceIn, IsHung, IsLeftToSettle, IsTop};
ghost use Rattle.cutoff.specs.Known.{AreKnown};

use crate::known::{Known, is_known_down_to, may_stop};
use crate::stored::Stored;
use frames::config::Config;
use frames::register::Register;
use schedule_trie::trie::{SegKey, Trie};
use std::alloc::{AllocError, Global};

/// What is left to settle of a branch down to one of its segments, the target. Stored runs are
/// known to fit from the first segment down to `fitted`; if `fitted` is `None`, no run is known to
/// fit. `keys` has the keys of the segments below `fitted`, down to `top`, in order. If `fitted` is
/// `None`, these begin with the branch's first segment. Each segment below `top`, down to the
/// target, has a run that hangs from the run right above: it begins at the upper run's exit.
#[derive(Drop)]
pub(crate) struct Rest {
    pub(crate) fitted: Option<SegKey>,
    pub(crate) keys: Vec<SegKey>,
    pub(crate) top: SegKey,
}

/// The segment at which a climb ended: its key, what is stored in it, and the key of the segment
/// right above it, `None` if it is the first of its branches.
#[derive(Drop)]
struct Top<'a, R: Register> {
    key: SegKey,
    stored: Option<&'a Stored<R>>,
    above: Option<SegKey>,
}

/// Whether `top` is the first segment of its branches, and its run begins at the start; stored runs
/// then fit down to it.
fn begins_at<R: Register>(start: &Config<R>, top: &Top<'_, R>) -> bool
    ensures { result ≡ true → (top.now.above ≡ None)
        × MatchOption (option_copied top.now.stored) ⊥ (λ s.
        SameConfiguration R.PartialEq.eq s.run.entry start.now
        × IsTrueRun (R.behaviour s.run.entry.register) s.run) }
{
    match (top.above, top.stored) {
        (None, Some(stored)) => *stored.entry() == *start,
        _ => false,
    }
}

/// Adds the keys of the segments from `bottom` up to `top` to `keys`, and returns the key of the
/// segment right above `top`; `None` if `top` is the first segment of its branches. The contract
/// says of the segments added only that they are those from `bottom` up to the one returned.
fn pass<R: Register>(
    trie: &Trie<Stored<R>>,
    bottom: SegKey,
    top: &Top<'_, R>,
    keys: &mut Vec<SegKey>,
) -> Result<Option<SegKey>, AllocError>
    requires cut { IsCut trie.now }
    requires there { (i : ℕ) × (has bottom (keys_in trie.now.branches i) ≡ true) }
    requires top { IsTop trie.now top.now.key (option_copied top.now.stored) top.now.above }
    ensures following { IfOk result (λ above. AreKeysAfter trie.now (Some bottom)
        (reverse keys.old.items) above above (reverse keys.new.items)) }
    ensures more { OnOk result (length keys.old.items < length keys.new.items) }
{
    keys.push(bottom)?;
    if top.key == bottom {
        return Ok(top.above);
    }
    climb_keys(trie, top.above, trie.above(bottom), keys)
}

/// The lowest segment, at `first` or above, down to which stored runs are known to fit, `None` if
/// no run is known to fit; and the keys of the segments below it, down to `first`, each before the
/// one right above it. Uses what is known, the runs' numbers, and a comparison of the first run's
/// entry with the start.
fn known_prefix<R: Register>(
    alloc: Global,
    trie: &Trie<Stored<R>>,
    start: &Config<R>,
    known: &Known,
    first: Top<'_, R>,
) -> Result<(Option<SegKey>, Vec<SegKey>), AllocError>
    requires known { AreKnown R.PartialEq.eq R.behaviour trie.now start.now known.now }
    requires there { (i : ℕ) × (has first.key (keys_in trie.now.branches i) ≡ true) }
    requires top { IsTop trie.now first.key (option_copied first.stored) first.above }
    ensures known { IfOk result (λ r.
        RunsToOnAllWith R.PartialEq.eq R.behaviour trie.now start.now first.entry.key r.0) }
    ensures following { IfOk result (λ r.
        AreKeysAfter trie.now (Some first.entry.key) [] r.0 r.0 (reverse r.1.items)) }
{
    let mut keys = Vec::new(alloc);
    let mut bottom = first.key;
    let mut top = first;
    // a branch has at most one segment for each cell ever made
    for _ in 0..trie.made() {
        if is_known_down_to(known, top.key, top.stored) || begins_at(start, &top) {
            return Ok((Some(bottom), keys));
        }
        let Some(next) = pass(trie, bottom, &top, &mut keys)? else {
            return Ok((None, keys));
        };
        bottom = next;
        top = hung_from(trie, known, next);
    }
    unreachable!()
}

/// Climbs from `key` as long as the run of the segment reached hangs from the run right above, and
/// returns the segment at which the climb ends. Also stops at a segment down to which stored runs
/// are known to fit. Returns the segment `key` itself if stored runs are known to fit down to it,
/// or if it has no stored run, or a run that hangs from none. Compares only numbers.
fn hung_from<'a, R: Register>(trie: &'a Trie<Stored<R>>, known: &Known, key: SegKey) -> Top<'a, R>
    requires linked { (start : Configuration R R.Pending)
        × AreLinked R.PartialEq.eq start trie.now }
    requires cut { IsCut trie.now }
    requires there { (i : ℕ) × (has key (keys_in trie.now.branches i) ≡ true) }
    ensures hung { (i : ℕ) → has key (keys_in trie.now.branches i) ≡ true
        → IsHung R.PartialEq.eq R.behaviour trie.now result.key key i }
    ensures top { IsTop trie.now result.key (option_copied result.stored) result.above }
{
    let (note, above) = trie.step_up_from(key);
    let Some(stored) = note else {
        return Top {
            key,
            stored: None,
            above,
        };
    };
    // for the proof: by its contract, the run is a replay of its steps
    let _entry = stored.entry();
    let is_any = known.is_any();
    let Some(next) = above else {
        return top_of(key, stored);
    };
    let mut reached = key;
    let mut lower = stored;
    let mut next = next;
    // a branch has at most one segment for each cell ever made
    for _ in 0..trie.made() {
        if may_stop(known, is_any, reached, lower) {
            break;
        }
        let (note, above) = trie.step_up_from(next);
        let Some(stored) = note else {
            break;
        };
        if !stored.is_linked_from(lower) {
            break;
        }
        // for the proof: by its contract, the run is a replay of its steps
        let _entry = stored.entry();
        let Some(up) = above else {
            return top_of(next, stored);
        };
        reached = next;
        lower = stored;
        next = up;
    }
    Top {
        key: reached,
        stored: Some(lower),
        above: Some(next),
    }
}

/// The end of a climb at the first segment of its branches, which has a run.
fn top_of<'a, R: Register>(key: SegKey, stored: &'a Stored<R>) -> Top<'a, R>
    ensures key { result.key ≡ key }
    ensures stored { option_copied result.stored ≡ Some stored.now }
    ensures above { result.above ≡ None }
{
    Top {
        key,
        stored: Some(stored),
        above: None,
    }
}

/// What is left to settle down to the segment `key`, on each branch that has this segment; all
/// these branches have the same segments above it.
pub(crate) fn rest_to<R: Register>(
    alloc: Global,
    trie: &Trie<Stored<R>>,
    start: &Config<R>,
    known: &Known,
    key: SegKey,
) -> Result<Rest, AllocError>
    requires known { AreKnown R.PartialEq.eq R.behaviour trie.now start.now known.now }
    requires there { (i : ℕ) × (has key (keys_in trie.now.branches i) ≡ true) }
    ensures { IfOk result (λ r. (i count place : ℕ) → IsPlaceIn trie.now key count place i
        → IsLeftToSettle R.PartialEq.eq R.behaviour trie.now start.now r.fitted r.keys.items r.top
        key count place i) }
{
    let first = hung_from(trie, known, key);
    let top = first.key;
    let (fitted, mut keys) = known_prefix(alloc, trie, start, known, first)?;
    keys.reverse();
    Ok(Rest { fitted, keys, top })
}

/// Climbs from the segment `last` until it meets `stop` or has passed the first segment, and adds
/// the keys of the segments passed to `keys`, each before the one right above it. Returns `stop`
/// or `None`.
fn climb_keys<T: Drop>(
    trie: &Trie<T>,
    stop: Option<SegKey>,
    last: Option<SegKey>,
    keys: &mut Vec<SegKey>,
) -> Result<Option<SegKey>, AllocError>
    requires cut { IsCut trie.now }
    requires there { (i : ℕ) × HasClimbedTo (keys_in trie.now.branches i) last }
    ensures following { IfOk result (λ up. AreKeysAfter trie.now last (reverse keys.old.items)
        stop up (reverse keys.new.items)) }
    ensures stops { IfOk result (λ up. (i f : ℕ) → HasClimbedTo (keys_in trie.now.branches i) last
        → stop ≡ Some f → has f (keys_to (keys_in trie.now.branches i) last) ≡ true
        → up ≡ stop) }
    ensures more { OnOk result (length keys.old.items ≤ length keys.new.items) }
{
    let mut at = last;
    // a branch has at most one segment for each cell ever made
    for _ in 0..trie.made() {
        if at == stop {
            break;
        }
        let Some(key) = at else {
            break;
        };
        keys.push(key)?;
        at = trie.above(key);
    }
    Ok(at)
}

/// Climbs from the segment `last` until it meets `stop` or has passed the first segment. Returns
/// `stop` or `None`, and the keys of the segments passed, in order.
pub(crate) fn keys_down_to<T: Drop>(
    alloc: Global,
    trie: &Trie<T>,
    stop: Option<SegKey>,
    last: Option<SegKey>,
) -> Result<(Option<SegKey>, Vec<SegKey>), AllocError>
    requires cut { IsCut trie.now }
    requires there { (i : ℕ) × HasClimbedTo (keys_in trie.now.branches i) last }
    ensures following { IfOk result
        (λ r. AreKeysAfter trie.now last [] stop r.0 r.1.items) }
    ensures stops { IfOk result (λ r. (i f : ℕ) → HasClimbedTo (keys_in trie.now.branches i) last
        → stop ≡ Some f → has f (keys_to (keys_in trie.now.branches i) last) ≡ true
        → r.0 ≡ stop) }
{
    let mut keys = Vec::new(alloc);
    let at = climb_keys(trie, stop, last, &mut keys)?;
    keys.reverse();
    Ok((at, keys))
}
