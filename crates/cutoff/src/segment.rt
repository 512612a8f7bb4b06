//! One segment: the stored run that fits it, its cells, and the replay of its steps, after which
//! the new run is stored.

ghost use Rattle.std.specs.Prelude.{◌≡◌, ◌≤◌, ℕ, None, Some, IfOk, OnOk, OnErr, MatchOption, length};
ghost use Rattle.std.specs.Arc.{arc_value};
ghost use Rattle.checkpoints.specs.Runs.{IsTrueRun};
ghost use Rattle.frames.specs.Recorded.{AllFit};
ghost use Rattle.schedule_trie.specs.Trie.{segment_at, slots_of, note_of};
ghost use Rattle.cutoff.specs.Fitting.{RunFits, Fits, steps_at};
ghost use Rattle.cutoff.specs.Settles.{IsSegmentSettled};
ghost use Rattle.cutoff.specs.Links.{IsLinkedAt};

use crate::number::{RunNumber, take_number};
use crate::stored::Stored;
use checkpoints::run::run_of;
use frames::config::Config;
use frames::register::Register;
use schedule_trie::slot::Slot;
use schedule_trie::trie::{SegKey, Trie};
use std::alloc::{AllocError, Global};
use std::sync::Arc;

/// The run stored in the segment `key`, if it fits at `config`; else `None`. `above` is `None`, or
/// the number of a run with the exit `config`.
#[inline(always)]
pub(crate) fn fitting<'a, R: Register>(
    trie: &'a Trie<Stored<R>>,
    key: SegKey,
    config: &Config<R>,
    above: RunNumber,
) -> Option<&'a Stored<R>>
    requires linked { (next : ℕ) × IsLinkedAt R.PartialEq.eq config.now next above trie.now }
    ensures { MatchOption result (Fits R.PartialEq.eq trie.now config.now key → ⊥)
        (λ s. (note_of (segment_at trie.now.segments key) ≡ Some s.now)
        × RunFits R.PartialEq.eq config.now (steps_at trie.now key) s.now.run
        × IsTrueRun (R.behaviour s.now.run.entry.register) s.now.run) }
{
    let stored = trie.note(key)?;
    if stored.begins(config, above) {
        Some(stored)
    } else {
        None
    }
}

/// The cells of the segment `key`, in order; empty if there is no such segment.
pub(crate) fn segment_cells<R: Register>(trie: &Trie<Stored<R>>, key: SegKey) -> &[Slot]
    ensures { result.now ≡ slots_of (segment_at trie.now.segments key) }
{
    match trie.cells_of(key) {
        Some(slots) => slots,
        None => &[],
    }
}

/// Replays the segment `key`, which no stored run fits at `config`, from `config`, and stores the
/// new run. `above` is `None`, or the number of a run with the exit `config`. Returns what is now
/// stored, and how many steps were replayed: all of the segment's. On an error nothing changes.
// (inlined in its caller, it would make each replayed step slower)
#[inline(never)]
pub(crate) fn replay_segment<R: Register>(
    alloc: Global,
    trie: &mut Trie<Stored<R>>,
    next: &mut u64,
    key: SegKey,
    config: Arc<Config<R>>,
    above: RunNumber,
) -> Result<(Stored<R>, u32), AllocError>
    requires linked { IsLinkedAt R.PartialEq.eq (arc_value config) next.old above trie.old }
    requires short { length (steps_at trie.old key) ≤ 128 }
    requires fits { AllFit (R.behaviour (arc_value config).register) (steps_at trie.old key) }
    requires misses { Fits R.PartialEq.eq trie.old (arc_value config) key → ⊥ }
    ensures settled { IfOk result (λ r.
        IsSegmentSettled R.PartialEq.eq trie.old trie.new (arc_value config) key r.0 r.1
        × IsTrueRun (R.behaviour r.0.run.entry.register) r.0.run) }
    ensures linked { OnOk result
        (IsLinkedAt R.PartialEq.eq (arc_value config) next.new None trie.new) }
    ensures unchanged { OnErr result ((trie.new ≡ trie.old) × (next.new ≡ next.old)) }
{
    let cells = segment_cells(trie, key);
    let replayed = cells.len() as u32;
    let made = run_of(alloc, config, cells)?;
    // for the proof: by its contract, the run is a replay of its steps
    let _steps = made.steps();
    let run = Arc::new(alloc, made)?;
    let shared = Arc::try_clone(&run)?;
    let id = take_number(next);
    trie.set_note(key, Some(Stored::new(shared, id, above)));
    Ok((Stored::new(run, id, above), replayed))
}
