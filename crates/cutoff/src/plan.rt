//! Plans: for each branch, a job for its first segment that no stored run fits.

ghost use Rattle.std.specs.Prelude.{◌≡◌, ℕ, true, List, [], ◌∷◌, Option, None, Some, OnOk, IfOk, map};
ghost use Rattle.std.specs.Arc.{arc_value};
ghost use Rattle.frames.specs.Configuration.{Configuration};
ghost use Rattle.frames.specs.Recorded.{AllFit};
ghost use Rattle.cutoff.specs.Plans.{Descends, Planned, Plans, with_job, job_of, keys_of};
ghost use Rattle.cutoff.specs.Prefixes.{RunsToOnAll, exit_or_start};
ghost use Rattle.cutoff.specs.FoundFits.{AreSeen, HasDescendedAbove, HasDescended, IsUnseenPart, FitsOrAddsJob, found_fit_at};
ghost use Rattle.cutoff.specs.Fitting.{steps_at};
ghost use Rattle.cutoff.specs.Known.{AreKnown};
ghost use Rattle.cutoff.specs.Links.{AreLinked};
ghost use Rattle.schedule_trie.specs.Trie.{keys_in, IsCut};
ghost use Rattle.schedule_trie.specs.Forest.{step_of};

use crate::found_fits::{known_fit, record_fit};
use crate::known::{Known, is_known_down_to};
use crate::segment::{fitting, segment_cells};
use crate::stored::{Stored, entry_below, shared_entry, stored_at};
use frames::config::Config;
use frames::register::Register;
use frames::types::Step;
use schedule_trie::Steps;
use schedule_trie::slot::Slot;
use schedule_trie::trie::{SegKey, Trie};
use std::alloc::{AllocError, Global};
use std::marker::Model;
use std::sync::Arc;

/// A segment to be replayed: its key, the configuration that replay reaches at its start, and its
/// steps. The type guarantees that each step fits the register.
#[derive(Drop)]
pub struct Job<R: Register> {
    pub key: SegKey,
    pub entry: Arc<Config<R>>,
    pub steps: Steps,
}

impl<R: Register> Model for Job<R> {
    ghost use Rattle.std.specs.Arc.{arc_value};
    ghost use Rattle.frames.specs.Recorded.{AllFit};
    ghost use Rattle.cutoff.specs.Plans.{Planned};

    ghost Value = { Planned R R.Pending };

    ghost view = { λ j. record { key = j.key; entry = arc_value j.entry; steps = j.steps } };

    ghost invariant = { λ j. AllFit (R.behaviour (arc_value j.entry).register) j.steps };
}

/// For how many segments a plan reserves memory at first.
const MORE_SEGMENTS: usize = 64;

/// The jobs of a plan so far, and what the plan has found at each segment, by the segment's key.
#[derive(Drop)]
struct Planning<R: Register> {
    jobs: Vec<Job<R>>,
    seen: Vec<Option<bool>>,
}

/// What a plan is made from: memory; the branches, with their stored runs; the configuration before
/// their first steps; and what is known of the runs.
#[derive(Drop)]
pub(crate) struct Base<'a, R: Register> {
    pub(crate) alloc: Global,
    pub(crate) trie: &'a Trie<Stored<R>>,
    pub(crate) start: &'a Config<R>,
    pub(crate) known: Known,
}

/// For each branch, a job for its first segment that no stored run fits. The job of the branch at
/// `index`, if it has one, comes first, then the jobs of the other branches in order. No segment
/// has two jobs. Each segment is visited at most once. To plan for a branch, only segments are
/// visited that are below the last one down to which stored runs are known to fit.
pub(crate) fn plan_all<R: Register>(
    base: &Base<'_, R>,
    index: usize,
) -> Result<Vec<Job<R>>, AllocError>
    requires known { AreKnown R.PartialEq.eq R.behaviour base.now.trie.now base.now.start.now
        base.now.known }
    ensures { IfOk result
        (λ jobs. Plans R.PartialEq.eq (R.behaviour base.now.start.now.register) base.now.trie.now
        base.now.start.now []
        (keys_in base.now.trie.now.branches index ∷ map keys_of base.now.trie.now.branches)
        jobs.items) }
{
    let mut planning = Planning {
        jobs: Vec::new(base.alloc),
        seen: Vec::with_capacity(base.alloc, MORE_SEGMENTS)?,
    };
    // one list for all branches, so that memory for it is reserved once
    let mut keys = Vec::with_capacity(base.alloc, MORE_SEGMENTS)?;
    plan_branch(base, index, &mut keys, &mut planning)?;
    for other in 0..base.trie.branches() as usize {
        plan_branch(base, other, &mut keys, &mut planning)?;
    }
    let Planning { jobs, .. } = planning;
    Ok(jobs)
}

/// Adds a job for the first segment of the branch at `index` that no stored run fits, if there is
/// such a segment and it has no job yet. Overwrites `keys`, whose memory it reuses.
fn plan_branch<R: Register>(
    base: &Base<'_, R>,
    index: usize,
    keys: &mut Vec<SegKey>,
    planning: &mut Planning<R>,
) -> Result<(), AllocError>
    requires known { AreKnown R.PartialEq.eq R.behaviour base.now.trie.now base.now.start.now
        base.now.known }
    requires seen { AreSeen R.PartialEq.eq R.behaviour base.now.trie.now base.now.start.now
        planning.old.seen.items planning.old.jobs.items }
    ensures seen { OnOk result (AreSeen R.PartialEq.eq R.behaviour base.now.trie.now
        base.now.start.now planning.new.seen.items planning.new.jobs.items) }
    ensures adds { OnOk result ((missed : Option ℕ) × (end : Configuration R R.Pending)
        × Descends R.PartialEq.eq (R.behaviour base.now.start.now.register) base.now.trie.now
        base.now.start.now (keys_in base.now.trie.now.branches index) missed end
        × (planning.new.jobs.items ≡ with_job planning.old.jobs.items
        (job_of base.now.trie.now missed end))) }
{
    let mut fits = unseen_keys(base, &planning.seen, index, keys)?;
    for key in keys.as_slice() {
        fits = visit(base, *key, fits, planning)?;
    }
    Ok(())
}

/// Climbs from the last segment of a branch until it meets a segment down to which stored runs are
/// known to fit, or one that was visited. Returns whether stored runs fit down to that segment, and
/// leaves in `keys` the keys of the branch's segments below that one, in order. If it meets no such
/// segment, returns true, and leaves all keys of the branch.
fn unseen_keys<R: Register>(
    base: &Base<'_, R>,
    seen: &[Option<bool>],
    index: usize,
    keys: &mut Vec<SegKey>,
) -> Result<bool, AllocError>
    requires known { AreKnown R.PartialEq.eq R.behaviour base.now.trie.now base.now.start.now
        base.now.known }
    ensures { IfOk result
        (λ fits. IsUnseenPart (λ k. RunsToOnAll R.PartialEq.eq R.behaviour base.now.trie.now
        base.now.start.now (Some k)) seen.now (keys_in base.now.trie.now.branches index) fits
        keys.new.items) }
{
    keys.clear();
    let mut at = base.trie.last_at(index);
    while let Some(key) = at {
        let (note, above) = base.trie.step_up_from(key);
        if let Some(fits) = known_fit(is_known_down_to(&base.known, key, note), seen, key) {
            keys.reverse();
            return Ok(fits);
        }
        keys.push(key)?;
        at = above;
    }
    keys.reverse();
    Ok(true)
}

/// Visits the segment `key`, and returns whether stored runs fit down to it. `above_fits` says
/// whether they fit down to the segment right above. If they do, but no stored run fits this
/// segment, adds its job.
fn visit<R: Register>(
    base: &Base<'_, R>,
    key: SegKey,
    above_fits: bool,
    planning: &mut Planning<R>,
) -> Result<bool, AllocError>
    requires linked { AreLinked R.PartialEq.eq base.now.start.now base.now.trie.now }
    requires cut { IsCut base.now.trie.now }
    requires fits { AllFit (R.behaviour base.now.start.now.register) (steps_at base.now.trie.now
        key) }
    requires seen { AreSeen R.PartialEq.eq R.behaviour base.now.trie.now base.now.start.now
        planning.old.seen.items planning.old.jobs.items }
    requires new { found_fit_at planning.old.seen.items key ≡ None }
    requires arrives { (jobs : List (Planned R R.Pending))
        × HasDescendedAbove R.PartialEq.eq R.behaviour base.now.trie.now base.now.start.now jobs
        planning.old.jobs.items key
        above_fits }
    ensures seen { OnOk result (AreSeen R.PartialEq.eq R.behaviour base.now.trie.now
        base.now.start.now planning.new.seen.items planning.new.jobs.items) }
    ensures others { OnOk result ((k : ℕ) → (k ≡ key → ⊥)
        → found_fit_at planning.new.seen.items k ≡ found_fit_at planning.old.seen.items k) }
    ensures arrives { IfOk result (λ fits. (jobs : List (Planned R R.Pending))
        → HasDescendedAbove R.PartialEq.eq R.behaviour base.now.trie.now base.now.start.now jobs
        planning.old.jobs.items key
        above_fits
        → HasDescended R.PartialEq.eq R.behaviour base.now.trie.now base.now.start.now jobs
        planning.new.jobs.items (Some key)
        fits) }
{
    if !above_fits {
        record_fit(&mut planning.seen, key, false)?;
        return Ok(false);
    }
    let above = base.trie.above(key);
    let fits = fits_or_adds_job(base, above, key, &mut planning.jobs)?;
    record_fit(&mut planning.seen, key, fits)?;
    Ok(fits)
}

/// Whether the run stored in the segment `key` fits at the exit of the run stored in the segment
/// `above`, or at the start if there is none. If not, adds the segment's job.
fn fits_or_adds_job<R: Register>(
    base: &Base<'_, R>,
    above: Option<SegKey>,
    key: SegKey,
    jobs: &mut Vec<Job<R>>,
) -> Result<bool, AllocError>
    requires linked { AreLinked R.PartialEq.eq base.now.start.now base.now.trie.now }
    requires fits { AllFit (R.behaviour base.now.start.now.register) (steps_at base.now.trie.now
        key) }
    ensures { IfOk result (λ fits. FitsOrAddsJob R.PartialEq.eq R.behaviour base.now.trie.now
        (exit_or_start base.now.trie.now base.now.start.now above) key fits jobs.old.items
        jobs.new.items) }
{
    let above = stored_at(base.trie, above);
    let (config, number) = entry_below(base.start, above);
    if let Some(_) = fitting(base.trie, key, config, number) {
        return Ok(true);
    }
    let entry = shared_entry(base.alloc, base.start, above)?;
    let job = job_at(base.alloc, base.trie, key, entry)?;
    jobs.push(job)?;
    Ok(false)
}

/// The job of the segment `key`, at whose start replay reaches `entry`.
fn job_at<R: Register>(
    alloc: Global,
    trie: &Trie<Stored<R>>,
    key: SegKey,
    entry: Arc<Config<R>>,
) -> Result<Job<R>, AllocError>
    requires { AllFit (R.behaviour (arc_value entry).register) (steps_at trie.now key) }
    ensures { IfOk result (λ job. Some job ≡ job_of trie.now (Some key) (arc_value entry)) }
{
    let steps = steps_in(alloc, segment_cells(trie, key))?;
    let steps = Steps::new(steps);
    Ok(Job { key, entry, steps })
}

/// The steps of cells, in order.
fn steps_in(alloc: Global, slots: &[Slot]) -> Result<Vec<Step>, AllocError>
    ensures { IfOk result (λ steps. steps.items ≡ map step_of slots.now) }
{
    let mut steps = Vec::with_capacity(alloc, slots.len())?;
    for slot in slots {
        steps.push_reserved(slot.step);
    }
    Ok(steps)
}
