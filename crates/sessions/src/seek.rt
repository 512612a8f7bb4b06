//! Seeks, which look for hits: places of a branch at which a break is met.

ghost use Rattle.std.specs.Prelude.{ℕ, Bool, List, ◌≡◌, ◌<◌, ◌≤◌, ◌+◌, ◌&&◌, ◌||◌, nat_lt, IfOk, IfSome, length, map, if◌then◌else◌, Some, None};
ghost use Rattle.std.specs.List.{list_any};
ghost use Rattle.std.specs.Option.{option_or};
ghost use Rattle.frames.specs.Recorded.{AllFit};
ghost use Rattle.schedule_trie.specs.Trie.{forest};
ghost use Rattle.cutoff.specs.Fitting.{counted, part_of};
ghost use Rattle.cutoff.specs.Settles.{KeepsOrSettles};
ghost use Rattle.pages.specs.Breaks as breaks_spec;
ghost use Rattle.views.specs.Looks.{IsChartKept, steps_in};
ghost use Rattle.sessions.specs.Bounds.{FitsU32};
ghost use Rattle.sessions.specs.Seeks.{hits, next_place, no_events, IsNextHit, is_hit};
ghost use Rattle.sessions.specs.Walks.{found_below, SearchGoesOn, ReportsPart, ReportsParts, ReportsEvents, ReportsSteps};
ghost use Rattle.sessions.specs.Walks as spec;

use crate::way::Way;
use checkpoints::events::EventWalk;
use checkpoints::run::Run;
use cutoff::chart::Chart;
use cutoff::runs::Runs;
use frames::config::Config;
use frames::register::Register;
use frames::types::{Event, Step, StepEvents};
use safe_bit::Store;
use schedule_trie::name::Name;
use slices::front;
use std::alloc::{AllocError, Global};
use std::sync::Arc;
use views::breakpoint::Break;

/// A seek: the breaks to look for, the direction, and the place to start from.
#[derive(Clone, Copy)]
pub struct Search<'a> {
    pub breaks: &'a [Break],
    pub way: Way,
    pub from: u32,
}

/// How far a search has gone: the last place searched, and the hit found so far, if any.
#[derive(Clone, Copy)]
struct Progress {
    place: u32,
    found: Option<u32>,
}

impl Search<'_> {
    /// What the search has found once `place` is searched as well. `found` is what it had found
    /// before, and `hit` says whether a break is met at `place`.
    fn with_place(&self, found: Option<u32>, place: u32, hit: bool) -> Option<u32>
        ensures { (test : ℕ → Bool) → test place ≡ hit
            → found ≡ found_below self.now test place
            → result ≡ found_below self.now test (place + 1) }
    {
        if !hit {
            return found;
        }
        match self.way {
            Way::Forth => first_hit(found, self.from, place),
            Way::Back => last_hit(found, self.from, place),
        }
    }
}

/// `found`, if it isn't `None`; otherwise `hit`, if `hit` is after `from`; otherwise `None`.
fn first_hit(found: Option<u32>, from: u32, hit: u32) -> Option<u32>
    ensures { result ≡ option_or found (if nat_lt from hit then Some hit else None) }
{
    if found.is_none() && from < hit {
        return Some(hit);
    }
    found
}

/// `hit` if it is before `from`, or else `found`.
fn last_hit(found: Option<u32>, from: u32, hit: u32) -> Option<u32>
    ensures { result ≡ (if nat_lt hit from then Some hit else found) }
{
    if hit < from { Some(hit) } else { found }
}

/// Whether a break is on a bit.
fn is_on_bit(one: &Break) -> bool
    ensures { result ≡ spec.is_on_bit one.now }
{
    matches!(one, Break::Bit(_, _))
}

/// Whether one of the breaks is on a bit.
fn any_on_bit(breaks: &[Break]) -> bool
    ensures { result ≡ list_any spec.is_on_bit breaks.now }
{
    breaks.iter().any(|one| is_on_bit(one))
}

/// Whether a step that records these events meets one of the breaks.
fn is_any_met_by_events(breaks: &[Break], events: StepEvents) -> bool
    ensures { result ≡ spec.is_any_met_by_events breaks.now events }
{
    is_any_met_by_option(breaks, events.first) || is_any_met_by_option(breaks, events.second)
}

/// Whether an event, if there is one, meets one of the breaks.
#[inline(always)]
fn is_any_met_by_option(breaks: &[Break], event: Option<Event>) -> bool
    ensures { result ≡ list_any (λ break. breaks_spec.is_met_by_option break event) breaks.now }
{
    match event {
        None => false,
        Some(event) => breaks.iter().any(|one| one.is_met_by(event)),
    }
}

/// Whether a break is met by a step that records these events, or by the memory after the step.
fn meets(one: &Break, events: StepEvents, store: &Store) -> bool
    ensures { result ≡ (breaks_spec.is_met_by_events one.now events
        || breaks_spec.is_met_by_memory one.now store.now) }
{
    one.is_met_by_events(events) || one.is_met_by_memory(store)
}

/// Whether one of the breaks is met by a step that records these events, or by the configuration
/// after the step.
fn is_met<R: Register>(breaks: &[Break], events: StepEvents, config: &Config<R>) -> bool
    ensures { result ≡ breaks_spec.is_met breaks.now events config.now.memory }
{
    let store = config.store();
    for one in breaks {
        if meets(one, events, store) {
            return true;
        }
    }
    false
}

/// Continues a search that has searched the places 0 to `place`, and has found `found`. `events`
/// has the events of each of the next steps after `place`. For each of these steps, searches the
/// place right after the step, by the step's events alone. Returns the hit that the search has then
/// found, if any. Nothing is replayed.
fn along_events(
    search: &Search<'_>,
    events: EventWalk<'_>,
    place: u32,
    found: Option<u32>,
) -> Option<u32>
    requires { FitsU32 (place + length events) }
    ensures { (test : ℕ → Bool)
        → ReportsEvents search.now.breaks.now test place events.entry
        → SearchGoesOn search.now test place (length events.entry) found result }
{
    let mut left = events;
    let mut at = place;
    let mut found = found;
    while let Some(reported) = left.next() {
        at += 1;
        let hit = is_any_met_by_events(search.breaks, reported);
        found = search.with_place(found, at, hit);
    }
    found
}

/// Continues a search that has searched the places 0 to `place`, and has found `found`. `config` is
/// the configuration at `place`, and `steps` are the next steps after `place`. Replays each of
/// these steps, and searches the place right after the step. Returns the hit that the search has
/// then found, if any.
fn along_steps<R: Register>(
    search: &Search<'_>,
    config: Config<R>,
    steps: &[Step],
    place: u32,
    found: Option<u32>,
) -> Option<u32>
    requires fits { AllFit (R.behaviour config.register) steps.now }
    requires room { FitsU32 (place + length steps.now) }
    ensures { (test : ℕ → Bool)
        → ReportsSteps (R.behaviour config.register) search.now.breaks.now test place config
        steps.now
        → SearchGoesOn search.now test place (length steps.now) found result }
{
    let mut config = config;
    let mut found = found;
    for (i, step) in steps.iter().enumerate() {
        let events = config.step(*step);
        let hit = is_met(search.breaks, events, &config);
        found = search.with_place(found, place + 1 + i as u32, hit);
    }
    found
}

/// Continues a search over the first `count` steps of a run. The steps are replayed only if one of
/// the breaks is on a bit.
fn along_run<R: Register>(
    alloc: Global,
    search: &Search<'_>,
    run: &Run<R>,
    count: u32,
    progress: Progress,
) -> Result<Option<u32>, AllocError>
    requires { FitsU32 (progress.place + count) }
    ensures { IfOk result (λ all. (test : ℕ → Bool)
        → ReportsPart R.behaviour search.now.breaks.now test progress.place
        (record { run = run.now; count = count })
        → SearchGoesOn search.now test progress.place count progress.found all) }
{
    if any_on_bit(search.breaks) {
        let config = run.entry().copy(alloc)?;
        let steps = front(run.steps(), count as usize);
        return Ok(along_steps(search, config, steps, progress.place, progress.found));
    }
    let events = run.events().front(count as usize);
    Ok(along_events(search, events, progress.place, progress.found))
}

/// Searches a whole branch: its beginning, whose configuration is `first`, and then the places
/// in its runs, one run after the other.
fn along_runs<R: Register>(
    alloc: Global,
    search: &Search<'_>,
    first: &Config<R>,
    runs: &[(Arc<Run<R>>, u32)],
) -> Result<Option<u32>, AllocError>
    requires room { FitsU32 (counted (map part_of runs.now)) }
    ensures { let parts = map part_of runs.now in IfOk result (λ all. (test : ℕ → Bool)
        → test 0 ≡ breaks_spec.is_met search.now.breaks.now no_events first.now.memory
        → ReportsParts R.behaviour search.now.breaks.now test 0 parts
        → all ≡ found_below search.now test (counted parts + 1)) }
{
    let none = StepEvents {
        first: None,
        second: None,
    };
    let mut found = search.with_place(None, 0, is_met(search.breaks, none, first));
    let mut place = 0;
    for (run, count) in runs {
        let progress = Progress { place, found };
        found = along_run(alloc, search, run, *count, progress)?;
        place += *count;
    }
    Ok(found)
}

/// The first place of a branch, from `search.from` in the search's direction, at which one of the
/// breaks is met; `search.from` itself doesn't count. `None` if there is no such place. A branch
/// that doesn't exist is searched like one without steps. With or without an error, nothing in the
/// chart changes, except that runs may be stored for segments of the branch that no stored run
/// fitted.
///
/// # Errors
///
/// If memory runs out.
pub fn next_hit<R: Register>(
    alloc: Global,
    chart: &mut Chart<R>,
    branch: &Name,
    search: &Search<'_>,
) -> Result<Option<u32>, AllocError>
    ensures met { let b = R.behaviour chart.old.start.register in
        let steps = steps_in (forest chart.old.trie) branch.now in
        let test = is_hit b chart.old.value steps search.now.breaks.now in IfOk result
        (λ place. IfSome place (IsNextHit search.now.way test (length steps + 1) search.now.from)) }
    ensures hit { let all = hits (R.behaviour chart.old.start.register) chart.old.value
        (steps_in (forest chart.old.trie) branch.now) search.now.breaks.now in
        IfOk result (λ place. place ≡ next_place search.now.way search.now.from all) }
    ensures kept { IsChartKept chart.old chart.new }
    ensures keeps { KeepsOrSettles R.PartialEq.eq R.behaviour chart.old chart.new branch.now
        (length (steps_in (forest chart.old.trie) branch.now)) }
{
    let runs = settled(alloc, chart, branch)?;
    let first = chart.initial().copy(alloc)?;
    along_runs(alloc, search, &first, runs.as_slice())
}

/// Stores the missing runs of a branch, and returns all its runs; none if there is no such branch.
fn settled<R: Register>(
    alloc: Global,
    chart: &mut Chart<R>,
    branch: &Name,
) -> Result<Runs<R>, AllocError>
    ensures reports { let b = R.behaviour chart.old.start.register in
        let steps = steps_in (forest chart.old.trie) branch.now in (breaks : List Break)
        → IfOk result
        (λ runs. ReportsParts R.behaviour breaks (is_hit b chart.old.value steps breaks) 0 runs) }
    ensures counts { IfOk result (λ runs. counted runs
        ≡ length (steps_in (forest chart.old.trie) branch.now)) }
    ensures room { IfOk result (λ runs. FitsU32 (counted runs)) }
    ensures kept { IsChartKept chart.old chart.new }
    ensures keeps { KeepsOrSettles R.PartialEq.eq R.behaviour chart.old chart.new branch.now
        (length (steps_in (forest chart.old.trie) branch.now)) }
{
    let Some(len) = chart.len(branch) else {
        return Ok(Runs::new(Vec::new(alloc)));
    };
    match chart.settle(alloc, branch, len) {
        Ok(spot) => Ok(spot.runs),
        Err(_) => Err(AllocError),
    }
}
