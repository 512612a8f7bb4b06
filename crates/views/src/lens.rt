//! Lenses: caches of configurations, so that a look near an earlier one replays few steps.

ghost use Rattle.std.specs.Prelude.{◌≡◌, ◌≤◌, ◌<◌, [], IfOk, IfSome, OnErr, length};
ghost use Rattle.std.specs.Arc.{arc_value};
ghost use Rattle.lru.specs.LruCache.{lru_cache};
ghost use Rattle.views.specs.declared.lens.TheConstants.{PLACES};
ghost use Rattle.views.specs.Lenses.{IsAt};

use crate::run_place::RunPlace;
use crate::spot::make_steps;
use checkpoints::run::Run;
use frames::config::Config;
use frames::register::Register;
use lru::LruCache;
use slices::{following, front};
use std::alloc::{AllocError, Global};
use std::marker::Model;
use std::num::NonZeroUsize;
use std::sync::Arc;

/// The most places that a lens keeps.
const PLACES: usize = 32;

/// The most places that one look keeps when looks go backwards. Then most of the next looks replay
/// no steps.
const BACKWARD_PLACES: u32 = 16;

/// A cache of the configurations at the places used most recently, at most 32. A place is a run and
/// a number: how many of the run's steps precede the place. Two places are the same if equally many
/// steps precede them, and their runs have the same steps and begin from equal configurations.
/// Branches make no difference, so one lens serves all branches.
#[derive(Drop)]
pub struct Lens<R: Register> {
    places: LruCache<RunPlace<R>, Config<R>>,
}

impl<R: Register> Model for Lens<R> {
    ghost use Rattle.lru.specs.LruCache.{LruCache};
    ghost use Rattle.frames.specs.Configuration.{Configuration};
    ghost use Rattle.cutoff.specs.Fitting.{RunPart};
    ghost use Rattle.views.specs.Lenses.{IsLens};

    ghost Value = { LruCache (RunPart R R.Pending) (Configuration R R.Pending) };

    ghost view = { λ l. l.places };

    ghost invariant = { λ l. IsLens R.behaviour l.places };
}

impl<R: Register> Lens<R> {
    /// Returns an empty lens. Fails only if memory runs out.
    pub fn new(alloc: Global) -> Result<Lens<R>, AllocError>
        ensures { IfOk result (λ lens. lens ≡ lru_cache [] PLACES) }
    {
        let Some(most) = NonZeroUsize::new(PLACES) else {
            unreachable!()
        };
        let places = LruCache::new(alloc, most)?;
        Ok(Lens { places })
    }

    /// The configuration after the first `count` steps of `run`, which must have more than `count`
    /// steps. The result is like the configuration that these steps reach from the run's entry
    /// (`IsAlike`): the two registers behave alike, and all else is equal. Replay begins at the
    /// place that `nearest` gives: `count`, `count` - 1, or 0, which is the run's entry.
    pub(crate) fn config_in(
        &mut self,
        alloc: Global,
        run: &Arc<Run<R>>,
        count: u32,
    ) -> Result<Config<R>, AllocError>
        requires { count < length (arc_value run.now).steps }
        ensures { IfOk result (λ c. IsAt R.behaviour (arc_value run.now) count c) }
    {
        let (made, config) = self.nearest(alloc, run, count)?;
        let first = self.kept_from(run, made, count);
        let config = advanced(run, made, first, config);
        Ok(self.walk(alloc, run, first, count, config))
    }

    /// The place from which to replay to place `count`, and a copy of the configuration there. The
    /// place is `count` if `find` finds it, else `count` - 1 if `find` finds that, else 0.
    fn nearest(
        &mut self,
        alloc: Global,
        run: &Arc<Run<R>>,
        count: u32,
    ) -> Result<(u32, Config<R>), AllocError>
        ensures before { IfOk result (λ r. r.0 ≤ count) }
        ensures config { IfOk result (λ r. IsAt R.behaviour (arc_value run.now) r.0 r.1) }
    {
        if let Some(config) = self.find(alloc, run, count) {
            return Ok((count, config));
        }
        let before = count.saturating_sub(1);
        if let Some(config) = self.find(alloc, run, before) {
            return Ok((before, config));
        }
        let entry = run.entry().copy(alloc)?;
        Ok((0, entry))
    }

    /// The place from which `walk` is to replay to place `count`. `walk` keeps each place after the
    /// result, up to `count`. Usually the result is `count` - 1, so that `walk` keeps one place. If
    /// `has` is true of place `count` + 1, looks are going backwards: the result is `count` - 16,
    /// so that `walk` keeps 16 places. In either case, a result that would be before `made` is
    /// `made` instead, and `walk` keeps fewer places.
    fn kept_from(&self, run: &Arc<Run<R>>, made: u32, count: u32) -> u32
        requires { made ≤ count }
        ensures { (made ≤ result) × (result ≤ count) }
    {
        let goes_back = count - made > 1 && self.has(run, count.saturating_add(1));
        let passed = if goes_back { BACKWARD_PLACES } else { 1 };
        made.max(count.saturating_sub(passed))
    }

    /// Replays a run from place `made`, at which the configuration is `config`, to place `count`.
    /// Keeps each place after `made`, up to `count`, except those for which memory runs out.
    fn walk(
        &mut self,
        alloc: Global,
        run: &Arc<Run<R>>,
        made: u32,
        count: u32,
        config: Config<R>,
    ) -> Config<R>
        requires order { made ≤ count }
        requires within { count < length (arc_value run.now).steps }
        requires from { IsAt R.behaviour (arc_value run.now) made config }
        ensures { IsAt R.behaviour (arc_value run.now) count result }
    {
        let mut config = config;
        for place in made..count {
            config = advanced(run, place, place + 1, config);
            // A place that can't be kept, for lack of memory, is replayed when it is shown next.
            let _ = self.keep(alloc, run, place + 1, &config);
        }
        config
    }

    /// Whether the lens keeps place `count` of a run; false if memory runs out.
    fn has(&self, run: &Arc<Run<R>>, count: u32) -> bool {
        let Ok(place) = RunPlace::new(run, count) else {
            return false;
        };
        self.places.contains(&place)
    }

    /// A copy of the configuration at place `count`, if the lens keeps that place and there is
    /// memory for the copy. Marks the place as the most recently used.
    fn find(&mut self, alloc: Global, run: &Arc<Run<R>>, count: u32) -> Option<Config<R>>
        ensures { IfSome result (λ c. IsAt R.behaviour (arc_value run.now) count c) }
    {
        let Ok(place) = RunPlace::new(run, count) else {
            return None;
        };
        let config = self.places.get(&place)?;
        let Ok(copy) = config.copy(alloc) else {
            return None;
        };
        Some(copy)
    }

    /// Keeps the configuration at place `count`, and drops the least recently used place if the
    /// lens is full. If memory runs out, the lens is unchanged.
    fn keep(
        &mut self,
        alloc: Global,
        run: &Arc<Run<R>>,
        count: u32,
        config: &Config<R>,
    ) -> Result<(), AllocError>
        requires { IsAt R.behaviour (arc_value run.now) count config.now }
        ensures { OnErr result (self.new ≡ self.old) }
    {
        let place = RunPlace::new(run, count)?;
        let config = config.copy(alloc)?;
        match self.places.put(place, config) {
            Ok(_) => Ok(()),
            Err(_) => Err(AllocError),
        }
    }
}

/// Replays a run from place `made`, at which the configuration is `config`, to place `count`.
fn advanced<R: Register>(run: &Run<R>, made: u32, count: u32, config: Config<R>) -> Config<R>
    requires order { made ≤ count }
    requires within { count < length run.now.steps }
    requires from { IsAt R.behaviour run.now made config }
    ensures { IsAt R.behaviour run.now count result }
{
    let mut config = config;
    make_steps(
        &mut config,
        following(front(run.steps(), count as usize), made as usize),
    );
    config
}
