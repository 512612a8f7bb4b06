//! Runs: a segment's steps, made one after another from the configuration before them.

ghost use Rattle.std.specs.Prelude.{◌≡◌, IfOk, map};
ghost use Rattle.std.specs.Arc.{arc_value};
ghost use Rattle.checkpoints.specs.Runs.{IsTrueRun};
ghost use Rattle.frames.specs.Recorded.{AllFit};

use crate::events::{EventWalk, MarkedSteps};
use crate::replaying::{MarkedReplay, replay_from, replay_owned};
use frames::config::Config;
use frames::register::Register;
use frames::types::{HasStep, Step};
use std::alloc::{AllocError, Global};
use std::marker::Model;
use std::sync::Arc;

/// A run of a segment: its entry, which is the configuration before its steps; the steps; its exit,
/// which is the configuration after them; and the events of each step. The type guarantees that a
/// run is true: its steps fit the register, and making them from the entry gives the exit and the
/// events. A run that begins at this exit can share it.
#[derive(Drop)]
pub struct Run<R: Register> {
    entry: Arc<Config<R>>,
    reported: MarkedSteps,
    exit: Arc<Config<R>>,
}

impl<R: Register> Model for Run<R> {
    ghost use Rattle.std.specs.Arc.{arc_value};
    ghost use Rattle.checkpoints.specs.Runs.{SegmentRun, IsTrueRun};
    ghost use Rattle.checkpoints.specs.MarkedSteps.{reported_in};

    ghost Value = { SegmentRun R R.Pending };

    ghost view = { λ r. record { entry = arc_value r.entry; steps = r.reported.steps.items; exit = arc_value r.exit; events = reported_in r.reported } };

    ghost invariant = { λ r. IsTrueRun (R.behaviour (arc_value r.entry).register) (record { entry = arc_value r.entry; steps = r.reported.steps.items; exit = arc_value r.exit; events = reported_in r.reported }) };
}

impl<R: Register> Run<R> {
    /// The configuration before the run's steps. The steps fit its register, and making them from
    /// it gives the run's exit and events.
    pub fn entry(&self) -> &Config<R>
        ensures entry { result.now ≡ self.now.entry }
        ensures kept { IsTrueRun (R.behaviour self.now.entry.register) self.now }
    {
        &self.entry
    }

    /// The run's steps. They fit the register of the run's entry, and making them from this entry
    /// gives the run's exit and events.
    pub fn steps(&self) -> &[Step]
        ensures steps { result.now ≡ self.now.steps }
        ensures kept { IsTrueRun (R.behaviour self.now.entry.register) self.now }
    {
        &self.reported.steps
    }

    /// The configuration after the run's steps. The steps fit the register of the run's entry, and
    /// making them from this entry gives this configuration and the run's events.
    pub fn exit(&self) -> &Config<R>
        ensures exit { result.now ≡ self.now.exit }
        ensures kept { IsTrueRun (R.behaviour self.now.entry.register) self.now }
    {
        self.shared_exit()
    }

    /// The configuration after the run's steps, to be shared with a run that begins there. The
    /// steps fit the register of the run's entry, and making them from this entry gives this
    /// configuration and the run's events.
    pub fn shared_exit(&self) -> &Arc<Config<R>>
        ensures exit { arc_value result.now ≡ self.now.exit }
        ensures kept { IsTrueRun (R.behaviour self.now.entry.register) self.now }
    {
        &self.exit
    }

    /// A walk over the events of each step, in the order of the steps. The steps fit the register
    /// of the run's entry, and making them from this entry gives the run's exit and these events.
    pub fn events(&self) -> EventWalk<'_>
        ensures events { result ≡ self.now.events }
        ensures kept { IsTrueRun (R.behaviour self.now.entry.register) self.now }
    {
        self.reported.walk()
    }
}

/// Replays the steps of `items`, one of each item, in order, from `entry`. The steps must fit the
/// register of `entry`. Returns the run of these steps, with `entry` as its entry. Fails only if
/// memory runs out.
pub fn run_of<R: Register, S: HasStep>(
    alloc: Global,
    entry: Arc<Config<R>>,
    items: &[S],
) -> Result<Run<R>, AllocError>
    requires { AllFit (R.behaviour (arc_value entry).register) (map S.step_in items.now) }
    ensures entry { IfOk result (λ run. run.entry ≡ arc_value entry) }
    ensures steps { IfOk result (λ run. run.steps ≡ map S.step_in items.now) }
{
    let made = replay_from(alloc, entry.copy(alloc)?, items)?;
    let exit = Arc::new(alloc, made.config)?;
    Ok(Run {
        entry,
        reported: made.reported,
        exit,
    })
}

/// Replays `steps`, in order, from `entry`, whose register they must fit. Returns the run of these
/// steps, with `entry` as its entry. The steps aren't copied. Fails only if memory runs out.
pub fn run_of_owned<R: Register>(
    alloc: Global,
    entry: Arc<Config<R>>,
    steps: Vec<Step>,
) -> Result<Run<R>, AllocError>
    requires { AllFit (R.behaviour (arc_value entry).register) steps.items }
    ensures entry { IfOk result (λ run. run.entry ≡ arc_value entry) }
    ensures steps { IfOk result (λ run. run.steps ≡ steps.items) }
{
    let MarkedReplay { reported, config } = replay_owned(alloc, entry.copy(alloc)?, steps)?;
    let exit = Arc::new(alloc, config)?;
    Ok(Run {
        entry,
        reported,
        exit,
    })
}

/// Makes the steps of a segment, which must fit the register of `entry`, one after another, from a
/// copy of `entry`. Returns the run of these steps, whose entry equals `entry`.
pub fn run_segment<R: Register>(
    alloc: Global,
    entry: &Config<R>,
    steps: &[Step],
) -> Result<Run<R>, AllocError>
    requires { AllFit (R.behaviour entry.now.register) steps.now }
    ensures entry { IfOk result (λ run. run.entry ≡ entry.now) }
    ensures steps { IfOk result (λ run. run.steps ≡ steps.now) }
{
    let entry = Arc::new(alloc, entry.copy(alloc)?)?;
    run_of(alloc, entry, steps)
}
