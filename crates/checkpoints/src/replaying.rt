//! Replay: steps made one after another.

ghost use Rattle.std.specs.Prelude.{◌≡◌, ◌<◌, IfOk, map};
ghost use Rattle.frames.specs.Configuration.{initial_configuration, replayed, history};
ghost use Rattle.frames.specs.Recorded.{AllFit};
ghost use Rattle.checkpoints.specs.MarkedSteps.{reported_in};

use crate::events::{Events, MarkedSteps, push_reported};
use frames::config::Config;
use frames::register::Register;
use frames::types::{HasStep, Step};
use std::alloc::{AllocError, Global};

/// The result of a replay: the configuration after its steps, and the events of each step.
#[derive(Drop)]
pub struct Replayed<R: Register> {
    pub config: Config<R>,
    pub events: Events,
}

/// Steps made one after another, with what each recorded, and the configuration after them.
#[derive(Drop)]
pub(crate) struct MarkedReplay<R: Register> {
    pub(crate) reported: MarkedSteps,
    pub(crate) config: Config<R>,
}

impl<R: Register> MarkedReplay<R> {
    /// The configuration and the events, as the result of a replay.
    fn into_replayed(self) -> Replayed<R>
        ensures config { result.config ≡ self.config }
        ensures events { result.events ≡ reported_in self.reported }
    {
        let Self { reported, config } = self;
        Replayed {
            config,
            events: Events::of(reported),
        }
    }
}

/// Makes `steps`, which must fit the register, one after another, from the initial configuration of
/// `register` with the value `value`, one of its values. Returns the configuration after the steps,
/// and the events of each step.
pub fn replay<R: Register>(
    alloc: Global,
    register: R,
    value: u32,
    steps: &[Step],
) -> Result<Replayed<R>, AllocError>
    requires value { value < (R.behaviour register).values }
    requires fits { AllFit (R.behaviour register) steps.now }
    ensures config { let initial = initial_configuration (R.behaviour register) register value in
        IfOk result (λ r. r.config ≡ replayed (R.behaviour register) initial steps.now) }
    ensures events { let initial = initial_configuration (R.behaviour register) register value in
        IfOk result (λ r. r.events ≡ history (R.behaviour register) initial steps.now) }
{
    let initial = Config::initial(alloc, register, value)?;
    let made = replay_from(alloc, initial, steps)?;
    Ok(made.into_replayed())
}

/// Makes the steps of `items`, in order, from `entry`, whose register they must fit; each item has
/// one step. Returns the steps, what each recorded, and the configuration after them.
pub(crate) fn replay_from<R: Register, S: HasStep>(
    alloc: Global,
    entry: Config<R>,
    items: &[S],
) -> Result<MarkedReplay<R>, AllocError>
    requires { AllFit (R.behaviour entry.register) (map S.step_in items.now) }
    ensures steps { IfOk result (λ r. r.reported.steps.items ≡ map S.step_in items.now) }
    ensures config { IfOk result
        (λ r. r.config ≡ replayed (R.behaviour entry.register) entry (map S.step_in items.now)) }
    ensures events { IfOk result
        (λ r. reported_in r.reported
        ≡ history (R.behaviour entry.register) entry (map S.step_in items.now)) }
{
    let mut steps = Vec::with_capacity(alloc, items.len())?;
    let mut marks = Vec::with_capacity(alloc, items.len())?;
    let mut events = Vec::new(alloc);
    let mut config = entry;
    for item in items {
        let step = item.step();
        let reported = config.step(step);
        steps.push_reserved(step);
        push_reported(&mut marks, &mut events, step, reported)?;
    }
    let reported = MarkedSteps::new(steps, marks, events);
    Ok(MarkedReplay { reported, config })
}

/// Makes `steps`, in order, from `entry`, whose register they must fit. Returns the steps, which
/// aren't copied, what each recorded, and the configuration after them.
pub(crate) fn replay_owned<R: Register>(
    alloc: Global,
    entry: Config<R>,
    steps: Vec<Step>,
) -> Result<MarkedReplay<R>, AllocError>
    requires { AllFit (R.behaviour entry.register) steps.items }
    ensures steps { IfOk result (λ r. r.reported.steps.items ≡ steps.items) }
    ensures config { IfOk result
        (λ r. r.config ≡ replayed (R.behaviour entry.register) entry steps.items) }
    ensures events { IfOk result
        (λ r. reported_in r.reported ≡ history (R.behaviour entry.register) entry steps.items) }
{
    let mut marks = Vec::with_capacity(alloc, steps.len())?;
    let mut events = Vec::new(alloc);
    let mut config = entry;
    for item in steps.as_slice() {
        let step = item.step();
        let recorded = config.step(step);
        push_reported(&mut marks, &mut events, step, recorded)?;
    }
    Ok(MarkedReplay {
        reported: MarkedSteps::new(steps, marks, events),
        config,
    })
}
