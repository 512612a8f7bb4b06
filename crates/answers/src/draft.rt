//! Drafts: the first steps of a schedule, with what makes them hard to read.

ghost use Rattle.std.specs.Prelude.{◌≡◌, ◌<◌, ◌++◌, ◌∷◌, [], true, Some, IfOk, IfSome};
ghost use Rattle.frames.specs.Configuration.{fits_step};
ghost use Rattle.answers.specs.States as spec;
ghost use Rattle.answers.specs.States.{IsStateOfRun, advanced};

use crate::moves::{Moves, is_enabled, kind_of, step_by};
use crate::state::State;
use frames::config::Config;
use frames::register::Register;
use frames::types::{ActionKind, Outcome, Step};
use std::alloc::{AllocError, Global};

/// What makes steps hard to read: the hit reads that end in them, and the switches between
/// processes.
#[derive(Clone, Copy, Debug, PartialEq, Eq)]
struct Effort {
    hits: usize,
    switches: usize,
}

impl Effort {
    /// Whether there are fewer hit reads than in another one, or as many and fewer switches.
    fn is_less(self, other: Effort) -> bool {
        self.hits < other.hits || (self.hits == other.hits && self.switches < other.switches)
    }
}

/// The first steps of a schedule, the state after them, and what makes them hard to read; `own` is
/// the number of steps by the process of the last one.
#[derive(Drop)]
pub(crate) struct Draft<R: Register> {
    pub(crate) steps: Vec<Step>,
    pub(crate) state: State<R>,
    effort: Effort,
    own: usize,
}

/// Whether the step ends a hit read.
fn is_hit<R: Register>(config: &Config<R>, step: Step) -> bool {
    let Step::Go { p, .. } = step else {
        return false;
    };
    let Some(action) = config.action(p) else {
        return false;
    };
    let Some(cell) = config.store().cells().get(action.cell as usize) else {
        return false;
    };
    action.kind == ActionKind::ReadEnd && cell.hit
}

/// Whether the step is a bit action with choice 1.
fn is_choice_1(step: Step) -> bool {
    match step {
        Step::Go { c, .. } => c == 1,
        _ => false,
    }
}

/// The process of the last step; `None` if there is no step.
fn last_process(steps: &[Step]) -> Option<u32> {
    match steps.last() {
        Some(step) => Some(step.process()),
        None => None,
    }
}

/// The number of steps that process `p` makes.
fn count_of(steps: &[Step], p: u32) -> usize {
    let mut count: usize = 0;
    for step in steps {
        if step.process() == p {
            count = count.saturating_add(1);
        }
    }
    count
}

/// Whether these are the first outcomes of a list.
fn is_beginning(outcomes: &[Outcome], list: &[Outcome]) -> bool {
    outcomes.len() <= list.len() && outcomes == &list[..outcomes.len()]
}

impl<R: Register> Draft<R> {
    /// The draft with one more step.
    pub(crate) fn with_step(&self, alloc: Global, step: Step) -> Result<Draft<R>, AllocError>
        requires { fits_step (R.behaviour self.now.state.configuration.register) step ≡ true }
        ensures steps { IfOk result (λ d. d.steps.items ≡ self.now.steps.items ++ step ∷ []) }
        ensures state { IfOk result (λ d. d.state
            ≡ advanced (R.behaviour self.now.state.configuration.register) self.now.state step) }
    {
        let state = self.state.advanced(alloc, step)?;
        let effort = self.effort_with(step);
        let mut steps = Vec::from_slice(alloc, &self.steps)?;
        steps.push(step)?;
        let own = count_of(&steps, step.process());
        Ok(Draft {
            steps,
            state,
            effort,
            own,
        })
    }

    /// What makes this draft hard to read with one more step.
    fn effort_with(&self, step: Step) -> Effort {
        let mut effort = self.effort;
        if is_hit(&self.state.config, step) {
            effort.hits = effort.hits.saturating_add(1);
        }
        let last = last_process(&self.steps);
        if last.is_some() && last != Some(step.process()) {
            effort.switches = effort.switches.saturating_add(1);
        }
        effort
    }

    /// Whether this draft is easier to read than another one.
    pub(crate) fn is_easier(&self, other: &Draft<R>) -> bool {
        self.effort.is_less(other.effort)
    }

    /// Whether the states are equal, and the last steps are of the same process, which makes as
    /// many steps in both.
    pub(crate) fn is_like(&self, other: &Draft<R>) -> bool {
        self.own == other.own
            && last_process(&self.steps) == last_process(&other.steps)
            && self.state == other.state
    }

    /// Whether process `p`'s outcomes are the first ones that it has in `whole`.
    pub(crate) fn agrees(&self, whole: &Draft<R>, p: u32) -> bool {
        let Some(outcomes) = self.state.answers().get(p as usize) else {
            return false;
        };
        let Some(list) = whole.state.answers().get(p as usize) else {
            return false;
        };
        is_beginning(outcomes.as_slice(), list.as_slice())
    }

    /// Whether this draft with one more step may become one that is easier than `given`, and has as
    /// many steps of each process. A choice of 1 is taken only if it has an effect.
    pub(crate) fn may_take(&self, given: &Draft<R>, step: Step) -> bool {
        let p = step.process();
        let has_effect = is_hit(&self.state.config, step) || !is_choice_1(step);
        has_effect
            && self.effort_with(step).is_less(given.effort)
            && count_of(&self.steps, p) < count_of(&given.steps, p)
    }
}

/// The draft without steps, in the initial state. `AllocError` if memory runs out.
pub(crate) fn first_draft<'q, R: Register>(
    alloc: Global,
    moves: &Moves<'q, R>,
) -> Result<Draft<R>, AllocError>
    requires { moves.now.question.now.value < (R.behaviour moves.now.register).values }
    ensures { IfOk result (λ d. IsStateOfRun R.behaviour (R.behaviour moves.now.register)
        moves.now.question.now.value moves.now.question.now d.steps.items d.state) }
{
    let Ok(state) = State::initial(alloc, moves.register, moves.question.value) else {
        return Err(AllocError);
    };
    let steps = Vec::new(alloc);
    Ok(Draft {
        steps,
        state,
        effort: Effort {
            hits: 0,
            switches: 0,
        },
        own: 0,
    })
}

/// The step of process `p` that `kind` names, if it can be the next one.
pub(crate) fn step_after<'q, R: Register>(
    moves: &Moves<'q, R>,
    draft: &Draft<R>,
    p: u32,
    kind: usize,
) -> Option<Step>
    ensures named { IfSome result (λ step. spec.step_by moves.now.question.now
        draft.now.state.answers p kind ≡ Some step) }
    ensures fits { IfSome result (λ step.
        fits_step (R.behaviour draft.now.state.configuration.register) step ≡ true) }
{
    let step = step_by(moves.question, draft.state.answers(), p, kind)?;
    if draft.state.config.fits(step) && is_enabled(&draft.state.config, step) {
        Some(step)
    } else {
        None
    }
}

/// The draft of these steps; `None` if some step isn't possible.
pub(crate) fn replayed<'q, R: Register>(
    alloc: Global,
    moves: &Moves<'q, R>,
    steps: &[Step],
) -> Result<Option<Draft<R>>, AllocError>
    requires { moves.now.question.now.value < (R.behaviour moves.now.register).values }
    ensures { IfOk result (λ r. IfSome r (λ d.
        IsStateOfRun R.behaviour (R.behaviour moves.now.register) moves.now.question.now.value
        moves.now.question.now d.steps.items d.state)) }
{
    let Ok(first) = first_draft(alloc, moves) else {
        return Err(AllocError);
    };
    let mut draft = first;
    for step in steps {
        let Some(same) = step_after(moves, &draft, step.process(), kind_of(*step)) else {
            return Ok(None);
        };
        let Ok(longer) = draft.with_step(alloc, same) else {
            return Err(AllocError);
        };
        draft = longer;
    }
    Ok(Some(draft))
}
