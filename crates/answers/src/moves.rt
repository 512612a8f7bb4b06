//! The moves of a question: the graph that is searched.

ghost use Rattle.std.specs.Prelude.{◌≡◌, ◌<◌, ◌++◌, [], true, false, IfOk, OnOk, slice_get, slice_index_or, slice_set};
ghost use Rattle.std.specs.List.{list_all};
ghost use Rattle.std.specs.Option.{option_to_list};
ghost use Rattle.frames.specs.Configuration.{events_of, is_enabled, fits_step};
ghost use Rattle.frames.specs.Steps.{invoking_step};
ghost use Rattle.answers.specs.Questions.{allows, next_of, operations_of, process_may_stop, outcomes_by, events_in};
ghost use Rattle.answers.specs.States.{advanced, ended_counts, has_choice, step_by, with_events};

use crate::done::is_done;
use crate::key::StateKey;
use crate::outcomes::Outcomes;
use crate::question::{After, Question};
use crate::state::State;
use breadth_first::graph::{Arrival, Graph};
use frames::config::Config;
use frames::register::Register;
use frames::types::{Event, Op, Outcome, Step, StepEvents};
use std::alloc::{AllocError, Global};

/// How many kinds of step `step_by` has for each process.
pub(crate) const KINDS: usize = 4;

/// The moves of a question on a register. A state is followed by a state for each step that some
/// process may make: a bit action with either choice, its next invocation, or a stop.
#[derive(Drop)]
pub struct Moves<'q, R: Register> {
    pub register: R,
    pub question: &'q Question,
}

impl<'q, R: Register> Graph for Moves<'q, R> {
    type Node = State<R>;

    type Key = StateKey;

    ghost use Rattle.answers.specs.Graphs.{IsStateOf, moves_of};
    ghost use Rattle.answers.specs.laws.KeyLaws.{same_keys, holds_after_move};
    ghost use Rattle.answers.specs.laws.StateLaws.{moved_alike};

    ghost graph = { λ g. moves_of R.behaviour g.question.now g.register };

    ghost Holds = { λ g. IsStateOf (R.behaviour g.register) (R.Holds g.register) (R.Reaches g.register) g.register };

    fn label_count(&self) -> usize {
        self.register.processes() as usize * KINDS
    }

    fn next(
        &self,
        alloc: Global,
        node: &State<R>,
        label: usize,
    ) -> Result<Option<Arrival<State<R>>>, AllocError> {
        // for the proof: reading a field opens the model, so what its invariant says is known
        let _count = self.register.processes();
        let process = (label / KINDS) as u32;
        let Some(step) = step_by(self.question, node.answers(), process, label % KINDS) else {
            return Ok(None);
        };
        if !node.config.fits(step) || !is_enabled(&node.config, step) {
            return Ok(None);
        }
        let Ok((state, events)) = node.advanced_with_events(alloc, step) else {
            return Err(AllocError);
        };
        // the next label is the same action with choice 1, which then has the same effect
        let again = label % KINDS == 0 && !has_choice(events);
        Ok(Some(Arrival { node: state, again }))
    }

    fn key(&self, alloc: Global, node: &State<R>) -> Result<StateKey, AllocError> {
        StateKey::of(alloc, node)
    }

    fn is_goal(&self, node: &State<R>) -> bool {
        is_done(self, node)
    }

    ghost alike = { λ g. moved_alike R.PartialEq.eq R.Pending.PartialEq.eq R.same_pending R.behaviour R.alike g.question.now };

    ghost holds_after = { λ g. holds_after_move R.behaviour g.register (R.Holds g.register) (R.Reaches g.register) (R.lawful g.register) g.question.now };

    ghost same_key = { λ g. same_keys R.behaviour g.register (R.Holds g.register) (R.Reaches g.register) (R.lawful g.register) (R.point g.register) (R.reports g.register) R.PartialEq.eq R.Eq.laws R.Pending.PartialEq.eq R.same_pending };
}

/// The number of operations that process `p` has ended.
pub(crate) fn ended_count(answers: &[Outcomes], p: u32) -> usize
    ensures { result ≡ ended_counts answers.now p }
{
    match answers.get(p as usize) {
        Some(outcomes) => outcomes.len(),
        None => 0,
    }
}

/// Whether `after` lets process `p` invoke its next operation.
fn allows(answers: &[Outcomes], p: u32, after: &After) -> bool
    ensures { result ≡ allows (ended_counts answers.now) p after.now }
{
    let later = after.later;
    let is_next = later.process == p && later.index as usize == ended_count(answers, p);
    let earlier = after.earlier;
    !is_next || (earlier.index as usize) < ended_count(answers, earlier.process)
}

/// Whether each of these lets process `p` invoke its next operation.
fn all_allow(answers: &[Outcomes], p: u32, after: &[After]) -> bool
    ensures { result ≡ list_all (allows (ended_counts answers.now) p) after.now }
{
    after.iter().all(|after| allows(answers, p, after))
}

/// Item `index` of a list; `None` if the list is shorter.
fn nth(list: &[Op], index: usize) -> Option<Op>
    ensures { result ≡ slice_get list.now index }
{
    match list.get(index) {
        Some(op) => Some(*op),
        None => None,
    }
}

/// Operation `index` of process `p`; `None` if there is none.
fn nth_op(question: &Question, p: u32, index: usize) -> Option<Op>
    ensures { result ≡ slice_get (operations_of question.now p) index }
{
    match question.operations.get(p as usize) {
        Some(list) => nth(list, index),
        None => None,
    }
}

/// The operation that process `p` may invoke if it is idle.
pub(crate) fn next_op(question: &Question, answers: &[Outcomes], p: u32) -> Option<Op>
    ensures { result ≡ next_of question.now (ended_counts answers.now) p }
{
    if all_allow(answers, p, &question.after) {
        nth_op(question, p, ended_count(answers, p))
    } else {
        None
    }
}

/// Whether process `p` may stop.
fn may_stop(question: &Question, p: u32) -> bool
    ensures { result ≡ process_may_stop question.now p }
{
    question.may_stop.contains(&p)
}

/// The step by which process `p` invokes `op`.
fn invoking_step(p: u32, op: Op) -> Step
    ensures { result ≡ invoking_step p op }
{
    match op {
        Op::Write(v) => Step::Write { p, v },
        Op::Read => Step::Read { p },
    }
}

/// The step of process `p` that `kind` names: a bit action with choice 0 or 1, the invocation of
/// its next operation, or a stop.
pub(crate) fn step_by(
    question: &Question,
    answers: &[Outcomes],
    p: u32,
    kind: usize,
) -> Option<Step>
    ensures { result ≡ step_by question.now answers.now p kind }
{
    match kind {
        0 => Some(Step::Go { p, c: 0 }),
        1 => Some(Step::Go { p, c: 1 }),
        2 => {
            let op = next_op(question, answers, p)?;
            Some(invoking_step(p, op))
        }
        _ => {
            if may_stop(question, p) {
                Some(Step::Stop { p })
            } else {
                None
            }
        }
    }
}

/// The kind of a step, as `step_by` has it: 0 and 1 are bit actions with that choice, 2 is an
/// invocation, and 3 a stop.
pub(crate) fn kind_of(step: Step) -> usize {
    match step {
        Step::Go { c: 0, .. } => 0,
        Step::Go { .. } => 1,
        Step::Write { .. } | Step::Read { .. } => 2,
        Step::Stop { .. } => 3,
    }
}

/// Whether the step is enabled: its process hasn't stopped, and is idle if the step is an
/// invocation, or has an operation pending if it is a bit action.
pub(crate) fn is_enabled<R: Register>(config: &Config<R>, step: Step) -> bool
    ensures { result ≡ is_enabled config.now step }
{
    let p = step.process();
    if config.stopped(p) {
        return false;
    }
    let pending = config.op(p).is_some();
    match step {
        Step::Write { .. } | Step::Read { .. } => !pending,
        Step::Go { .. } => pending,
        Step::Stop { .. } => true,
    }
}

/// Whether a step reports a choice, which is then its first event.
fn has_choice(events: StepEvents) -> bool
    ensures { result ≡ has_choice events }
{
    match events.first {
        Some(Event::Chosen(..)) => true,
        _ => false,
    }
}

/// A copy of each process's outcomes, in the same order.
pub(crate) fn copy_answers(alloc: Global, answers: &[Outcomes]) -> Result<Vec<Outcomes>, AllocError>
    ensures { IfOk result (λ copied. copied.items ≡ answers.now) }
{
    let mut copied = Vec::with_capacity(alloc, answers.len())?;
    for outcomes in answers {
        let copy = outcomes.copy(alloc)?;
        copied.push_reserved(copy);
    }
    Ok(copied)
}

/// Whether an operation of process `p` ends in these events.
pub(crate) fn ends(p: u32, events: StepEvents) -> bool
    ensures { result ≡ false → outcomes_by p (events_in events) ≡ [] }
{
    outcome_in(p, events.first).is_some() || outcome_in(p, events.second).is_some()
}

/// The outcome of process `p`'s operation that ends in this event, if one does.
fn outcome_in(p: u32, event: Option<Event>) -> Option<Outcome>
    ensures { option_to_list result ≡ outcomes_by p (option_to_list event) }
{
    match event? {
        Event::Got(q, v) if q == p => Some(Outcome::Value(v)),
        Event::Wrote(q) if q == p => Some(Outcome::Written),
        Event::Refused(q, layer) if q == p => Some(Outcome::Spent(layer)),
        _ => None,
    }
}

/// If an operation of process `p` ends in these events, adds its outcome to the answers.
pub(crate) fn add_events(
    answers: &mut [Outcomes],
    p: u32,
    events: StepEvents,
) -> Result<(), AllocError>
    ensures { OnOk result (answers.new ≡ with_events p events answers.old) }
{
    if (p as usize) < answers.len() {
        add_ended(&mut answers[p as usize], p, events)
    } else {
        Ok(())
    }
}

/// If an operation of process `p` ends in these events, adds its outcome to `own`.
fn add_ended(own: &mut Outcomes, p: u32, events: StepEvents) -> Result<(), AllocError>
    ensures { OnOk result (own.new ≡ own.old ++ outcomes_by p (events_in events)) }
{
    add_outcome(own, p, events.first)?;
    add_outcome(own, p, events.second)
}

/// If an operation of process `p` ends in this event, adds its outcome.
fn add_outcome(outcomes: &mut Outcomes, p: u32, event: Option<Event>) -> Result<(), AllocError>
    ensures { OnOk result (outcomes.new ≡ outcomes.old ++ outcomes_by p (option_to_list event)) }
{
    match outcome_in(p, event) {
        Some(outcome) => outcomes.push(outcome),
        None => Ok(()),
    }
}
