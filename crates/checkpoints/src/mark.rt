//! Marks: which events a step recorded. An event that follows from step and mark isn't stored.

ghost use Rattle.std.specs.Prelude.{◌≡◌, Some, IfSome};
ghost use Rattle.frames.specs.Steps.{process_of};
ghost use Rattle.frames.specs.declared.types.Event.TheVariants as event;
ghost use Rattle.frames.specs.declared.types.Step.{Step as StepSpec};
ghost use Rattle.checkpoints.specs.MarkedSteps as spec;

use frames::types::{Event, Op, Reason, Step};

/// What a step recorded. The first four marks say which events it recorded (none, only the first,
/// only the second, or both); these events are stored. Each other mark, together with the step,
/// determines the step's only event, so that this event isn't stored.
#[derive(Clone, Copy, Debug, PartialEq, Eq)]
pub(crate) enum Mark {
    Nothing,
    First,
    Second,
    Both,
    Invoked,
    Wrote,
    Busy,
    Idle,
    Stopped,
    GotZero,
    GotOne,
}

/// The event that a step and its mark determine, if they determine one.
#[inline(always)]
pub(crate) fn implied_event(step: Step, mark: Mark) -> Option<Event>
    ensures { result ≡ spec.implied_event step mark }
{
    match mark {
        Mark::Nothing | Mark::First | Mark::Second | Mark::Both => None,
        Mark::Invoked => invocation(step),
        Mark::Wrote => Some(Event::Wrote(step.process())),
        Mark::Busy => Some(Event::Void(step.process(), Reason::Busy)),
        Mark::Idle => Some(Event::Void(step.process(), Reason::Idle)),
        Mark::Stopped => Some(Event::Void(step.process(), Reason::Stopped)),
        Mark::GotZero => Some(Event::Got(step.process(), 0)),
        Mark::GotOne => Some(Event::Got(step.process(), 1)),
    }
}

/// The event of a step that invokes an operation; `None` for other steps.
#[inline(always)]
fn invocation(step: Step) -> Option<Event>
    ensures { result ≡ spec.invocation step }
{
    match step {
        Step::Write { p, v } => Some(Event::Invoke(p, Op::Write(v))),
        Step::Read { p } => Some(Event::Invoke(p, Op::Read)),
        Step::Go { .. } | Step::Stop { .. } => None,
    }
}

/// The mark that, together with `step`, determines `event` as the step's only event; `None` if no
/// mark does.
#[inline(always)]
pub(crate) fn implying_mark(step: Step, event: Event) -> Option<Mark>
    ensures { IfSome result (λ mark. spec.implied_event step mark ≡ Some event) }
{
    match event {
        Event::Invoke(..) if invocation(step) == Some(event) => Some(Mark::Invoked),
        Event::Wrote(who) if who == step.process() => Some(Mark::Wrote),
        Event::Got(who, 0) if who == step.process() => Some(Mark::GotZero),
        Event::Got(who, 1) if who == step.process() => Some(Mark::GotOne),
        Event::Void(who, reason) if who == step.process() => Some(mark_of(reason)),
        _ => None,
    }
}

/// The mark of a step that isn't enabled, for this reason.
#[inline(always)]
fn mark_of(reason: Reason) -> Mark
    ensures { (step : StepSpec) → spec.implied_event step result
        ≡ Some (event.Void (process_of step) reason) }
{
    match reason {
        Reason::Busy => Mark::Busy,
        Reason::Idle => Mark::Idle,
        Reason::Stopped => Mark::Stopped,
    }
}
