//! The events of steps made one after another.

ghost use Rattle.std.specs.Prelude.{◌≡◌, [], ◌∷◌, ◌++◌, List, IfOk, OnOk, OnErr, IfSome, IfNone, take, length, ◌+◌, ◌<◌, ◌≤◌, vec_len, vec_capacity};
ghost use Rattle.frames.specs.Recorded.{at_index, indexed};
ghost use Rattle.frames.specs.declared.types.Step.{Step as StepSpec};
ghost use Rattle.checkpoints.specs.declared.mark.Mark.{Mark as MarkSpec};
ghost use Rattle.checkpoints.specs.StoredEvents.{stored_events};
ghost use Rattle.checkpoints.specs.MarkedSteps as spec;

use crate::mark::{Mark, implied_event, implying_mark};
use crate::stored_event::{StoredEvent, event_of, stored_form};
use frames::types::{Event, Step, StepEvents};
use slices::front;
use std::alloc::{AllocError, Global};
use std::marker::Model;

/// Memory is reserved for this many events at a time, so memory for at most this many is unused.
const MORE_EVENTS: usize = 8;

/// Steps, a mark for each step, and the stored events, in order. A step's mark says which of the
/// step's events are stored, or what the step's only event is. The three fields together give what
/// each step recorded.
#[derive(Debug, Drop)]
pub(crate) struct MarkedSteps {
    pub(crate) steps: Vec<Step>,
    marks: Vec<Mark>,
    events: Vec<StoredEvent>,
}

/// The events of steps made one after another. Contracts see a list with an item for each step, in
/// order: the step's events, two at most.
#[derive(Debug, Drop)]
pub struct Events {
    reported: MarkedSteps,
}

impl Model for Events {
    ghost use Rattle.std.specs.Prelude.{List};
    ghost use Rattle.frames.specs.declared.types.StepEvents.{StepEvents};
    ghost use Rattle.checkpoints.specs.MarkedSteps.{reported_in};

    ghost Value = { List StepEvents };

    ghost view = { λ e. reported_in e.reported };
}

/// A walk over the events of steps, one step after the other. Contracts see the events of the steps
/// that are left.
#[derive(Drop)]
pub struct EventWalk<'a> {
    steps: &'a [Step],
    marks: &'a [Mark],
    events: &'a [StoredEvent],
}

impl<'a> Model for EventWalk<'a> {
    ghost use Rattle.std.specs.Prelude.{List};
    ghost use Rattle.frames.specs.declared.types.StepEvents.{StepEvents};
    ghost use Rattle.checkpoints.specs.StoredEvents.{stored_events};
    ghost use Rattle.checkpoints.specs.MarkedSteps.{reported_events};

    ghost Value = { List StepEvents };

    ghost view = { λ w. reported_events w.steps.now w.marks.now (stored_events w.events.now) };
}

impl MarkedSteps {
    /// Steps with these marks and stored events. If memory is reserved for more than `MORE_EVENTS`
    /// further events, frees that memory.
    pub(crate) fn new(steps: Vec<Step>, marks: Vec<Mark>, events: Vec<StoredEvent>) -> MarkedSteps
        ensures steps { result.steps.items ≡ steps.items }
        ensures reported { spec.reported_in result
            ≡ spec.reported_events steps.items marks.items (stored_events events.items) }
    {
        let mut events = events;
        if events.capacity() - events.len() > MORE_EVENTS {
            events.shrink_to_fit();
        }
        MarkedSteps {
            steps,
            marks,
            events,
        }
    }

    /// A walk over the events of all steps.
    pub(crate) fn walk(&self) -> EventWalk<'_>
        ensures { result ≡ spec.reported_in self.now }
    {
        EventWalk {
            steps: &self.steps,
            marks: &self.marks,
            events: &self.events,
        }
    }
}

impl Events {
    /// The events of the steps of `reported`.
    pub(crate) fn of(reported: MarkedSteps) -> Events
        ensures { result ≡ spec.reported_in reported }
    {
        Events { reported }
    }

    /// Each event with the index of its step, in order. The first step has the index 0.
    pub fn indexed(&self, alloc: Global) -> Result<Vec<(usize, Event)>, AllocError>
        ensures { IfOk result (λ all. all.items ≡ indexed 0 self.now) }
    {
        self.reported.walk().indexed(alloc)
    }
}

impl<'a> EventWalk<'a> {
    /// The walk over the events of the next `count` steps, or of all that are left if there are
    /// fewer.
    pub fn front(self, count: usize) -> EventWalk<'a>
        ensures { result ≡ take count self.entry }
    {
        let Self {
            steps,
            marks,
            events,
        } = self;
        EventWalk {
            steps: front(steps, count),
            marks,
            events,
        }
    }

    /// Each event of the steps that are left, with the index of its step, in order. The next step
    /// has the index 0.
    pub fn indexed(self, alloc: Global) -> Result<Vec<(usize, Event)>, AllocError>
        ensures { IfOk result (λ all. all.items ≡ indexed 0 self.entry) }
    {
        let mut all = Vec::new(alloc);
        self.push_indexed(0, &mut all)?;
        Ok(all)
    }
}

impl EventWalk<'_> {
    /// Returns the events of the next step, and passes that step; `None` if no step is left.
    #[inline(always)]
    pub fn next(&mut self) -> Option<StepEvents>
        ensures some { IfSome result (λ reported. self.old ≡ reported ∷ self.new) }
        ensures none { IfNone result (self.old ≡ []) }
    {
        let (step, steps) = self.steps.split_first()?;
        let (mark, marks) = self.marks.split_first()?;
        let (reported, events) = split_events(*step, *mark, self.events);
        self.steps = steps;
        self.marks = marks;
        self.events = events;
        Some(reported)
    }

    /// Adds to the end of `all` each event of the steps that are left, with the index of its step;
    /// the next step has the index `from`. Returns the index that a step after all of these would
    /// have: `from` plus the number of these steps.
    pub fn push_indexed(
        self,
        from: usize,
        all: &mut Vec<(usize, Event)>,
    ) -> Result<usize, AllocError>
        ensures all { IfOk result (λ _. all.new.items ≡ all.old.items ++ indexed from self.entry) }
        ensures following { IfOk result (λ index. index ≡ from + length self.entry) }
    {
        let mut left = self;
        let mut index = from;
        while let Some(reported) = left.next() {
            push_at(all, index, reported.first)?;
            push_at(all, index, reported.second)?;
            // no memory holds enough steps to overflow the index, so an overflow counts as out
            // of memory
            let Some(next) = index.checked_add(1) else {
                all.reserve(usize::MAX)?;
                unreachable!();
            };
            index = next;
        }
        Ok(index)
    }
}

/// Adds to `marks` the mark of `step`, which recorded `reported`; and adds to `events` those of the
/// step's events that the mark doesn't determine. Memory for one more mark must be reserved.
#[inline(always)]
pub(crate) fn push_reported(
    marks: &mut Vec<Mark>,
    events: &mut Vec<StoredEvent>,
    step: Step,
    reported: StepEvents,
) -> Result<(), AllocError>
    requires mark { vec_len marks.old < vec_capacity marks.old }
    ensures added { OnOk result (spec.IsStepAdded step reported marks.old.items marks.new.items
        (stored_events events.old.items) (stored_events events.new.items)) }
    ensures marks { OnOk result (vec_len marks.new ≡ vec_len marks.old + 1) }
    ensures marks_room { vec_capacity marks.new ≡ vec_capacity marks.old }
{
    let mark = match reported.first {
        Some(first) => match reported.second {
            Some(second) => {
                push_stored(events, first)?;
                push_stored(events, second)?;
                Mark::Both
            }
            None => match implying_mark(step, first) {
                Some(mark) => mark,
                None => {
                    push_stored(events, first)?;
                    Mark::First
                }
            },
        },
        None => match reported.second {
            Some(second) => {
                push_stored(events, second)?;
                Mark::Second
            }
            None => Mark::Nothing,
        },
    };
    marks.push_reserved(mark);
    Ok(())
}

/// Adds an event in its stored form.
#[inline(always)]
fn push_stored(events: &mut Vec<StoredEvent>, event: Event) -> Result<(), AllocError>
    ensures { OnOk result
        (stored_events events.new.items ≡ stored_events events.old.items ++ event ∷ []) }
{
    if events.len() == events.capacity() {
        reserve_more(events)?;
    }
    events.push_reserved(stored_form(event));
    Ok(())
}

/// Reserves memory for `MORE_EVENTS` more events.
#[cold]
#[inline(never)]
fn reserve_more(events: &mut Vec<StoredEvent>) -> Result<(), AllocError>
    ensures items { events.new.items ≡ events.old.items }
    ensures room { OnOk result (vec_len events.new < vec_capacity events.new) }
{
    events.reserve(MORE_EVENTS)
}

/// The events of a step with this mark, and the stored events that are left for later steps.
#[inline(always)]
fn split_events(step: Step, mark: Mark, events: &[StoredEvent]) -> (StepEvents, &[StoredEvent])
    ensures { (steps : List StepSpec) (marks : List MarkSpec)
        → spec.reported_events (step ∷ steps) (mark ∷ marks) (stored_events events.now)
        ≡ result.0 ∷ spec.reported_events steps marks (stored_events result.1.now) }
{
    match mark {
        Mark::First => {
            let (first, following) = take_next(events);
            (step_events_of(first, None), following)
        }
        Mark::Second => {
            let (second, following) = take_next(events);
            (step_events_of(None, second), following)
        }
        Mark::Both => {
            let (first, later) = take_next(events);
            let (second, following) = take_next(later);
            (step_events_of(first, second), following)
        }
        mark => (step_events_of(implied_event(step, mark), None), events),
    }
}

/// The next event, if one is left, and the events after it.
#[inline(always)]
fn take_next(events: &[StoredEvent]) -> (Option<Event>, &[StoredEvent])
    ensures next { result.0 ≡ spec.next_event (stored_events events.now) }
    ensures following { stored_events result.1.now ≡ spec.later_events (stored_events events.now) }
{
    match events.split_first() {
        Some((stored, following)) => (Some(event_of(*stored)), following),
        None => (None, events),
    }
}

/// The events of a step, either of which may be missing.
#[inline(always)]
fn step_events_of(first: Option<Event>, second: Option<Event>) -> StepEvents
    ensures first { result.first ≡ first }
    ensures second { result.second ≡ second }
{
    StepEvents { first, second }
}

/// Adds an event with the index of its step, if there is an event.
fn push_at(
    all: &mut Vec<(usize, Event)>,
    index: usize,
    event: Option<Event>,
) -> Result<(), AllocError>
    ensures { OnOk result (all.new.items ≡ all.old.items ++ at_index index event) }
{
    if let Some(event) = event {
        all.push((index, event))?;
    }
    Ok(())
}
