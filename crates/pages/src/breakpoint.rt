//! Breaks: the conditions that a seek looks for.

ghost use Rattle.std.specs.Prelude.{◌≡◌};
ghost use Rattle.pages.specs.Breaks as spec;

use frames::types::{Event, StepEvents};
use safe_bit::Store;

/// A condition on a step's events, or on the memory after the step. A break is met at a place if
/// the events of the step just before the place meet it, or the memory at the place does; no step
/// precedes place 0, so only the memory can meet a break there. A seek moves a session's cursor
/// along the cursor's branch, forwards or backwards, to the nearest place, other than the cursor's
/// own, at which one of the session's breaks is met. If there is no such place in that direction,
/// the cursor stays. A break on a process or a bit that the tower doesn't have is never met.
#[derive(Clone, Copy, Debug, PartialEq, Eq)]
pub enum Break {
    /// An operation of this process returned.
    Returns(u32),
    /// After the step, the bit with this number has this value, 0 or 1.
    Bit(u32, u32),
    /// A read of a bit ended, and a write of that bit had overlapped the read.
    Chosen,
    /// A step wasn't enabled.
    Void,
    /// An operation was refused.
    Refused,
}

impl Break {
    /// Whether one of the events that a step recorded meets the break; always false for a break on
    /// a bit, which only the memory after the step can meet.
    pub fn is_met_by_events(self, events: StepEvents) -> bool
        ensures { result ≡ spec.is_met_by_events self events }
    {
        self.is_met_by_option(events.first) || self.is_met_by_option(events.second)
    }

    /// Whether an event, if there is one, meets the break.
    fn is_met_by_option(self, event: Option<Event>) -> bool
        ensures { result ≡ spec.is_met_by_option self event }
    {
        match event {
            None => false,
            Some(event) => self.is_met_by(event),
        }
    }

    /// Whether an event meets the break; always false for a break on a bit, which only a memory can
    /// meet.
    pub fn is_met_by(self, event: Event) -> bool
        ensures { result ≡ spec.is_met_by self event }
    {
        match self {
            Break::Returns(p) => is_return_of(p, event),
            Break::Bit(_, _) => false,
            Break::Chosen => matches!(event, Event::Chosen(_, _, _)),
            Break::Void => matches!(event, Event::Void(_, _)),
            Break::Refused => matches!(event, Event::Refused(_, _)),
        }
    }

    /// Whether `store` meets the break: the break is on a bit that `store` has, and the bit's value
    /// is the break's. False for all other breaks.
    pub fn is_met_by_memory(self, store: &Store) -> bool
        ensures { result ≡ spec.is_met_by_memory self store.now }
    {
        match self {
            Break::Bit(j, v) => {
                (j as usize) < store.cells().len() && u32::from(store.cell(j).value) == v
            }
            Break::Returns(_) | Break::Chosen | Break::Void | Break::Refused => false,
        }
    }
}

/// Whether an event is the return of an operation of process `p`.
fn is_return_of(p: u32, event: Event) -> bool
    ensures { result ≡ spec.is_return_of p event }
{
    match event {
        Event::Got(q, _) | Event::Wrote(q) => p == q,
        Event::Invoke(_, _)
        | Event::Refused(_, _)
        | Event::Void(_, _)
        | Event::Stop(_)
        | Event::Chosen(_, _, _) => false,
    }
}
