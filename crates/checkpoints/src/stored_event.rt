//! The form in which runs store an event.

ghost use Rattle.std.specs.Prelude.{◌≡◌};
ghost use Rattle.frames.specs.declared.types.Event.TheVariants as recorded;
ghost use Rattle.checkpoints.specs.StoredEvents as spec;

use frames::types::{Event, Layer, Op, Reason};

/// An event in 12 bytes, instead of the 16 of `Event`. To save a field, the variant says which
/// operation is invoked, and which value was chosen at the end of a hit read of a bit.
#[derive(Clone, Copy, Debug, PartialEq, Eq)]
pub(crate) enum StoredEvent {
    InvokedWrite(u32, u32),
    InvokedRead(u32),
    Got(u32, u32),
    Wrote(u32),
    Refused(u32, Layer),
    Void(u32, Reason),
    Stop(u32),
    ChosenZero(u32, u32),
    ChosenOne(u32, u32),
}

/// The stored form of an event.
#[inline(always)]
pub(crate) fn stored_form(event: Event) -> StoredEvent
    ensures { spec.event_of result ≡ event }
{
    match event {
        Event::Invoke(p, op) => stored_invocation(p, op),
        Event::Got(p, v) => StoredEvent::Got(p, v),
        Event::Wrote(p) => StoredEvent::Wrote(p),
        Event::Refused(p, layer) => StoredEvent::Refused(p, layer),
        Event::Void(p, reason) => StoredEvent::Void(p, reason),
        Event::Stop(p) => StoredEvent::Stop(p),
        Event::Chosen(p, bit, value) => stored_choice(p, bit, value),
    }
}

/// The stored form of the invocation of an operation.
#[inline(always)]
fn stored_invocation(p: u32, op: Op) -> StoredEvent
    ensures { spec.event_of result ≡ recorded.Invoke p op }
{
    match op {
        Op::Write(v) => StoredEvent::InvokedWrite(p, v),
        Op::Read => StoredEvent::InvokedRead(p),
    }
}

/// The stored form of the choice at the end of a hit read of a bit.
#[inline(always)]
fn stored_choice(p: u32, bit: u32, value: bool) -> StoredEvent
    ensures { spec.event_of result ≡ recorded.Chosen p bit value }
{
    if value {
        StoredEvent::ChosenOne(p, bit)
    } else {
        StoredEvent::ChosenZero(p, bit)
    }
}

/// The event with this stored form.
#[inline(always)]
pub(crate) fn event_of(stored: StoredEvent) -> Event
    ensures { result ≡ spec.event_of stored }
{
    match stored {
        StoredEvent::InvokedWrite(p, v) => Event::Invoke(p, Op::Write(v)),
        StoredEvent::InvokedRead(p) => Event::Invoke(p, Op::Read),
        StoredEvent::Got(p, v) => Event::Got(p, v),
        StoredEvent::Wrote(p) => Event::Wrote(p),
        StoredEvent::Refused(p, layer) => Event::Refused(p, layer),
        StoredEvent::Void(p, reason) => Event::Void(p, reason),
        StoredEvent::Stop(p) => Event::Stop(p),
        StoredEvent::ChosenZero(p, bit) => Event::Chosen(p, bit, false),
        StoredEvent::ChosenOne(p, bit) => Event::Chosen(p, bit, true),
    }
}
