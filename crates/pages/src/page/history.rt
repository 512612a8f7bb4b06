//! The page of history, which has a line for each event.

ghost use Rattle.std.specs.Prelude.{◌≡◌, ◌++◌, OnOk, codes, decimal};
ghost use Rattle.pages.specs.page.Memory as memory;
ghost use Rattle.pages.specs.page.Process.{op_text};
ghost use Rattle.pages.specs.page.History as spec;

use crate::page::head::{Head, push_head};
use crate::page::lines::{Line, push_lines_or_none};
use crate::page::memory::bit_name;
use crate::page::names::{layer_name, reason_name};
use crate::page::process::push_op;
use branch_terms::listed::Listed;
use frames::types::{Event, Op};
use words::text::{Pushed, push_labelled, push_text};

/// A page that shows the events of the steps before a place, each with the index of its step.
#[derive(Clone, Drop)]
pub struct HistoryPage {
    pub head: Head,
    pub events: Listed<(usize, Event)>,
}

/// Adds to `out` the text of a page of history.
pub(crate) fn push_history(out: &mut Vec<u8>, session: u32, page: &HistoryPage) -> Pushed
    ensures { OnOk result (out.new.items ≡ out.old.items ++ spec.history_text session page.now) }
{
    push_head(out, session, "history", &page.head)?;
    push_lines_or_none(out, page.events.as_slice())
}

/// The line shows the event, and the index of the step that recorded it.
impl Line for (usize, Event) {
    ghost line = { λ index event. spec.event_line event };

    fn push_line(&self, out: &mut Vec<u8>, _index: usize) -> Pushed {
        let (step, event) = *self;
        push_labelled(out, "  ", step as u64)?;
        push_labelled(out, " p", u64::from(event_process(event)))?;
        push_text(out, " ")?;
        push_event_text(out, event)?;
        push_text(out, "\n")
    }
}

/// The process of an event.
fn event_process(event: Event) -> u32
    ensures { result ≡ spec.event_process event }
{
    match event {
        Event::Invoke(p, _)
        | Event::Got(p, _)
        | Event::Wrote(p)
        | Event::Refused(p, _)
        | Event::Void(p, _)
        | Event::Stop(p)
        | Event::Chosen(p, _, _) => p,
    }
}

/// Adds the text of an event: its kind, and after it an invocation's operation, the value that a
/// read returned, a refusal's layer, a void's reason, or a choice's bit and value. The text of a
/// write's return is `return written`, and that of a stop is `stop`.
fn push_event_text(out: &mut Vec<u8>, event: Event) -> Pushed
    ensures { OnOk result (out.new.items ≡ out.old.items ++ spec.event_text event) }
{
    match event {
        Event::Invoke(_, op) => push_invocation(out, op),
        Event::Got(_, v) => push_labelled(out, "return ", u64::from(v)),
        Event::Wrote(_) => push_text(out, "return written"),
        Event::Refused(_, layer) => push_named(out, "refused spent ", layer_name(layer)),
        Event::Void(_, reason) => push_named(out, "void ", reason_name(reason)),
        Event::Stop(_) => push_text(out, "stop"),
        Event::Chosen(_, bit, value) => push_choice(out, bit, value),
    }
}

/// Adds the text of an invocation of `op`.
fn push_invocation(out: &mut Vec<u8>, op: Op) -> Pushed
    ensures { OnOk result (out.new.items ≡ out.old.items ++ codes "invoke " ++ op_text op) }
{
    push_text(out, "invoke ")?;
    push_op(out, op)
}

/// Adds a text, and a name after it.
fn push_named(out: &mut Vec<u8>, kind: &str, name: &str) -> Pushed
    ensures { OnOk result (out.new.items ≡ out.old.items ++ kind.now ++ name.now) }
{
    push_text(out, kind)?;
    push_text(out, name)
}

/// Adds the text of a choice: the bit and its value.
fn push_choice(out: &mut Vec<u8>, bit: u32, value: bool) -> Pushed
    ensures { OnOk result (out.new.items ≡ out.old.items
        ++ codes "chosen bit " ++ decimal bit ++ codes " value " ++ memory.bit_name value) }
{
    push_labelled(out, "chosen bit ", u64::from(bit))?;
    push_named(out, " value ", bit_name(value))
}
