//! The verdict on each returned read of a register with one writer.

ghost use Rattle.std.specs.Prelude.{◌≡◌, ◌↔◌, ℕ, List, ◌++◌, IfOk, OnOk};
ghost use Rattle.frames.specs.declared.types.Event.{Event};
ghost use Rattle.frames.specs.OneWriter.{HasOneWriter};
ghost use Rattle.frames.specs.correctness.Ranks.{IsAtomicForMany};
ghost use Rattle.frames.specs.correctness.Regularity.{IsAtomic, IsRegular, IsSafe};
ghost use Rattle.frames.specs.correctness.Verdicts as spec;
ghost use Rattle.pages.specs.LawWords.{IsAtomicInWords, IsRegularInWords, IsSafeInWords};
ghost use Rattle.pages.specs.Linearizability.{IsLinearizable};
ghost use Rattle.pages.specs.VerdictWords.{IsOneWriterHistory, AreJudged, RecordsOneWriter, RecordsJudged, RecordsWellFormed};

use frames::register::Register;
use frames::types::{Event, Op};
use frames::verdict::{ReadVerdict, Reading, Verdict};
use slices::following;
use std::alloc::{AllocError, Global};
use std::marker::Model;

/// What is known after some events of a history. `fresh` is the value of the last write that
/// returned, or the initial value if none has; `writing` is the value being written; `returned` has
/// the values of all writes that returned; and `reads` has each read that was invoked.
#[derive(Drop)]
struct Known {
    fresh: u32,
    writing: Option<u32>,
    returned: Vec<u32>,
    reads: Vec<Reading>,
}

impl Model for Known {
    ghost use Rattle.frames.specs.correctness.Verdicts as spec;

    ghost Value = { spec.Known };

    ghost view = { λ k. record { fresh = k.fresh; writing = k.writing; returned = k.returned.items; reads = k.reads.items } };
}

impl Known {
    /// What is known before the first event; `value` is the initial value.
    fn new(alloc: Global, value: u32) -> Known
        ensures { result ≡ spec.initially value }
    {
        Known {
            fresh: value,
            writing: None,
            returned: Vec::new(alloc),
            reads: Vec::new(alloc),
        }
    }

    /// Records one more event.
    fn note(&mut self, event: Event) -> Result<(), AllocError>
        ensures { OnOk result (self.new ≡ spec.after self.old event) }
    {
        match event {
            Event::Invoke(p, op) => self.invoke(p, op),
            Event::Wrote(_) => self.end_write(),
            Event::Got(_, _)
            | Event::Refused(_, _)
            | Event::Void(_, _)
            | Event::Stop(_)
            | Event::Chosen(_, _, _) => Ok(()),
        }
    }

    /// Records an invocation.
    fn invoke(&mut self, p: u32, op: Op) -> Result<(), AllocError>
        ensures { OnOk result (self.new ≡ spec.known_invoking self.old p op) }
    {
        match op {
            Op::Write(v) => {
                self.writing = Some(v);
                Ok(())
            }
            Op::Read => {
                let read = self.invoked_now(p);
                self.reads.push(read)?;
                Ok(())
            }
        }
    }

    /// The entry in `reads` for a read that `process` invokes now.
    fn invoked_now(&self, process: u32) -> Reading
        ensures { result ≡ spec.invoked_now process self.now }
    {
        Reading {
            process,
            fresh: self.fresh,
            since: self.returned.len(),
        }
    }

    /// Records that the write in progress has returned.
    fn end_write(&mut self) -> Result<(), AllocError>
        ensures { OnOk result (self.new ≡ spec.returning self.old.writing self.old) }
    {
        if let Some(v) = self.writing {
            self.returned.push(v)?;
            self.fresh = v;
            self.writing = None;
        }
        Ok(())
    }

    /// The read that a process invoked last; if there is none, a read that it invokes now.
    fn reading(&self, process: u32) -> Reading
        ensures { result ≡ spec.reading process self.now }
    {
        match self.last_read(process) {
            Some(read) => read,
            None => self.invoked_now(process),
        }
    }

    /// The read that a process invoked last; `None` if the process hasn't invoked any.
    fn last_read(&self, process: u32) -> Option<Reading>
        ensures { result ≡ spec.last_read process self.now }
    {
        let mut backward = self.reads.iter().rev();
        backward.find(|r| r.process == process).copied()
    }

    /// Whether a write of `v` is in progress.
    fn is_writing(&self, v: u32) -> bool
        ensures { result ≡ spec.is_value v self.now.writing }
    {
        match self.writing {
            Some(u) => u == v,
            None => false,
        }
    }

    /// Whether a write of `v` has returned, not counting the first `since` writes that returned.
    fn has_returned(&self, v: u32, since: usize) -> bool
        ensures { result ≡ spec.has_returned v since self.now }
    {
        following(&self.returned, since).iter().any(|u| *u == v)
    }

    /// The verdict on the last read of `process`, if that read now returns `v`.
    fn verdict(&self, process: u32, v: u32) -> Verdict
        ensures { result ≡ spec.judged self.now process v }
    {
        let read = self.reading(process);
        if v == read.fresh {
            Verdict::Fresh
        } else if self.has_returned(v, read.since) || self.is_writing(v) {
            Verdict::Overlap
        } else {
            Verdict::Stray
        }
    }
}

/// Returns the verdict on each returned read of the history `events`, in the order in which the
/// reads return; `value` is the register's initial value. A write that is refused is ignored from
/// its invocation on. Fails only if memory runs out.
pub fn verdicts(
    alloc: Global,
    value: u32,
    events: &[(usize, Event)],
) -> Result<Vec<ReadVerdict>, AllocError>
    ensures { IfOk result (λ all. all.items ≡ spec.verdicts value events.now) }
{
    let mut known = Known::new(alloc, value);
    let mut all = Vec::new(alloc);
    for place in 0..events.len() {
        let (step, event) = events[place];
        if counts(event, following(events, place + 1)) {
            push_verdict_of(&mut all, &known, step, event)?;
            known.note(event)?;
        }
    }
    Ok(all)
}

/// Whether an event counts, given the events after it. If a write is refused, neither its
/// invocation nor its refusal counts.
fn counts(event: Event, later: &[(usize, Event)]) -> bool
    ensures { result ≡ spec.counts event (spec.is_refused later.now) }
{
    match event {
        Event::Invoke(_, op) => is_read(op) || !is_refused(later),
        Event::Refused(p, _) => p != 0,
        Event::Got(_, _)
        | Event::Wrote(_)
        | Event::Void(_, _)
        | Event::Stop(_)
        | Event::Chosen(_, _, _) => true,
    }
}

/// Whether these events refuse the write that is in progress when they begin.
fn is_refused(events: &[(usize, Event)]) -> bool
    ensures { result ≡ spec.is_refused events.now }
{
    for index in 0..events.len() {
        match events[index].1 {
            Event::Wrote(_) => return false,
            Event::Invoke(_, op) => {
                if !is_read(op) {
                    return false;
                }
            }
            Event::Refused(p, _) => {
                if p == 0 {
                    return true;
                }
            }
            Event::Got(_, _) | Event::Void(_, _) | Event::Stop(_) | Event::Chosen(_, _, _) => {}
        }
    }
    false
}

/// Whether an operation is a read.
fn is_read(op: Op) -> bool
    ensures { result ≡ spec.is_read op }
{
    match op {
        Op::Read => true,
        Op::Write(_) => false,
    }
}

/// If `event` is the return of a read, adds the verdict on that read.
fn push_verdict_of(
    all: &mut Vec<ReadVerdict>,
    known: &Known,
    step: usize,
    event: Event,
) -> Result<(), AllocError>
    ensures { OnOk result
        (all.new.items ≡ all.old.items ++ spec.verdict_of_event known.now step event) }
{
    if let Event::Got(process, value) = event {
        let verdict = known.verdict(process, value);
        all.push(ReadVerdict {
            step,
            process,
            value,
            verdict,
        })?;
    }
    Ok(())
}

/// On any history of a register with one writer, with any initial value, `verdicts` gives one
/// verdict for each returned read, in the order in which the reads return: the verdict that follows
/// from Lamport's definition of a regular register.
pub fn verdicts_in_words()
    ensures { (initial : ℕ) (history : List (ℕ × Event)) → IsOneWriterHistory history
        → AreJudged initial history }
{}

/// What a register records on any fitting steps, from any initial value, is a well-formed history
/// (`IsWellFormed`). If the register has one writer, then it is a history of such a register
/// (`IsOneWriterHistory`). On this history, `verdicts` gives the right verdict on each returned
/// read, and no other verdicts (`AreJudged`).
pub fn recorded_in_words<R: Register>(register: &R)
    ensures well_formed { RecordsWellFormed (R.behaviour register.now) }
    ensures histories { HasOneWriter (R.behaviour register.now)
        → RecordsOneWriter (R.behaviour register.now) }
    ensures judged { HasOneWriter (R.behaviour register.now)
        → RecordsJudged (R.behaviour register.now) }
{}

/// Safe, regular and atomic are each defined twice. One definition is in Lamport's words, by the
/// order in which operations are invoked and return. The other is by a summary (`Known`) of the
/// events before a read returns. The summary has the value written last (at first the initial one),
/// the value being written, the values of the writes that returned, and the reads invoked. Atomic
/// for many processes is also defined twice: by ranks, and as linearizable in Herlihy and Wing's
/// words. The two definitions of each are equivalent, for any register.
pub fn law_in_words<R: Register>(register: &R)
    ensures safe { IsSafe (R.behaviour register.now) ↔ IsSafeInWords (R.behaviour register.now) }
    ensures regular { IsRegular (R.behaviour register.now) ↔ IsRegularInWords
        (R.behaviour register.now) }
    ensures atomic { IsAtomic (R.behaviour register.now) ↔ IsAtomicInWords
        (R.behaviour register.now) }
    ensures linearizable { IsAtomicForMany (R.behaviour register.now) ↔ IsLinearizable
        (R.behaviour register.now) }
{}
