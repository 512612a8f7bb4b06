//! Functions for a register that has a store to itself, and so lies at `ORIGIN`.

ghost use Rattle.std.specs.Prelude.{◌≡◌, ◌==◌, ℕ, ◌<◌, [], true, Option, Some, None, IfOk};
ghost use Rattle.schedule_steps.specs.declared.types.Op.{Op};
ghost use Rattle.frames.specs.declared.running.Running.{Running};
ghost use Rattle.frames.specs.Configuration as spec;
ghost use Rattle.frames.specs.Configuration.{invoking, going};
ghost use Rattle.frames.specs.Flat.{HasStackEffect, LandsAlone, HasFramesFrom, IsReached, end_of, stack_of};

use crate::flat::FlatStack;
use crate::register::Register;
use crate::types::{Event, Op, Outcome, Progress, Reason, StepEvents};
use safe_bit::{Place, Store};
use std::alloc::{AllocError, Global};

/// The first place in a store: cell 0 and word 0.
pub const ORIGIN: Place = Place { cell: 0, word: 0 };

/// A new store with just the cells and words of `register`. The register holds the initial value
/// `value`, which must be one of the register's values. `AllocError` if memory runs out.
pub fn store_of<R: Register>(alloc: Global, register: &R, value: u32) -> Result<Store, AllocError>
    requires { value < (R.behaviour register.now).values }
    ensures { IfOk result (λ store. store ≡ (R.behaviour register.now).initial value) }
{
    let size = register.size();
    let mut store = Store::new(alloc, size.cell, size.word)?;
    register.init(&mut store, ORIGIN, value);
    Ok(store)
}

/// Process `who`, which is idle, invokes `op`, which fits it, on a register that has the store to
/// itself. If the operation ends at once, returns its outcome, and the stack stays empty; else
/// returns `None`, and the stack then has the operation's frames.
#[inline(always)]
pub fn begin_own<R: Register>(
    register: &R,
    store: &mut Store,
    who: u32,
    op: Op,
    stack: &mut FlatStack,
) -> Option<Outcome>
    requires holds { R.Holds register.now store.old }
    requires fits { (R.behaviour register.now).suits who op ≡ true }
    requires idle { stack.old ≡ [] }
    ensures { let begun = (R.behaviour register.now).begins who op store.old in
        LandsAlone (R.behaviour register.now).frames begun.next begun.memory result stack.new
        store.new }
{
    register.begin_on(store, ORIGIN, who, op, stack)
}

/// Process `who` makes its next bit action on a register that has the store to itself. Before the
/// call the stack has just the frames of `who`'s pending operation; afterwards it has the new
/// frames, or none if the operation has ended. `choice` is what a hit read of a bit gives. Returns
/// the outcome if the operation has ended; and, if the action ended a hit read, the bit that was
/// read and the value that the read gave.
#[inline(always)]
pub fn go_own<R: Register>(
    register: &R,
    store: &mut Store,
    who: u32,
    stack: &mut FlatStack,
    choice: bool,
) -> Progress
    requires holds { R.Holds register.now store.old }
    requires may_be_at { (op : Op)
        × ((p : R.Pending) × HasFramesFrom (R.behaviour register.now).frames
        (R.Reaches register.now) who 0 stack.old op p) }
    ensures arrives { (op : Op) (p : R.Pending) → HasFramesFrom (R.behaviour register.now).frames
        (R.Reaches register.now) who 0 stack.old op p
        → (let moved = (R.behaviour register.now).goes p choice store.old in
        LandsAlone (R.behaviour register.now).frames moved.next moved.memory result.end stack.new
        store.new) }
    ensures chosen { (op : Op) (p : R.Pending) → HasFramesFrom (R.behaviour register.now).frames
        (R.Reaches register.now) who 0 stack.old op p
        → result.chosen ≡ ((R.behaviour register.now).goes p choice store.old).chosen }
{
    register.go_on(store, ORIGIN, who, stack, 0, choice)
}

/// Process `who` invokes `op`, which fits it, on a register that has the store to itself; the stack
/// has just the frames of `who`'s pending operation, before and after. Returns the step's events.
/// If the process has an operation pending already, the step is void and nothing changes.
#[inline(always)]
pub fn invoke_own<R: Register>(
    register: &R,
    store: &mut Store,
    who: u32,
    op: Op,
    stack: &mut FlatStack,
) -> StepEvents
    requires holds { R.Holds register.now store.old }
    requires fits { (R.behaviour register.now).suits who op ≡ true }
    ensures { (slot : Option (Running R.Pending)) → IsReached (R.Reaches register.now) who slot
        → stack.old ≡ stack_of (R.behaviour register.now) slot
        → HasStackEffect (R.behaviour register.now)
        (invoking (R.behaviour register.now) who op slot store.old) result
        stack.new store.new }
{
    if !stack.is_empty() {
        return one_event(Event::Void(who, Reason::Busy));
    }
    let end = begin_own(register, store, who, op, stack);
    StepEvents {
        first: Some(Event::Invoke(who, op)),
        second: end_of(who, end),
    }
}

/// Process `who` makes its next bit action on a register that has the store to itself; the stack
/// has just the frames of `who`'s pending operation, before and after. A hit read of a bit gives 1
/// if `c` is 1, and else 0. Returns the step's events. If the process has no operation pending, the
/// step is void and nothing changes.
#[inline(always)]
pub fn proceed_own<R: Register>(
    register: &R,
    store: &mut Store,
    who: u32,
    stack: &mut FlatStack,
    c: u32,
) -> StepEvents
    requires holds { R.Holds register.now store.old }
    requires may_be_at { (slot : Option (Running R.Pending))
        × (IsReached (R.Reaches register.now) who slot ×
        (stack.old ≡ stack_of (R.behaviour register.now) slot)) }
    ensures { (slot : Option (Running R.Pending)) → IsReached (R.Reaches register.now) who slot
        → stack.old ≡ stack_of (R.behaviour register.now) slot
        → HasStackEffect (R.behaviour register.now)
        (going (R.behaviour register.now) who (c == 1) slot store.old) result
        stack.new store.new }
{
    if stack.is_empty() {
        return one_event(Event::Void(who, Reason::Idle));
    }
    // computed after the test, since a void step needs no choice
    let choice = c == 1;
    let progress = go_own(register, store, who, stack, choice);
    let chosen = match progress.chosen {
        Some((bit, value)) => Some(Event::Chosen(who, bit, value)),
        None => None,
    };
    in_order(chosen, end_of(who, progress.end))
}

/// The event of an operation's end; `None` if the operation hasn't ended.
#[inline(always)]
fn end_of(who: u32, end: Option<Outcome>) -> Option<Event>
    ensures { result ≡ end_of who end }
{
    match end? {
        Outcome::Value(v) => Some(Event::Got(who, v)),
        Outcome::Written => Some(Event::Wrote(who)),
        Outcome::Spent(layer) => Some(Event::Refused(who, layer)),
    }
}

/// The events of a step that records `event` and nothing else.
#[inline(always)]
pub fn one_event(event: Event) -> StepEvents
    ensures { result ≡ spec.in_order (Some event) None }
{
    StepEvents {
        first: Some(event),
        second: None,
    }
}

/// Two events in order, either of which may be missing.
#[inline(always)]
fn in_order(earlier: Option<Event>, later: Option<Event>) -> StepEvents
    ensures { result ≡ spec.in_order earlier later }
{
    match earlier {
        Some(_) => StepEvents {
            first: earlier,
            second: later,
        },
        None => StepEvents {
            first: later,
            second: None,
        },
    }
}
