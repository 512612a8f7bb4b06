//! Configurations of `Switch`; replays and runs of a safe bit.

use super::switch::Switch;
use super::{GO, READ, WRITE};
use checkpoints::{Events, Replayed, Run, replay, run_segment};
use frames::{
    Action, ActionKind, Config, Event, Frame, FrameLayer, Op, Register, Safe, Step, StepEvents,
};
use std::alloc::{AllocError, Global};
use std::test::Fail;

/// A configuration in which process 0 has invoked a write of 1, and what that step recorded.
fn begun(alloc: Global) -> Result<(Config<Switch>, StepEvents), AllocError> {
    let mut config = Config::initial(alloc, Switch, 0)?;
    let events = config.step(WRITE);
    Ok((config, events))
}

/// Whether a configuration equals its copy.
fn equals_its_copy(alloc: Global, config: &Config<Switch>) -> Result<bool, AllocError> {
    let copy = config.copy(alloc)?;
    Ok(&copy == config)
}

/// Whether process 0's stack has only the frame of a write of 1.
fn has_frame_of_write(alloc: Global, config: &Config<Switch>) -> bool {
    let frame = Frame {
        layer: FrameLayer::Safe,
        op: Op::Write(1),
        i: 0,
        x: 0,
    };
    config
        .stack(alloc, 0)
        .is_some_and(|stack| stack.as_slice() == [frame].as_slice())
}

#[test]
fn each_call_of_a_configuration(rt: HostRuntime) -> Result<(), Fail> {
    let (config, events) = begun(rt.alloc())?;
    assert!(rt; events.first == Some(Event::Invoke(0, Op::Write(1))) && events.second.is_none());
    assert!(rt; config.fits(READ) && !config.stopped(0));
    assert!(rt; !config.store().cell(0).value);
    assert_eq!(rt; config.op(0), Some(Op::Write(1)));
    let action = Action {
        kind: ActionKind::WriteEnd,
        cell: 0,
    };
    assert_eq!(rt; config.action(0), Some(action));
    assert!(rt; has_frame_of_write(rt.alloc(), &config));
    assert!(rt; equals_its_copy(rt.alloc(), &config)?);
    Ok(())
}

/// The replay of a read of a safe bit.
fn replayed(alloc: Global) -> Result<Replayed<Safe>, AllocError> {
    replay(alloc, Safe, 0, &[READ, GO, GO])
}

/// The run of a read of a safe bit.
fn run(alloc: Global) -> Result<Run<Safe>, AllocError> {
    let entry = Config::initial(alloc, Safe, 0)?;
    run_segment(alloc, &entry, &[READ, GO, GO])
}

/// Whether a run begins with a safe bit at 0.
fn begins_at_0(alloc: Global, run: &Run<Safe>) -> Result<bool, AllocError> {
    let entry = Config::initial(alloc, Safe, 0)?;
    Ok(run.entry() == &entry)
}

/// The last event, with the index of its step.
fn last_event(alloc: Global, events: &Events) -> Result<Option<(usize, Event)>, AllocError> {
    let all = events.indexed(alloc)?;
    Ok(all.as_slice().last().copied())
}

/// The last event of a run, with the index of its step.
fn last_event_of(alloc: Global, run: &Run<Safe>) -> Result<Option<(usize, Event)>, AllocError> {
    let all = run.events().indexed(alloc)?;
    Ok(all.as_slice().last().copied())
}

#[test]
fn each_call_of_runs(rt: HostRuntime) -> Result<(), Fail> {
    let replayed = replayed(rt.alloc())?;
    let run = run(rt.alloc())?;
    assert!(rt; run.exit() == &replayed.config);
    assert_eq!(rt; run.steps(), [READ, GO, GO].as_slice());
    let returned = Some((2, Event::Got(1, 0)));
    assert_eq!(rt; last_event(rt.alloc(), &replayed.events)?, returned);
    assert_eq!(rt; last_event_of(rt.alloc(), &run)?, returned);
    assert!(rt; begins_at_0(rt.alloc(), &run)?);
    Ok(())
}
