//! Tests of the configurations of one safe bit, step by step. Calls that allocate succeed if there
//! is plenty of memory.

use frames::config::Config;
use frames::safe::Safe;
use frames::types::{Action, ActionKind, Event, Frame, FrameLayer, Op, Reason, Step, StepEvents};
use safe_bit::Cell;
use std::alloc::{AllocError, Global};
use std::process::Abort;
use std::test::Fail;

/// The step that invokes a write of 1, with its events; `WRITE_STARTED` is the step that starts the
/// write.
const WRITE_INVOKED: Row = (
    Step::Write { p: 0, v: 1 },
    Some(Event::Invoke(0, Op::Write(1))),
    None,
);

const WRITE_STARTED: Row = (Step::Go { p: 0, c: 0 }, None, None);

/// A step, and the events that it should record.
type Row = (Step, Option<Event>, Option<Event>);

/// Makes a step, and asserts that it fits and records these events.
fn make(rt: &impl Abort, config: &mut Config<Safe>, row: &Row) {
    let (step, first, second) = *row;
    assert!(rt; config.fits(step), "{step:?}");
    let events = config.step(step);
    assert_eq!(rt; events, StepEvents { first, second }, "{step:?}");
}

/// Makes each step, and asserts that it fits and records these events.
fn make_all(rt: &impl Abort, config: &mut Config<Safe>, rows: &[Row]) {
    for row in rows {
        make(rt, config, row);
    }
}

/// Makes steps of a safe bit that is 0 at first, and asserts their events. Returns the
/// configuration after them.
fn config_after(rt: &impl Abort, alloc: Global, rows: &[Row]) -> Result<Config<Safe>, AllocError> {
    let mut config = Config::initial(alloc, Safe, 0)?;
    make_all(rt, &mut config, rows);
    Ok(config)
}

/// Asserts that a write of 1 to the cell has started and hasn't ended.
fn assert_being_written(rt: &impl Abort, cell: Cell) {
    assert_eq!(rt; cell.writing, Some(true));
}

/// Asserts that process 0 has stopped with its write of 1 pending, and no other has stopped.
fn assert_0_stopped(rt: &impl Abort, config: &Config<Safe>) {
    assert_eq!(rt; config.op(0), Some(Op::Write(1)));
    assert_eq!(rt;
        (config.stopped(0), config.stopped(1), config.stopped(2)),
        (true, false, false)
    );
}

/// Asserts that process 0 has one frame, of a write of 1 that has started.
fn assert_one_frame(rt: &impl Abort, alloc: Global, config: &Config<Safe>) -> Result<(), Fail> {
    let frame = Frame {
        layer: FrameLayer::Safe,
        op: Op::Write(1),
        i: 1,
        x: 0,
    };
    let stack = config.stack(alloc, 0).ok_or("idle")?;
    assert_eq!(rt; stack.as_slice(), [frame].as_slice());
    Ok(())
}

/// Asserts that process 0 has a write of 1 pending, which its next bit action ends, on a safe bit.
fn assert_write_ends_next(rt: &impl Abort, config: &Config<Safe>) {
    assert_eq!(rt; config.op(0), Some(Op::Write(1)));
    let action = Action {
        kind: ActionKind::WriteEnd,
        cell: 0,
    };
    assert_eq!(rt; config.action(0), Some(action));
    assert!(rt; config.register() == Safe);
}

/// Asserts that a process has no operation pending.
fn assert_idle(rt: &impl Abort, alloc: Global, config: &Config<Safe>, p: u32) {
    assert_eq!(rt; (config.op(p), config.action(p)), (None, None), "{p}");
    assert!(rt; config.stack(alloc, p).is_none(), "{p}");
}

#[test]
fn overlapped_read(rt: HostRuntime) -> Result<(), Fail> {
    let config = config_after(
        &rt,
        rt.alloc(),
        &[
            WRITE_INVOKED,
            WRITE_STARTED,
            (Step::Read { p: 1 }, Some(Event::Invoke(1, Op::Read)), None),
            (Step::Go { p: 1, c: 0 }, None, None),
            (Step::Go { p: 0, c: 0 }, Some(Event::Wrote(0)), None),
            (
                Step::Go { p: 1, c: 0 },
                Some(Event::Chosen(1, 0, false)),
                Some(Event::Got(1, 0)),
            ),
        ],
    )?;
    assert!(rt; config.store().cell(0).value);
    Ok(())
}

#[test]
fn voids(rt: HostRuntime) -> Result<(), Fail> {
    let config = config_after(
        &rt,
        rt.alloc(),
        &[
            (Step::Read { p: 1 }, Some(Event::Invoke(1, Op::Read)), None),
            (
                Step::Read { p: 1 },
                Some(Event::Void(1, Reason::Busy)),
                None,
            ),
            (
                Step::Go { p: 0, c: 0 },
                Some(Event::Void(0, Reason::Idle)),
                None,
            ),
        ],
    )?;
    Ok(())
}

#[test]
fn stopped_writer(rt: HostRuntime) -> Result<(), Fail> {
    let void = Some(Event::Void(0, Reason::Stopped));
    let config = config_after(
        &rt,
        rt.alloc(),
        &[
            WRITE_INVOKED,
            WRITE_STARTED,
            (Step::Stop { p: 0 }, Some(Event::Stop(0)), None),
            (Step::Go { p: 0, c: 0 }, void, None),
            (Step::Write { p: 0, v: 0 }, void, None),
            (Step::Stop { p: 0 }, void, None),
            (Step::Read { p: 1 }, Some(Event::Invoke(1, Op::Read)), None),
            (Step::Go { p: 1, c: 0 }, None, None),
            (
                Step::Go { p: 1, c: 1 },
                Some(Event::Chosen(1, 0, true)),
                Some(Event::Got(1, 1)),
            ),
        ],
    )?;
    assert_being_written(&rt, config.store().cell(0));
    assert_0_stopped(&rt, &config);
    Ok(())
}

#[test]
fn copy_is_independent(rt: HostRuntime) -> Result<(), Fail> {
    let mut config = Config::initial(rt.alloc(), Safe, 1)?;
    let copy = config.copy(rt.alloc())?;
    assert!(rt; copy == config);
    make_all(
        &rt,
        &mut config,
        &[(Step::Read { p: 1 }, Some(Event::Invoke(1, Op::Read)), None)],
    );
    assert!(rt; copy != config);
    assert_eq!(rt; (copy.op(1), config.op(1)), (None, Some(Op::Read)));
    Ok(())
}

#[test]
fn pending_write(rt: HostRuntime) -> Result<(), Fail> {
    let config = config_after(&rt, rt.alloc(), &[WRITE_INVOKED, WRITE_STARTED])?;
    assert_being_written(&rt, config.store().cell(0));
    assert_write_ends_next(&rt, &config);
    assert_idle(&rt, rt.alloc(), &config, 1);
    assert_idle(&rt, rt.alloc(), &config, 2);
    assert_one_frame(&rt, rt.alloc(), &config)
}

/// Asserts whether a step fits.
fn assert_fits(rt: &impl Abort, config: &Config<Safe>, step: Step, fits: bool) {
    assert_eq!(rt; config.fits(step), fits, "{step:?}");
}

/// Steps, and whether each fits a safe bit.
const FITTING: [(Step, bool); 11] = [
    (Step::Write { p: 0, v: 1 }, true),
    (Step::Write { p: 0, v: 2 }, false),
    (Step::Write { p: 1, v: 0 }, false),
    (Step::Read { p: 1 }, true),
    (Step::Read { p: 0 }, false),
    (Step::Read { p: 2 }, false),
    (Step::Go { p: 1, c: 1 }, true),
    (Step::Go { p: 1, c: 2 }, false),
    (Step::Go { p: 2, c: 0 }, false),
    (Step::Stop { p: 1 }, true),
    (Step::Stop { p: 2 }, false),
];

#[test]
fn fits(rt: HostRuntime) -> Result<(), Fail> {
    let config = Config::initial(rt.alloc(), Safe, 0)?;
    for (step, fits) in FITTING {
        assert_fits(&rt, &config, step, fits);
    }
    Ok(())
}
