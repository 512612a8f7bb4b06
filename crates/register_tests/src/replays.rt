//! Replays and runs on one safe bit are compared with histories that were worked out by hand.

use crate::steps::{GO_0, GO_1, READ_1, WRITE};
use checkpoints::replay;
use checkpoints::run::{Run, run_segment};
use frames::config::Config;
use frames::safe::Safe;
use frames::types::{Event, Op, Reason, Step};
use safe_bit::Store;
use std::alloc::{AllocError, Global};
use std::process::Abort;
use std::test::Fail;

/// A write, and a read that overlaps it and ends after it.
const OVERLAPPED_READ: [Step; 6] = [WRITE, GO_0, READ_1, GO_1, GO_0, GO_1];

/// Events, each with the index of its step.
type History = Result<Vec<(usize, Event)>, AllocError>;

/// Asserts that a history has these events.
fn assert_history(
    rt: &impl Abort,
    history: History,
    expected: &[(usize, Event)],
) -> Result<(), Fail> {
    let history = history?;
    assert_eq!(rt; history.as_slice(), expected);
    Ok(())
}

/// Asserts the operations that processes 0 and 1 have pending.
fn assert_pending(rt: &impl Abort, config: &Config<Safe>, expected: [Option<Op>; 2]) {
    assert_eq!(rt; config.op(0), expected[0]);
    assert_eq!(rt; config.op(1), expected[1]);
}

/// Asserts that the bit is 1, and is neither written nor read.
fn assert_bit_set(rt: &impl Abort, alloc: Global, store: &Store) -> Result<(), Fail> {
    let mut bit = Store::new(alloc, 1, 0)?;
    bit.set_value(0, true);
    assert!(rt; *store == bit);
    Ok(())
}

#[test]
fn overlapped_read(rt: HostRuntime) -> Result<(), Fail> {
    let replayed = replay(rt.alloc(), Safe, 0, &OVERLAPPED_READ)?;
    assert_history(
        &rt,
        replayed.events.indexed(rt.alloc()),
        &[
            (0, Event::Invoke(0, Op::Write(1))),
            (2, Event::Invoke(1, Op::Read)),
            (4, Event::Wrote(0)),
            (5, Event::Chosen(1, 0, false)),
            (5, Event::Got(1, 0)),
        ],
    )?;
    assert_pending(&rt, &replayed.config, [None, None]);
    assert_bit_set(&rt, rt.alloc(), replayed.config.store())
}

#[test]
fn voids(rt: HostRuntime) -> Result<(), Fail> {
    let replayed = replay(rt.alloc(), Safe, 0, &[READ_1, READ_1, GO_0])?;
    assert_pending(&rt, &replayed.config, [None, Some(Op::Read)]);
    assert_history(
        &rt,
        replayed.events.indexed(rt.alloc()),
        &[
            (0, Event::Invoke(1, Op::Read)),
            (1, Event::Void(1, Reason::Busy)),
            (2, Event::Void(0, Reason::Idle)),
        ],
    )
}

/// Returns true, but compiles only if threads may share values of this type.
fn is_shareable<T: Send + Sync>(_: &T) -> bool {
    true
}

/// Asserts that a run of `OVERLAPPED_READ` begins with the initial configuration, and has these
/// steps. Its first step has one event, and threads may share the run.
fn assert_run(rt: &impl Abort, run: &Run<Safe>, initial: &Config<Safe>) {
    assert!(rt; *run.entry() == *initial);
    assert_eq!(rt; run.steps(), OVERLAPPED_READ.as_slice());
    let mut front = run.events().front(1);
    assert!(rt; front.next().is_some());
    assert!(rt; front.next().is_none());
    assert!(rt; is_shareable(run));
}

/// Asserts that a run of `OVERLAPPED_READ` ends as its replay does, and has the same events.
fn assert_like_replay(rt: &impl Abort, alloc: Global, run: &Run<Safe>) -> Result<(), Fail> {
    let replayed = replay(alloc, Safe, 0, &OVERLAPPED_READ)?;
    assert!(rt; *run.exit() == replayed.config);
    let history = replayed.events.indexed(alloc)?;
    assert_history(rt, run.events().indexed(alloc), history.as_slice())
}

#[test]
fn run_of_a_segment(rt: HostRuntime) -> Result<(), Fail> {
    let initial = Config::initial(rt.alloc(), Safe, 0)?;
    let run: Run<Safe> = run_segment(rt.alloc(), &initial, &OVERLAPPED_READ)?;
    assert_run(&rt, &run, &initial);
    assert_like_replay(&rt, rt.alloc(), &run)
}
