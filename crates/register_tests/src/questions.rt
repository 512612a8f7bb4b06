//! Answers to small questions are compared with answers worked out by hand, and so are the lengths
//! of their schedules.

use answers::find::{MOST_STATES, find};
use answers::found::{Found, Unfound};
use answers::outcomes::Outcomes;
use answers::question::{After, NthOp, Question};
use frames::register::Register;
use frames::safe::Safe;
use frames::types::{Op, Outcome};
use regular_bit::{NewRegularBit, RegularBit};
use std::alloc::{AllocError, Global};
use std::process::Abort;
use std::test::Fail;

/// More states than any of these questions has.
const MANY: u32 = 1000;

const WRITTEN: Outcome = Outcome::Written;

/// Process 1's read follows process 0's write.
const READ_AFTER_WRITE: After = After {
    later: NthOp {
        process: 1,
        index: 0,
    },
    earlier: NthOp {
        process: 0,
        index: 0,
    },
};

/// Process 0's write follows process 1's read.
const WRITE_AFTER_READ: After = After {
    later: NthOp {
        process: 0,
        index: 0,
    },
    earlier: NthOp {
        process: 1,
        index: 0,
    },
};

/// A question: the register is 0, process 0 makes the operations `first`, and process 1 `second`.
fn asked(alloc: Global, first: &[Op], second: &[Op]) -> Result<Question, AllocError> {
    let mut operations = Vec::new(alloc);
    operations.push(Vec::from_slice(alloc, first)?)?;
    operations.push(Vec::from_slice(alloc, second)?)?;
    Ok(Question {
        value: 0,
        operations,
        after: Vec::new(alloc),
        may_stop: Vec::new(alloc),
    })
}

/// Process 0 writes 1, and process 1 reads.
fn write_and_read(alloc: Global) -> Result<Question, AllocError> {
    asked(alloc, &[Op::Write(1)], &[Op::Read])
}

/// Whether process `p` has these outcomes.
fn has(answers: &[Outcomes], p: usize, expected: &[Outcome]) -> bool {
    match answers.get(p) {
        Some(outcomes) => outcomes.as_slice() == expected,
        None => false,
    }
}

/// The length of the listed schedule in which the processes 0 and 1 have these outcomes; `None` if
/// none is listed.
fn length(found: &Found, first: &[Outcome], second: &[Outcome]) -> Option<usize> {
    for possible in &found.possible {
        if has(&possible.answers, 0, first) && has(&possible.answers, 1, second) {
            return Some(possible.steps.len());
        }
    }
    None
}

/// Asserts that the listed schedule in which process 0 writes and process 1 reads these values has
/// `expected` steps.
fn assert_length(rt: &impl Abort, found: &Found, read: &[Outcome], expected: usize) {
    assert_eq!(rt; length(found, &[WRITTEN], read), Some(expected));
}

/// Asserts that two reads can give any two of the values 0 and 1, in schedules of 9 steps.
fn assert_two_reads<R: Register>(rt: &impl Abort, alloc: Global, register: &R) -> Result<(), Fail> {
    let question = asked(alloc, &[Op::Write(1)], &[Op::Read, Op::Read])?;
    let found = find(alloc, register, &question, MANY)?;
    assert_eq!(rt; found.possible.len(), 4);
    for old in 0..2 {
        for new in 0..2 {
            assert_length(rt, &found, &[Outcome::Value(old), Outcome::Value(new)], 9);
        }
    }
    Ok(())
}

/// Asserts that each of the values 0 and 1 can be read, in schedules of 6 steps.
fn assert_either(rt: &impl Abort, found: &Found) {
    for value in 0..2 {
        assert_length(rt, found, &[Outcome::Value(value)], 6);
    }
}

/// Finds the answers to a question about a safe bit, and asserts that there are `count`.
fn find_exactly(
    rt: &impl Abort,
    alloc: Global,
    question: &Question,
    count: usize,
) -> Result<Found, Unfound> {
    let found = find(alloc, &Safe, question, MANY)?;
    assert_eq!(rt; found.possible.len(), count);
    Ok(found)
}

/// Asserts that a question about a safe bit has no answers within `most` states, for this reason.
fn assert_unfound(rt: &impl Abort, alloc: Global, question: &Question, most: u32, why: Unfound) {
    assert_eq!(rt; find(alloc, &Safe, question, most).err(), Some(why));
}

#[test]
fn read_that_overlaps_a_write(rt: HostRuntime) -> Result<(), Fail> {
    let question = write_and_read(rt.alloc())?;
    assert_either(&rt, &find_exactly(&rt, rt.alloc(), &question, 2)?);
    Ok(())
}

/// On a safe bit, a read that overlaps a write of the old value may give the other value. On a
/// regular bit, it gives the old value, and the write takes one step.
#[test]
fn write_of_the_old_value(rt: HostRuntime) -> Result<(), Fail> {
    let question = asked(rt.alloc(), &[Op::Write(0)], &[Op::Read])?;
    let on_safe = find(rt.alloc(), &Safe, &question, MANY)?;
    assert_eq!(rt; on_safe.possible.len(), 2);
    assert_length(&rt, &on_safe, &[Outcome::Value(0)], 6);
    assert_length(&rt, &on_safe, &[Outcome::Value(1)], 6);
    let regular = RegularBit::new(Safe)?;
    let on_regular = find(rt.alloc(), &regular, &question, MANY)?;
    assert_eq!(rt; on_regular.possible.len(), 1);
    assert_length(&rt, &on_regular, &[Outcome::Value(0)], 4);
    Ok(())
}

/// Of two reads during a write, the first may give the new value and the second the old one, on a
/// regular bit too.
#[test]
fn new_before_old(rt: HostRuntime) -> Result<(), Fail> {
    assert_two_reads(&rt, rt.alloc(), &Safe)?;
    assert_two_reads(&rt, rt.alloc(), &RegularBit::new(Safe)?)
}

/// If the writer stops at once, its stop is its only step. If it stops within its write, a read may
/// give the new value.
#[test]
fn stopped_writer(rt: HostRuntime) -> Result<(), Fail> {
    let mut question = write_and_read(rt.alloc())?;
    question.may_stop.push(0)?;
    let found = find_exactly(&rt, rt.alloc(), &question, 4)?;
    assert_eq!(rt; length(&found, &[], &[Outcome::Value(0)]), Some(4));
    assert_eq!(rt; length(&found, &[], &[Outcome::Value(1)]), Some(6));
    assert_either(&rt, &found);
    Ok(())
}

/// A read that follows the write gives what it wrote.
#[test]
fn read_after_write(rt: HostRuntime) -> Result<(), Fail> {
    let mut question = write_and_read(rt.alloc())?;
    question.after.push(READ_AFTER_WRITE)?;
    let found = find_exactly(&rt, rt.alloc(), &question, 1)?;
    assert_length(&rt, &found, &[Outcome::Value(1)], 6);
    Ok(())
}

/// A write and a read of one safe bit have 19 states.
#[test]
fn limit(rt: HostRuntime) -> Result<(), Fail> {
    let question = write_and_read(rt.alloc())?;
    assert_unfound(&rt, rt.alloc(), &question, 18, Unfound::TooMany);
    let enough = find(rt.alloc(), &Safe, &question, 19)?;
    assert_eq!(rt; enough.states, 19);
    Ok(())
}

/// Process 1 of a safe bit doesn't write.
#[test]
fn unfit(rt: HostRuntime) -> Result<(), Fail> {
    let question = asked(rt.alloc(), &[Op::Write(1)], &[Op::Write(1)])?;
    assert_unfound(&rt, rt.alloc(), &question, MANY, Unfound::Unfit);
    Ok(())
}

/// A write and a read that have to follow each other are refused.
#[test]
fn cycle(rt: HostRuntime) -> Result<(), Fail> {
    let mut question = write_and_read(rt.alloc())?;
    question.after.push(WRITE_AFTER_READ)?;
    find_exactly(&rt, rt.alloc(), &question, 1)?;
    question.after.push(READ_AFTER_WRITE)?;
    assert_unfound(&rt, rt.alloc(), &question, MANY, Unfound::Unfit);
    Ok(())
}

/// The limit is 1 to `MOST_STATES`. A limit of 1 allows the initial state alone.
#[test]
fn limits(rt: HostRuntime) -> Result<(), Fail> {
    let question = write_and_read(rt.alloc())?;
    assert_unfound(&rt, rt.alloc(), &question, 0, Unfound::Unfit);
    assert_unfound(&rt, rt.alloc(), &question, 1, Unfound::TooMany);
    let most = find(rt.alloc(), &Safe, &question, MOST_STATES)?;
    assert_eq!(rt; most.states, 19);
    assert_unfound(&rt, rt.alloc(), &question, MOST_STATES + 1, Unfound::Unfit);
    Ok(())
}
