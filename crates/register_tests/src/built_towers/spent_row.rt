//! A write to a matrix whose parts have to be read before they can be written.

use super::read_first::ReadFirst;
use super::replay_from_zero;
use crate::steps::{GO_0, WRITE};
use checkpoints::Events;
use frames::register::Register;
use frames::safe::Safe;
use frames::types::{Event, Layer, Op};
use layers::layered::Layered;
use matrix::{Matrix, NewMatrix};
use safe_bit::Store;
use std::alloc::{AllocError, Global};
use std::process::Abort;
use std::test::Fail;
use unary_number::{NewUnary, Unary};

/// The cells and words after process 0 has written 1 to the first part of its row.
fn first_part_written(alloc: Global) -> Result<Store, AllocError> {
    // Part k is a number of 8 values in cells 8k to 8k + 7; word k is 1 once it has been read. Part
    // 0 holds the code 5 (tag 1, writer 0, value 1), the others 0. Process 0 has read parts 0 and
    // 2.
    let mut store = Store::new(alloc, 32, 4)?;
    store.set_value(5, true);
    store.set_value(8, true);
    store.set_value(16, true);
    store.set_value(24, true);
    store.set_word(0, 1);
    store.set_word(2, 1);
    Ok(store)
}

/// Asserts that the write was refused at its 16th bit action.
fn assert_refused(rt: &impl Abort, alloc: Global, events: &Events) -> Result<(), AllocError> {
    let history = events.indexed(alloc)?;
    assert_eq!(rt;
        history.as_slice(),
        [
            (0, Event::Invoke(0, Op::Write(1))),
            (16, Event::Refused(0, Layer::Stamped)),
        ]
        .as_slice()
    );
    Ok(())
}

/// Asserts that the first part of the row is written, and nothing else.
fn assert_first_part_written(
    rt: &impl Abort,
    alloc: Global,
    store: &Store,
) -> Result<(), AllocError> {
    let expected = first_part_written(alloc)?;
    assert!(rt; *store == expected);
    Ok(())
}

/// Asserts that a write to a matrix, refused because the second part of its row is spent, has left
/// the first part written.
fn spent_part_of_a_row<R: Register>(
    rt: &impl Abort,
    alloc: Global,
    register: R,
) -> Result<(), AllocError> {
    let mut steps = [GO_0; 17];
    steps[0] = WRITE;
    let replayed = replay_from_zero(rt, alloc, register, &steps)?;
    assert!(rt; replayed.config.stack(alloc, 0).is_none());
    assert_refused(rt, alloc, &replayed.events)?;
    assert_first_part_written(rt, alloc, replayed.config.store())
}

/// As `spent_part_of_a_row`, for the matrix of these parts.
fn spent_part_of_a_matrix<S: Register>(
    rt: &impl Abort,
    alloc: Global,
    parts: S,
) -> Result<(), Fail> {
    spent_part_of_a_row(rt, alloc, Matrix::new(parts, 2, 2, 1)?)?;
    Ok(())
}

#[test]
fn row_of_parts_to_be_read_first(rt: HostRuntime) -> Result<(), Fail> {
    let parts = Layered::over(Unary::new(Safe, 8)?, ReadFirst)?;
    spent_part_of_a_matrix(&rt, rt.alloc(), parts)
}
