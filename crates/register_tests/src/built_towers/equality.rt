//! Registers of one kind are equal if they have the same numbers, and a configuration returns the
//! register that it was made from.

use super::replay_from_zero;
use crate::steps::{GO_0, GO_1, GO_2, READ_1, READ_2, WRITE};
use frames::register::Register;
use frames::safe::Safe;
use frames::types::Step;
use reader_copies::{Copies, NewCopies};
use std::alloc::{AllocError, Global};
use std::process::Abort;
use std::test::Fail;
use towers::regular;

/// A write of 1 to two copies, a read between the writes of the two copies, and a read during the
/// write of the second copy.
const STEPS: [Step; 11] = [
    WRITE, GO_0, GO_0, READ_1, GO_1, GO_1, GO_0, READ_2, GO_2, GO_0, GO_2,
];

/// Asserts that registers of one kind for two and for four readers differ, and that the
/// configuration after a replay gives the register that was replayed.
fn assert_distinct<R: Register>(
    rt: &impl Abort,
    alloc: Global,
    of_two: R,
    of_four: R,
    steps: &[Step],
) -> Result<(), AllocError> {
    assert!(rt; of_four == of_four);
    assert!(rt; of_four != of_two);
    let replayed = replay_from_zero(rt, alloc, of_two, steps)?;
    assert!(rt; replayed.config.register() == of_two);
    Ok(())
}

#[test]
fn equal_by_their_numbers(rt: HostRuntime) -> Result<(), Fail> {
    assert_distinct(
        &rt,
        rt.alloc(),
        Copies::new(Safe, 2)?,
        Copies::new(Safe, 4)?,
        &STEPS,
    )?;
    assert_distinct(&rt, rt.alloc(), regular(2), regular(4), &STEPS)?;
    Ok(())
}
