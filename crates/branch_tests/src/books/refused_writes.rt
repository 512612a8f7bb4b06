//! Reads that return the value of a write before the write is refused. A refused write counts for
//! nothing, so such a read is stray. The register is a unary number, and a stamped register is
//! below each of its bits. A write is refused halfway through if one of these has no stamp left.

use super::commands::insert;
use super::{answer, text};
use crate::given::{GO, READ, name};
use frames::register::Register;
use frames::types::Step;
use regular_bit::{NewRegularBit, RegularBit};
use schedule_trie::limits::Limits;
use schedule_trie::name::Name;
use schedule_trie::refusal::Refusal;
use sessions::book::Book;
use sessions::command::Command;
use sessions::reply::Reply;
use std::alloc::{AllocError, Global};
use std::process::Abort;
use std::test::Fail;
use towers::stamped;
use unary_number::{NewUnary, Unary};
use views::query::Query;

const LIMITS: Limits = Limits {
    cells: 256,
    branches: 1,
    log: 256,
};

/// The writer's next bit action, with choice 0.
const GO_0: Step = Step::Go { p: 0, c: 0 };

const WRITE_0: Step = Step::Write { p: 0, v: 0 };

const WRITE_1: Step = Step::Write { p: 0, v: 1 };

const WRITE_2: Step = Step::Write { p: 0, v: 2 };

/// A read finds 0 in bit 0. Then a write of 0 sets bit 0, and spends the only stamp of that bit. A
/// write of 1 sets bit 1, and the read finds this and returns 1. The write is refused when it is
/// about to clear bit 0.
const BEFORE_CLEARING: [(Step, u32); 8] = [
    (READ, 1),
    (GO, 2),
    (WRITE_0, 1),
    (GO_0, 4),
    (WRITE_1, 1),
    (GO_0, 3),
    (GO, 8),
    (GO_0, 1),
];

/// Writes of 0 and 1 spend both stamps of bit 0. Then a read finds 0 in bit 0. A write of 2 sets
/// bit 2 and clears bit 1, and the read finds both and returns 2. The write is refused when it is
/// about to clear bit 0.
const AFTER_TWO_WRITES: [(Step, u32); 10] = [
    (WRITE_0, 1),
    (GO_0, 60),
    (WRITE_1, 1),
    (GO_0, 60),
    (READ, 1),
    (GO, 10),
    (WRITE_2, 1),
    (GO_0, 7),
    (GO, 18),
    (GO_0, 1),
];

/// The steps of `rows`, each repeated as often as its count.
fn repeat_steps(alloc: Global, rows: &[(Step, u32)]) -> Result<Vec<Step>, AllocError> {
    let mut steps = Vec::new(alloc);
    for (step, count) in rows {
        for _ in 0..*count {
            steps.push(*step)?;
        }
    }
    Ok(steps)
}

/// Whether an insert is accepted.
fn insert_is_accepted<R: Register>(alloc: Global, book: &mut Book<R>, insert: &Command) -> bool {
    matches!(answer(alloc, book, 0, None, insert), Reply::Edited(_))
}

/// Inserts steps from the beginning of a branch on; fails unless each insert is accepted. Returns
/// the number of steps.
fn insert_all<R: Register>(
    rt: &impl Abort,
    alloc: Global,
    book: &mut Book<R>,
    branch: Name,
    steps: &[Step],
) -> u32 {
    let mut place: u32 = 0;
    for step in steps {
        assert!(rt; insert_is_accepted(alloc, book, &insert(&branch, place, *step)));
        place = place.wrapping_add(1);
    }
    place
}

/// The text of the verdicts at the end of `main`, the only branch of an empty book, after these
/// steps.
fn verdicts_after<R: Register>(
    rt: &impl Abort,
    alloc: Global,
    book: &mut Book<R>,
    steps: &[Step],
) -> Result<Vec<u8>, Refusal> {
    let branch = name(rt, b"main");
    let place = insert_all(rt, alloc, book, branch, steps);
    let query = Query::Verdict {
        b: branch,
        k: place,
    };
    text(alloc, book, query)
}

/// The text of the verdicts at the end of `main`, the only branch of a new book, after these steps
/// from an initial value.
fn verdicts<R: Register>(
    rt: &impl Abort,
    alloc: Global,
    register: R,
    value: u32,
    steps: &[Step],
) -> Result<Vec<u8>, Refusal> {
    assert!(rt; value < register.values());
    let mut book = Book::new(alloc, register, value, LIMITS, &[])?;
    verdicts_after(rt, alloc, &mut book, steps)
}

/// Fails unless the verdicts on these steps, from an initial value, have the text `expected`.
fn check_verdicts<R: Register>(
    rt: &impl Abort,
    alloc: Global,
    register: R,
    value: u32,
    rows: &[(Step, u32)],
    expected: &[u8],
) -> Result<(), Refusal> {
    let Ok(steps) = repeat_steps(alloc, rows) else {
        return Err(Refusal::Memory);
    };
    let text = verdicts(rt, alloc, register, value, &steps)?;
    assert_eq!(rt; text.as_slice(), expected);
    Ok(())
}

#[test]
fn refused_before_clearing(rt: HostRuntime) -> Result<(), Fail> {
    let register = Unary::new(RegularBit::new(stamped(2, 1))?, 3)?;
    let expected = b"0: verdict main 21 of 21\n  19 p1 1 stray\n";
    check_verdicts(&rt, rt.alloc(), register, 2, &BEFORE_CLEARING, expected)?;
    Ok(())
}

#[test]
fn refused_after_two_writes(rt: HostRuntime) -> Result<(), Fail> {
    let register = Unary::new(stamped(2, 2), 3)?;
    let expected = b"0: verdict main 160 of 160\n  158 p1 2 stray\n";
    check_verdicts(&rt, rt.alloc(), register, 1, &AFTER_TWO_WRITES, expected)?;
    Ok(())
}
