//! Tests of tower files: they are printed as they were read, or refused for their first fault.

use crate::file_checks::{
    FaultRow, FileKind, Sample, assert_all_same, assert_faults, assert_same, assert_same_after,
    assert_texts, fault_of,
};
use frames::types::Step;
use std::alloc::{AllocError, Global};
use std::process::Abort;
use std::test::Fail;
use tower_file::{FaultKind, FileFault, TowerFile, TowerSpec, Version, laws, parse, print};

/// A file with a stamped register of two values, and 16 steps.
const STAMPED_FILE: &[u8] = b"tower 1\nstamped 2 1\nw 0 1\ng 0 0\ng 0 0\ng 0 0\n\
    r 1\ng 1 0\ng 1 0\ng 1 0\ng 1 0\ng 1 0\ng 1 0\ng 1 0\ng 1 0\nr 1\ng 1 0\ng 1 1\n";

/// `STAMPED_FILE` as a sample. The file has 18 lines; the tower's name has 7 bytes, and the second
/// line has 12 bytes.
pub(crate) const SAMPLE: Sample = Sample {
    file: FileKind::Tower,
    bytes: STAMPED_FILE,
    name_end: 8 + 7,
    second_end: 8 + 12,
    lines: 18,
};

/// The first lines of a file, followed by `times` copies of the lines `more`.
fn repeated(alloc: Global, lines: &[u8], more: &[u8], times: usize) -> Result<Vec<u8>, AllocError> {
    let mut bytes = Vec::from_slice(alloc, lines)?;
    for _ in 0..times {
        bytes.extend_from_slice(more)?;
    }
    Ok(bytes)
}

/// Files whose first fault is neither on line 2 nor in a step. Those of the last three rows have
/// other faults too.
const FIRST_FAULTS: [FaultRow; 4] = [
    (
        b"",
        b"tower 3\nsafe 0\n||tower 1|tower 2",
        FaultKind::BadHeader,
        1,
    ),
    (b"tower 1\nsafe 0\n", b"w 0 \x80\n", FaultKind::NotAscii, 3),
    (b"", b"tower 3\natom\nw 0", FaultKind::BadHeader, 1),
    (b"tower 3\natom\n", b"w 0 \x07", FaultKind::NotAscii, 3),
];

#[test]
fn first_faults(rt: HostRuntime) -> Result<(), Fail> {
    assert_faults(&rt, FileKind::Tower, &FIRST_FAULTS)?;
    let fitting = b"tower 1\nunary 512 1 0\nw 0 511\n";
    assert_eq!(rt; fault_of(rt.alloc(), FileKind::Tower, fitting), None);
    Ok(())
}

/// Files with a step that is empty, cut off or misspelt, has a word out of range, or doesn't fit
/// the tower.
const BAD_STEPS: [FaultRow; 5] = [
    (b"tower 1\nsafe 0\n", b"\n", FaultKind::BadStep, 3),
    (b"tower 1\nsafe 0\nw 0 1\n", b"g 0", FaultKind::BadStep, 4),
    (
        b"tower 1\nsafe 0\nr 1\n",
        b"w  0 1\n|w 0 01\n|r 0\n|w 1 0\n|g 1 2\n|x 1\n",
        FaultKind::BadStep,
        4,
    ),
    (
        b"tower 1\nunary 512 1 0\n",
        b"w 0 512\n",
        FaultKind::BadStep,
        3,
    ),
    (
        b"tower 1\nmatrix 2 2 1 3\n",
        b"r 2\n",
        FaultKind::BadStep,
        3,
    ),
];

#[test]
fn faults_of_a_line(rt: HostRuntime) -> Result<(), Fail> {
    assert_faults(&rt, FileKind::Tower, &BAD_STEPS)
}

/// Second lines of files, with towers at their limits.
const AT_THE_LIMITS: &[u8] = b"safe 1\n|copies 4 0\n|regular 4 0\n|unary 512 4 511\n|\
    stamped 2 255\n|stamped 512 0\n|matrix 2 2 1 3\n|matrix 4 2 1 15\n";

/// Files with towers beyond their limits.
const BEYOND_THE_LIMITS: [FaultRow; 2] = [
    (
        b"tower 1\n",
        b"copies 5 0\n|regular 0 0\n|unary 513 1 0\n|unary 512 1 512\n|stamped 2 256\n|\
        stamped 512 999999999\n|matrix 4 2 1 16\n|matrix 5 2 1 3\n|\
        matrix 4 512 999999999 999999999\n",
        FaultKind::BadSize,
        2,
    ),
    (
        b"tower 1\n",
        b"stamped 512 1000000000\n",
        FaultKind::BadField,
        2,
    ),
];

#[test]
fn sizes(rt: HostRuntime) -> Result<(), Fail> {
    assert_same_after(&rt, FileKind::Tower, b"tower 1\n", AT_THE_LIMITS)?;
    assert_faults(&rt, FileKind::Tower, &BEYOND_THE_LIMITS)
}

/// Files with schedules of each tower but copies, whose only file here, in `AT_THE_LIMITS`, has no
/// steps.
const SCHEDULES: [&[u8]; 10] = [
    b"tower 1\nsafe 0\nw 0 1\ng 0 0\nr 1\ng 1 0\ng 0 0\ng 1 0\n",
    b"tower 1\nsafe 0\nr 1\nr 1\ng 0 0\n",
    b"tower 1\nsafe 0\nr 1\ng 1 0\ng 1 0\n",
    b"tower 1\nsafe 0\nw 0 0\ng 0 0\nr 1\ng 1 0\ng 1 1\n",
    b"tower 1\nsafe 0\nr 1\ng 1 0\n",
    b"tower 1\nregular 1 0\nw 0 0\n",
    b"tower 1\nunary 4 1 0\nw 0 3\ng 0 0\ng 0 0\ng 0 0\ng 0 0\n",
    STAMPED_FILE,
    b"tower 1\nstamped 2 1\nw 0 1\ng 0 0\ng 0 0\ng 0 0\ng 0 0\nw 0 0\n",
    b"tower 1\nmatrix 2 2 1 0\nr 0\ng 0 0\ng 0 0\ng 0 0\ng 0 0\n",
];

#[test]
fn printed_again(rt: HostRuntime) -> Result<(), Fail> {
    assert_all_same(&rt, FileKind::Tower, &SCHEDULES)
}

/// A file with a schedule in which the writer stops in the middle of a write.
const STOPPED: &[u8] = b"tower 2\nsafe 0\nw 0 1\ng 0 0\nx 0\ng 0 0\nr 1\ng 1 0\ng 1 1\n";

/// Files with a bad stop: in version 1, any stop; in version 2, a stop of a process that the tower
/// doesn't have, and a stop with a choice.
const BAD_STOPS: [FaultRow; 2] = [
    (
        b"tower 1\nsafe 0\nw 0 1\ng 0 0\n",
        b"x 0\ng 0 0\nr 1\ng 1 0\ng 1 1\n",
        FaultKind::BadStep,
        5,
    ),
    (
        b"tower 2\nsafe 0\n",
        b"x 2\n|x 0 0\n",
        FaultKind::BadStep,
        3,
    ),
];

#[test]
fn stopped_writer(rt: HostRuntime) -> Result<(), Fail> {
    assert_all_same(&rt, FileKind::Tower, &[STOPPED, b"tower 2\nsafe 0\n"])?;
    assert_eq!(rt; parse(rt.alloc(), STOPPED)?.version, Version::Two);
    assert_faults(&rt, FileKind::Tower, &BAD_STOPS)
}

/// A file of 1,000 steps: writes of a safe bit, of which the last has only begun.
fn thousand_steps(alloc: Global) -> Result<Vec<u8>, AllocError> {
    let writes = b"w 0 1\ng 0 0\ng 0 0\nw 0 0\ng 0 0\ng 0 0\n";
    let mut bytes = repeated(alloc, b"tower 1\nsafe 0\n", writes, 166)?;
    bytes.extend_from_slice(b"w 0 1\ng 0 0\ng 0 0\nw 0 0\n")?;
    Ok(bytes)
}

/// A file of 44 steps, with a write by each of the two processes of a matrix.
fn two_writes(alloc: Global) -> Result<Vec<u8>, AllocError> {
    let first = b"tower 1\nmatrix 2 2 1 3\nw 0 1\n";
    let mut bytes = repeated(alloc, first, b"g 0 0\n", 12)?;
    bytes.extend_from_slice(b"w 1 0\n")?;
    for _ in 0..30 {
        bytes.extend_from_slice(b"g 1 0\n")?;
    }
    Ok(bytes)
}

/// A file with a read that begins during a write of a unary number.
fn overlapping_read(alloc: Global) -> Result<Vec<u8>, AllocError> {
    repeated(
        alloc,
        b"tower 1\nunary 4 1 0\nw 0 3\ng 0 0\ng 0 0\nr 1\ng 0 0\n",
        b"g 1 0\n",
        8,
    )
}

/// The number of steps in a file.
fn count_of_steps(alloc: Global, bytes: &[u8]) -> Result<usize, FileFault> {
    let file = parse(alloc, bytes)?;
    Ok(file.steps.as_slice().len())
}

/// Asserts that bytes are a file with this number of steps, and are printed as they were read.
fn assert_same_of(rt: &(impl Abort + AllocGlobal), bytes: &[u8], count: usize) -> Result<(), Fail> {
    assert_same(rt, FileKind::Tower, bytes)?;
    assert_eq!(rt; count_of_steps(rt.alloc(), bytes)?, count);
    Ok(())
}

#[test]
fn printed_again_long(rt: HostRuntime) -> Result<(), Fail> {
    assert_same_of(&rt, &thousand_steps(rt.alloc())?, 1000)?;
    assert_same(&rt, FileKind::Tower, &overlapping_read(rt.alloc())?)?;
    assert_same_of(&rt, &two_writes(rt.alloc())?, 44)
}

/// A unary number for one reader.
const UNARY: TowerSpec = TowerSpec::Unary {
    values: 4,
    readers: 1,
    init: 3,
};

/// Whether a tower and steps in this version are refused.
fn is_refused(
    alloc: Global,
    version: Version,
    tower: TowerSpec,
    steps: &[Step],
) -> Result<bool, AllocError> {
    let steps = Vec::from_slice(alloc, steps)?;
    Ok(TowerFile::new(version, tower, steps).is_none())
}

/// Asserts the tower and the text of a file of two steps of `UNARY`.
fn assert_two_steps(rt: &impl Abort, alloc: Global, file: &TowerFile) -> Result<(), Fail> {
    assert_eq!(rt; file.tower, UNARY);
    assert_eq!(rt; file.steps.as_slice().len(), 2);
    let printed = print(alloc, file)?;
    assert_eq!(rt;
        printed.as_slice(),
        b"tower 1\nunary 4 1 3\nw 0 2\nr 1\n".as_slice()
    );
    Ok(())
}

/// Makes a file of a write of 2 and a read, and asserts its tower and its text.
fn assert_made(rt: &impl Abort, alloc: Global) -> Result<(), Fail> {
    let steps = [Step::Write { p: 0, v: 2 }, Step::Read { p: 1 }];
    let steps = Vec::from_slice(alloc, &steps)?;
    let file = TowerFile::new(Version::One, UNARY, steps).ok_or("the steps fit")?;
    assert_two_steps(rt, alloc, &file)
}

#[test]
fn made_by_hand(rt: HostRuntime) -> Result<(), Fail> {
    assert!(rt; UNARY.is_lawful());
    assert!(rt; UNARY.fits(Step::Go { p: 1, c: 1 }));
    assert!(rt; !UNARY.fits(Step::Go { p: 2, c: 1 }));
    assert_made(&rt, rt.alloc())?;
    let beyond = [Step::Read { p: 2 }];
    assert!(rt; is_refused(rt.alloc(), Version::One, UNARY, &beyond)?);
    let unlawful = TowerSpec::Safe { init: 2 };
    assert!(rt; is_refused(rt.alloc(), Version::Two, unlawful, &[])?);
    let stop = [Step::Stop { p: 1 }];
    assert!(rt; is_refused(rt.alloc(), Version::One, UNARY, &stop)?);
    Ok(())
}

#[test]
fn texts_of_faults(rt: HostRuntime) -> Result<(), Fail> {
    let texts = ["14 BadStep", "line 4: 14 BadStep"];
    assert_texts(&rt, FaultKind::BadStep, 14, "BadStep", texts)?;
    let texts = ["40 Memory", "line 4: 40 Memory"];
    assert_texts(&rt, FaultKind::Memory, 40, "Memory", texts)?;
    laws::one_spelling();
    Ok(())
}
