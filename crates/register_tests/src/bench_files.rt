//! Tests of bench files: they are printed as they were read, or refused for their first fault.

use crate::file_checks::{
    FaultRow, FileKind, Sample, assert_all_same, assert_fault, assert_faults, assert_same,
    assert_texts,
};
use std::alloc::Global;
use std::io::Write;
use std::process::Abort;
use std::test::Fail;
use tower_file::{BenchFile, FaultKind, FileFault, laws, parse_bench};

/// Three branches on a safe bit: `a` shares the first cell of `main`, and `b` both cells of `a`.
const THREE_BRANCHES: &[u8] = b"bench 1\nsafe 0\nbranch main 0 0\nr 1\nw 0 1\n\
    branch a 0 1\ng 1 0\nbranch b 1 2\ng 1 1\n";

/// `THREE_BRANCHES` as a sample. The file has 9 lines; the tower's name has 4 bytes, and the second
/// line has 7 bytes.
pub(crate) const SAMPLE: Sample = Sample {
    file: FileKind::Bench,
    bytes: THREE_BRANCHES,
    name_end: 8 + 4,
    second_end: 8 + 7,
    lines: 9,
};

/// The index of a limb's parent, the number of shared cells, and the number of its own cells.
type Numbers = (u32, u32, usize);

/// Asserts a limb's name and numbers.
fn assert_limb(rt: &impl Abort, name: &[u8], numbers: Numbers, expected: (&[u8], Numbers)) {
    assert_eq!(rt; name, expected.0);
    assert_eq!(rt; numbers, expected.1);
}

/// Asserts what `THREE_BRANCHES` says of each branch.
fn assert_three_branches(rt: &impl Abort, file: &BenchFile) -> Result<(), Fail> {
    assert!(rt; file.tower.is_lawful());
    let [main, a, b] = file.limbs.as_slice() else {
        return Err("three limbs".into());
    };
    let numbers = (main.from, main.shared, main.steps.as_slice().len());
    assert_limb(rt, main.name.as_bytes(), numbers, (b"main", (0, 0, 2)));
    let numbers = (a.from, a.shared, a.steps.as_slice().len());
    assert_limb(rt, a.name.as_bytes(), numbers, (b"a", (0, 1, 1)));
    let numbers = (b.from, b.shared, b.steps.as_slice().len());
    assert_limb(rt, b.name.as_bytes(), numbers, (b"b", (1, 2, 1)));
    Ok(())
}

/// Reads `THREE_BRANCHES`, and asserts what it says of each branch.
fn assert_read(rt: &impl Abort, alloc: Global) -> Result<(), Fail> {
    let file = parse_bench(alloc, THREE_BRANCHES)?;
    assert_three_branches(rt, &file)
}

#[test]
fn three_branches(rt: HostRuntime) -> Result<(), Fail> {
    assert_read(&rt, rt.alloc())?;
    assert_same(&rt, FileKind::Bench, THREE_BRANCHES)?;
    laws::one_bench_spelling();
    Ok(())
}

/// Bench files without a fault: with no steps; with stops; with branches that share no cell, some
/// cells or all; and with a branch whose name has 16 bytes.
const GOOD_FILES: [&[u8]; 5] = [
    b"bench 1\nsafe 0\nbranch main 0 0\n",
    b"bench 1\nsafe 0\nbranch main 0 0\nw 0 1\nx 0\nx 1\n",
    b"bench 1\nunary 4 1 0\nbranch a 0 0\nw 0 3\nbranch b 0 0\nw 0 3\nbranch c 1 1\n",
    b"bench 1\nsafe 0\nbranch main 0 0\nr 1\nr 1\nbranch a 0 2\nbranch b 0 1\nbranch c 0 2\n",
    b"bench 1\nmatrix 2 2 1 3\nbranch a234567890123456 0 0\nr 0\nr 1\n",
];

#[test]
fn printed_again(rt: HostRuntime) -> Result<(), Fail> {
    assert_all_same(&rt, FileKind::Bench, &GOOD_FILES)
}

/// The bytes of a file with a branch of 100 cells, and `count` branches that share all of these and
/// have one more cell each.
fn many_branches(alloc: Global, count: u32) -> Result<Vec<u8>, Fail> {
    let mut bytes = Vec::from_slice(alloc, b"bench 1\nsafe 0\nbranch main 0 0\n")?;
    for _ in 0..100 {
        bytes.extend_from_slice(b"r 1\n")?;
    }
    for number in 0..count {
        writeln!(bytes, "branch b{number} 0 100")?;
        bytes.extend_from_slice(b"x 0\n")?;
    }
    Ok(bytes)
}

/// The number of limbs in a file.
fn count_of_limbs(alloc: Global, bytes: &[u8]) -> Result<usize, FileFault> {
    let file = parse_bench(alloc, bytes)?;
    Ok(file.limbs.as_slice().len())
}

/// Asserts that bytes are a file with 1,000 limbs, and are printed as they were read.
fn assert_thousand(rt: &(impl Abort + AllocGlobal), bytes: &[u8]) -> Result<(), Fail> {
    assert_same(rt, FileKind::Bench, bytes)?;
    assert_eq!(rt; count_of_limbs(rt.alloc(), bytes)?, 1000);
    Ok(())
}

#[test]
fn printed_again_many(rt: HostRuntime) -> Result<(), Fail> {
    let mut bytes = many_branches(rt.alloc(), 999)?;
    assert_thousand(&rt, &bytes)?;
    bytes.extend_from_slice(b"branch b500 0 0\n")?;
    assert_fault(&rt, FileKind::Bench, &bytes, FaultKind::BadBranch, 2102);
    Ok(())
}

/// Faults on line 3, which has to be the line of a branch that shares no cells.
const LINE_3: [FaultRow; 2] = [
    (
        b"bench 1\nsafe 0\n",
        b"|\n|r 1\n|r 1|branch main 0 0|branch main 0\n| branch main 0 0\n|Branch main 0 0\n",
        FaultKind::BadBranch,
        3,
    ),
    (
        b"bench 1\nsafe 0\n",
        b"branch main 0 1\n|branch main 1 0\n",
        FaultKind::Tangled,
        3,
    ),
];

/// The lines before line 8. They have two branches; the second has one cell of its own, after one
/// that it shares with the first.
const BEFORE_LINE_8: &[u8] = b"bench 1\nsafe 0\nbranch main 0 0\nr 1\nw 0 1\nbranch a 0 1\ng 1 0\n";

/// Faults on line 8, which may begin a branch or be a step.
const LINE_8: [FaultRow; 3] = [
    (
        BEFORE_LINE_8,
        b"branch b 1 1\n|branch b 0 3\n|branch b 1 3\n|branch b 2 1\n|branch b 1 0\n|\
        branch b 999999999 999999999\n",
        FaultKind::Tangled,
        8,
    ),
    (
        BEFORE_LINE_8,
        b"branch b 1 1000000000\n|branch a 1 2\n|branch main 1 1\n|branch b 01 2\n|\
        branch b 1 02\n|branch b 1 2 \n|branch b 1 2 0\n|branch  b 1 2\n|branch B 1 2\n|\
        branch 1b 1 2\n|branch a2345678901234567 1 2\n|branch\n|branch|branch b 1 1",
        FaultKind::BadBranch,
        8,
    ),
    (
        BEFORE_LINE_8,
        b"branc|branches b 1 2\n|\n|r 0\n",
        FaultKind::BadStep,
        8,
    ),
];

#[test]
fn faults_of_a_line(rt: HostRuntime) -> Result<(), Fail> {
    assert_faults(&rt, FileKind::Bench, &LINE_3)?;
    assert_same(&rt, FileKind::Bench, BEFORE_LINE_8)?;
    assert_faults(&rt, FileKind::Bench, &LINE_8)
}

/// Files whose first fault is neither on line 2 nor in a branch. Most have other faults too, which
/// are checked later.
const FAULTS_IN_ORDER: [FaultRow; 2] = [
    (
        b"",
        b"|tower 2\nsafe 0\n|bench 2\natom 0\n|bench 1",
        FaultKind::BadHeader,
        1,
    ),
    (b"bench 2\natom 0\nr 1\n", b"\t", FaultKind::NotAscii, 4),
];

#[test]
fn faults_in_order(rt: HostRuntime) -> Result<(), Fail> {
    assert_faults(&rt, FileKind::Bench, &FAULTS_IN_ORDER)
}

#[test]
fn texts_of_faults(rt: HostRuntime) -> Result<(), Fail> {
    let texts = ["17 Tangled", "line 4: 17 Tangled"];
    assert_texts(&rt, FaultKind::Tangled, 17, "Tangled", texts)?;
    let texts = ["16 BadBranch", "line 4: 16 BadBranch"];
    assert_texts(&rt, FaultKind::BadBranch, 16, "BadBranch", texts)
}
