//! What the tests of tower files and of bench files share: bytes are refused for a fault, or are
//! read and then printed as they were. Faults of line 2, cut files, and files that aren't ASCII are
//! tested here for both kinds.

use crate::{bench_files, tower_files};
use std::alloc::{AllocError, Global};
use std::fmt::Display;
use std::process::Abort;
use std::test::Fail;
use tower_file::{FaultKind, FileFault, parse, parse_bench, print, print_bench};

/// A kind of file.
#[derive(Clone, Copy)]
pub(crate) enum FileKind {
    Tower,
    Bench,
}

/// Why bytes aren't a file of this kind; `None` if they are such a file.
pub(crate) fn fault_of(alloc: Global, file: FileKind, bytes: &[u8]) -> Option<FileFault> {
    match file {
        FileKind::Tower => parse(alloc, bytes).err(),
        FileKind::Bench => parse_bench(alloc, bytes).err(),
    }
}

/// Reads bytes as a tower file, and prints it.
fn printed_tower(alloc: Global, bytes: &[u8]) -> Result<Vec<u8>, Fail> {
    let file = parse(alloc, bytes)?;
    Ok(print(alloc, &file)?)
}

/// Reads bytes as a bench file, and prints it.
fn printed_bench(alloc: Global, bytes: &[u8]) -> Result<Vec<u8>, Fail> {
    let file = parse_bench(alloc, bytes)?;
    Ok(print_bench(alloc, &file)?)
}

/// Reads bytes as a file of this kind, and prints it.
fn printed(alloc: Global, file: FileKind, bytes: &[u8]) -> Result<Vec<u8>, Fail> {
    match file {
        FileKind::Tower => printed_tower(alloc, bytes),
        FileKind::Bench => printed_bench(alloc, bytes),
    }
}

/// Asserts that bytes have this kind of fault on this line.
pub(crate) fn assert_fault(
    rt: &(impl Abort + AllocGlobal),
    file: FileKind,
    bytes: &[u8],
    kind: FaultKind,
    line: u64,
) {
    let fault = fault_of(rt.alloc(), file, bytes);
    assert_eq!(rt; fault, Some(FileFault { kind, line }));
}

/// Asserts that bytes are a file, and are printed as they were read.
pub(crate) fn assert_same(
    rt: &(impl Abort + AllocGlobal),
    file: FileKind,
    bytes: &[u8],
) -> Result<(), Fail> {
    let printed = printed(rt.alloc(), file, bytes)?;
    assert_eq!(rt; printed.as_slice(), bytes);
    Ok(())
}

/// Asserts that each of these is a file, and is printed as it was read.
pub(crate) fn assert_all_same(
    rt: &(impl Abort + AllocGlobal),
    file: FileKind,
    files: &[&[u8]],
) -> Result<(), Fail> {
    for bytes in files {
        assert_same(rt, file, bytes)?;
    }
    Ok(())
}

/// A prefix and a text, joined.
fn joined(alloc: Global, before: &[u8], text: &[u8]) -> Result<Vec<u8>, AllocError> {
    let mut bytes = Vec::from_slice(alloc, before)?;
    bytes.extend_from_slice(text)?;
    Ok(bytes)
}

/// Asserts that a prefix and a text are together a file, and are printed as they were read.
fn assert_same_joined(
    rt: &(impl Abort + AllocGlobal),
    file: FileKind,
    before: &[u8],
    text: &[u8],
) -> Result<(), Fail> {
    let bytes = joined(rt.alloc(), before, text)?;
    assert_same(rt, file, &bytes)
}

/// Asserts that `before`, followed by any of the texts, which bars separate, is a file, and is
/// printed as it was read.
pub(crate) fn assert_same_after(
    rt: &(impl Abort + AllocGlobal),
    file: FileKind,
    before: &[u8],
    texts: &[u8],
) -> Result<(), Fail> {
    for text in texts.split(|byte| *byte == b'|') {
        assert_same_joined(rt, file, before, text)?;
    }
    Ok(())
}

/// The beginning of a file; texts that may follow it, which bars separate; and the kind and line of
/// the fault that the file has with each of these texts.
pub(crate) type FaultRow = (&'static [u8], &'static [u8], FaultKind, u64);

/// Lines after a fault, which have faults too.
const MORE_LINES: &[u8] = b"g 1 1\nbranch\n";

/// Asserts the kind and the line of the fault of these three texts, joined.
fn assert_fault_joined(
    rt: &(impl Abort + AllocGlobal),
    file: FileKind,
    texts: [&[u8]; 3],
    kind: FaultKind,
    line: u64,
) -> Result<(), Fail> {
    let mut bytes = joined(rt.alloc(), texts[0], texts[1])?;
    bytes.extend_from_slice(texts[2])?;
    assert_fault(rt, file, &bytes, kind, line);
    Ok(())
}

/// For each row, asserts the fault of the beginning followed by each of the texts. If a text ends a
/// line, the fault is also asserted with more lines after the text.
pub(crate) fn assert_faults(
    rt: &(impl Abort + AllocGlobal),
    file: FileKind,
    rows: &[FaultRow],
) -> Result<(), Fail> {
    for (before, texts, kind, line) in rows {
        for text in texts.split(|byte| *byte == b'|') {
            assert_fault_joined(rt, file, [before, text, b""], *kind, *line)?;
            if text.ends_with(b"\n") {
                assert_fault_joined(rt, file, [before, text, MORE_LINES], *kind, *line)?;
            }
        }
    }
    Ok(())
}

/// The kind of fault of a file that is cut within this line, after the second, given what is left
/// of the line. `None` if nothing is left of the line, and the lines before it are a file.
fn fault_of_later_cut(file: FileKind, line: u64, text: &[u8]) -> Option<FaultKind> {
    match file {
        FileKind::Bench if line == 3 || text.starts_with(b"branch") => Some(FaultKind::BadBranch),
        _ if text.is_empty() => None,
        _ => Some(FaultKind::BadStep),
    }
}

/// A file with a first line of 8 bytes. The tower's name ends at the index `name_end`, and the
/// second line at `second_end`; the file has `lines` lines.
pub(crate) struct Sample {
    pub(crate) file: FileKind,
    pub(crate) bytes: &'static [u8],
    pub(crate) name_end: usize,
    pub(crate) second_end: usize,
    pub(crate) lines: u64,
}

impl Sample {
    /// The fault of the first `end` bytes, which are cut within this line, given what is left of
    /// the line; `None` if these bytes are a file.
    fn fault_of_cut(&self, end: usize, line: u64, text: &[u8]) -> Option<FileFault> {
        let (kind, line) = if end < 8 {
            (FaultKind::BadHeader, 1)
        } else if end < self.name_end {
            (FaultKind::UnknownTower, 2)
        } else if end < self.second_end {
            (FaultKind::BadField, 2)
        } else {
            (fault_of_later_cut(self.file, line, text)?, line)
        };
        Some(FileFault { kind, line })
    }
}

/// Cuts a file before each of its bytes in turn, and asserts the fault of the bytes before the cut,
/// or that these are a file.
fn assert_cut_anywhere(rt: &(impl Abort + AllocGlobal), sample: &Sample) -> Result<(), Fail> {
    let mut line = 1;
    let mut start = 0;
    for (end, byte) in sample.bytes.iter().enumerate() {
        let text = sample.bytes[..end].get(start..).unwrap_or_default();
        match sample.fault_of_cut(end, line, text) {
            Some(fault) => assert_fault(
                rt,
                sample.file,
                &sample.bytes[..end],
                fault.kind,
                fault.line,
            ),
            None => assert_same(rt, sample.file, &sample.bytes[..end])?,
        }
        if *byte == b'\n' {
            line = line.saturating_add(1);
            start = end.saturating_add(1);
        }
    }
    assert_eq!(rt; line, sample.lines.saturating_add(1));
    assert_same(rt, sample.file, sample.bytes)
}

/// Replaces each byte in turn by one outside ASCII, and asserts the fault NotAscii on the line of
/// that byte.
fn assert_broken_anywhere(rt: &(impl Abort + AllocGlobal), sample: &Sample) -> Result<(), Fail> {
    let mut line = 1;
    for (at, byte) in sample.bytes.iter().enumerate() {
        let after = &sample.bytes[at + 1..];
        let texts = [&sample.bytes[..at], b"\x80", after];
        assert_fault_joined(rt, sample.file, texts, FaultKind::NotAscii, line)?;
        if *byte == b'\n' {
            line = line.saturating_add(1);
        }
    }
    assert_eq!(rt; line, sample.lines.saturating_add(1));
    Ok(())
}

/// Asserts the text of a fault, of a kind of fault, or of a refusal.
pub(crate) fn assert_text<T: Display>(
    rt: &(impl Abort + AllocGlobal),
    fault: &T,
    text: &str,
) -> Result<(), Fail> {
    let said = format!(in rt.alloc(); "{fault}")?;
    assert_eq!(rt; said.as_str(), text);
    Ok(())
}

/// Asserts the number, the name and the text of a kind of fault, and the text of a fault of this
/// kind on line 4.
pub(crate) fn assert_texts(
    rt: &(impl Abort + AllocGlobal),
    kind: FaultKind,
    number: u32,
    name: &str,
    texts: [&str; 2],
) -> Result<(), Fail> {
    assert_eq!(rt; kind.number(), number);
    assert_eq!(rt; kind.name(), name);
    assert_text(rt, &kind, texts[0])?;
    assert_text(rt, &FileFault { kind, line: 4 }, texts[1])
}

/// Texts that aren't a second line, and their faults. Some texts are cut off, and some have other
/// faults on later lines.
const LINE_2: [(&[u8], FaultKind); 3] = [
    (
        b"|atom 0| safe 0\n|atom 0\n|atom\nw 0|atom 0\nr 1\n",
        FaultKind::UnknownTower,
    ),
    (
        b"safe|safe 0|safe\n|safe  0\n|safe 0 \n|safe 0 0\n|safe 00\n|unary 1 x 0\nw 0|safe 0 0\nr 1\n",
        FaultKind::BadField,
    ),
    (
        b"safe 2\n|unary 1 1 0\nw 0|safe 2\nr 1\n",
        FaultKind::BadSize,
    ),
];

#[test]
fn faults_of_line_2(rt: HostRuntime) -> Result<(), Fail> {
    for (texts, kind) in LINE_2 {
        assert_faults(&rt, FileKind::Tower, &[(b"tower 1\n", texts, kind, 2)])?;
        assert_faults(&rt, FileKind::Tower, &[(b"tower 2\n", texts, kind, 2)])?;
        assert_faults(&rt, FileKind::Bench, &[(b"bench 1\n", texts, kind, 2)])?;
    }
    Ok(())
}

#[test]
fn cut_anywhere(rt: HostRuntime) -> Result<(), Fail> {
    assert_cut_anywhere(&rt, &tower_files::SAMPLE)?;
    assert_cut_anywhere(&rt, &bench_files::SAMPLE)
}

#[test]
fn broken_anywhere(rt: HostRuntime) -> Result<(), Fail> {
    assert_broken_anywhere(&rt, &tower_files::SAMPLE)?;
    assert_broken_anywhere(&rt, &bench_files::SAMPLE)
}
