//! Tests of files, by readers that end, fail or give their bytes slowly.

use super::Slow;
use std::alloc::Global;
use std::io;
use std::io::{ErrorKind, Read};
use std::process::Abort;
use std::test::Fail;
use towerbench::{SourceFault, read_all};

/// Reads `count` bytes under a limit, byte by byte and at once. Asserts that all are read if
/// `fits`, and that the file is too long if not.
fn check(
    rt: &impl Abort,
    alloc: Global,
    count: usize,
    limit: usize,
    fits: bool,
) -> Result<(), Fail> {
    let mut bytes = Vec::new(alloc);
    for i in 0..count {
        bytes.push((i % 251) as u8)?;
    }
    let mut slow = Slow::new(bytes.as_slice(), 0, None);
    let mut whole = bytes.as_slice();
    for read in [
        read_all(alloc, &mut slow, limit),
        read_all(alloc, &mut whole, limit),
    ] {
        match read {
            Ok(read) => assert!(rt; fits && read == bytes, "{count} {limit}"),
            Err(fault) => assert!(rt; !fits && fault == SourceFault::TooLong, "{count} {limit}"),
        }
    }
    Ok(())
}

/// Counts of bytes, each with a limit under which this number of bytes is read.
const WITHIN: [(usize, usize); 7] = [
    (0, 0),
    (1, 1),
    (5, 9),
    (4096, 4096),
    (4097, 4097),
    (8192, 8192),
    (10_000, 10_000),
];

#[test]
fn limits(rt: HostRuntime) -> Result<(), Fail> {
    for (count, limit) in WITHIN {
        check(&rt, rt.alloc(), count, limit, true)?;
    }
    for (count, limit) in [(1, 0), (2, 1), (4097, 4096), (8192, 8191), (10_000, 9_999)] {
        check(&rt, rt.alloc(), count, limit, false)?;
    }
    Ok(())
}

/// A reader that gives `left` bytes, all of them spaces.
#[derive(Drop)]
struct Blank {
    left: usize,
}

impl Read for Blank {
    fn read(&mut self, buf: &mut [u8]) -> io::Result<usize> {
        let count = self.left.min(buf.len());
        buf[..count].fill(b' ');
        self.left -= count;
        Ok(count)
    }
}

/// Under a limit of 2^26 bytes, a reader that holds exactly 2^26 bytes is read to its end. If it
/// holds one byte more, the file is too long.
#[test]
fn sixty_four_mebibytes(rt: HostRuntime) {
    let limit = 1 << 26;
    let mut whole = Blank { left: limit };
    match read_all(rt.alloc(), &mut whole, limit) {
        Ok(bytes) => assert_eq!(rt; bytes.len(), limit),
        Err(fault) => panic!(rt; "{fault}"),
    }
    let mut longer = Blank { left: limit + 1 };
    let read = read_all(rt.alloc(), &mut longer, limit);
    assert!(rt; matches!(&read, Err(SourceFault::TooLong)));
}

/// Any read that fails makes a file unreadable, and no read is retried.
#[test]
fn failed_reads(rt: HostRuntime) {
    for kind in [
        ErrorKind::Interrupted,
        ErrorKind::WouldBlock,
        ErrorKind::IsADirectory,
        ErrorKind::OutOfMemory,
        ErrorKind::Other,
    ] {
        for bytes in [b"".as_slice(), b"tower 1\n".as_slice()] {
            let mut slow = Slow::new(bytes, 0, Some(kind));
            let read = read_all(rt.alloc(), &mut slow, 100);
            assert!(rt; matches!(&read, Err(SourceFault::Unreadable)), "{kind:?}");
        }
    }
}

/// A file that is too long is reported as too long, although the read after its last byte would
/// fail.
#[test]
fn long_before_failed(rt: HostRuntime) {
    let mut slow = Slow::new(b"tower 1\n".as_slice(), 0, Some(ErrorKind::Other));
    let read = read_all(rt.alloc(), &mut slow, 7);
    assert!(rt; matches!(&read, Err(SourceFault::TooLong)));
}
