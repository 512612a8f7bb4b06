//! Tests of streams that fail after some byte of a script or of its answers, and of what was
//! written by then. Each byte is tried.

use super::options;
use std::alloc::{AllocError, Global};
use std::io;
use std::io::{ErrorKind, Read, Write};
use std::process::Abort;
use std::sync::Wait;
use std::test::Fail;
use std::thread::Threads;
use towerbench::{Fault, run};

const TOWER: &[u8] = b"tower 1\nsafe 0\nr 1\ng 1 0\ng 1 0\n";

/// The lines of row `shared-insert`, and their answers on the tower above.
const CONVERSATION: [(&str, &str); 7] = [
    ("0 fork main 3 a\n", "0: edit 1\n"),
    ("1 join\n", "1: joined\n"),
    ("1 go a 2\n", "1: at a 2\n"),
    ("0 insert main 1 w 0 1\n", "0: edit 2\n"),
    ("1 cursor\n", "1: cursor a 3 breaks 0\n"),
    (
        "0 branches\n",
        "0: branches 2 edits 2 made 4\n  main 4\n  a 4\n",
    ),
    (
        "0 history a 4\n",
        "0: history a 4 of 4\n  0 p1 invoke read\n  1 p0 invoke write 1\n  3 p1 return 0\n",
    ),
];

/// More bytes than the script has, and more than its answers have.
pub(super) const ALL: usize = 1 << 10;

/// What a reader does at each read after it has given all its bytes.
#[derive(Clone, Copy)]
enum After {
    Ends,
    Fails,
    /// It is only interrupted.
    Interrupted,
    /// It gives bytes without a line end.
    NeverEnds,
}

/// The bytes that a reader that never ends gives over and over.
const MORE: &[u8] = &[b'#'; 1 << 12];

/// A reader that gives at most `piece` bytes at each read.
#[derive(Drop)]
struct Cut<'a> {
    bytes: &'a [u8],
    piece: usize,
    after: After,
}

impl Read for Cut<'_> {
    fn read(&mut self, buf: &mut [u8]) -> io::Result<usize> {
        if self.bytes.is_empty() {
            match self.after {
                After::Ends => return Ok(0),
                After::Fails => return Err(io::Error::from(ErrorKind::Other)),
                After::Interrupted => return Err(io::Error::from(ErrorKind::Interrupted)),
                After::NeverEnds => self.bytes = MORE,
            }
        }
        let count = self.piece.min(self.bytes.len()).min(buf.len());
        buf[..count].copy_from_slice(&self.bytes[..count]);
        self.bytes = &self.bytes[count..];
        Ok(count)
    }
}

/// A writer that takes at most `piece` bytes at each write, and fails after `room` more bytes.
#[derive(Drop)]
pub(super) struct Narrow {
    piece: usize,
    room: usize,
    pub(super) taken: Vec<u8>,
}

impl Narrow {
    /// A writer that takes at most `room` bytes in all.
    pub(super) fn new(alloc: Global, room: usize) -> Narrow {
        Narrow {
            piece: ALL,
            room,
            taken: Vec::new(alloc),
        }
    }
}

impl Write for Narrow {
    fn write(&mut self, buf: &[u8]) -> io::Result<usize> {
        let count = self.piece.min(self.room).min(buf.len());
        if count == 0 {
            return Err(io::Error::from(ErrorKind::BrokenPipe));
        }
        self.taken.extend_from_slice(&buf[..count])?;
        self.room -= count;
        Ok(count)
    }

    fn flush(&mut self) -> io::Result<()> {
        Ok(())
    }
}

/// How a reader and a writer behave: the most bytes of a read, what the reader does after it has
/// given all its bytes, the most bytes of a write, and the most bytes that the writer takes in all.
#[derive(Clone, Copy)]
struct Streams {
    read: usize,
    after: After,
    write: usize,
    room: usize,
}

/// Runs the program over a script. Returns the fault, if there was one, and the bytes written.
fn run_script<H: Threads + Wait + Sync>(
    rt: &H,
    alloc: Global,
    script: &[u8],
    streams: Streams,
) -> (Option<Fault>, Vec<u8>) {
    let mut reader = Cut {
        bytes: script,
        piece: streams.read,
        after: streams.after,
    };
    let mut writer = Narrow {
        piece: streams.write,
        room: streams.room,
        taken: Vec::new(alloc),
    };
    let ran = run(rt, alloc, Some(TOWER), options(), &mut reader, &mut writer);
    (ran.err(), writer.taken)
}

/// The script: the lines of `CONVERSATION`.
fn script(alloc: Global) -> Result<Vec<u8>, AllocError> {
    let mut script = Vec::new(alloc);
    for (line, _) in CONVERSATION {
        script.extend_from_slice(line.as_bytes())?;
    }
    Ok(script)
}

/// The answers to the lines that end within the first `count` bytes of the script.
fn answers_within(alloc: Global, count: usize) -> Result<Vec<u8>, AllocError> {
    let mut answers = Vec::new(alloc);
    let mut left = count;
    for (line, answer) in CONVERSATION {
        if left < line.len() {
            break;
        }
        left -= line.len();
        answers.extend_from_slice(answer.as_bytes())?;
    }
    Ok(answers)
}

/// A reader that gives at most `read` bytes at each read, and a writer that takes all bytes.
fn reading(read: usize, after: After) -> Streams {
    Streams {
        read,
        after,
        write: ALL,
        room: ALL,
    }
}

/// Asserts that the program ends with this fault if its reader gives the first `count` bytes of the
/// script, or all. The whole lines before that are answered, and the line that is cut isn't.
fn check<H: Abort + AllocGlobal + Threads + Wait + Sync>(
    rt: &H,
    script: &[u8],
    count: usize,
    streams: Streams,
    fault: Fault,
) -> Result<(), Fail> {
    let answers = answers_within(rt.alloc(), count)?;
    let front = &script[..count.min(script.len())];
    let (found, taken) = run_script(rt, rt.alloc(), front, streams);
    assert_eq!(rt; found, Some(fault), "{count}");
    assert!(rt; taken == answers, "{count}");
    Ok(())
}

/// A read fails after any byte of the script, which is read byte by byte, in pieces, or at once.
#[test]
fn a_read_fails_after_each_byte(rt: HostRuntime) -> Result<(), Fail> {
    let script = script(rt.alloc())?;
    for read in [1, 5, ALL] {
        let streams = reading(read, After::Fails);
        for count in 0..=script.len() {
            check(&rt, &script, count, streams, Fault::Read)?;
        }
    }
    Ok(())
}

/// After any byte of the script, the reader goes on without end. Then the script is too long.
#[test]
fn a_reader_never_ends_after_each_byte(rt: HostRuntime) -> Result<(), Fail> {
    let script = script(rt.alloc())?;
    let streams = reading(MORE.len(), After::NeverEnds);
    for count in 0..=script.len() {
        check(&rt, &script, count, streams, Fault::TooLong)?;
    }
    Ok(())
}

/// Asserts that the script is too long if its reader is only interrupted after `count` bytes of it.
fn check_interrupted<H: Abort + AllocGlobal + Threads + Wait + Sync>(
    rt: &H,
    count: usize,
) -> Result<(), Fail> {
    let script = script(rt.alloc())?;
    let streams = reading(ALL, After::Interrupted);
    check(rt, &script, count, streams, Fault::TooLong)
}

#[test]
fn a_reader_is_only_interrupted_after_each_line(rt: HostRuntime) -> Result<(), Fail> {
    let mut count = 0_usize;
    check_interrupted(&rt, count)?;
    for (line, _) in CONVERSATION {
        count = count.wrapping_add(line.len());
        check_interrupted(&rt, count)?;
    }
    Ok(())
}

#[test]
fn a_reader_is_only_interrupted_within_each_line(rt: HostRuntime) -> Result<(), Fail> {
    let mut count = 0_usize;
    for (line, _) in CONVERSATION {
        check_interrupted(&rt, count.wrapping_add(line.len() / 2))?;
        count = count.wrapping_add(line.len());
    }
    Ok(())
}

/// A writer fails after any byte of the answers, of which each write takes one byte or all. The
/// answers up to that byte were taken.
#[test]
fn a_write_fails_after_each_byte(rt: HostRuntime) -> Result<(), Fail> {
    let script = script(rt.alloc())?;
    let answers = answers_within(rt.alloc(), ALL)?;
    for (read, write) in [(1, 1), (ALL, 1), (1, ALL), (ALL, ALL)] {
        for room in 0..=answers.len() {
            let streams = Streams {
                read,
                after: After::Ends,
                write,
                room,
            };
            let (found, taken) = run_script(&rt, rt.alloc(), &script, streams);
            let fault = (room < answers.len()).then_some(Fault::Write);
            assert_eq!(rt; found, fault, "{room}");
            assert!(rt;
                taken.len() == room && answers.starts_with(&taken),
                "{room}"
            );
        }
    }
    Ok(())
}
