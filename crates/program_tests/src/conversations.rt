//! Tests, with readers and writers that count, of when answers are written and when a conversation
//! ends.

ghost use Rattle.std.specs.Prelude.{◌≡◌, ◌++◌, OnOk, codes};

use conversation::answers::Answers;
use conversation::converse::converse;
use conversation::fault::StreamFault;
use conversation::taken::Taken;
use std::alloc::{AllocError, Global};
use std::cell::Cell;
use std::io;
use std::io::{Read, Write};
use std::test::Fail;

/// Answers each line with `yes`.
#[derive(Drop)]
struct Nodding;

impl Answers for Nodding {
    ghost use Rattle.std.specs.Prelude.{⊤, codes, refl};

    ghost Worlds = { ⊤ };

    ghost world = { λ _. tt };

    ghost alone = { λ _. ⊤ };

    ghost define = { λ memory number line w. record { world = w; text = codes "yes" } };

    ghost reads_front = { λ memory number line w. refl };
}

/// Adds the answer `yes` for a line, but has no memory for the line with the number `refused`.
fn nod(refused: u32, number: u32, out: &mut Vec<u8>) -> Result<(), AllocError>
    ensures { OnOk result (out.new.items ≡ out.old.items ++ codes "yes") }
{
    if number == refused {
        return Err(AllocError);
    }
    out.extend_from_slice("yes".as_bytes())
}

/// Answers each line of a script with `yes`, but has no memory for the line with the number
/// `refused`. Returns the fault; `None` if the conversation ended well.
fn nod_to<R: Read, W: Write>(
    alloc: Global,
    refused: u32,
    reader: &mut R,
    writer: &mut W,
) -> Option<StreamFault> {
    let nodding = |_: &mut Nodding, number: u32, _: &[u8], out: &mut Vec<u8>| nod(
        refused, number, out,
    );
    let mut taken = Taken::nothing();
    converse(alloc, &mut Nodding, &nodding, reader, &mut taken, writer).err()
}

/// How many writes there were, how many bytes they took, and how many writes there were at the last
/// flush.
#[derive(Drop)]
struct Counts {
    writes: Cell<usize>,
    bytes: Cell<usize>,
    flushed: Cell<usize>,
}

impl Counts {
    fn new() -> Counts {
        Counts {
            writes: Cell::new(0),
            bytes: Cell::new(0),
            flushed: Cell::new(0),
        }
    }

    fn now(&self) -> (usize, usize, usize) {
        (self.writes.get(), self.bytes.get(), self.flushed.get())
    }
}

/// A writer that takes all bytes, and keeps these counts.
#[derive(Drop)]
struct Counted<'a> {
    counts: &'a Counts,
}

impl Write for Counted<'_> {
    fn write(&mut self, buf: &[u8]) -> io::Result<usize> {
        let counts = self.counts;
        counts.writes.set(counts.writes.get().wrapping_add(1));
        counts.bytes.set(counts.bytes.get().wrapping_add(buf.len()));
        Ok(buf.len())
    }

    fn flush(&mut self) -> io::Result<()> {
        self.counts.flushed.set(self.counts.writes.get());
        Ok(())
    }
}

/// A reader that gives a script in pieces, one for each read. At each read it records the counts so
/// far.
#[derive(Drop)]
struct Watching<'a> {
    pieces: &'a [&'a str],
    next: usize,
    counts: &'a Counts,
    seen: Vec<(usize, usize, usize)>,
}

impl Read for Watching<'_> {
    fn read(&mut self, buf: &mut [u8]) -> io::Result<usize> {
        self.seen.push(self.counts.now())?;
        let Some(piece) = self.pieces.get(self.next) else {
            return Ok(0);
        };
        let piece = piece.as_bytes();
        let count = piece.len().min(buf.len());
        buf[..count].copy_from_slice(&piece[..count]);
        self.next = self.next.wrapping_add(1);
        Ok(count)
    }
}

/// The answers to the lines of one read are written together and flushed before the next read. A
/// line that goes on in the next read is answered when it ends, and nothing is written if there are
/// no answers. The last line has no line end.
#[test]
fn answers_go_out_together(rt: HostRuntime) {
    let counts = Counts::new();
    let pieces = ["one\ntwo\nthr", "e", "e\nfour", "\n\n\nlast"];
    let mut reader = Watching {
        pieces: pieces.as_slice(),
        next: 0,
        counts: &counts,
        seen: Vec::new(rt.alloc()),
    };
    let mut writer = Counted { counts: &counts };
    let fault = nod_to(rt.alloc(), 0, &mut reader, &mut writer);
    assert_eq!(rt; fault, None);
    assert_eq!(rt;
        reader.seen.as_slice(),
        [(0, 0, 0), (1, 6, 1), (1, 6, 1), (2, 9, 2), (3, 18, 3)].as_slice()
    );
    assert_eq!(rt; counts.now(), (4, 21, 4));
}

/// Thousands of short lines are answered by one write for each read.
#[test]
fn many_short_lines(rt: HostRuntime) -> Result<(), Fail> {
    let counts = Counts::new();
    let lines = vec![in rt.alloc(); b'\n'; 40_000]?;
    let mut reader = lines.as_slice();
    let mut writer = Counted { counts: &counts };
    let fault = nod_to(rt.alloc(), 0, &mut reader, &mut writer);
    assert_eq!(rt; fault, None);
    assert!(rt; counts.writes.get() <= 11);
    assert_eq!(rt; counts.bytes.get(), 3 * 40_001);
    Ok(())
}

/// If there is no memory for a line, the conversation ends with Memory, even at the last line.
#[test]
fn line_without_memory(rt: HostRuntime) {
    for (script, refused, bytes) in [("one\ntwo\nthree\n", 2, 0), ("one\ntwo\nlast", 3, 6)] {
        let counts = Counts::new();
        let mut reader = script.as_bytes();
        let mut writer = Counted { counts: &counts };
        let fault = nod_to(rt.alloc(), refused, &mut reader, &mut writer);
        assert_eq!(rt; fault, Some(StreamFault::Memory), "{script}");
        assert!(rt; counts.bytes.get() <= bytes, "{script}");
    }
}

/// A reader that gives one byte over and over, and counts the bytes.
#[derive(Drop)]
struct Endless {
    bytes: usize,
}

impl Read for Endless {
    fn read(&mut self, buf: &mut [u8]) -> io::Result<usize> {
        buf.fill(b'#');
        self.bytes = self.bytes.wrapping_add(buf.len());
        Ok(buf.len())
    }
}

/// A script is too long once 2^24 bytes of it are read, and not before.
#[test]
fn endless_script(rt: HostRuntime) {
    let counts = Counts::new();
    let mut reader = Endless { bytes: 0 };
    let mut writer = Counted { counts: &counts };
    let fault = nod_to(rt.alloc(), 0, &mut reader, &mut writer);
    assert_eq!(rt; fault, Some(StreamFault::TooLong));
    assert_eq!(rt; reader.bytes, 1 << 24);
}
