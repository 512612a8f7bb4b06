//! Tests of what the program does with its words, its file and its streams, with readers and
//! writers that fail on the way.

ghost use Rattle.std.specs.Prelude.{◌<◌, ◌≤◌};
ghost use Rattle.command_line.specs.Ranges.{AreOptionsInRange};

mod cut;
mod faults;
mod files;
mod saving;
mod streams;

use command_line::Options;
use std::io;
use std::io::{ErrorKind, Read, Write};

/// Options without workers, and with these limits.
fn limited(cells: u32, branches: u32) -> Options
    requires cells { 0 < cells × cells ≤ 64 }
    requires branches { 0 < branches × branches ≤ 4 }
    ensures { AreOptionsInRange result }
{
    Options {
        workers: 0,
        cells,
        branches,
    }
}

/// Options without workers, and with limits that are enough for the scripts here.
fn options() -> Options
    ensures { AreOptionsInRange result }
{
    limited(64, 4)
}

/// A reader that gives its bytes one by one, each after `interruptions` interrupted reads. After
/// the last byte, one read fails if there is a `fault`; later reads give no bytes.
#[derive(Drop)]
struct Slow<'a> {
    bytes: &'a [u8],
    interruptions: u32,
    /// How many interrupted reads come before the next byte.
    to_come: u32,
    fault: Option<ErrorKind>,
    /// How many reads there were.
    reads: u32,
}

impl Slow<'_> {
    /// A reader of these bytes.
    fn new(bytes: &[u8], interruptions: u32, fault: Option<ErrorKind>) -> Slow<'_> {
        Slow {
            bytes,
            interruptions,
            to_come: interruptions,
            fault,
            reads: 0,
        }
    }
}

impl Read for Slow<'_> {
    fn read(&mut self, buf: &mut [u8]) -> io::Result<usize> {
        self.reads = self.reads.wrapping_add(1);
        if self.to_come > 0 {
            self.to_come -= 1;
            return Err(io::Error::from(ErrorKind::Interrupted));
        }
        self.to_come = self.interruptions;
        let Some((first, others)) = self.bytes.split_first() else {
            return match self.fault.take() {
                Some(kind) => Err(io::Error::from(kind)),
                None => Ok(0),
            };
        };
        if buf.is_empty() {
            return Ok(0);
        }
        buf[0] = *first;
        self.bytes = others;
        Ok(1)
    }
}

/// What a writer does with bytes.
#[derive(Clone, Copy)]
enum Way {
    /// It takes them.
    Takes,
    /// It takes none.
    TakesNone,
    /// It fails.
    Fails,
    /// It takes them, and fails to flush them.
    Sticks,
}

/// A writer that keeps the bytes that it takes.
#[derive(Drop)]
struct Sink {
    way: Way,
    taken: Vec<u8>,
}

impl Write for Sink {
    fn write(&mut self, buf: &[u8]) -> io::Result<usize> {
        match self.way {
            Way::Fails => Err(io::Error::from(ErrorKind::BrokenPipe)),
            Way::TakesNone => Ok(0),
            Way::Takes | Way::Sticks => {
                self.taken.extend_from_slice(buf)?;
                Ok(buf.len())
            }
        }
    }

    fn flush(&mut self) -> io::Result<()> {
        match self.way {
            Way::Sticks => Err(io::Error::from(ErrorKind::BrokenPipe)),
            _ => Ok(()),
        }
    }
}
