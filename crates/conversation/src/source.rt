//! Reading the bytes of a file.

ghost use Rattle.std.specs.Prelude.{◌≡◌, ◌<◌, ◌≤◌, IfOk, IfSome, Some, Err, length};
ghost use Rattle.std.specs.Io.KnownBytes.{IsAtEnd};
ghost use Rattle.conversation.specs.SourceFaults as spec;

use crate::fault::StreamFault;
use std::alloc::Global;
use std::io::{self, ErrorKind, Read};
use std::rt::Files;
use std::{fmt, fs};
use thiserror::Error;

/// The most bytes of a file that one read takes.
const PIECE_BYTES: usize = 4096;

/// Why the bytes of a file can't be read.
#[derive(Clone, Copy, Debug, PartialEq, Eq, Error)]
pub enum SourceFault {
    /// The file can't be opened, or a read of it failed.
    Unreadable,
    /// There is no memory to open the file, or for its bytes.
    Memory,
    /// The file has more bytes than the limit.
    TooLong,
}

impl SourceFault {
    /// The fault of a file that can't be opened because of this error.
    fn of(error: io::Error) -> SourceFault {
        match error.kind() {
            ErrorKind::OutOfMemory => SourceFault::Memory,
            _ => SourceFault::Unreadable,
        }
    }
}

impl fmt::Display for SourceFault {
    ghost output = { λ e. Some (spec.source_fault_display e) };

    fn fmt<W: fmt::Write>(&self, f: &mut fmt::Formatter<W>) -> fmt::Result {
        match self {
            SourceFault::Unreadable => write!(f, "file unreadable"),
            SourceFault::Memory => write!(f, "{}", StreamFault::Memory),
            SourceFault::TooLong => write!(f, "file too long"),
        }
    }
}

/// Returns the bytes of the file at a path. The error is TooLong if there are more than `limit`,
/// Unreadable if the file can't be opened or a read fails, or Memory.
pub fn read_file<F: Files + AllocGlobal>(
    files: &F,
    path: &str,
    limit: usize,
) -> Result<Vec<u8>, SourceFault>
    ensures { IfOk result (λ bytes. length bytes.items ≤ limit) }
{
    match fs::open(files, path) {
        Ok(mut file) => read_all(files.alloc(), &mut file, limit),
        Err(error) => Err(SourceFault::of(error)),
    }
}

/// Reads to the reader's end, and returns all bytes that the reader had left, of which there are at
/// most `limit`. A read that fails isn't retried.
///
/// # Errors
///
/// TooLong if the reader had more than `limit` bytes left; Unreadable if a read fails; Memory.
pub fn read_all<R: Read>(
    alloc: Global,
    reader: &mut R,
    limit: usize,
) -> Result<Vec<u8>, SourceFault>
    ensures bytes { IfOk result (λ bytes.
        IfSome (R.remaining reader.old) (λ all. bytes.items ≡ all)) }
    ensures end { IfOk result (λ _. IsAtEnd (R.remaining reader.new)) }
    ensures room { IfOk result (λ bytes. length bytes.items ≤ limit) }
    ensures too_long { result ≡ Err SourceFault.TooLong
        → IfSome (R.remaining reader.old) (λ all. limit < length all) }
{
    let mut bytes = Vec::new(alloc);
    let mut piece = [0; PIECE_BYTES];
    'pieces: loop {
        let Ok(count) = reader.read(&mut piece) else {
            return Err(SourceFault::Unreadable);
        };
        if count == 0 {
            return Ok(bytes);
        }
        if limit - bytes.len() < count {
            return Err(SourceFault::TooLong);
        }
        let Ok(()) = bytes.extend_from_slice(&piece[..count]) else {
            return Err(SourceFault::Memory);
        };
    }
}
