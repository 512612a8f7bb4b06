//! Reads of a script, and the count of what they took.

ghost use Rattle.std.specs.Prelude.{◌≡◌, [], ◌<◌, ◌≤◌, ◌+◌, OnErr, IfOk, IfErr, IfSome, MatchOption, IsTrue, IsFalse, length, take};
ghost use Rattle.std.specs.Io.KnownBytes.{Consumes, IsAtEnd};
ghost use Rattle.conversation.specs.declared.limits.TheConstants.{MOST_READS, MOST_SCRIPT_BYTES};
ghost use Rattle.conversation.specs.Amounts.{IsAtLimit, MayGoOn, nothing};

use crate::fault::StreamFault;
use crate::limits::{MOST_READS, MOST_SCRIPT_BYTES};
use std::io::{ErrorKind, Read};
use std::marker::Model;

/// How much of a script was read: its bytes, and the reads that were made for them. Only a read
/// changes this.
#[derive(Drop)]
pub struct Taken {
    bytes: u32,
    reads: u32,
}

impl Model for Taken {
    ghost use Rattle.std.specs.Prelude.{◌≤◌};
    ghost use Rattle.conversation.specs.declared.limits.TheConstants.{MOST_READS, MOST_SCRIPT_BYTES};
    ghost use Rattle.conversation.specs.Amounts.{Amount};

    ghost Value = { Amount };

    ghost view = { λ t. record { bytes = t.bytes; reads = t.reads } };

    ghost invariant = { λ t. (t.bytes ≤ MOST_SCRIPT_BYTES) × (t.reads ≤ MOST_READS) };
}

impl Taken {
    /// What was read before the first read: nothing.
    pub fn nothing() -> Taken
        ensures { result ≡ nothing }
    {
        Taken { bytes: 0, reads: 0 }
    }

    /// How many more bytes may be read.
    pub(crate) fn room(&self) -> u32
        ensures { self.now.bytes + result ≡ MOST_SCRIPT_BYTES }
    {
        MOST_SCRIPT_BYTES - self.bytes
    }

    /// Whether one more read may be made, and may take a byte.
    pub(crate) fn may_go_on(&self) -> bool
        ensures yes { IsTrue result → MayGoOn self.now }
        ensures no { IsFalse result → IsAtLimit self.now }
    {
        self.bytes < MOST_SCRIPT_BYTES && self.reads < MOST_READS
    }

    /// Reads once, at most `most` bytes, into the front of `buffer`. Returns how many bytes were
    /// read, which is 0 if the read was interrupted; or `None` at the reader's end. If the read
    /// fails, returns the error Read, and nothing was taken from the reader.
    pub(crate) fn read_piece<R: Read>(
        &mut self,
        reader: &mut R,
        buffer: &mut [u8],
        most: usize,
    ) -> Result<Option<usize>, StreamFault>
        requires some { 0 < most }
        requires room { most ≤ length buffer.old }
        requires bytes { self.old.bytes + most ≤ MOST_SCRIPT_BYTES }
        requires reads { self.old.reads < MOST_READS }
        ensures counted { self.new.reads ≡ self.old.reads + 1 }
        ensures taken { IfOk result (λ piece. IfSome piece
            (λ n. self.new.bytes ≡ self.old.bytes + n)) }
        ensures bound { IfOk result (λ piece. IfSome piece (λ n. n ≤ most)) }
        ensures bytes { IfOk result (λ piece. MatchOption piece
            (Consumes (R.remaining reader.old) (R.remaining reader.new) []
            × IsAtEnd (R.remaining reader.new))
            (λ n. Consumes (R.remaining reader.old) (R.remaining reader.new)
            (take n buffer.new))) }
        ensures kept { OnErr result
            (Consumes (R.remaining reader.old) (R.remaining reader.new) []) }
        ensures fault { IfErr result (λ e. e ≡ StreamFault.Read) }
    {
        self.reads += 1;
        match reader.read(&mut buffer[..most]) {
            Ok(0) => Ok(None),
            Ok(n) => {
                self.bytes += n as u32;
                Ok(Some(n))
            }
            Err(e) if e.kind() == ErrorKind::Interrupted => Ok(Some(0)),
            Err(_) => Err(StreamFault::Read),
        }
    }
}
