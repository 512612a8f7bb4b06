//! Why a conversation fails.

ghost use Rattle.std.specs.Prelude.{Some};
ghost use Rattle.conversation.specs.Faults as spec;

use std::fmt;
use thiserror::Error;

/// Why a conversation fails: a stream fails, the script is too long, or memory runs out.
#[derive(Clone, Copy, Debug, PartialEq, Eq, Error)]
pub enum StreamFault {
    /// A read failed.
    Read,
    /// A write failed, or took no bytes.
    Write,
    /// The script has too many bytes, or takes too many reads.
    TooLong,
    /// Out of memory.
    Memory,
}

impl fmt::Display for StreamFault {
    ghost output = { λ e. Some (spec.stream_fault_display e) };

    fn fmt<W: fmt::Write>(&self, f: &mut fmt::Formatter<W>) -> fmt::Result {
        match self {
            StreamFault::Read => write!(f, "read failed"),
            StreamFault::Write => write!(f, "write failed"),
            StreamFault::TooLong => write!(f, "script too long"),
            StreamFault::Memory => write!(f, "memory"),
        }
    }
}
