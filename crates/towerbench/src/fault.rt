//! The faults with which the program, or a run of it, can end.

ghost use Rattle.std.specs.Prelude.{◌≡◌, Some};
ghost use Rattle.towerbench.specs.Faults as spec;
ghost use Rattle.towerbench.specs.StreamFaults.{fault_of_stream};

use conversation::fault::StreamFault;
use conversation::source::SourceFault;
use schedule_trie::refusal::Refusal;
use std::fmt;
use thiserror::Error;
use tower_file::FileFault;

/// A fault of a run of the program: of its file, of its script's streams, or of saving its
/// branches.
#[derive(Clone, Copy, Debug, PartialEq, Eq, Error)]
pub enum Fault {
    /// The bytes of the file spell no tower file and no bench file, or there is no memory to read
    /// them.
    File(FileFault),
    /// The branches can't be loaded: there are too many cells or branches, or no memory for them.
    Refused(Refusal),
    /// A read of the script failed.
    Read,
    /// A write of the answers failed, or took no bytes.
    Write,
    /// The script has too many bytes, or takes too many reads.
    TooLong,
    /// Memory ran out while the script was answered, or, after a script that ended well, while the
    /// branches were saved.
    Memory,
    /// The file to save the branches to can't be opened, or a write to it failed or took no bytes.
    /// By then the script has ended well, and its answers were written.
    Save,
}

/// The fault of a run whose script's streams ended with this fault.
pub(crate) fn fault_of_stream(fault: StreamFault) -> Fault
    ensures { result ≡ fault_of_stream fault }
{
    match fault {
        StreamFault::Read => Fault::Read,
        StreamFault::Write => Fault::Write,
        StreamFault::TooLong => Fault::TooLong,
        StreamFault::Memory => Fault::Memory,
    }
}

impl fmt::Display for Fault {
    ghost output = { λ e. Some (spec.run_fault_display e) };

    fn fmt<W: fmt::Write>(&self, f: &mut fmt::Formatter<W>) -> fmt::Result {
        match self {
            Fault::File(e) => write!(f, "file {e}"),
            Fault::Refused(e) => write!(f, "open refused {e}"),
            Fault::Read => write!(f, "{}", StreamFault::Read),
            Fault::Write => write!(f, "{}", StreamFault::Write),
            Fault::TooLong => write!(f, "{}", StreamFault::TooLong),
            Fault::Memory => write!(f, "{}", StreamFault::Memory),
            Fault::Save => write!(f, "save failed"),
        }
    }
}

/// A fault of the program: of reading its words, of printing the help, of reading its file, or of
/// running its script.
#[derive(Clone, Copy, Debug, PartialEq, Eq, Error)]
pub enum ProgramFault {
    /// Out of memory while the words were read.
    Memory,
    /// A write of the help failed, or took no bytes.
    Help,
    /// The named file can't be read or is too long, or there is no memory for it. The script isn't
    /// read.
    Source(SourceFault),
    /// A fault of the program's run: of the file's contents or branches, of the script's streams,
    /// of memory or of saving.
    Run(Fault),
}

impl fmt::Display for ProgramFault {
    ghost output = { λ e. Some (spec.program_fault_display e) };

    fn fmt<W: fmt::Write>(&self, f: &mut fmt::Formatter<W>) -> fmt::Result {
        match self {
            ProgramFault::Memory => write!(f, "{}", StreamFault::Memory),
            ProgramFault::Help => write!(f, "{}", StreamFault::Write),
            ProgramFault::Source(e) => write!(f, "{e}"),
            ProgramFault::Run(e) => write!(f, "{e}"),
        }
    }
}
