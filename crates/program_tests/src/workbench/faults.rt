//! Tests of the texts of faults.

use schedule_trie::refusal::Refusal;
use std::test::Fail;
use tower_file::{FaultKind, FileFault};
use towerbench::{Fault, ProgramFault, SourceFault};

/// The texts of the faults for each way to run out of memory, for a save that failed, and for help
/// that can't be written.
#[test]
fn memory_reported(rt: HostRuntime) -> Result<(), Fail> {
    let file = FileFault {
        kind: FaultKind::Memory,
        line: 0,
    };
    for (fault, want) in [
        (
            ProgramFault::Run(Fault::File(file)),
            "file line 0: 40 Memory",
        ),
        (
            ProgramFault::Run(Fault::Refused(Refusal::Memory)),
            "open refused 40 Memory",
        ),
        (ProgramFault::Run(Fault::Memory), "memory"),
        (ProgramFault::Run(Fault::Save), "save failed"),
        (ProgramFault::Memory, "memory"),
        (ProgramFault::Help, "write failed"),
    ] {
        let text = format!(in rt.alloc(); "{fault}")?;
        assert_eq!(rt; text.as_str(), want);
    }
    Ok(())
}

#[test]
fn source_faults(rt: HostRuntime) -> Result<(), Fail> {
    for (fault, want) in [
        (SourceFault::Unreadable, "file unreadable"),
        (SourceFault::TooLong, "file too long"),
        (SourceFault::Memory, "memory"),
    ] {
        let text = format!(in rt.alloc(); "{fault}")?;
        assert_eq!(rt; text.as_str(), want);
    }
    Ok(())
}
