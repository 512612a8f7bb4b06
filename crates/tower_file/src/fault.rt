//! The faults of tower files and of bench files.

ghost use Rattle.std.specs.Prelude.{◌≡◌};
ghost use Rattle.tower_file.specs.Faults as spec;

use std::alloc::{AllocError, AllocFailed};
use std::fmt;
use thiserror::Error;

/// What is wrong with a file.
#[derive(Clone, Copy, Debug, PartialEq, Eq, Error)]
pub enum FaultKind {
    /// Some byte is foreign: it is neither a line end nor one of 0x20 to 0x7E.
    NotAscii,
    /// The first line isn't a header, or has no line end.
    BadHeader,
    /// The first word of the second line isn't a tower's name.
    UnknownTower,
    /// The second line doesn't have exactly the fields of its tower, or has no line end.
    BadField,
    /// A line has no line end, isn't a step that fits the tower, or is a stop in a tower file of
    /// version 1. In a tower file the line is after the second line; in a bench file it is after
    /// the first branch's line, and the line's first word isn't `branch`.
    BadStep,
    /// A field of the tower is out of its range, or the tower is too large.
    BadSize,
    /// In a bench file, the third line isn't a branch's line; or a branch's line has the wrong
    /// form, no line end, a name that no branch may have, or the name of an earlier branch.
    BadBranch,
    /// In a bench file, a line `branch NAME P K` has the right form and a new name, but P and K are
    /// wrong. P and K are right if both are 0. They are also right if P is the number, counted from
    /// 0, of an earlier branch, and the K-th cell of branch P is one of its own cells, not one that
    /// it shares with a branch before it.
    Tangled,
    /// Out of memory.
    Memory,
}

impl FaultKind {
    /// The fault's number: 10 to 17, or 40 for Memory. The fault's message begins with it.
    pub fn number(self) -> u32
        ensures { result ≡ spec.fault_number self }
    {
        self.number_and_name().0
    }

    /// The fault's name, which is the name of its variant, such as `BadStep`.
    pub fn name(self) -> &'static str
        ensures { result.now ≡ spec.fault_name self }
    {
        self.number_and_name().1
    }

    /// The fault's number and its name.
    fn number_and_name(self) -> (u32, &'static str)
        ensures number { result.0 ≡ spec.fault_number self }
        ensures name { result.1.now ≡ spec.fault_name self }
    {
        match self {
            FaultKind::NotAscii => (10, "NotAscii"),
            FaultKind::BadHeader => (11, "BadHeader"),
            FaultKind::UnknownTower => (12, "UnknownTower"),
            FaultKind::BadField => (13, "BadField"),
            FaultKind::BadStep => (14, "BadStep"),
            FaultKind::BadSize => (15, "BadSize"),
            FaultKind::BadBranch => (16, "BadBranch"),
            FaultKind::Tangled => (17, "Tangled"),
            FaultKind::Memory => (40, "Memory"),
        }
    }
}

impl fmt::Display for FaultKind {
    ghost use Rattle.std.specs.Prelude.{Some};

    ghost output = { λ kind. Some (spec.kind_display kind) };

    fn fmt<W: fmt::Write>(&self, f: &mut fmt::Formatter<W>) -> fmt::Result {
        let (number, name) = self.number_and_name();
        write!(f, "{number} {name}")
    }
}

/// A fault of a file. `line` is the number of the line that has the fault, counted from 1; it is 0
/// if the fault is that memory ran out.
#[derive(Clone, Copy, Debug, PartialEq, Eq, Error)]
pub struct FileFault {
    pub kind: FaultKind,
    pub line: u64,
}

impl fmt::Display for FileFault {
    ghost use Rattle.std.specs.Prelude.{Some};

    ghost output = { λ e. Some (spec.fault_display e) };

    fn fmt<W: fmt::Write>(&self, f: &mut fmt::Formatter<W>) -> fmt::Result {
        write!(f, "line {}: {}", self.line, self.kind)
    }
}

/// The fault that memory ran out, which is on line 0.
pub(crate) const OUT_OF_MEMORY: FileFault = FileFault {
    kind: FaultKind::Memory,
    line: 0,
};

impl From<AllocError> for FileFault {
    ghost use Rattle.tower_file.specs.Faults.{out_of_memory};

    ghost from_gives = { λ _ e. e ≡ out_of_memory };

    fn from(_e: AllocError) -> FileFault {
        OUT_OF_MEMORY
    }
}

impl<T: Drop> From<AllocFailed<T>> for FileFault {
    ghost use Rattle.tower_file.specs.Faults.{out_of_memory};

    ghost from_gives = { λ _ e. e ≡ out_of_memory };

    fn from(_e: AllocFailed<T>) -> FileFault {
        OUT_OF_MEMORY
    }
}
