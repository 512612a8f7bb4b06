//! The faults of question files.

ghost use Rattle.std.specs.Prelude.{◌≡◌, Some};
ghost use Rattle.question_file.specs.Faults as spec;

use std::alloc::{AllocError, AllocFailed};
use std::fmt;
use thiserror::Error;
use tower_file::FaultKind;

/// What is wrong with a file.
#[derive(Clone, Copy, Debug, PartialEq, Eq, Error)]
pub enum QuestionFaultKind {
    /// The line begins with none of `process`, `after`, `stop` and `most`, or has no line end.
    BadLine,
    /// A fault that a tower file may have too. NotAscii: a byte of the line is neither a line end
    /// nor one of 0x20 to 0x7E. UnknownTower: the first word of the tower's line isn't a tower's
    /// name, or the file has no such line. BadField: the tower's line doesn't have exactly the
    /// fields of its tower. BadSize: a field of the tower is out of its range, or the tower is too
    /// large. Memory. No other kind occurs.
    Shared(FaultKind),
    /// A line `process` has the wrong form, an operation that doesn't fit its process, or a process
    /// that has a line already.
    BadProcess,
    /// A line `after` has the wrong form, or names an operation that no line above has.
    BadAfter,
    /// A line `stop` has the wrong form, or a process that isn't there or may stop already.
    BadStop,
    /// A line `most` has the wrong form, a number out of its range, or an earlier line `most`.
    BadMost,
}

/// A fault of a file. `line` is the number of the line that has the fault, counted from 1. If
/// memory ran out, it is the number of the line that was being read.
#[derive(Clone, Copy, Debug, PartialEq, Eq, Error)]
pub struct QuestionFault {
    pub kind: QuestionFaultKind,
    pub line: u64,
}

impl fmt::Display for QuestionFaultKind {
    ghost output = { λ kind. Some (spec.question_kind_display kind) };

    fn fmt<W: fmt::Write>(&self, f: &mut fmt::Formatter<W>) -> fmt::Result {
        match self {
            QuestionFaultKind::BadLine => write!(f, "60 BadLine"),
            QuestionFaultKind::Shared(kind) => write!(f, "{kind}"),
            QuestionFaultKind::BadProcess => write!(f, "61 BadProcess"),
            QuestionFaultKind::BadAfter => write!(f, "62 BadAfter"),
            QuestionFaultKind::BadStop => write!(f, "63 BadStop"),
            QuestionFaultKind::BadMost => write!(f, "64 BadMost"),
        }
    }
}

impl fmt::Display for QuestionFault {
    ghost output = { λ e. Some (spec.question_fault_display e) };

    fn fmt<W: fmt::Write>(&self, f: &mut fmt::Formatter<W>) -> fmt::Result {
        write!(f, "line {}: {}", self.line, self.kind)
    }
}

/// Out of memory.
pub(crate) const OUT_OF_MEMORY: QuestionFaultKind = QuestionFaultKind::Shared(FaultKind::Memory);

impl From<AllocError> for QuestionFaultKind {
    ghost from_gives = { λ _ e. e ≡ spec.out_of_memory_kind };

    fn from(_e: AllocError) -> QuestionFaultKind {
        OUT_OF_MEMORY
    }
}

impl<T: Drop> From<AllocFailed<T>> for QuestionFaultKind {
    ghost from_gives = { λ _ e. e ≡ spec.out_of_memory_kind };

    fn from(_e: AllocFailed<T>) -> QuestionFaultKind {
        OUT_OF_MEMORY
    }
}
