//! The faults of answering a question file.

ghost use Rattle.std.specs.Prelude.{◌≡◌};
ghost use Rattle.question_file.specs.Asked.{lists_of};
ghost use Rattle.answer_lines.specs.Advice as spec;

use frames::types::Op;
use question_file::QuestionFault;
use std::fmt;
use thiserror::Error;

/// More states are reachable than may be searched, and what to change so that fewer are.
#[derive(Clone, Copy, Debug, PartialEq, Eq, Error)]
pub struct TooMany {
    /// The most states that may be searched.
    pub most: u32,
    /// The last process that has operations.
    pub last: usize,
    /// The process that has the most operations, the first of these.
    pub longest: usize,
}

/// A fault of answering a question file.
#[derive(Clone, Copy, Debug, PartialEq, Eq, Error)]
pub enum AnswersFault {
    /// The bytes spell no question file.
    File(QuestionFault),
    /// Operations have to follow each other in a cycle.
    Cycle,
    /// More states are reachable than may be searched.
    TooMany(TooMany),
    /// Memory ran out in the search.
    Memory,
}

impl fmt::Display for AnswersFault {
    ghost use Rattle.std.specs.Prelude.{Some};
    ghost use Rattle.answer_lines.specs.Faults.{answers_fault_display};

    ghost output = { λ e. Some (answers_fault_display e) };

    fn fmt<W: fmt::Write>(&self, f: &mut fmt::Formatter<W>) -> fmt::Result {
        match self {
            AnswersFault::File(e) => write!(f, "file {e}"),
            AnswersFault::Cycle => write!(f, "operations wait for each other in a cycle"),
            AnswersFault::TooMany(e) => write!(f, "{e}"),
            AnswersFault::Memory => write!(f, "memory"),
        }
    }
}

impl fmt::Display for TooMany {
    ghost use Rattle.std.specs.Prelude.{Some};

    ghost output = { λ e. Some (spec.too_many_display e) };

    fn fmt<W: fmt::Write>(&self, f: &mut fmt::Formatter<W>) -> fmt::Result {
        write!(
            f,
            "more than {} states: leave out process {}",
            self.most, self.last
        )?;
        write!(f, ", shorten process {}, or raise most", self.longest)
    }
}

impl TooMany {
    /// The fault that more than `most` states are reachable, given the operations of each process.
    pub(crate) fn of(most: u32, operations: &[Vec<Op>]) -> TooMany
        ensures { result ≡ spec.too_many most (lists_of operations.now) }
    {
        let mut last = 0;
        let mut longest = 0;
        let mut length = 0;
        for (p, list) in operations.iter().enumerate() {
            if !list.is_empty() {
                last = p;
            }
            if length < list.len() {
                longest = p;
                length = list.len();
            }
        }
        TooMany {
            most,
            last,
            longest,
        }
    }
}
