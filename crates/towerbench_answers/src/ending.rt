//! How the program ends.

ghost use Rattle.std.specs.Prelude.{Some};
ghost use Rattle.towerbench_answers.specs.Faults as spec;

use answer_lines::AnswersFault;
use conversation::fault::StreamFault;
use conversation::source::SourceFault;
use std::fmt;
use thiserror::Error;

/// A fault of the program: of reading its file, of writing, or of answering the question.
#[derive(Clone, Copy, Debug, PartialEq, Eq, Error)]
pub enum AnswersProgramFault {
    /// The named file can't be read or is too long, or there is no memory for it.
    Source(SourceFault),
    /// A write of the answers or the help failed, or took no bytes.
    Write,
    /// The question can't be answered, or memory ran out while the text of the answers was made.
    Answer(AnswersFault),
}

impl fmt::Display for AnswersProgramFault {
    ghost output = { λ e. Some (spec.answers_program_display e) };

    fn fmt<W: fmt::Write>(&self, f: &mut fmt::Formatter<W>) -> fmt::Result {
        match self {
            AnswersProgramFault::Source(e) => write!(f, "{e}"),
            AnswersProgramFault::Write => write!(f, "{}", StreamFault::Write),
            AnswersProgramFault::Answer(e) => write!(f, "{e}"),
        }
    }
}

/// How the program ends.
#[derive(Clone, Copy, Debug, PartialEq, Eq)]
pub enum AnswersEnding {
    /// The answers or the help were written.
    Done,
    /// The words are refused.
    Refused,
    /// The program had this fault.
    Faulted(AnswersProgramFault),
}
