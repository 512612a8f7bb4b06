//! From the bytes of a question file to all answers to its question.

ghost use Rattle.std.specs.Prelude.{◌≡◌, ◌≤◌, Ok, IfOk, IfErr};
ghost use Rattle.question_file.specs.Asked.{lists_of, most_states};
ghost use Rattle.question_file.specs.Reading.{question_reading};
ghost use Rattle.question_file.specs.Parsed.{as_asked};
ghost use Rattle.answer_lines.specs.Faults.{IsFaultOf};
ghost use Rattle.answer_lines.specs.Search.{AreAnswersOn};
ghost use Rattle.answer_lines.specs.Text as spec;

use crate::fault::{AnswersFault, TooMany};
use crate::searching::search;
use crate::text::answers_text;
use answers::found::{Found, Unfound};
use question_file::{QuestionFile, parse_question};
use std::alloc::{AllocError, Global};

/// A question file, and all answers that its question can have.
#[derive(Drop)]
pub struct Answered {
    pub file: QuestionFile,
    pub found: Found,
}

impl Answered {
    /// The answers as text. `AllocError` if memory runs out.
    pub fn text(&self, alloc: Global) -> Result<Vec<u8>, AllocError>
        ensures { IfOk result (λ text. text.items
            ≡ spec.answers_text (lists_of self.now.file.question.operations.items)
            self.now.found.states self.now.found.possible.items) }
    {
        answers_text(alloc, &self.file.question.operations, &self.found)
    }
}

/// All answers to the question that the bytes spell, each once, with a shortest schedule.
pub fn answer(alloc: Global, bytes: &[u8]) -> Result<Answered, AnswersFault>
    ensures read { IfOk result (λ a. question_reading bytes.now ≡ Ok (as_asked a.file)) }
    ensures answered { IfOk result (λ a. AreAnswersOn a.file.tower a.file.question
        a.found.possible.items) }
    ensures few { IfOk result (λ a. a.found.states ≤ most_states (as_asked a.file)) }
    ensures fault { IfErr result (IsFaultOf bytes.now) }
{
    let file = match parse_question(alloc, bytes) {
        Ok(file) => file,
        Err(fault) => return Err(AnswersFault::File(fault)),
    };
    let most = file.most_states();
    match search(alloc, file.tower, &file.question, most) {
        Ok(found) => Ok(Answered { file, found }),
        Err(Unfound::Unfit) => Err(AnswersFault::Cycle),
        Err(Unfound::TooMany) => Err(AnswersFault::TooMany(TooMany::of(
            most,
            &file.question.operations,
        ))),
        Err(Unfound::Memory) => Err(AnswersFault::Memory),
    }
}
