//! What the program `towerbench-answers` does: it reads a question file, and writes which answers
//! are possible. The program passes its streams and the words of its command line to
//! `answers_tool`.
#![tactic(auto)]

mod ending;
mod invocation;
mod program;

pub use ending::{AnswersEnding, AnswersProgramFault};
pub use invocation::{AnswersInvocation, read_words};
pub use program::answers_tool;
