//! The answers to a question file, as text: the number of states that were searched, then each list
//! of answers with a schedule for it.
//!
//! The first line is `states N`, the second `lists N`, the number of lists of answers. For each
//! list there is an empty line; a line `answers` that has, of each process with operations, ` pP`
//! and the outcomes of the operations that it ended, or ` none`; and the steps of the schedule,
//! each a line as in a tower file. An outcome is a value, `written`, `spent-stamped` or
//! `spent-matrix`.
#![tactic(auto)]

mod asking;
mod fault;
mod searching;
mod text;

pub use asking::{Answered, answer};
pub use fault::{AnswersFault, TooMany};
pub use searching::search;
pub use text::answers_text;
