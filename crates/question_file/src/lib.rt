//! Question files: a tower, the operations that its processes make, and how they may run, as text.
//!
//! A file is lines of bytes 0x20 to 0x7E, each ended by a line feed. A line that is empty or begins
//! with `#` says nothing. The first other line is a tower, as in a tower file. Words and numbers
//! are those of a tower file too. Each further line is one of
//!
//! - `process P OP..`: process P makes these operations, at least one, in this order; each is `w V`
//!   or `r`, and fits the process. A process has at most one such line.
//! - `after P I Q J`: operation I of process P is invoked only after operation J of process Q has
//!   ended. Both operations are those of lines above; they are counted from 0.
//! - `stop P`: process P may stop for good. At most one line for each process.
//! - `most N`: at most N states are searched, 1 to 2^24. At most one line.
//!
//! [`parse_question`] reports the first line with a fault.
#![tactic(auto)]

mod beginning;
mod fault;
mod file;
mod line;
mod reading;

pub use fault::{QuestionFault, QuestionFaultKind};
pub use file::{DEFAULT_MOST_STATES, QuestionFile};
pub use reading::parse_question;
