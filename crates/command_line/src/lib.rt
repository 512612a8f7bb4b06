//! What the words after the program's name ask for.
#![tactic(auto)]

mod invocation;
mod options;

pub use invocation::{Invocation, parse_words};
pub use options::Options;
