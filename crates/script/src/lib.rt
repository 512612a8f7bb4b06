//! Scripts: what a line says, and the lines of answers as bytes.
#![tactic(auto)]

pub mod call;
pub mod laws;
pub mod line;
pub mod look;
pub mod text;
mod verb;

pub use call::{Call, Line, Request};
pub use line::read_line;
