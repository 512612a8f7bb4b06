//! The words of a line, and how files and scripts spell numbers and steps.
//!
//! Words are separated by exactly one space, and no space is at the start or the end of a line. A
//! number is `0`, or a digit 1 to 9 followed by digits, at most 9 digits in all. A step is `w P V`
//! (process P invokes a write of V), `r P` (P invokes a read), `g P C` (P makes its next bit
//! action, with choice C), or `x P` (P stops). P, V and C may be any numbers: whether the step fits
//! a register is checked elsewhere.
#![tactic(auto)]

mod front;
pub mod laws;
pub mod lines;
pub mod number;
pub mod parts;
pub mod step;
pub mod text;

pub use lines::Lines;
pub use parts::Parts;
