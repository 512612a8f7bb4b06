//! Operations, and the steps of a schedule.
#![tactic(auto)]

pub mod types;

pub use types::{HasStep, Op, Step};
