//! What a search for answers finds, and why it may find nothing.

use crate::outcomes::Outcomes;
use frames::types::Step;

/// Possible answers, for each process the outcomes of the operations that it ends, and a shortest
/// schedule that has them.
#[derive(Drop)]
pub struct Possible {
    pub answers: Vec<Outcomes>,
    pub steps: Vec<Step>,
}

/// All answers that are possible, each once, and the number of states that were searched.
#[derive(Drop)]
pub struct Found {
    pub possible: Vec<Possible>,
    pub states: usize,
}

/// Why a search finds no answers.
#[derive(Clone, Copy, Debug, PartialEq, Eq)]
pub enum Unfound {
    /// The question doesn't fit the register.
    Unfit,
    /// More states are reachable than are allowed.
    TooMany,
    /// Memory ran out.
    Memory,
}
