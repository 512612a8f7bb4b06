//! Cells, each with its step.

use schedule_steps::types::{HasStep, Step};

/// A cell: its number and its step.
#[derive(Clone, Copy, Debug, PartialEq, Eq)]
pub struct Slot {
    pub cell: u32,
    pub step: Step,
}

impl HasStep for Slot {
    ghost use Rattle.branch_terms.specs.Forest.{step_of};

    ghost step_in = { step_of };

    #[inline(always)]
    fn step(&self) -> Step {
        self.step
    }
}
