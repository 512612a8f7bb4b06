//! Registers, and steps that fit the tests' registers: each is written by process 0 and read by
//! process 1.

mod configurations;
mod each_layer;
mod laws;
mod stores;
pub(crate) mod switch;

use frames::Step;

/// A write of 1 by process 0.
pub(crate) const WRITE: Step = Step::Write { p: 0, v: 1 };

/// A read by process 1.
pub(crate) const READ: Step = Step::Read { p: 1 };

/// The reader's next bit action, with choice 0.
pub(crate) const GO: Step = Step::Go { p: 1, c: 0 };
