//! Steps of a register of two values, which process 0 writes and the others read.

use frames::types::Step;

/// A write of 1.
pub(crate) const WRITE: Step = Step::Write { p: 0, v: 1 };

/// The next bit action of process 0, with choice 0; `GO_1` and `GO_2` are those of processes 1 and
/// 2.
pub(crate) const GO_0: Step = Step::Go { p: 0, c: 0 };

pub(crate) const GO_1: Step = Step::Go { p: 1, c: 0 };

pub(crate) const GO_2: Step = Step::Go { p: 2, c: 0 };

/// A read by process 1; `READ_2` is by process 2.
pub(crate) const READ_1: Step = Step::Read { p: 1 };

pub(crate) const READ_2: Step = Step::Read { p: 2 };
