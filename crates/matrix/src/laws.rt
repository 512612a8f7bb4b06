//! A law of a matrix, on every schedule: it is atomic for many processes, if the register below is
//! regular.

ghost use Rattle.frames.specs.correctness.Ranks.{IsAtomicForMany};
ghost use Rattle.frames.specs.correctness.Regularity.{IsRegular};

use crate::rules::{Matrix, MatrixRules};
use layers::prelude::*;

/// Does nothing. Its contract states a law: a matrix over a regular register is atomic for many
/// processes, which is linearizable (Herlihy and Wing 1990). So on every schedule the returned
/// operations and some of the pending writes take effect in one order: an operation that returned
/// before another was invoked comes before it, and each read gives the value of the last write
/// before it, or the initial value. Refused operations take no effect. The register below needn't
/// be atomic, since reads write what they have read to their whole row.
pub fn atomic<S: Register>(register: &Matrix<S>)
    requires { IsRegular (S.behaviour register.now.below) }
    ensures { IsAtomicForMany (⟦<Layered<MatrixRules, S> as Behaves>⟧.behaviour register.now) }
{}
