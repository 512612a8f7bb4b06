//! A law of two bits, on every schedule: two safe bits are a safe register of four values.

ghost use Rattle.frames.specs.correctness.Regularity.{IsSafe};

use crate::rules::{TwoBits, TwoBitsRules};
use layers::prelude::*;

/// Does nothing. Its contract states a law: two safe bits are a safe register. So it has one
/// writer; and on every schedule it refuses no operation, and each returned read that no write
/// overlaps gives the value of the last write before it (or the initial value).
pub fn safe<S: Register>(register: &TwoBits<S>)
    requires { IsSafe (S.behaviour register.now.below) }
    ensures { IsSafe (⟦<Layered<TwoBitsRules, S> as Behaves>⟧.behaviour register.now) }
{}
