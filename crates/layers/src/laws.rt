//! A law of every layer: it reports its actions, if the register below does.

ghost use Rattle.frames.specs.correctness.ReportedActions.{ReportsActions};

use crate::construction::Construction;
use crate::layered::Layered;
use frames::register::{Behaves, Register};

/// Does nothing. Its contract states a law: a layer over a register that reports its actions does
/// so too. No invocation changes a cell; the next action that the layer reports of a pending
/// operation is what the operation's next step does to the cells; and the step reports a choice
/// exactly if that action ends a hit read.
pub fn reports_actions<L: Construction, S: Register>(register: &Layered<L, S>)
    requires { ReportsActions (S.behaviour register.now.below) (S.Holds register.now.below)
        (S.Reaches register.now.below) }
    ensures { ReportsActions (⟦<Layered<L, S> as Behaves>⟧.behaviour register.now)
        (⟦<Layered<L, S> as Register>⟧.Holds register.now)
        (⟦<Layered<L, S> as Register>⟧.Reaches register.now) }
{}
