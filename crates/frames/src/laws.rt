//! Laws of every register and of its steps, in every configuration.

ghost use Rattle.std.specs.Prelude.{◌≡◌, ℕ, ◌<◌, Bool, true, false, List};
ghost use Rattle.safe_bit.specs.declared.Place.{Place};
ghost use Rattle.safe_bit.specs.Memory.{Memory};
ghost use Rattle.safe_bit.specs.Parts.{LiesIn, part, with_part};
ghost use Rattle.schedule_steps.specs.declared.types.Op.{Op};
ghost use Rattle.frames.specs.Others.{LeavesOthers};
ghost use Rattle.schedule_steps.specs.declared.types.Step.{Step};
ghost use Rattle.frames.specs.Configuration.{Configuration, fits_step, is_enabled, is_stopped, stepped, replayed};
ghost use Rattle.frames.specs.StoredConfiguration.{IsConfiguration};
ghost use Rattle.frames.specs.correctness.Regularity.{IsAtomic, IsRegular, IsSafe, NeverStray};
ghost use Rattle.frames.specs.correctness.ReportedActions.{ReportsActions};
ghost use Rattle.frames.specs.Voids.{IsVoid, StaysStopped};

use crate::register::{Behaves, Register};
use crate::safe::Safe;

/// A step that isn't enabled changes nothing, and records one event: a `Void` of its process. The
/// reason is Stopped if the process has stopped, else Busy for an invocation and Idle for a bit
/// action.
pub fn void_unless_enabled<R: Register>(register: &R)
    ensures { (c : Configuration R R.Pending) (s : Step) → is_enabled c s ≡ false
        → IsVoid (R.behaviour register.now) c s }
{}

/// A process that has stopped is still stopped after any later steps, and then has the same
/// operation pending as before those steps, or none if it had none.
pub fn stopped_for_good<R: Register>(register: &R)
    ensures { (p : ℕ) (c : Configuration R R.Pending) (steps : List Step) → is_stopped p c ≡ true
        → StaysStopped p c (replayed (R.behaviour register.now) c steps) }
{}

/// A fitting step keeps `IsConfiguration`: afterwards the memory is again one that the register can
/// have, and each process is idle or at a point that it can reach.
pub fn step_keeps<R: Register>(register: &R)
    ensures { (c : Configuration R R.Pending) (s : Step)
        → IsConfiguration (R.behaviour register.now) (R.Holds register.now) (R.Reaches register.now)
        c
        → fits_step (R.behaviour register.now) s ≡ true
        → IsConfiguration (R.behaviour register.now) (R.Holds register.now) (R.Reaches register.now)
        (stepped (R.behaviour register.now) c s) }
{}

/// `init`, `begin` and `go` change only the register's own part of memory: every part that doesn't
/// overlap it stays as it was.
pub fn leaves_others<R: Register>(register: &R)
    ensures init { (at : Place) (m : Memory) (value : ℕ)
        → LiesIn at (R.behaviour register.now).size m
        → value < (R.behaviour register.now).values
        → LeavesOthers at (R.behaviour register.now).size m (with_part at
        ((R.behaviour register.now).initial value) m) }
    ensures begin { (at : Place) (m : Memory) (who : ℕ) (o : Op)
        → LiesIn at (R.behaviour register.now).size m → R.Holds register.now
        (part at (R.behaviour register.now).size m) → (R.behaviour register.now).suits who o ≡ true
        → LeavesOthers at (R.behaviour register.now).size m (with_part at
        ((R.behaviour register.now).begins who o (part at (R.behaviour register.now).size m)).memory
        m) }
    ensures go { (at : Place) (m : Memory) (who : ℕ) (o : Op) (p : R.Pending) (choice : Bool)
        → LiesIn at (R.behaviour register.now).size m → R.Holds register.now
        (part at (R.behaviour register.now).size m) → R.Reaches register.now who o p
        → LeavesOthers at (R.behaviour register.now).size m (with_part at
        ((R.behaviour register.now).goes p choice
        (part at (R.behaviour register.now).size m)).memory m) }
{}

/// The register of one safe bit is safe: no operation is refused, and a returned read that overlaps
/// no write gives the value of the last write before it (or the initial value, if there is none).
pub fn safe(register: &Safe)
    ensures { IsSafe (⟦<Safe as Behaves>⟧.behaviour register.now) }
{}

/// The register of one safe bit reports its actions: an invocation changes no cell; the next action
/// that it reports of a pending operation is what the operation's next step does to the cells; and
/// the step reports a choice exactly if that action ends a hit read.
pub fn reports_actions(register: &Safe)
    ensures { ReportsActions (⟦<Safe as Behaves>⟧.behaviour register.now)
        (⟦<Safe as Register>⟧.Holds register.now) (⟦<Safe as Register>⟧.Reaches register.now) }
{}

/// If a register is regular or atomic, none of its returned reads is stray: each gives the value of
/// the last write that returned before the read was invoked (or the initial value, if none did), or
/// of a write that overlaps the read.
pub fn never_stray<R: Register>(register: &R)
    ensures regular { IsRegular (R.behaviour register.now) → NeverStray (R.behaviour register.now) }
    ensures atomic { IsAtomic (R.behaviour register.now) → NeverStray (R.behaviour register.now) }
{}
