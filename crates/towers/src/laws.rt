//! The laws of five towers (copies, regular bit, unary number, stamped register and matrix), on
//! every schedule: what their reads give, and that they report their actions. Those of the sixth,
//! the safe bit, are in `frames::laws`. A read is stray if it gives neither the value written last
//! before it (the initial value, if none was) nor the value of a write that overlaps it.

ghost use Rattle.frames.specs.correctness.Ranks.{IsAtomicForMany};
ghost use Rattle.frames.specs.correctness.Regularity.{NeverStray};
ghost use Rattle.frames.specs.correctness.Regularity.{IsAtomic, IsRegular, IsSafe};
ghost use Rattle.frames.specs.correctness.ReportedActions.{ReportsActions};
ghost use Rattle.matrix.specs.Rows.{RefusesNoRow};
ghost use Rattle.unary_number.specs.LastBit.{AlwaysFindsOne};

use crate::{CopiesTower, MatrixTower, RegularTower, StampedTower, UnaryTower};
use frames::laws::{never_stray, safe};
use frames::register::{Behaves, Register};
use matrix::Matrix;
use stamped::Stamped;

/// Copies of a safe bit are safe: a read that no write overlaps gives the value written last before
/// it. They have one writer and refuse no operation.
pub fn copies_are_safe(register: &CopiesTower)
    ensures { IsSafe (⟦<CopiesTower as Behaves>⟧.behaviour register.now) }
{
    safe(&register.below);
    reader_copies::laws::safe(register);
}

/// A regular bit over copies is regular: each returned read gives the value written last before it,
/// or that of a write that overlaps it. So none of its returned reads is stray.
pub fn regular_is_regular(register: &RegularTower)
    ensures regular { IsRegular (⟦<RegularTower as Behaves>⟧.behaviour register.now) }
    ensures never_stray { NeverStray (⟦<RegularTower as Behaves>⟧.behaviour register.now) }
{
    copies_are_safe(&register.below);
    regular_bit::laws::regular(register);
}

/// A unary number over regular bits is regular: each returned read gives the value written last
/// before it, or that of a write that overlaps it. So none of its returned reads is stray. A read
/// that scans as far as the last bit finds a 1 there.
pub fn unary_is_regular(register: &UnaryTower)
    ensures regular { IsRegular (⟦<UnaryTower as Behaves>⟧.behaviour register.now) }
    ensures never_stray { NeverStray (⟦<UnaryTower as Behaves>⟧.behaviour register.now) }
    ensures found { let layers = register.now.layers in
        AlwaysFindsOne layers.layer.values layers.layer.processes
        (⟦<RegularTower as Behaves>⟧.behaviour layers.below) }
{
    regular_is_regular(&register.layers.below);
    unary_number::laws::regular(&register.layers);
}

/// A stamped register over a unary number is atomic. It has one writer and one reader. Each
/// returned read can be assigned a write whose value it gives, so that, of two reads, the first to
/// return is never assigned the later write. The write assigned is the last that returned before
/// the read began, or one that overlaps the read. Refused writes are left out, and the initial
/// value is taken as a first write. So no returned read of the stamped register is stray.
pub fn stamped_is_atomic(register: &StampedTower)
    ensures atomic { IsAtomic (⟦<StampedTower as Behaves>⟧.behaviour register.now) }
    ensures never_stray { NeverStray (⟦<StampedTower as Behaves>⟧.behaviour register.now) }
{
    unary_is_regular(&register.below);
    stamped::laws::atomic(register);
    never_stray(register);
}

/// A matrix over stamped registers over a regular register is atomic for many processes, which is
/// linearizable: on every schedule the returned operations and some of the pending writes take
/// effect in one order. An operation that returned before another was invoked comes before it, and
/// each read gives the value of the last write before it, or the initial value. Refused operations
/// take no effect: a write at the last tag, or an operation at a process's last stamp. No operation
/// is refused while it writes its row.
pub fn matrix_over_stamped<S: Register>(register: &Matrix<Stamped<S>>)
    requires { IsRegular (S.behaviour register.now.below.below) }
    ensures atomic { IsAtomicForMany (⟦<Matrix<Stamped<S>> as Behaves>⟧.behaviour register.now) }
    ensures rows { RefusesNoRow (⟦<Matrix<Stamped<S>> as Behaves>⟧.behaviour register.now) }
{}

/// A matrix tower is atomic for many processes, and no operation is refused while it writes its
/// row, as `matrix_over_stamped` says.
pub fn matrix_is_atomic(register: &MatrixTower)
    ensures atomic { IsAtomicForMany (⟦<MatrixTower as Behaves>⟧.behaviour register.now) }
    ensures rows { RefusesNoRow (⟦<MatrixTower as Behaves>⟧.behaviour register.now) }
{
    unary_is_regular(&register.below.below);
    matrix_over_stamped(register);
}

/// Copies of a safe bit report their actions: an invocation changes no cell; the next action that
/// they report of a pending operation is what the operation's next step does to the cells; and the
/// step reports a choice exactly if that action ends a hit read.
pub fn copies_report(register: &CopiesTower)
    ensures { ReportsActions (⟦<CopiesTower as Behaves>⟧.behaviour register.now)
        (⟦<CopiesTower as Register>⟧.Holds register.now)
        (⟦<CopiesTower as Register>⟧.Reaches register.now) }
{
    frames::laws::reports_actions(&register.below);
    layers::laws::reports_actions(register);
}

/// A regular bit over copies reports its actions, as copies do.
pub fn regular_reports(register: &RegularTower)
    ensures { ReportsActions (⟦<RegularTower as Behaves>⟧.behaviour register.now)
        (⟦<RegularTower as Register>⟧.Holds register.now)
        (⟦<RegularTower as Register>⟧.Reaches register.now) }
{
    copies_report(&register.below);
    layers::laws::reports_actions(register);
}

/// A unary number over regular bits reports its actions, as copies do.
pub fn unary_reports(register: &UnaryTower)
    ensures { ReportsActions (⟦<UnaryTower as Behaves>⟧.behaviour register.now)
        (⟦<UnaryTower as Register>⟧.Holds register.now)
        (⟦<UnaryTower as Register>⟧.Reaches register.now) }
{
    regular_reports(&register.layers.below);
    layers::laws::reports_actions(&register.layers);
}

/// A stamped register over a unary number reports its actions, as copies do.
pub fn stamped_reports(register: &StampedTower)
    ensures { ReportsActions (⟦<StampedTower as Behaves>⟧.behaviour register.now)
        (⟦<StampedTower as Register>⟧.Holds register.now)
        (⟦<StampedTower as Register>⟧.Reaches register.now) }
{
    unary_reports(&register.below);
    layers::laws::reports_actions(register);
}

/// A matrix of stamped registers reports its actions, as copies do.
pub fn matrix_reports(register: &MatrixTower)
    ensures { ReportsActions (⟦<MatrixTower as Behaves>⟧.behaviour register.now)
        (⟦<MatrixTower as Register>⟧.Holds register.now)
        (⟦<MatrixTower as Register>⟧.Reaches register.now) }
{
    stamped_reports(&register.below);
    layers::laws::reports_actions(register);
}
