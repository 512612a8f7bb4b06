//! The laws of the layers that are public calls: each is called on a register that meets its
//! condition.

ghost use Rattle.std.specs.Prelude.{IfOk};
ghost use Rattle.frames.specs.correctness.Regularity.{IsRegular};

use frames::{Behaves, Safe, laws};
use layers::LayerError;
use matrix::{Matrix, NewMatrix};
use reader_copies::{Copies, NewCopies};
use regular_bit::{NewRegularBit, RegularBit};
use stamped::{NewStamped, Stamped};
use std::test::Fail;
use unary_number::{NewUnary, Unary};

#[test]
fn copies_are_safe(rt: HostRuntime) -> Result<(), Fail> {
    let copies = Copies::new(Safe, 1)?;
    laws::safe(&copies.below);
    reader_copies::laws::safe(&copies);
    assert_eq!(rt; copies.below, Safe);
    Ok(())
}

/// A regular bit over a safe bit. Its law says that it is regular.
fn regular() -> Result<RegularBit<Safe>, LayerError>
    ensures { IfOk result (λ bit. IsRegular (⟦<RegularBit<Safe> as Behaves>⟧.behaviour bit)) }
{
    let bit = RegularBit::new(Safe)?;
    laws::safe(&bit.below);
    regular_bit::laws::regular(&bit);
    Ok(bit)
}

#[test]
fn regular_bit_is_regular(rt: HostRuntime) -> Result<(), Fail> {
    assert_eq!(rt; regular()?.below, Safe);
    Ok(())
}

#[test]
fn unary_number_is_regular(rt: HostRuntime) -> Result<(), Fail> {
    let bit = regular()?;
    let number = Unary::new(bit, 4)?;
    unary_number::laws::regular(&number);
    assert_eq!(rt; number.below, bit);
    Ok(())
}

#[test]
fn stamped_register_is_atomic(rt: HostRuntime) -> Result<(), Fail> {
    let bit = regular()?;
    let register = Stamped::new(bit, 2, 0)?;
    stamped::laws::atomic(&register);
    assert_eq!(rt; register.below, bit);
    Ok(())
}

#[test]
fn matrix_is_atomic_for_many(rt: HostRuntime) -> Result<(), Fail> {
    let number = Unary::new(RegularBit::new(Safe)?, 4)?;
    let register = Matrix::new(number, 2, 2, 0)?;
    laws::safe(&register.below.below.below);
    regular_bit::laws::regular(&register.below.below);
    unary_number::laws::regular(&register.below);
    matrix::laws::atomic(&register);
    assert_eq!(rt; register.below, number);
    Ok(())
}
