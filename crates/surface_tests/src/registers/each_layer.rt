//! Each layer over `Switch`, and a schedule on it.
//!
//! No function names more than three levels of layers, since what the prover states of a type
//! doubles with each level.

use super::switch::Switch;
use super::{GO, READ, WRITE};
use frames::{Config, Register, Step};
use layers::LayerError;
use matrix::{Matrix, NewMatrix};
use reader_copies::{Copies, NewCopies};
use regular_bit::{NewRegularBit, RegularBit};
use safe_bit::Place;
use stamped::{NewStamped, Stamped};
use std::alloc::Global;
use std::process::Abort;
use std::test::Fail;
use unary_number::{NewUnary, Unary};

/// The writer's next bit action, with choice 0.
const WRITER_GO: Step = Step::Go { p: 0, c: 0 };

/// A regular bit, each of whose copies is a `Switch`.
fn bit() -> Result<RegularBit<Copies<Switch>>, LayerError> {
    let copies = Copies::new(Switch, 1)?;
    RegularBit::new(copies)
}

/// Whether a write of 1 returns within `write` bit actions, and a later read within `read` bit
/// actions.
fn writes_and_reads<R: Register>(
    alloc: Global,
    register: R,
    write: u32,
    read: u32,
) -> Result<bool, Fail> {
    if register.values() == 0 {
        return Ok(false);
    }
    let mut config = Config::initial(alloc, register, 0)?;
    let begun = repeat(&mut config, WRITE, 1) && repeat(&mut config, WRITER_GO, write);
    let ended = repeat(&mut config, READ, 1) && repeat(&mut config, GO, read);
    Ok(begun && ended && config.op(0).is_none() && config.op(1).is_none())
}

/// Makes a step `count` times, and returns whether it always fitted.
fn repeat<R: Register>(config: &mut Config<R>, step: Step, count: u32) -> bool {
    for _ in 0..count {
        if !config.fits(step) {
            return false;
        }
        config.step(step);
    }
    true
}

#[test]
fn copies(rt: HostRuntime) -> Result<(), Fail> {
    let register = Copies::new(Switch, 1)?;
    assert!(rt; writes_and_reads(rt.alloc(), register, 1, 1)?);
    assert_eq!(rt; Copies::new(Switch, 5).err(), Some(LayerError::BadSize));
    Ok(())
}

#[test]
fn regular_bit(rt: HostRuntime) -> Result<(), Fail> {
    assert!(rt; writes_and_reads(rt.alloc(), bit()?, 1, 1)?);
    Ok(())
}

/// Whether a unary number of these bits is written and read.
fn unary_works<S: Register>(alloc: Global, bit: S) -> Result<bool, Fail> {
    writes_and_reads(alloc, Unary::new(bit, 4)?, 2, 2)
}

#[test]
fn unary_number(rt: HostRuntime) -> Result<(), Fail> {
    assert!(rt; unary_works(rt.alloc(), bit()?)?);
    Ok(())
}

/// Whether a stamped register on a unary number of these bits is written and read.
fn stamped_works<S: Register>(alloc: Global, bit: S) -> Result<bool, Fail> {
    let number = Unary::new(bit, 4)?;
    writes_and_reads(alloc, Stamped::new(number, 2, 1)?, 2, 4)
}

#[test]
fn stamped(rt: HostRuntime) -> Result<(), Fail> {
    assert!(rt; stamped_works(rt.alloc(), bit()?)?);
    Ok(())
}

/// The number of processes and the size of a matrix. Its parts are stamped registers on unary
/// numbers made of bits like `bit`.
fn matrix_of<S: Register>(bit: S) -> Result<(u32, Place), LayerError> {
    let number = Unary::new(bit, 16)?;
    let part = Stamped::new(number, 8, 1)?;
    let register = Matrix::new(part, 2, 2, 1)?;
    Ok((register.processes(), register.size()))
}

#[test]
fn matrix(rt: HostRuntime) -> Result<(), Fail> {
    let (processes, size) = matrix_of(bit()?)?;
    assert_eq!(rt; processes, 2);
    assert_eq!(rt; (size.cell, size.word), (64, 72));
    Ok(())
}
