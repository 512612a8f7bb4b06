//! How deep layers can be nested.

use frames::register::Register;
use frames::safe::Safe;
use layers::fit::LayerError;
use reader_copies::{Copies, NewCopies};
use std::test::Fail;

/// Copies for one reader, each of copies for one reader.
fn copied_twice<S: Register>(below: S) -> Result<Copies<Copies<S>>, LayerError> {
    let once = Copies::new(below, 1)?;
    Copies::new(once, 1)
}

/// Whether a register has the greatest depth, and a layer over it is refused.
fn is_deepest<S: Register>(below: S) -> bool {
    below.depth() == 8 && Copies::new(below, 1).err() == Some(LayerError::BadSize)
}

/// Whether a register is the deepest once two more layers are over it. Each such function names
/// only two levels, since what the prover states of a type doubles with each level.
fn is_deepest_after_2<S: Register>(below: S) -> Result<bool, LayerError> {
    Ok(is_deepest(copied_twice(below)?))
}

/// Whether a register is the deepest once four more layers are over it.
fn is_deepest_after_4<S: Register>(below: S) -> Result<bool, LayerError> {
    is_deepest_after_2(copied_twice(below)?)
}

/// Whether a register is the deepest once six more layers are over it.
fn is_deepest_after_6<S: Register>(below: S) -> Result<bool, LayerError> {
    is_deepest_after_4(copied_twice(below)?)
}

#[test]
fn depth_8_is_reached_and_9_refused(rt: HostRuntime) -> Result<(), Fail> {
    assert!(rt; is_deepest_after_6(Copies::new(Safe, 1)?)?);
    Ok(())
}
