//! Tests of layers and towers that are built by calls, not read from files: which layers can be
//! built, how deep they can be nested, whether neighbours disturb each other, which registers are
//! equal, and what a refused write to a matrix leaves.

mod depth;
mod equality;
mod neighbours;
mod read_first;
mod refusals;
mod spent_row;

use checkpoints::{Replayed, replay};
use frames::config::Config;
use frames::register::Register;
use frames::types::Step;
use std::alloc::{AllocError, Global};
use std::process::Abort;

/// Replays steps from the initial value 0. Asserts that each step fits.
fn replay_from_zero<R: Register>(
    rt: &impl Abort,
    alloc: Global,
    register: R,
    steps: &[Step],
) -> Result<Replayed<R>, AllocError> {
    assert!(rt; 0 < register.values());
    let config = Config::initial(alloc, register, 0)?;
    assert!(rt; steps.iter().all(|step| config.fits(*step)));
    replay(alloc, register, 0, steps)
}
