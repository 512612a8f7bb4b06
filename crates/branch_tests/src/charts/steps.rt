//! Steps of a safe bit that the tests of charts share, and the limits of their charts.

ghost use Rattle.std.specs.Prelude.{◌≡◌, true, IfOk};
ghost use Rattle.frames.specs.Configuration.{fits_step};
ghost use Rattle.frames.specs.SafeBit.{safe_behaviour};
ghost use Rattle.frames.specs.Recorded.{AllFit};
ghost use Rattle.schedule_trie.specs.Trie.{AreLimits};

use frames::types::Step;
use schedule_trie::limits::Limits;
use std::alloc::{AllocError, Global};

/// A step of a safe bit.
#[derive(Clone, Copy)]
pub(super) enum Kind {
    Read,
    Write0,
    Write1,
    Go0,
    Go1,
}

/// The step of a kind: process 1 reads; process 0 writes 0 or 1, or goes on with the choice 0 or 1.
pub(super) fn step_of(kind: Kind) -> Step
    ensures { fits_step safe_behaviour result ≡ true }
{
    match kind {
        Kind::Read => Step::Read { p: 1 },
        Kind::Write0 => Step::Write { p: 0, v: 0 },
        Kind::Write1 => Step::Write { p: 0, v: 1 },
        Kind::Go0 => Step::Go { p: 0, c: 0 },
        Kind::Go1 => Step::Go { p: 0, c: 1 },
    }
}

/// The limits of each chart.
pub(super) fn limits() -> Limits
    ensures { AreLimits result }
{
    Limits {
        cells: 2048,
        branches: 4,
        log: 16,
    }
}

/// The step at an index of `writes`, in which whole writes of 1 and of 0 alternate.
fn write_at(index: u32) -> Step
    ensures { fits_step safe_behaviour result ≡ true }
{
    match index % 6 {
        0 => step_of(Kind::Write1),
        3 => step_of(Kind::Write0),
        _ => step_of(Kind::Go0),
    }
}

/// 1,000 steps, in which whole writes of 1 and of 0 alternate.
pub(super) fn writes(alloc: Global) -> Result<Vec<Step>, AllocError>
    ensures { IfOk result (λ steps. AllFit safe_behaviour steps.items) }
{
    let mut steps = Vec::new(alloc);
    for index in 0..1000u32 {
        steps.push(write_at(index))?;
    }
    Ok(steps)
}
