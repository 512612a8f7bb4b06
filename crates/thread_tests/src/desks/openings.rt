//! Desks as they are opened: with no steps, and with whole writes.

ghost use Rattle.std.specs.Prelude.{◌≡◌, ◌<◌, ◌≤◌, ◌*◌, true, IfOk};
ghost use Rattle.frames.specs.Configuration.{fits_step};
ghost use Rattle.frames.specs.SafeBit.{safe_behaviour};
ghost use Rattle.frames.specs.Recorded.{AllFit};
ghost use Rattle.schedule_trie.specs.Trie.{AreLimits};
ghost use Rattle.turn.specs.Shares.{every_share};
ghost use Rattle.turn.specs.Chairs.{view};
ghost use Rattle.desk.specs.Chairs.{IsChairOf};

use desk::{Chair, Desk};
use frames::safe::Safe;
use frames::types::Step;
use schedule_trie::limits::Limits;
use schedule_trie::refusal::Refusal;
use std::alloc::{AllocError, Global};

/// Limits with at most `log` calls in the log.
pub(super) fn limits(log: u32) -> Limits
    requires { (0 < log) × (log ≤ 1048576) }
    ensures { AreLimits result }
{
    Limits {
        cells: 4096,
        branches: 4,
        log,
    }
}

/// A desk with no steps, and its first chair.
pub(super) fn opened(alloc: Global, log: u32) -> Result<(Desk<Safe>, Chair<Safe>), Refusal>
    requires { (0 < log) × (log ≤ 1048576) }
    ensures { IfOk result (λ r. IsChairOf (λ _. safe_behaviour) r.0 r.1
        × ((view r.1).shares ≡ every_share)) }
{
    Desk::open(alloc, Safe, 0, limits(log), &[])
}

/// The first `count` steps of a schedule in which whole writes of 1 and of 0 alternate.
pub(super) fn writes(alloc: Global, count: u32) -> Result<Vec<Step>, AllocError>
    ensures { IfOk result (λ steps. AllFit safe_behaviour steps.items) }
{
    let mut steps = Vec::new(alloc);
    for index in 0..count {
        steps.push(write_at(index))?;
    }
    Ok(steps)
}

/// The step at an index of `writes`.
fn write_at(index: u32) -> Step
    ensures { fits_step safe_behaviour result ≡ true }
{
    match index % 6 {
        0 => Step::Write { p: 0, v: 1 },
        3 => Step::Write { p: 0, v: 0 },
        _ => Step::Go { p: 0, c: 0 },
    }
}

/// A desk with the first 1,000 steps of `writes`, and its first chair.
pub(super) fn opened_with_thousand(
    alloc: Global,
    log: u32,
) -> Result<(Desk<Safe>, Chair<Safe>), Refusal>
    requires { (0 < log) × (log ≤ 1048576) }
    ensures { IfOk result (λ r. IsChairOf (λ _. safe_behaviour) r.0 r.1
        × ((view r.1).shares ≡ every_share)) }
{
    opened_with_writes(alloc, 1000, limits(log))
}

/// A desk with the first `count` steps of `writes`, and its first chair.
pub(super) fn opened_with_writes(
    alloc: Global,
    count: u32,
    limits: Limits,
) -> Result<(Desk<Safe>, Chair<Safe>), Refusal>
    requires { AreLimits limits }
    ensures { IfOk result (λ r. IsChairOf (λ _. safe_behaviour) r.0 r.1
        × ((view r.1).shares ≡ every_share)) }
{
    let Ok(steps) = writes(alloc, count) else {
        return Err(Refusal::Memory);
    };
    Desk::open(alloc, Safe, 0, limits, &steps)
}
