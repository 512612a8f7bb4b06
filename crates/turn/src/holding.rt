//! What happens from the time a chair takes the turn until it gives it back.

ghost use Rattle.std.specs.Prelude.{◌≡◌, ◌<◌, true, false, [], List, drop, length};
ghost use Rattle.turn.specs.Shares.{count, chair_number as spec_number};
ghost use Rattle.turn.specs.Histories.{Holding, OwnsItsCalls};
ghost use Rattle.turn.specs.Rule.{IsTurn, IsSameAccess};

use crate::counted::{Counted, Work};
use crate::rule::{Access, Board};
use crate::steps::{grab, publish, put, release, take};
use std::marker::Brand;
use std::sync::Wait;

/// Takes the turn for the chair with this access, which doesn't have it; does the work on the value
/// under the chair's number; writes the list's new length into the table; gives the turn back; and
/// returns the work's answer.
pub(crate) fn hold<T: Counted, W: Work<T>, R: Wait>(
    rt: &R,
    board: &Board<T>,
    access: &mut Access<T>,
    number: u32,
    work: &mut W,
) -> W::Out
    requires turn { IsTurn board.now.table_id access.old }
    requires idle { (access.old.me.1 ≡ []) × (access.old.me.0.holds ≡ false) }
    requires number { (number ≡ spec_number access.old.me.0.shares)
        × (length access.old.me.0.shares ≡ 16) × (0 < count access.old.me.0.shares) }
    ensures same { IsSameAccess access.old access.new }
    ensures idle { (access.new.me.1 ≡ []) × (access.new.me.0.holds ≡ false) }
    ensures owns { OwnsItsCalls T.by access.new.me.0 }
    ensures held { Holding T.by (λ before after. W.relation work.old before after result work.new)
        access.old.me.0 access.new.me.0 }
{
    grab(rt, board, access);
    let mut value = take(board, access);
    let answer = work.work(&mut value, number);
    publish::<T, Brand>(board, access, &value, number);
    put(board, access, value);
    release(board, access);
    answer
}
