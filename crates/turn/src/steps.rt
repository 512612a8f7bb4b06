//! The eight kinds of atomic step that a chair takes on a turn's table: grab, take, publish, put,
//! release, news, split and join.

ghost use Rattle.std.specs.Prelude.{◌≡◌, ℕ, ◌++◌, true, false, [], ◌∷◌, Some, None, List, length};
ghost use Rattle.turn.specs.Shares.{has_share};
ghost use Rattle.turn.specs.Entries.{AtMostOne};
ghost use Rattle.turn.specs.Histories.{HoldsSome, published, released, with_news, kept, handed, joined};
ghost use Rattle.turn.specs.Rule.{Grabs, IsTurn, IsSameAccess, NewsReports};

use crate::counted::Counted;
use crate::rule::{Access, Added, Board, Given, Grab, JoinIn, News, Publish, Release, SplitOff};
use crate::shares::Shares;
use std::sync::Wait;
use std::thread;

/// Waits until the turn is free, and takes it for the chair with this access, which has then seen
/// the whole list.
pub(crate) fn grab<T: Counted, R: Wait>(rt: &R, board: &Board<T>, access: &mut Access<T>)
    requires turn { IsTurn board.now.table_id access.old }
    requires some { HoldsSome access.old.me.0 }
    ensures same { IsSameAccess access.old access.new }
    ensures grabs { Grabs T.by T.entries access.old.me access.new.me }
{
    for _ in rt.forever() {
        if board.compare_exchange::<Grab<T>>(access, 0, 0, 1) == 0 {
            return;
        }
        thread::yield_now();
    }
    unreachable!()
}

/// Takes the value out of the table's slot, for the chair that has the turn.
pub(crate) fn take<T: Counted>(board: &Board<T>, access: &mut Access<T>) -> T
    requires turn { IsTurn board.now.table_id access.old }
    requires full { (x : T) × (access.old.me.1 ≡ (0, Some x) ∷ []) }
    ensures same { IsSameAccess access.old access.new }
    ensures value { access.old.me.1 ≡ (0, Some result) ∷ [] }
    ensures empty { access.new.me ≡ (access.old.me.0, (0, None) ∷ []) }
{
    match board.exchange(access, 0, None) {
        Some(value) => value,
        None => unreachable!(),
    }
}

/// Writes the length of the value's list into the table, for the chair that has the turn. The work
/// added at most one entry, under `number`, which is a share of the chair; the entry is then a call
/// of the chair.
pub(crate) fn publish<T: Counted, N: Added<T::Entry>>(
    board: &Board<T>,
    access: &mut Access<T>,
    value: &T,
    number: u32,
)
    requires turn { IsTurn board.now.table_id access.old }
    requires holds { access.old.me.0.holds ≡ true }
    requires own { has_share access.old.me.0.shares number ≡ true }
    requires added { (T.entries value.now ≡ access.old.me.0.seen ++ N.added)
        × AtMostOne T.by number N.added }
    ensures same { IsSameAccess access.old access.new }
    ensures published { access.new.me ≡ (published access.old.me.0 N.added, access.old.me.1) }
{
    board.store::<Publish<T, N>>(access, 1, value.len());
}

/// Puts the value back into the table's slot, which is empty, for the chair that has the turn.
pub(crate) fn put<T: Counted>(board: &Board<T>, access: &mut Access<T>, value: T)
    requires turn { IsTurn board.now.table_id access.old }
    requires empty { access.old.me.1 ≡ (0, None) ∷ [] }
    requires published { T.entries value ≡ access.old.me.0.seen }
    ensures same { IsSameAccess access.old access.new }
    ensures full { access.new.me ≡ (access.old.me.0, (0, Some value) ∷ []) }
{
    let taken_out = board.exchange(access, 0, Some(value));
    let None = taken_out else { unreachable!() };
}

/// Gives the turn back. The value has to be in its slot again.
pub(crate) fn release<T: Counted>(board: &Board<T>, access: &mut Access<T>)
    requires turn { IsTurn board.now.table_id access.old }
    requires holds { access.old.me.0.holds ≡ true }
    requires full { (x : T) × (access.old.me.1 ≡ (0, Some x) ∷ [])
        × (T.entries x ≡ access.old.me.0.seen) }
    ensures same { IsSameAccess access.old access.new }
    ensures released { access.new.me ≡ (released access.old.me.0, []) }
{
    board.store::<Release<T>>(access, 0, 0);
}

/// Reads the list's length from the table, without waiting.
pub(crate) fn news<T: Counted>(board: &Board<T>, access: &mut Access<T>) -> u64
    requires turn { IsTurn board.now.table_id access.old }
    ensures same { IsSameAccess access.old access.new }
    ensures reports { NewsReports T.by T.entries access.old.me result access.new.me }
{
    board.load::<News<T>>(access, 1)
}

/// Gives a new chair the given shares of the chair with this access, and the calls made under them.
/// Returns the new chair's access.
pub(crate) fn split<T: Counted, G: Given>(
    board: &Board<T>,
    access: &mut Access<T>,
    given: &Shares,
) -> Access<T>
    requires turn { IsTurn board.now.table_id access.old }
    requires idle { access.old.me.0.holds ≡ false }
    requires given { given.now.marks ≡ G.given }
    requires own { (share : ℕ) → has_share G.given share ≡ true
        → has_share access.old.me.0.shares share ≡ true }
    ensures same { IsSameAccess access.old access.new }
    ensures kept { access.new.me ≡ (kept T.by G.given access.old.me.0, access.old.me.1) }
    ensures given { (result.table_id ≡ access.old.table_id)
        × (result.me ≡ (handed T.by G.given access.old.me.0, [])) }
{
    // for the proof: only the contract uses `given`, to name the shares
    let _ = given;
    board.split_seat::<SplitOff<T, G>>(access)
}

/// The chair with this access takes over the shares and calls of the chair with access `other`.
pub(crate) fn join<T: Counted>(board: &Board<T>, access: &mut Access<T>, other: Access<T>)
    requires turn { IsTurn board.now.table_id access.old }
    requires other { (other.table_id ≡ board.now.table_id) × (other.me.1 ≡ []) }
    requires idle { (access.old.me.0.holds ≡ false) × (other.me.0.holds ≡ false) }
    requires some { HoldsSome access.old.me.0 × HoldsSome other.me.0 }
    ensures same { IsSameAccess access.old access.new }
    ensures joined { access.new.me ≡ (joined access.old.me.0 other.me.0, access.old.me.1) }
{
    board.join_seat::<JoinIn<T>>(access, other);
}
