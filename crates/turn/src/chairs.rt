//! The public calls of turns and chairs, such as `with`, which works on a turn's value.

ghost use Rattle.std.specs.Prelude.{◌≡◌, ◌≢◌, ◌≤◌, ◌<◌, ℕ, All, IfOk, MatchResult, length};
ghost use Rattle.turn.specs.Shares.{HasAll, count, next_least};
ghost use Rattle.turn.specs.Histories.{Holding, IsJoined, OwnsItsCalls, first_view, with_news, kept, handed};
ghost use Rattle.turn.specs.Rule.{IsTurn, IsSameAccess};
ghost use Rattle.turn.specs.Chairs.{IsOf, view};

use crate::chair::Chair;
use crate::counted::{Counted, Work};
use crate::holding::hold;
use crate::refusal::ChairsOut;
use crate::rule::Board;
use crate::shares::Shares;
use crate::steps::{join, news, split};
use crate::turn::Turn;
use atomic_table::Table;
use std::alloc::{AllocError, Global};
use std::marker::Brand;
use std::snapshot::Snapshot;
use std::sync::Wait;

impl<T: Counted + Drop> Turn<T> {
    /// Makes a turn (a lock) around `value`. Each entry of the value's list has to have a number of
    /// at least 16, since the numbers below 16 are for chairs. The turn's first chair holds all 16
    /// shares, has made no entry, and has seen the whole list. If memory runs out, the value is
    /// dropped.
    pub fn new(alloc: Global, value: T) -> Result<(Turn<T>, Chair<T>), AllocError>
        requires { All (λ e. 16 ≤ T.by e) (T.entries value) }
        ensures chair { IfOk result (λ r. view r.1 ≡ first_view (T.entries value)) }
        ensures turn { IfOk result (λ r. IsOf r.0 r.1) }
    {
        let length = value.len();
        let about = Snapshot::of(&value);
        let mut slots = Vec::new(alloc);
        slots.push(Some(value))?;
        let Ok((table, access)) = Table::new(alloc, &[0, length], slots, &about) else {
            return Err(AllocError);
        };
        let chair = Chair {
            access,
            shares: Shares::every(),
        };
        Ok((Turn { table }, chair))
    }

    /// Waits for the turn, does the work on the value under the chair's number, gives the turn
    /// back, and returns the work's answer. `chair` has to be a chair of this turn. The list that
    /// the work finds begins with what the chair had seen, is at least as long as any length that
    /// the chair has read, and is exactly what the chair had seen if the chair has all 16 shares.
    /// Afterwards the chair has seen the list as the work left it; the entry that the work added,
    /// if any, is the chair's own. Only the work may allocate.
    pub fn with<W: Work<T>, R: Wait>(&self, rt: &R, chair: &mut Chair<T>, work: &mut W) -> W::Out
        requires { IsOf self.now chair.old }
        ensures turn { IsOf self.now chair.new }
        ensures held { Holding T.by
            (λ before after. W.relation work.old before after result work.new) (view chair.old)
            (view chair.new) }
        ensures owns { OwnsItsCalls T.by (view chair.new) }
    {
        let number = chair.shares.number() as u32;
        hold(rt, &self.table.shared, &mut chair.access, number, work)
    }

    /// Reads how long the list is now, without waiting. `chair` has to be a chair of this turn. The
    /// length is at least that of what the chair has seen, and at least any length that the chair
    /// has read before. The chair has seen no more of the list than before.
    pub fn news(&self, chair: &mut Chair<T>) -> u64
        requires { IsOf self.now chair.old }
        ensures turn { IsOf self.now chair.new }
        ensures reported { view chair.new ≡ with_news (view chair.old) result }
        ensures seen { length (view chair.old).seen ≤ result }
        ensures grows { (view chair.old).reported ≤ result }
    {
        news(&self.table.shared, &mut chair.access)
    }

    /// Makes a new chair of this turn. `chair`, which has to be a chair of this turn, gives the new
    /// chair some of its shares, and the calls made under them. `shares` says how many shares to
    /// give: at least one, and fewer than `chair` has. `chair` keeps its least share, which is its
    /// number, and gives the next least shares. Both chairs have then seen what `chair` had seen.
    pub fn split(&self, chair: &mut Chair<T>, shares: u32) -> Chair<T>
        requires turn { IsOf self.now chair.old }
        requires some { 0 < shares }
        requires fewer { shares < count (view chair.old).shares }
        ensures turn { IsOf self.now chair.new × IsOf self.now result }
        ensures kept { view chair.new ≡ kept T.by (next_least shares (view chair.old).shares)
            (view chair.old) }
        ensures given { view result ≡ handed T.by (next_least shares (view chair.old).shares)
            (view chair.old) }
        ensures owns { OwnsItsCalls T.by (view chair.new) × OwnsItsCalls T.by (view result) }
    {
        chair.give(&self.table.shared, shares)
    }

    /// `chair` takes over the shares and calls of `other`, another chair of this turn, and reads
    /// the list's length. Of the lists that the two had seen, the longer begins with the shorter;
    /// `chair` has then seen the longer.
    pub fn join(&self, chair: &mut Chair<T>, other: Chair<T>)
        requires { IsOf self.now chair.old × IsOf self.now other }
        ensures turn { IsOf self.now chair.new }
        ensures joined { IsJoined (view chair.old) (view other) (view chair.new) }
        ensures owns { OwnsItsCalls T.by (view chair.new) }
    {
        chair.take_in(&self.table.shared, other);
    }

    /// Ends the turn and returns its value, if the chair holds all 16 shares; the value's list is
    /// then exactly what the chair has seen. If the chair lacks a share, the call is refused, and
    /// the error returns the turn and the chair unchanged.
    pub fn close(self, chair: Chair<T>) -> Result<T, (ChairsOut, Turn<T>, Chair<T>)>
        requires { IsOf self chair }
        ensures { MatchResult result (λ value. HasAll (view chair).shares
            × (T.entries value ≡ (view chair).seen)) (λ r. (¬ HasAll (view chair).shares)
            × (r.1 ≡ self) × (r.2 ≡ chair)) }
    {
        if !chair.shares.is_every() {
            return Err((ChairsOut, self, chair));
        }
        Ok(chair.into_value(self))
    }
}

impl<T: Counted + Drop> Chair<T> {
    /// How many shares the chair holds.
    pub fn shares(&self) -> u32
        ensures { result ≡ count (view self.now).shares }
    {
        self.shares.count() as u32
    }

    /// Gives a new chair this number of the chair's shares, as `Turn::split` does.
    fn give(&mut self, board: &Board<T>, shares: u32) -> Chair<T>
        requires turn { IsTurn board.now.table_id self.old.access }
        requires some { 0 < shares }
        requires fewer { shares < count (view self.old).shares }
        ensures same { IsSameAccess self.old.access self.new.access }
        ensures given_access { result.access.table_id ≡ self.old.access.table_id }
        ensures kept { view self.new ≡ kept T.by (next_least shares (view self.old).shares)
            (view self.old) }
        ensures given { view result ≡ handed T.by (next_least shares (view self.old).shares)
            (view self.old) }
        ensures owns { OwnsItsCalls T.by (view self.new) × OwnsItsCalls T.by (view result) }
    {
        let given = self.shares.next_least(shares as usize);
        let left = self.shares.without(&given);
        let access = split::<T, Brand>(board, &mut self.access, &given);
        self.shares = left;
        Chair {
            access,
            shares: given,
        }
    }

    /// Takes over the shares and calls of another chair, and reads the list's length.
    fn take_in(&mut self, board: &Board<T>, other: Chair<T>)
        requires turn { IsTurn board.now.table_id self.old.access
            × IsTurn board.now.table_id other.access }
        ensures same { IsSameAccess self.old.access self.new.access }
        ensures joined { IsJoined (view self.old) (view other) (view self.new) }
        ensures owns { OwnsItsCalls T.by (view self.new) }
    {
        let together = self.shares.together(&other.shares);
        join(board, &mut self.access, other.into_access());
        news(board, &mut self.access);
        self.shares = together;
    }

    /// Ends the turn for a chair that holds all 16 shares, and returns the turn's value.
    fn into_value(self, turn: Turn<T>) -> T
        requires { IsOf turn self × HasAll (view self).shares }
        ensures { T.entries result ≡ (view self).seen }
    {
        let mut closed = turn.into_table().close_with(self.into_access());
        let value = closed.take(0);
        closed.free();
        match value {
            Some(value) => value,
            None => unreachable!(),
        }
    }
}
