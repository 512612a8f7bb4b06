//! The calls that settle a branch's first cells: `settle` returns all their stored runs, and
//! `settle_last` only the last one.

ghost use Rattle.std.specs.Prelude.{◌≡◌, ◌≤◌, Ok, Some, IfOk, OnOk, IfErr, length};
ghost use Rattle.std.specs.Option.{option_map};
ghost use Rattle.frames.specs.Configuration.{initial_configuration};
ghost use Rattle.schedule_trie.specs.Forest.{IsRefused, index_of, len_of, slots_in};
ghost use Rattle.schedule_trie.specs.Trie.{forest};
ghost use Rattle.cutoff.specs.Settles.{IsSettled, IsSettledLast, KeepsOrSettles};
ghost use Rattle.cutoff.specs.Charts.{look};
ghost use Rattle.cutoff.specs.Fitting.{part_of};

use super::Chart;
use crate::known::Known;
use crate::number::RunNumber;
use crate::prefix::rest_to;
use crate::runs::{Spot, runs_in};
use crate::settle_rest::{SettledLast, into_part, settle_rest};
use frames::register::Register;
use schedule_trie::name::Name;
use schedule_trie::refusal::Refusal;
use schedule_trie::trie::Trie;
use std::alloc::Global;

impl<R: Register> Chart<R> {
    /// Settles a branch's first `place` cells: replays the whole of each segment that has one of
    /// these cells and no stored run that fits, and stores the new run. Returns the run now stored
    /// in each segment that has one of these cells. All these runs fit, and each comes with how
    /// many of its steps are steps of these cells. Also returns how many steps were replayed in
    /// all. Nothing else changes.
    ///
    /// # Errors
    ///
    /// NoBranch; NoPlace if the branch has fewer than `place` cells; Memory. On an error, some of
    /// the new runs, which fit, may have been stored; nothing else changes.
    #[tactic(auto, using(crate::proofs::Refusals::refused_still, crate::proofs::Refusals::out_of_memory))]
    pub fn settle(&mut self, alloc: Global, branch: &Name, place: u32) -> Result<Spot<R>, Refusal>
        ensures ok { IfOk result
            (λ spot. IsSettled R.PartialEq.eq (R.behaviour self.old.start.register) self.old
            self.new
            branch.now place spot.runs spot.replayed) }
        ensures found { OnOk result (look (forest self.old.trie) branch.now place
            ≡ Ok (forest self.new.trie)) }
        ensures err { IfErr result (IsRefused (look (forest self.old.trie) branch.now place)) }
        ensures keeps { KeepsOrSettles R.PartialEq.eq R.behaviour self.old self.new branch.now
            place }
        ensures begins { self.old.start ≡ initial_configuration
            (R.behaviour self.old.start.register) self.old.start.register self.old.value }
        ensures start { self.new.start ≡ self.old.start }
        ensures value { self.new.value ≡ self.old.value }
    {
        let last = self.settle_last(alloc, branch, place)?;
        let Some(index) = self.trie.index(branch) else {
            unreachable!()
        };
        let keys = self.trie.keys_at(alloc, index)?;
        let runs = runs_in(alloc, &self.trie, &keys, place)?;
        Ok(Spot {
            runs,
            replayed: last.replayed,
        })
    }

    /// Settles a branch's first `place` cells, as `settle` does, without a read of the runs before
    /// the last. Returns the branch's length; the run now stored in the segment with the last of
    /// these cells, with how many of its steps are steps of these cells (`None` if `place` is 0);
    /// and how many steps were replayed in all. If the next call of `settle_last` has the same
    /// `branch` and `place`, that call visits only the segment with the last of these cells, unless
    /// an `install`, a `settle`, or an edit other than a fork of a whole branch comes in between.
    ///
    /// # Errors
    ///
    /// NoBranch; NoPlace if the branch has fewer than `place` cells; Memory. On an error, some of
    /// the new runs, which fit, may have been stored; nothing else changes.
    pub fn settle_last(
        &mut self,
        alloc: Global,
        branch: &Name,
        place: u32,
    ) -> Result<SettledLast<R>, Refusal>
        ensures ok { IfOk result
            (λ last. IsSettledLast R.PartialEq.eq (R.behaviour self.old.start.register) self.old
            self.new
            branch.now place (option_map part_of last.part) last.replayed) }
        ensures found { OnOk result (look (forest self.old.trie) branch.now place
            ≡ Ok (forest self.new.trie)) }
        ensures len { IfOk result (λ last.
            len_of (forest self.old.trie) branch.now ≡ Some last.len) }
        ensures err { IfErr result (IsRefused (look (forest self.old.trie) branch.now place)) }
        ensures keeps { KeepsOrSettles R.PartialEq.eq R.behaviour self.old self.new branch.now
            place }
        ensures begins { self.old.start ≡ initial_configuration
            (R.behaviour self.old.start.register) self.old.start.register self.old.value }
        ensures start { self.new.start ≡ self.old.start }
        ensures value { self.new.value ≡ self.old.value }
    {
        let (index, len) = branch_to(&self.trie, branch, place)?;
        if place == 0 {
            return Ok(SettledLast {
                len,
                part: None,
                replayed: 0,
            });
        }
        let Some((key, offset)) = self.trie.find_cell_with_len(index, len, place - 1) else {
            unreachable!()
        };
        let known = Known {
            mark: self.mark,
            fresh: self.fresh,
        };
        let rest = rest_to(alloc, &self.trie, &self.start, &known, key)?;
        self.mark = None;
        // stored runs will be known to fit down to each one that is stored from now on
        self.fresh = self.fresh.or(RunNumber::peek(self.next));
        let (stored, replayed) = settle_rest(
            alloc,
            &mut self.trie,
            &mut self.next,
            &self.start,
            &rest,
            key,
        )?;
        self.mark = Some(key);
        let part = into_part(stored, offset as u32 + 1);
        Ok(SettledLast {
            len,
            part,
            replayed,
        })
    }
}

/// The index of a branch, in the order the branches were made, and the branch's length, which is at
/// least `place`.
///
/// # Errors
///
/// NoBranch; NoPlace if the branch has fewer than `place` cells.
fn branch_to<T: Drop>(trie: &Trie<T>, branch: &Name, place: u32) -> Result<(usize, u32), Refusal>
    ensures index { IfOk result (λ r. index_of (forest trie.now).branches branch.now ≡ Some r.0) }
    ensures len { IfOk result (λ r. len_of (forest trie.now) branch.now ≡ Some r.1) }
    ensures long { IfOk result (λ r. r.1 ≡ length (slots_in (forest trie.now).branches r.0)) }
    ensures within { IfOk result (λ r. place ≤ r.1) }
    ensures err { IfErr result (IsRefused (look (forest trie.now) branch.now place)) }
{
    let Some(index) = trie.index(branch) else {
        return Err(Refusal::NoBranch);
    };
    let len = trie.len_at(index);
    if len < place {
        return Err(Refusal::NoPlace);
    }
    Ok((index, len))
}
