//! Forks: adding a branch that shares the first cells of another branch.

ghost use Rattle.std.specs.Prelude.{ℕ, ◌≡◌, ◌+◌, ◌<◌, ◌≤◌, ◌++◌, ◌∷◌, List, true, length, nat_eq, take, drop, None, Ok, OnOk, OnErr, IfErr, IfOk};
ghost use Rattle.std.specs.Cmp.Lexicographic.{pointwise};
ghost use Rattle.indexmap.specs.IndexMap.{insert_entry};
ghost use Rattle.schedule_trie.specs.Edits.{Fork, IsEdited, IsUnedited};
ghost use Rattle.branch_terms.specs.Forest.{index_of, slots_in};
ghost use Rattle.branch_terms.specs.Limbs.{is_name};
ghost use Rattle.schedule_trie.specs.Trie.{forest, has, keys_in, line, segment_at, slots_of};
ghost use Rattle.schedule_trie.specs.Climbs.{keys_to, HasClimbedTo};
ghost use Rattle.schedule_trie.specs.changes.Forks.{IsBranchForked, IsForkedWhole, CutsNoneAtEnd};

use super::Trie;
use crate::branch_list::BranchList;
use crate::edit::Edited;
use crate::note::Note;
use crate::segment::{SegKey, Segment};
use branch_terms::name::Name;
use branch_terms::refusal::Refusal;
use branch_terms::slot::Slot;
use std::alloc::{AllocError, Global};

impl<T: Drop> Trie<T> {
    /// Adds a branch, `name`, at the end of the list of branches. The new branch shares the first
    /// `place` cells of `branch`. If these end inside a segment, the segment is cut there and loses
    /// its note; no other note is lost. If these are all cells of `branch`, the new branch has the
    /// same segments as `branch`, and no segment changes.
    ///
    /// # Errors
    ///
    /// The first that holds: NoBranch if no branch is named `branch`; NameTaken if one is named
    /// `name`; BadName if `name` isn't a lower-case letter, followed by lower-case letters or
    /// digits; NoPlace if `place` is greater than the length of `branch`; TooManyBranches if the
    /// number of branches is at its limit; Memory if memory runs out. After an error nothing has
    /// changed.
    pub fn fork(&mut self, alloc: Global, branch: &Name, place: u32, name: Name) -> Edited
        ensures ok { OnOk result (IsEdited self.old self.new (Fork branch.now place name)) }
        ensures end { OnOk result (CutsNoneAtEnd self.old self.new branch.now place name) }
        ensures err { IfErr result (IsUnedited self.old self.new (Fork branch.now place name)) }
    {
        let Some(index) = self.index(branch) else {
            return Err(Refusal::NoBranch);
        };
        if self.index(&name).is_some() {
            return Err(Refusal::NameTaken);
        }
        prove!(name.as_bytes().len() <= 16);
        if !name.is_well_formed() {
            return Err(Refusal::BadName);
        }
        if self.cache_len(index) < place {
            return Err(Refusal::NoPlace);
        }
        let count = self.branches();
        if count >= self.limits.branches {
            return Err(Refusal::TooManyBranches);
        }
        self.fork_at(alloc, index, place, name)?;
        self.set_cached_len(count as usize, place);
        Ok(())
    }

    /// Adds a branch, `name`, at the end of the list of branches. It shares the first `place` cells
    /// of the branch at `index`, which has at least that many. The caller has checked that the name
    /// is new and well-formed, and that the limits allow one more branch. If memory runs out,
    /// nothing changes.
    pub(super) fn fork_at(
        &mut self,
        alloc: Global,
        index: usize,
        place: u32,
        name: Name,
    ) -> Result<(), AllocError>
        requires place { place ≤ length (slots_in (forest self.old).branches index) }
        requires name { index_of (forest self.old).branches name ≡ None }
        requires form { is_name name ≡ true }
        requires room { length self.old.branches < self.old.limits.branches }
        ensures ok { OnOk result (IsBranchForked self.old self.new index place name) }
        ensures end { OnOk result (place ≡ length (slots_in (forest self.old).branches index)
            → IsForkedWhole self.old self.new index name) }
        ensures err { OnErr result (self.new ≡ self.old) }
    {
        self.lemma_invariant();
        if place == 0 {
            return self.fork_after(index, None, name);
        }
        let Some((key, offset)) = self.find_cell(index, place - 1) else {
            unreachable!();
        };
        let count = offset + 1;
        if count == self.slots_at(key).len() {
            self.fork_after(index, Some(key), name)
        } else {
            self.fork_within(alloc, index, key, count, name)
        }
    }

    /// Adds a branch, `name`, at the end of the list. It shares the segments of the branch at an
    /// index down to `last`, or no segment if `last` is `None`. No branch has this name yet.
    fn fork_after(
        &mut self,
        index: usize,
        last: Option<SegKey>,
        name: Name,
    ) -> Result<(), AllocError>
        requires last { HasClimbedTo (keys_in self.old.branches index) last }
        requires name { index_of (forest self.old).branches name ≡ None }
        requires form { is_name name ≡ true }
        requires room { length self.old.branches < self.old.limits.branches }
        ensures ok { OnOk result (IsBranchForked self.old self.new index
            (length (line (segment_at self.old.segments)
            (keys_to (keys_in self.old.branches index) last))) name) }
        ensures end { OnOk result
            (keys_to (keys_in self.old.branches index) last ≡ keys_in self.old.branches index
            → IsForkedWhole self.old self.new index name) }
        ensures err { OnErr result (self.new ≡ self.old) }
    {
        self.branches.reserve(1)?;
        self.segments.fork(last)?;
        insert_reserved(&mut self.branches, name);
        Ok(())
    }

    /// Adds a branch, `name`, at the end of the list. It shares the cells of the branch at an index
    /// down to the `count`-th cell of the segment `key`. The segment is cut after that cell. No
    /// branch has this name yet.
    fn fork_within(
        &mut self,
        alloc: Global,
        index: usize,
        key: SegKey,
        count: usize,
        name: Name,
    ) -> Result<(), AllocError>
        requires key { has key (keys_in self.old.branches index) ≡ true }
        requires some { 0 < count }
        requires inside { count < length (slots_of (segment_at self.old.segments key)) }
        requires name { index_of (forest self.old).branches name ≡ None }
        requires form { is_name name ≡ true }
        requires room { length self.old.branches < self.old.limits.branches }
        ensures ok { (front back : List ℕ) → keys_in self.old.branches index ≡ front ++ key ∷ back
            → OnOk result (IsBranchForked self.old self.new index
            (length (line (segment_at self.old.segments) front) + count) name) }
        ensures err { OnErr result (self.new ≡ self.old) }
    {
        let (above, below) = parts_at(alloc, self.slots_at(key), count)?;
        let above = Segment {
            slots: above,
            note: Note::none(),
        };
        self.branches.reserve(1)?;
        self.segments.fork_above(key, above)?;
        self.segments.item_mut(key).set_slots(below);
        insert_reserved(&mut self.branches, name);
        Ok(())
    }
}

/// Copies of the cells in two parts: the first `count` cells, and the rest.
fn parts_at(
    alloc: Global,
    slots: &[Slot],
    count: usize,
) -> Result<(Vec<Slot>, Vec<Slot>), AllocError>
    requires { count ≤ length slots.now }
    ensures first { IfOk result (λ r. r.0.items ≡ take count slots.now) }
    ensures rest { IfOk result (λ r. r.1.items ≡ drop count slots.now) }
{
    let above = Vec::from_slice(alloc, &slots[..count])?;
    let below = Vec::from_slice(alloc, &slots[count..])?;
    Ok((above, below))
}

/// Adds a branch, with no cached length, to a list in which memory is reserved for it.
fn insert_reserved(branches: &mut BranchList, name: Name)
    requires { 0 < branches.old.spare }
    ensures { branches.new.entries ≡ insert_entry (pointwise nat_eq) branches.old.entries name
        None }
{
    branches.insert(name).unwrap();
}
