//! Inserting a new cell at a place of a branch.

ghost use Rattle.std.specs.Prelude.{◌≡◌, ◌<◌, ◌≤◌, ◌++◌, length, Ok, OnOk, IfOk, IfErr, OnErr};
ghost use Rattle.std.specs.List.{insert as inserted_at};
ghost use Rattle.schedule_trie.specs.Edits.{Insert, IsEdited, IsUnedited};
ghost use Rattle.branch_terms.specs.Forest.{slots_in};
ghost use Rattle.schedule_trie.specs.declared.segment.TheConstants.{MOST_SLOTS};
ghost use Rattle.schedule_trie.specs.Trie.{forest, segment_at, slots_of, IsPutBefore, IsInserted};

use super::Trie;
use crate::edit::Edited;
use crate::note::Note;
use crate::segment::{MOST_SLOTS, SegKey, Segment};
use branch_terms::name::Name;
use branch_terms::refusal::Refusal;
use branch_terms::slot::Slot;
use schedule_steps::types::Step;
use std::alloc::{AllocError, Global};

/// When an insert cuts a full segment in two, the first part gets this many of the old cells.
const UPPER_SLOTS: usize = 64;

impl<T: Drop> Trie<T> {
    /// Inserts a new cell before the cell at a place of a branch, in each branch that has that
    /// cell. If the place is the branch's length, adds the cell at the end of this branch alone.
    /// Only the segment that gets the cell, or is cut for it, loses its note.
    ///
    /// # Errors
    ///
    /// The first that holds: NoBranch if there is no such branch; NoPlace if `place` is greater
    /// than the branch's length; Full if the number of cells made is at its limit; Memory if memory
    /// runs out. After an error nothing has changed.
    pub fn insert(&mut self, alloc: Global, branch: &Name, place: u32, step: Step) -> Edited
        ensures ok { OnOk result (IsEdited self.old self.new (Insert branch.now place step)) }
        ensures err { IfErr result (IsUnedited self.old self.new (Insert branch.now place step)) }
    {
        let Some(index) = self.index(branch) else {
            return Err(Refusal::NoBranch);
        };
        let len = self.cache_len(index);
        if len < place {
            return Err(Refusal::NoPlace);
        }
        if self.limits.cells <= self.made {
            return Err(Refusal::Full);
        }
        self.insert_at(alloc, index, place, step)?;
        self.set_cached_len(index, len + 1);
        Ok(())
    }

    /// Puts a new cell at a place of the branch at an index.
    fn insert_at(
        &mut self,
        alloc: Global,
        index: usize,
        place: u32,
        step: Step,
    ) -> Result<(), AllocError>
        requires index { index < length self.old.branches }
        requires place { place ≤ length (slots_in (forest self.old).branches index) }
        requires room { self.old.made < self.old.limits.cells }
        ensures ok { OnOk result (IsInserted self.old self.new index place step) }
        ensures err { OnErr result (self.new ≡ self.old) }
    {
        self.lemma_invariant();
        match self.find_cell(index, place) {
            Some((key, offset)) => self.put_before(alloc, key, offset, step),
            None => self.push_last(alloc, index, step),
        }
    }

    /// Inserts a new cell before the cell at an offset of a segment. A full segment is cut in two.
    fn put_before(
        &mut self,
        alloc: Global,
        key: SegKey,
        offset: usize,
        step: Step,
    ) -> Result<(), AllocError>
        requires offset { offset < length (slots_of (segment_at self.old.segments key)) }
        requires room { self.old.made < self.old.limits.cells }
        ensures ok { OnOk result (IsPutBefore self.old self.new key offset step) }
        ensures err { OnErr result (self.new ≡ self.old) }
    {
        if self.slots_at(key).len() < MOST_SLOTS {
            return self.insert_within(key, offset, step);
        }
        let slot = Slot {
            cell: self.made,
            step,
        };
        let (above, below) = parts_with(alloc, self.slots_at(key), offset, slot)?;
        let above = Segment {
            slots: above,
            note: Note::none(),
        };
        self.segments.divide(key, above)?;
        self.segments.item_mut(key).set_slots(below);
        self.branches.forget_lengths();
        self.made += 1;
        Ok(())
    }

    /// Inserts a new cell before the cell at an offset of a segment that isn't full.
    fn insert_within(&mut self, key: SegKey, offset: usize, step: Step) -> Result<(), AllocError>
        requires offset { offset < length (slots_of (segment_at self.old.segments key)) }
        requires few { length (slots_of (segment_at self.old.segments key)) < MOST_SLOTS }
        requires room { self.old.made < self.old.limits.cells }
        ensures ok { OnOk result (IsPutBefore self.old self.new key offset step) }
        ensures err { OnErr result (self.new ≡ self.old) }
    {
        let slot = Slot {
            cell: self.made,
            step,
        };
        let segment = self.segments.item_mut(key);
        segment.insert(&mut self.scratch, offset, slot)?;
        self.branches.forget_lengths();
        self.made += 1;
        Ok(())
    }
}

/// The cells of a full segment in two parts, with a new cell at `offset`. The first part has the
/// segment's first 64 cells, and also the new cell if `offset` is below 64.
fn parts_with(
    alloc: Global,
    slots: &[Slot],
    offset: usize,
    slot: Slot,
) -> Result<(Vec<Slot>, Vec<Slot>), AllocError>
    requires offset { offset < length slots.now }
    requires full { 128 ≤ length slots.now }
    ensures parts { IfOk result (λ r. r.0.items ++ r.1.items ≡ inserted_at slots.now offset slot) }
    ensures least { IfOk result (λ r. 64 ≤ length r.0.items) }
    ensures most { IfOk result (λ r. length r.0.items ≤ 65) }
{
    // slices of a known length are copied faster
    let (front, back) = (&slots[..UPPER_SLOTS], &slots[UPPER_SLOTS..]);
    if offset < UPPER_SLOTS {
        let above = with_slot(alloc, front, offset, slot)?;
        return Ok((above, Vec::from_slice(alloc, back)?));
    }
    let above = Vec::from_slice(alloc, front)?;
    Ok((above, with_slot(alloc, back, offset - UPPER_SLOTS, slot)?))
}

/// These cells with a new one at `offset`, in a vector with no room for more.
fn with_slot(
    alloc: Global,
    slots: &[Slot],
    offset: usize,
    slot: Slot,
) -> Result<Vec<Slot>, AllocError>
    requires { offset < length slots.now }
    ensures { IfOk result (λ r. r.items ≡ inserted_at slots.now offset slot) }
{
    let mut all = Vec::with_capacity(alloc, slots.len() + 1)?;
    all.extend_from_slice(slots)?;
    all.insert(offset, slot)?;
    Ok(all)
}
