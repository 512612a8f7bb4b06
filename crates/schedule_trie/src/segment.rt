//! Segments of cells that branches share.

ghost use Rattle.std.specs.Prelude.{◌≡◌, ◌<◌, ◌≤◌, ◌+◌, ◌^◌, ◌++◌, ◌∷◌, [], length, take, drop, vec_capacity, None, IfOk, OnOk, OnErr, insert};
ghost use Rattle.std.specs.List.{remove};
ghost use Rattle.schedule_trie.specs.Slots.{set_step};
ghost use Rattle.branch_terms.specs.Forest.{renumbered};

use crate::note::Note;
use branch_terms::slot::Slot;
use schedule_steps::types::Step;
use std::alloc::{AllocError, Global};

/// The greatest number of cells in a segment.
pub(crate) const MOST_SLOTS: usize = 128;

/// The key of a segment: the number by which a trie finds the segment.
pub type SegKey = usize;

/// Consecutive cells of a branch, and the segment's note (a value that the trie's owner has set for
/// these cells), if it has one.
#[derive(Drop)]
pub(crate) struct Segment<T> {
    pub(crate) slots: Vec<Slot>,
    pub(crate) note: Note<T>,
}

impl<T: Drop> Segment<T> {
    /// A segment of one cell, with no note.
    pub(crate) fn new(alloc: Global, slot: Slot) -> Result<Segment<T>, AllocError>
        ensures slots { IfOk result (λ s. s.slots.items ≡ slot ∷ []) }
        ensures note { IfOk result (λ s. s.note ≡ None) }
    {
        let mut slots = Vec::new(alloc);
        slots.push(slot)?;
        Ok(Segment {
            slots,
            note: Note::none(),
        })
    }

    /// A segment of new cells, numbered from `first` on, with the steps of `slots` in order. It has
    /// no note.
    pub(crate) fn renumbered(
        alloc: Global,
        slots: &[Slot],
        first: u32,
    ) -> Result<Segment<T>, AllocError>
        requires { first + length slots.now < 2 ^ 32 }
        ensures slots { IfOk result (λ s. s.slots.items ≡ renumbered first slots.now) }
        ensures note { IfOk result (λ s. s.note ≡ None) }
    {
        let mut renumbered = Vec::with_capacity(alloc, slots.len())?;
        let mut cell = first;
        for slot in slots {
            renumbered.push(Slot {
                cell,
                step: slot.step,
            })?;
            cell += 1;
        }
        Ok(Segment {
            slots: renumbered,
            note: Note::none(),
        })
    }

    /// Adds a cell at the end, and clears the note. If memory runs out, nothing changes.
    pub(crate) fn push(&mut self, slot: Slot) -> Result<(), AllocError>
        ensures slots { OnOk result (self.new.slots.items ≡ self.old.slots.items ++ slot ∷ []) }
        ensures note { OnOk result (self.new.note ≡ None) }
        ensures err_slots { OnErr result (self.new.slots.items ≡ self.old.slots.items) }
        ensures err_note { OnErr result (self.new.note ≡ self.old.note) }
    {
        self.slots.push(slot)?;
        self.clear_note();
        Ok(())
    }

    /// Inserts a cell at an offset, and clears the note. If memory runs out, nothing changes. Uses
    /// `scratch` for copies of cells, so what was in it is lost.
    pub(crate) fn insert(
        &mut self,
        scratch: &mut Vec<Slot>,
        offset: usize,
        slot: Slot,
    ) -> Result<(), AllocError>
        requires { offset ≤ length self.old.slots.items }
        ensures slots { OnOk result (self.new.slots.items
            ≡ insert self.old.slots.items offset slot) }
        ensures note { OnOk result (self.new.note ≡ None) }
        ensures err_slots { OnErr result (self.new.slots.items ≡ self.old.slots.items) }
        ensures err_note { OnErr result (self.new.note ≡ self.old.note) }
    {
        // copying many cells out and back is cheaper than moving each of them by one
        copy_from(scratch, &self.slots, offset)?;
        self.slots.reserve(1)?;
        replace_end(&mut self.slots, offset, slot, scratch);
        self.clear_note();
        Ok(())
    }

    /// Replaces the cells, and clears the note.
    pub(crate) fn set_slots(&mut self, slots: Vec<Slot>)
        ensures slots { self.new.slots ≡ slots }
        ensures note { self.new.note ≡ None }
    {
        self.slots = slots;
        self.clear_note();
    }

    /// Replaces the step of the cell at an offset, and clears the note.
    pub(crate) fn set_step(&mut self, offset: usize, step: Step)
        requires { offset < length self.old.slots.items }
        ensures slots { self.new.slots.items ≡ set_step self.old.slots.items offset step }
        ensures note { self.new.note ≡ None }
    {
        self.slots[offset].step = step;
        self.clear_note();
    }

    /// Removes the cell at an offset, and clears the note.
    pub(crate) fn remove(&mut self, offset: usize)
        requires { offset < length self.old.slots.items }
        ensures slots { self.new.slots.items ≡ remove self.old.slots.items offset }
        ensures note { self.new.note ≡ None }
    {
        self.slots.remove(offset);
        self.clear_note();
    }

    /// Replaces the note.
    pub(crate) fn set_note(&mut self, note: Option<T>)
        ensures slots { self.new.slots ≡ self.old.slots }
        ensures note { self.new.note ≡ note }
    {
        self.note.set(note);
    }

    /// Clears the note.
    fn clear_note(&mut self)
        ensures slots { self.new.slots ≡ self.old.slots }
        ensures note { self.new.note ≡ None }
    {
        self.note.clear();
    }
}

/// Replaces what is in `scratch` by copies of the cells from `offset` to the end.
fn copy_from(scratch: &mut Vec<Slot>, slots: &[Slot], offset: usize) -> Result<(), AllocError>
    requires { offset ≤ length slots.now }
    ensures { OnOk result (scratch.new.items ≡ drop offset slots.now) }
{
    scratch.clear();
    scratch.extend_from_slice(&slots[offset..])
}

/// Replaces the cells from `offset` to the end by the cell `slot` and then `others`. Memory for
/// these has to be reserved.
fn replace_end(slots: &mut Vec<Slot>, offset: usize, slot: Slot, others: &[Slot])
    requires offset { offset ≤ length slots.old.items }
    requires room { offset + 1 + length others.now ≤ vec_capacity slots.old }
    ensures { slots.new.items ≡ take offset slots.old.items ++ slot ∷ others.now }
{
    slots.truncate(offset);
    slots.push_reserved(slot);
    slots.extend_from_slice(others).unwrap();
}
