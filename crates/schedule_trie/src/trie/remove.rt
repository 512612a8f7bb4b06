//! Removing cells.

ghost use Rattle.std.specs.Prelude.{◌≡◌, ◌<◌, length, Ok, Err, OnOk, IfErr};
ghost use Rattle.schedule_trie.specs.Edits.{Remove, IsEdited, IsUnedited};
ghost use Rattle.schedule_trie.specs.Trie.{segment_at, slots_of, IsRemoved};

use crate::edit::Edited;
use crate::segment::SegKey;
use crate::trie::Trie;
use branch_terms::name::Name;
use branch_terms::refusal::Refusal;

impl<T: Drop> Trie<T> {
    /// Removes the cell at a place of a branch from each branch that has the cell. Clears the note
    /// of the cell's segment, and no other note. Never allocates.
    ///
    /// # Errors
    ///
    /// NoBranch if there is no such branch; NoPlace if the branch has no cell there. After an error
    /// nothing has changed.
    pub fn remove(&mut self, branch: &Name, place: u32) -> Edited
        ensures ok { OnOk result (IsEdited self.old self.new (Remove branch.now place)) }
        ensures err { IfErr result (IsUnedited self.old self.new (Remove branch.now place)) }
    {
        let Some(index) = self.index(branch) else {
            return Err(Refusal::NoBranch);
        };
        let len = self.cache_len(index);
        let Some((key, offset)) = self.find_cell(index, place) else {
            return Err(Refusal::NoPlace);
        };
        self.remove_slot(key, offset);
        self.set_cached_len(index, len - 1);
        Ok(())
    }

    /// Removes a cell from a segment. If the segment has no other cell, removes the segment from
    /// each branch.
    fn remove_slot(&mut self, key: SegKey, offset: usize)
        requires { offset < length (slots_of (segment_at self.old.segments key)) }
        ensures { IsRemoved self.old self.new key offset }
    {
        if self.slots_at(key).len() > 1 {
            self.remove_within(key, offset);
        } else {
            self.remove_segment(key);
        }
    }

    /// Removes a cell from a segment that has other cells, and clears the segment's note.
    fn remove_within(&mut self, key: SegKey, offset: usize)
        requires offset { offset < length (slots_of (segment_at self.old.segments key)) }
        requires more { 1 < length (slots_of (segment_at self.old.segments key)) }
        ensures { IsRemoved self.old self.new key offset }
    {
        self.segments.item_mut(key).remove(offset);
        self.branches.forget_lengths();
    }

    /// Removes a segment of one cell from each branch.
    fn remove_segment(&mut self, key: SegKey)
        requires { length (slots_of (segment_at self.old.segments key)) ≡ 1 }
        ensures { IsRemoved self.old self.new key 0 }
    {
        self.segments.take_out(key);
        self.branches.forget_lengths();
    }
}
