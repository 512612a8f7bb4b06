//! Replacing the step of a cell.

ghost use Rattle.std.specs.Prelude.{◌<◌, length, Ok, Err, OnOk, IfErr};
ghost use Rattle.schedule_trie.specs.Edits.{Replace, IsEdited, IsUnedited};
ghost use Rattle.schedule_trie.specs.Trie.{segment_at, slots_of, IsStepSet};

use super::Trie;
use crate::edit::Edited;
use crate::segment::SegKey;
use branch_terms::name::Name;
use branch_terms::refusal::Refusal;
use schedule_steps::types::Step;

impl<T: Drop> Trie<T> {
    /// Replaces the step of the cell at a place of a branch, in each branch that has the cell. The
    /// cell keeps its number. Clears the note of the cell's segment, and no other note. Never
    /// allocates.
    ///
    /// # Errors
    ///
    /// NoBranch if there is no such branch; NoPlace if the branch has no cell there. After an error
    /// nothing has changed.
    pub fn replace(&mut self, branch: &Name, place: u32, step: Step) -> Edited
        ensures ok { OnOk result (IsEdited self.old self.new (Replace branch.now place step)) }
        ensures err { IfErr result (IsUnedited self.old self.new (Replace branch.now place step)) }
    {
        let Some(index) = self.index(branch) else {
            return Err(Refusal::NoBranch);
        };
        self.cache_len(index);
        let Some((key, offset)) = self.find_cell(index, place) else {
            return Err(Refusal::NoPlace);
        };
        self.set_step(key, offset, step);
        Ok(())
    }

    /// Replaces the step of the cell at an offset of a segment, and clears the segment's note.
    fn set_step(&mut self, key: SegKey, offset: usize, step: Step)
        requires { offset < length (slots_of (segment_at self.old.segments key)) }
        ensures { IsStepSet self.old self.new key offset step }
    {
        self.segments.item_mut(key).set_step(offset, step);
    }
}
