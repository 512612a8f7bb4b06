//! Giving a branch new cells, which no other branch has.

ghost use Rattle.std.specs.Prelude.{◌≡◌, ◌<◌, ◌≤◌, ◌+◌, length, Ok, OnOk, IfOk, IfErr, OnErr};
ghost use Rattle.schedule_trie.specs.Edits.{Detach, IsEdited, IsUnedited};
ghost use Rattle.branch_terms.specs.Forest.{slots_in};
ghost use Rattle.schedule_trie.specs.Trie.{forest, segment_at, keys_in};
ghost use Rattle.schedule_trie.specs.changes.Detaches.{AreCopies, IsDetached};

use super::Trie;
use crate::edit::Edited;
use crate::segment::Segment;
use branch_terms::name::Name;
use branch_terms::refusal::Refusal;
use std::alloc::{AllocError, Global};

impl<T: Drop> Trie<T> {
    /// Replaces each cell of a branch by a new cell with the same step, in that branch alone. The
    /// branch's new segments have no notes. The segments of other branches keep their notes.
    ///
    /// # Errors
    ///
    /// NoBranch if there is no such branch; Full if the number of cells made would exceed its
    /// limit; Memory if memory runs out. After an error nothing has changed.
    pub fn detach(&mut self, alloc: Global, branch: &Name) -> Edited
        ensures ok { OnOk result (IsEdited self.old self.new (Detach branch.now)) }
        ensures err { IfErr result (IsUnedited self.old self.new (Detach branch.now)) }
    {
        let Some(index) = self.index(branch) else {
            return Err(Refusal::NoBranch);
        };
        if self.cache_len(index) > self.limits.cells - self.made {
            return Err(Refusal::Full);
        }
        self.detach_at(alloc, index)?;
        Ok(())
    }

    /// Replaces the cells of the branch at an index by new cells. The limit of cells has to allow
    /// them.
    fn detach_at(&mut self, alloc: Global, index: usize) -> Result<(), AllocError>
        requires index { index < length self.old.branches }
        requires room { self.old.made + length (slots_in (forest self.old).branches index)
            ≤ self.old.limits.cells }
        ensures ok { OnOk result (IsDetached self.old self.new index) }
        ensures err { OnErr result (self.new ≡ self.old) }
    {
        let len = self.len_at(index);
        let copies = self.copies(alloc, index)?;
        self.segments.exchange_path(index, copies)?;
        self.segments.lemma_invariant();
        self.made += len;
        Ok(())
    }

    /// Copies of the segments of the branch at an index. The copies have new cells, numbered from
    /// `made` on, and no notes.
    fn copies(&self, alloc: Global, index: usize) -> Result<Vec<Segment<T>>, AllocError>
        requires { self.now.made + length (slots_in (forest self.now).branches index)
            ≤ self.now.limits.cells }
        ensures { IfOk result
            (λ copies. AreCopies (segment_at self.now.segments) self.now.made
            (keys_in self.now.branches index) copies.items) }
    {
        let keys = self.keys_at(alloc, index)?;
        let mut copies = Vec::with_capacity(alloc, keys.len())?;
        let mut cell = self.made;
        for key in &keys {
            let slots = self.slots_at(*key);
            copies.push(Segment::renumbered(alloc, slots, cell)?)?;
            cell += slots.len() as u32;
        }
        Ok(copies)
    }
}
