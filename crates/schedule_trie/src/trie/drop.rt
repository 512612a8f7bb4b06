//! Dropping branches.

ghost use Rattle.std.specs.Prelude.{◌<◌, length, Ok, Err, OnOk, IfErr};
ghost use Rattle.schedule_trie.specs.Edits.{Drop, IsEdited, IsUnedited};
ghost use Rattle.schedule_trie.specs.changes.Drops.{IsDropped};

use super::Trie;
use crate::edit::Edited;
use branch_terms::name::Name;
use branch_terms::refusal::Refusal;

impl<T: Drop> Trie<T> {
    /// Drops a branch, and the segments that no other branch has. All other segments keep their
    /// notes. Never allocates.
    ///
    /// # Errors
    ///
    /// NoBranch if there is no such branch; LastBranch if the branch is the only one. After an
    /// error nothing has changed.
    pub fn drop_branch(&mut self, branch: &Name) -> Edited
        ensures ok { OnOk result (IsEdited self.old self.new (Drop branch.now)) }
        ensures err { IfErr result (IsUnedited self.old self.new (Drop branch.now)) }
    {
        let Some(index) = self.index(branch) else {
            return Err(Refusal::NoBranch);
        };
        if self.branches() < 2 {
            return Err(Refusal::LastBranch);
        }
        self.drop_at(index);
        Ok(())
    }

    /// Drops the branch at an index. There has to be another branch.
    fn drop_at(&mut self, index: usize)
        requires index { index < length self.old.branches }
        requires several { 1 < length self.old.branches }
        ensures { IsDropped self.old self.new index }
    {
        self.branches.shift_remove_index(index);
        self.segments.drop_path(index);
    }
}
