//! Edits of a chart's branches. Each edit keeps the stored run of every segment that it doesn't
//! change, cut or drop. Every edit except a fork of a whole branch clears the mark, the segment
//! down to which stored runs are known to fit.

ghost use Rattle.std.specs.Prelude.{◌≡◌, ◌⊎◌, Some, None, true};
ghost use Rattle.frames.specs.Configuration.{fits_step};
ghost use Rattle.schedule_trie.specs.Forest.{len_of};
ghost use Rattle.schedule_trie.specs.Trie.{forest};
ghost use Rattle.schedule_trie.specs.Edits.{Insert, Remove, Replace, Fork, Detach, Drop};
ghost use Rattle.cutoff.specs.Edits.{Edits};

use super::Chart;
use crate::number::RunNumber;
use frames::register::Register;
use frames::types::Step;
use schedule_trie::edit::Edited;
use schedule_trie::name::Name;
use schedule_trie::trie::{SegKey, Trie};
use std::alloc::Global;

impl<R: Register> Chart<R> {
    /// Inserts a new cell with this step, which must fit the register, before the cell at `place`
    /// of a branch, in each branch that has that cell. The segment that had that cell loses its
    /// stored run. If `place` is the branch's length, the new cell goes to the end of that branch
    /// alone; if it is added to the branch's last segment, that segment loses its stored run. All
    /// other segments keep theirs.
    ///
    /// # Errors
    ///
    /// NoBranch; NoPlace if the branch is shorter than `place`; Full if the number of cells made is
    /// at its limit; Memory. On an error nothing changes.
    #[tactic(auto, using(crate::proofs::Edited::edits_from_trie))]
    pub fn insert(&mut self, alloc: Global, branch: &Name, place: u32, step: Step) -> Edited
        requires { fits_step (R.behaviour self.old.start.register) step ≡ true }
        ensures { Edits self.old self.new (Insert branch.now place step) result }
    {
        self.mark = None;
        self.fresh = RunNumber::none();
        self.trie.insert(alloc, branch, place, step)
    }

    /// Removes the cell at `place` of a branch from each branch that has that cell. Only the
    /// segment that had that cell loses its stored run. Never allocates.
    ///
    /// # Errors
    ///
    /// NoBranch; NoPlace if the branch has no cell there. On an error nothing changes.
    #[tactic(auto, using(crate::proofs::Edited::edits_from_trie))]
    pub fn remove(&mut self, branch: &Name, place: u32) -> Edited
        ensures { Edits self.old self.new (Remove branch.now place) result }
    {
        self.mark = None;
        self.fresh = RunNumber::none();
        self.trie.remove(branch, place)
    }

    /// Replaces the step of the cell at `place` of a branch by `step`, which must fit the register.
    /// Each branch that has this cell then has the new step. The cell keeps its number. Only the
    /// segment with this cell loses its stored run. Never allocates.
    ///
    /// # Errors
    ///
    /// NoBranch; NoPlace if the branch has no cell there. On an error nothing changes.
    #[tactic(auto, using(crate::proofs::Edited::edits_from_trie))]
    pub fn replace(&mut self, branch: &Name, place: u32, step: Step) -> Edited
        requires { fits_step (R.behaviour self.old.start.register) step ≡ true }
        ensures { Edits self.old self.new (Replace branch.now place step) result }
    {
        self.mark = None;
        self.fresh = RunNumber::none();
        self.trie.replace(branch, place, step)
    }

    /// Makes a new branch with the name `name`, after all others. Its only cells are the first
    /// `place` cells of `branch`, which the two branches then share. If these cells end inside a
    /// segment, that segment is cut there and loses its stored run. All other segments keep theirs.
    ///
    /// # Errors
    ///
    /// NoBranch; NameTaken; BadName if the name isn't a lower-case letter, followed by lower-case
    /// letters or digits; NoPlace if the branch is shorter than `place`; TooManyBranches; Memory.
    /// On an error nothing changes.
    #[tactic(auto, using(crate::proofs::Edited::edits_from_trie))]
    pub fn fork(&mut self, alloc: Global, branch: &Name, place: u32, name: Name) -> Edited
        ensures { Edits self.old self.new (Fork branch.now place name) result }
    {
        self.mark = mark_after_fork(&self.trie, self.mark, branch, place);
        self.fresh = RunNumber::none();
        self.trie.fork(alloc, branch, place, name)
    }

    /// Replaces a branch's cells by new cells with the same steps. No other branch has the new
    /// cells. Their segments have no stored runs; the other branches' segments keep theirs.
    ///
    /// # Errors
    ///
    /// NoBranch; Full if the number of cells made would exceed its limit; Memory. On an error
    /// nothing changes.
    #[tactic(auto, using(crate::proofs::Edited::edits_from_trie))]
    pub fn detach(&mut self, alloc: Global, branch: &Name) -> Edited
        ensures { Edits self.old self.new (Detach branch.now) result }
    {
        self.mark = None;
        self.fresh = RunNumber::none();
        self.trie.detach(alloc, branch)
    }

    /// Drops a branch, with the segments that no other branch has, and their runs. The other
    /// branches' segments keep their runs. Never allocates.
    ///
    /// # Errors
    ///
    /// NoBranch; LastBranch if it is the only one. On an error nothing changes.
    #[tactic(auto, using(crate::proofs::Edited::edits_from_trie))]
    pub fn drop_branch(&mut self, branch: &Name) -> Edited
        ensures { Edits self.old self.new (Drop branch.now) result }
    {
        self.mark = None;
        self.fresh = RunNumber::none();
        self.trie.drop_branch(branch)
    }
}

/// The mark after a fork. A fork of all cells of a branch cuts no segment, so the mark stays; any
/// other fork clears it.
fn mark_after_fork<T: Drop>(
    trie: &Trie<T>,
    mark: Option<SegKey>,
    branch: &Name,
    place: u32,
) -> Option<SegKey>
    ensures { (result ≡ None)
        ⊎ ((result ≡ mark) × (len_of (forest trie.now) branch.now ≡ Some place)) }
{
    let key = mark?;
    if trie.len(branch)? == place {
        Some(key)
    } else {
        None
    }
}
