//! The limbs of a trie: its branches as a file stores them.

ghost use Rattle.std.specs.Prelude.{◌≡◌, ◌<◌, ◌≤◌, ◌+◌, ◌^◌, ℕ, length, map, take, Some, true, IsSome, IfOk, OnOk, slice_get};
ghost use Rattle.branch_terms.specs.Forest.{name_in, step_of};
ghost use Rattle.schedule_trie.specs.Trie.{forest, has, keys_in, line, segment_at, IsWhole, Once};
ghost use Rattle.branch_terms.specs.Limbs.{FitLimits, AreLawfulLimbs, forest_of, limb_of, limbs};
ghost use Rattle.branch_terms.specs.Renumbering.{IsRenumbered};
ghost use Rattle.schedule_trie.specs.Marks.{CoversSegments, IsOwnPart, AreMarked, MarksFirst};

use super::Trie;
use crate::mark::Mark;
use crate::segment::SegKey;
use branch_terms::limb::{Limb, Steps};
use branch_terms::name::Name;
use std::alloc::{AllocError, Global};

impl<T: Drop> Trie<T> {
    /// The limbs of the trie's branches (each branch as a file stores it), in the order in which
    /// the branches were made. There is at least one. Each limb has a well-formed name that no
    /// earlier limb has, and shares only what `may_share` allows after the earlier limbs. Each
    /// `from` is below the limit of branches, and each `shared` at most the limit of cells.
    ///
    /// The limbs describe a forest that has the same names and steps as the trie's, and whose
    /// branches share cells at the same places. The numbers of the cells, and the number of cells
    /// ever made, may differ.
    ///
    /// # Errors
    ///
    /// If memory runs out.
    pub fn limbs(&self, alloc: Global) -> Result<Vec<Limb>, AllocError>
        ensures limbs { IfOk result (λ r. r.items ≡ limbs (forest self.now)) }
        ensures kept { IfOk result (λ r. IsRenumbered (forest self.now) (forest_of r.items)) }
        ensures lawful { IfOk result (λ r. AreLawfulLimbs r.items) }
        ensures some { IfOk result (λ r. 0 < length r.items) }
        ensures within { IfOk result (λ r. FitLimits self.now.limits r.items) }
    {
        self.lemma_invariant();
        let mut limbs = Vec::new(alloc);
        let mut marks = self.no_marks(alloc)?;
        for index in 0..self.branches() {
            let Some(name) = self.name_at(index) else {
                unreachable!();
            };
            limbs.push(self.limb_at(alloc, &mut marks, index, name)?)?;
        }
        Ok(limbs)
    }

    /// A list long enough for each segment's mark. No segment is marked yet.
    fn no_marks(&self, alloc: Global) -> Result<Vec<Option<Mark>>, AllocError>
        ensures { IfOk result (λ marks. MarksFirst self.now 0 marks.items) }
    {
        let mut marks = Vec::new(alloc);
        for _ in 0..self.segments.capacity() {
            marks.push(None)?;
        }
        Ok(marks)
    }

    /// The limb of the branch at `index`, whose name is `name`. Also marks this branch's segments;
    /// the segments of all earlier branches are already marked.
    fn limb_at(
        &self,
        alloc: Global,
        marks: &mut Vec<Option<Mark>>,
        index: u32,
        name: Name,
    ) -> Result<Limb, AllocError>
        requires marks { MarksFirst self.now index marks.old.items }
        requires name { name_in (forest self.now).branches index ≡ Some name }
        ensures limb { IfOk result (λ l. slice_get (limbs (forest self.now)) index ≡ Some l) }
        ensures marks { OnOk result (MarksFirst self.now (index + 1) marks.new.items) }
    {
        let (stem, own) = self.own_keys(alloc, marks, index as usize)?;
        let steps = self.steps_of(alloc, &own)?;
        self.mark_all(marks, &own, index, stem.cells);
        Ok(Limb {
            name,
            from: stem.branch,
            shared: stem.cells,
            steps: Steps::new(steps),
        })
    }

    /// The mark of a branch's last marked segment, and the keys of the segments below that segment.
    /// If no segment of the branch is marked, the mark has branch 0 and 0 cells, and the keys are
    /// all keys of the branch.
    fn own_keys(
        &self,
        alloc: Global,
        marks: &[Option<Mark>],
        index: usize,
    ) -> Result<(Mark, Vec<SegKey>), AllocError>
        requires { CoversSegments self.now marks.now }
        ensures own { IfOk result
            (λ r. IsOwnPart marks.now (keys_in self.now.branches index) r.0 r.1.items) }
        ensures whole { IsWhole self.now }
    {
        let mut own = Vec::new(alloc);
        let mut at = self.segments.last(index);
        while let Some(key) = at {
            if let Some(mark) = marks[key] {
                own.reverse();
                return Ok((mark, own));
            }
            own.push(key)?;
            at = self.segments.above(key);
        }
        own.reverse();
        let none = Mark {
            branch: 0,
            cells: 0,
        };
        Ok((none, own))
    }

    /// Marks consecutive segments of the branch at index `branch`, which has `above` cells above
    /// these segments.
    fn mark_all(&self, marks: &mut Vec<Option<Mark>>, keys: &[SegKey], branch: u32, above: u32)
        requires places { (k : ℕ) → has k keys.now ≡ true → k < length marks.old.items }
        requires once { Once keys.now }
        requires few { above + length (line (segment_at self.now.segments) keys.now) < 2 ^ 32 }
        ensures { AreMarked (segment_at self.now.segments) marks.old.items marks.new.items keys.now
            branch above }
    {
        let mut cells = above;
        for key in keys {
            cells += self.slots_at(*key).len() as u32;
            marks[*key] = Some(Mark { branch, cells });
        }
    }
}
