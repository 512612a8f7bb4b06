//! The trie: segments that branches share. On a branch, a segment is above those that follow it.

ghost use Rattle.std.specs.Prelude.{ℕ, List, ◌∷◌, ◌<◌, ◌≤◌, length, IfSome, IfNone, Ok, Err, OnOk, IfErr, OnErr, IfOk, IsSome, true, false, [], Some, None, map, slice_get, ◌++◌, ◌≡◌};
ghost use Rattle.std.specs.Option.{option_map, option_copied};
ghost use Rattle.schedule_trie.specs.Climbs.{last_of};
ghost use Rattle.std.specs.List.{position};
ghost use Rattle.branch_terms.specs.Forest.{path_of, step_of, cell_on_branch, place_of, is_cell, opened, opening_forest, lone_branch, IsRefused, index_of, slots_in, name_in, len_of, AreNamedApart, IsForest};
ghost use Rattle.branch_terms.specs.Limbs.{is_name, HaveNames};
ghost use Rattle.schedule_trie.specs.Trie.{IsBlank, IsNoted, IsWhole, above_of, before_key, keys_by, query_refusal, note_of, AreLimits, has, IsOwnEnd, IsPushed, LackedByOthers, forest, IsCut, segment_at, slots_of, keys_in, line, SpotHasCellAt};
ghost use Rattle.branch_terms.specs.declared.limits.TheConstants.{MOST_CELLS_MADE};

mod climb;
mod detach;
mod drop;
mod fork;
mod insert;
mod lengths;
mod limbs;
mod load;
mod push;
mod remove;
mod replace;

use crate::branch_list::BranchList;
pub use crate::segment::SegKey;
use crate::segment::Segment;
use branch_terms::limits::Limits;
use branch_terms::name::Name;
use branch_terms::refusal::Refusal;
use branch_terms::slot::Slot;
use lineage::lineage::Lineage;
use schedule_steps::types::Step;
use std::alloc::{AllocError, Global};
use std::marker::Model;

/// Branches of a schedule that share their steps. Each branch is cut into segments of 1 to 128
/// cells, and branches share whole segments. Each segment has a key, and may have a note: a value
/// of type `T` that `set_note` sets, and that an edit of the segment clears.
#[derive(Drop)]
pub struct Trie<T> {
    segments: Lineage<Segment<T>>,
    // each branch's name, and its length if that is cached
    branches: BranchList,
    // the number of cells ever made
    made: u32,
    limits: Limits,
    // the index of the branch whose length was cached last
    last_cached: usize,
    // what an insert copies cells into; nothing reads what is left in it
    scratch: Vec<Slot>,
}

impl<T> Model for Trie<T> {
    ghost use Rattle.schedule_trie.specs.Trie.{TrieOf};
    ghost use Rattle.schedule_trie.specs.TrieFields.{trie_of, IsTrie};

    ghost Value = { TrieOf T };

    ghost view = { trie_of };

    ghost invariant = { IsTrie };
}

impl<T: Drop> Trie<T> {
    /// A trie with these limits and one branch, `main`, which has these steps, in cells numbered
    /// from 0 on. No segment has a note. The limits have to be in the ranges that `Limits` gives.
    ///
    /// # Errors
    ///
    /// Full if there are more steps than `limits.cells`; Memory if memory runs out.
    pub fn new(alloc: Global, limits: Limits, steps: &[Step]) -> Result<Trie<T>, Refusal>
        requires { AreLimits limits }
        ensures ok { IfOk result (λ t. opened limits steps.now ≡ Ok (forest t)) }
        ensures limits { IfOk result (λ t. t.limits ≡ limits) }
        ensures cut { IfOk result IsCut }
        ensures blank { IfOk result IsBlank }
        ensures err { IfErr result (IsRefused (opened limits steps.now)) }
    {
        if steps.len() > limits.cells as usize {
            return Err(Refusal::Full);
        }
        Ok(Trie::with_steps(alloc, limits, Name::main(), steps)?)
    }

    /// A trie with one branch, which has this name and these steps. There are at most
    /// `limits.cells` steps.
    fn with_steps(
        alloc: Global,
        limits: Limits,
        name: Name,
        steps: &[Step],
    ) -> Result<Trie<T>, AllocError>
        requires limits { AreLimits limits }
        requires name { is_name name ≡ true }
        requires few { length steps.now ≤ limits.cells }
        ensures forest { IfOk result (λ t. forest t ≡ lone_branch name steps.now) }
        ensures limits { IfOk result (λ t. t.limits ≡ limits) }
        ensures cut { IfOk result IsCut }
        ensures blank { IfOk result IsBlank }
    {
        let mut trie = Trie::with_empty_branch(alloc, limits, name)?;
        trie.push_all(alloc, 0, steps)?;
        trie.cache_len(0);
        Ok(trie)
    }

    /// A trie with one branch, which has this name and no cells.
    fn with_empty_branch(alloc: Global, limits: Limits, name: Name) -> Result<Trie<T>, AllocError>
        requires limits { AreLimits limits }
        requires name { is_name name ≡ true }
        ensures forest { IfOk result (λ t. forest t ≡ lone_branch name []) }
        ensures limits { IfOk result (λ t. t.limits ≡ limits) }
        ensures count { IfOk result (λ t. length t.branches ≡ 1) }
        ensures cut { IfOk result IsCut }
        ensures blank { IfOk result IsBlank }
    {
        let mut branches = BranchList::new(alloc);
        branches.insert(name)?;
        let mut segments = Lineage::new(alloc);
        segments.fork(None)?;
        let scratch = Vec::new(alloc);
        Ok(Trie {
            segments,
            branches,
            made: 0,
            limits,
            last_cached: 0,
            scratch,
        })
    }

    /// The number of cells ever made, including those that are on no branch any more. No branch has
    /// more segments than this number.
    pub fn made(&self) -> u32
        ensures made { result ≡ (forest self.now).made }
        ensures few { (i : ℕ) → length (keys_in self.now.branches i) ≤ result }
    {
        self.made
    }

    /// The number of branches, which is at least 1. No two branches have the same name.
    pub fn branches(&self) -> u32
        ensures count { result ≡ length (forest self.now).branches }
        ensures some { 0 < result }
        ensures apart { AreNamedApart (forest self.now).branches }
    {
        self.branches.len() as u32
    }

    /// Does nothing. Its contract states what holds of each trie: branches have different,
    /// well-formed names; two branches with a common cell have the same cells up to that cell; each
    /// segment has 1 to 128 cells; branches that share a segment share all segments above it; and
    /// the numbers of branches and of cells made are within the limits.
    pub fn lemma_invariant(&self)
        ensures forest { IsForest (forest self.now) }
        ensures names { HaveNames (forest self.now).branches }
        ensures whole { IsWhole self.now }
    {
        // for the proof: reading a field opens the model, so what its invariant says is known
        let _count = self.branches.len();
    }

    /// The name of the branch at `index`; `None` if there is no such branch. Branches have indices
    /// from 0, in the order in which they were made.
    pub fn name_at(&self, index: u32) -> Option<Name>
        ensures { result ≡ name_in (forest self.now).branches index }
    {
        self.branches.name(index as usize)
    }

    /// The number of cells of the branch with this name; `None` if there is no such branch.
    pub fn len(&self, branch: &Name) -> Option<u32>
        ensures { result ≡ len_of (forest self.now) branch.now }
    {
        let index = self.index(branch)?;
        Some(self.len_at(index))
    }

    /// The number of the cell at a place of a branch, whose first cell is at place 0; `None` if
    /// there is no such branch or cell.
    pub fn cell_at(&self, branch: &Name, place: u32) -> Option<u32>
        ensures { result ≡ cell_on_branch (forest self.now) branch.now place }
    {
        let index = self.index(branch)?;
        let (key, offset) = self.find_cell(index, place)?;
        let slot = self.slots_at(key).get(offset)?;
        Some(slot.cell)
    }

    /// The place at which a branch has the cell with this number (0 for its first cell); `None` if
    /// there is no such branch, or if the branch doesn't have the cell.
    pub fn place_of(&self, branch: &Name, cell: u32) -> Option<u32>
        ensures { result ≡ place_of (forest self.now) branch.now cell }
    {
        let index = self.index(branch)?;
        self.place_at(index, cell)
    }

    /// The steps of a branch, in order.
    ///
    /// # Errors
    ///
    /// NoBranch if there is no such branch; Memory if memory runs out.
    pub fn path(&self, alloc: Global, branch: &Name) -> Result<Vec<Step>, Refusal>
        ensures ok { IfOk result (λ steps. path_of (forest self.now) branch.now
            ≡ Some steps.items) }
        ensures err { IfErr result (λ e. query_refusal (path_of (forest self.now) branch.now) ≡ e) }
    {
        let Some(index) = self.index(branch) else {
            return Err(Refusal::NoBranch);
        };
        Ok(self.steps_at(alloc, index)?)
    }

    /// The steps of the branch at an index.
    fn steps_at(&self, alloc: Global, index: usize) -> Result<Vec<Step>, AllocError>
        ensures { IfOk result
            (λ steps. steps.items ≡ map step_of (slots_in (forest self.now).branches index)) }
    {
        let keys = self.keys_at(alloc, index)?;
        self.steps_of(alloc, &keys)
    }

    /// The steps of the segments with these keys, in order.
    fn steps_of(&self, alloc: Global, keys: &[SegKey]) -> Result<Vec<Step>, AllocError>
        ensures { IfOk result
            (λ steps. steps.items ≡ map step_of (line (segment_at self.now.segments) keys.now)) }
    {
        let mut steps = Vec::new(alloc);
        for key in keys {
            push_steps(&mut steps, self.slots_at(*key))?;
        }
        Ok(steps)
    }

    /// The keys of a branch's segments, in order.
    ///
    /// # Errors
    ///
    /// NoBranch if there is no such branch; Memory if memory runs out.
    pub fn segments(&self, alloc: Global, branch: &Name) -> Result<Vec<SegKey>, Refusal>
        ensures ok { IfOk result
            (λ keys. keys_by (index_of (forest self.now).branches branch.now) self.now.branches
            ≡ Some keys.items) }
        ensures err { IfErr result
            (λ e. query_refusal
            (keys_by (index_of (forest self.now).branches branch.now) self.now.branches) ≡ e) }
    {
        let Some(index) = self.index(branch) else {
            return Err(Refusal::NoBranch);
        };
        Ok(self.keys_at(alloc, index)?)
    }

    /// The key of the segment right above the segment at `key`: the same key on each branch that
    /// has this segment. `None` if the segment is the first of its branches, or if no segment has
    /// `key`.
    pub fn above(&self, key: SegKey) -> Option<SegKey>
        ensures first { result ≡ above_of self.now.branches key }
        ensures each { (i : ℕ) (front back : List ℕ)
            → keys_in self.now.branches i ≡ front ++ key ∷ back → result ≡ last_of front }
    {
        self.segments.above(key)
    }

    /// The cells of a segment, in order; `None` if no segment has the key.
    pub fn cells_of(&self, key: SegKey) -> Option<&[Slot]>
        ensures { option_map (λ slots. slots.now) result
            ≡ option_map (λ p. p.slots) (segment_at self.now.segments key) }
    {
        let segment = self.segments.item(key)?;
        Some(segment.slots.as_slice())
    }

    /// The note of a segment; `None` if the segment has no note, or if no segment has the key.
    pub fn note(&self, key: SegKey) -> Option<&T>
        ensures { option_copied result ≡ note_of (segment_at self.now.segments key) }
    {
        self.segments.item(key)?.note.get()
    }

    /// The note of the segment at `key`, `None` if it has none; and the key of the segment right
    /// above it, `None` if it is the first of its branches. Both are `None` if no segment has
    /// `key`. Same as `note` and `above`, but finds the segment only once.
    #[inline(always)]
    pub fn step_up(&self, key: SegKey) -> (Option<&T>, Option<SegKey>)
        ensures note { option_copied result.0 ≡ note_of (segment_at self.now.segments key) }
        ensures first { result.1 ≡ above_of self.now.branches key }
        ensures each { (i : ℕ) (front back : List ℕ)
            → keys_in self.now.branches i ≡ front ++ key ∷ back → result.1 ≡ last_of front }
    {
        match self.segments.step_up(key) {
            Some((segment, above)) => (segment.note.get(), above),
            None => (None, None),
        }
    }

    /// The note of the segment at `key`, `None` if it has none; and the key of the segment right
    /// above it, `None` if it is the first of its branches. There has to be a segment at `key`.
    #[inline(always)]
    pub fn step_up_from(&self, key: SegKey) -> (Option<&T>, Option<SegKey>)
        requires { IsSome (segment_at self.now.segments key) }
        ensures note { option_copied result.0 ≡ note_of (segment_at self.now.segments key) }
        ensures first { result.1 ≡ above_of self.now.branches key }
        ensures each { (i : ℕ) (front back : List ℕ)
            → keys_in self.now.branches i ≡ front ++ key ∷ back → result.1 ≡ last_of front }
    {
        let (segment, above) = self.segments.step_up_from(key);
        (segment.note.get(), above.get())
    }

    /// Sets the note of a segment, or clears it if `note` is `None`; nothing else changes. If no
    /// segment has the key, nothing changes at all. Never allocates.
    #[inline(always)]
    pub fn set_note(&mut self, key: SegKey, note: Option<T>)
        ensures { IsNoted self.old self.new key note }
    {
        if self.segments.item(key).is_none() {
            return;
        }
        self.segments.item_mut(key).set_note(note);
    }

    /// The index of the branch with this name, which is below the number of branches; `None` if
    /// there is no such branch.
    pub fn index(&self, branch: &Name) -> Option<usize>
        ensures index { result ≡ index_of (forest self.now).branches branch.now }
        ensures within { IfSome result (λ i. i < length self.now.branches) }
    {
        self.branches.get_index_of(branch)
    }

    /// The key of the last segment of the branch at an index; `None` if there is no such branch, or
    /// if the branch has no cell.
    pub fn last_at(&self, index: usize) -> Option<SegKey>
        ensures { result ≡ last_of (keys_in self.now.branches index) }
    {
        self.segments.last(index)
    }

    /// The keys of the segments of the branch at an index, in order; no keys if there is no such
    /// branch. These segments have at most as many cells in total as were ever made, and at most
    /// 2^28 cells were ever made.
    ///
    /// # Errors
    ///
    /// If memory runs out.
    pub fn keys_at(&self, alloc: Global, index: usize) -> Result<Vec<SegKey>, AllocError>
        ensures keys { IfOk result (λ keys. keys.items ≡ keys_in self.now.branches index) }
        ensures short { IfOk result
            (λ keys. length (line (segment_at self.now.segments) keys.items) ≤ self.now.made) }
        ensures made { self.now.made ≤ MOST_CELLS_MADE }
    {
        self.segments.keys(alloc, index)
    }

    /// The cells of a segment; no cells if no segment has the key.
    fn slots_at(&self, key: SegKey) -> &[Slot]
        ensures { result.now ≡ slots_of (segment_at self.now.segments key) }
    {
        match self.segments.item(key) {
            Some(segment) => segment.slots.as_slice(),
            None => &[],
        }
    }
}

/// Adds the steps of `slots` at the end of `steps`.
fn push_steps(steps: &mut Vec<Step>, slots: &[Slot]) -> Result<(), AllocError>
    ensures { OnOk result (steps.new.items ≡ steps.old.items ++ map step_of slots.now) }
{
    for slot in slots {
        steps.push(slot.step)?;
    }
    Ok(())
}
