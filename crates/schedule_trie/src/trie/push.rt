//! Adding a new cell at the end of a branch.

ghost use Rattle.std.specs.Prelude.{◌≡◌, ◌<◌, ◌≤◌, ◌+◌, length, IfSome, OnOk, OnErr};
ghost use Rattle.schedule_trie.specs.Trie.{IsOwnEnd, IsPushed, ArePushed};

use super::Trie;
use crate::segment::{MOST_SLOTS, SegKey, Segment};
use branch_terms::slot::Slot;
use schedule_steps::types::Step;
use std::alloc::{AllocError, Global};

impl<T: Drop> Trie<T> {
    /// Adds a new cell at the end of the branch at an index, in that branch alone. The limit of
    /// cells has to allow one more. If memory runs out, nothing changes.
    pub(super) fn push_last(
        &mut self,
        alloc: Global,
        index: usize,
        step: Step,
    ) -> Result<(), AllocError>
        requires index { index < length self.old.branches }
        requires room { self.old.made < self.old.limits.cells }
        ensures ok { OnOk result (IsPushed self.old self.new index step) }
        ensures err { OnErr result (self.new ≡ self.old) }
    {
        match self.own_end(index) {
            Some(key) => self.push_within(index, key, step),
            None => self.push_segment(alloc, index, step),
        }
    }

    /// Adds new cells with these steps at the end of the branch at an index, in that branch alone.
    /// The limit of cells has to allow them. If memory runs out, some of the cells may have been
    /// added.
    pub(super) fn push_all(
        &mut self,
        alloc: Global,
        index: usize,
        steps: &[Step],
    ) -> Result<(), AllocError>
        requires index { index < length self.old.branches }
        requires room { self.old.made + length steps.now ≤ self.old.limits.cells }
        ensures { OnOk result (ArePushed self.old self.new index steps.now) }
    {
        for step in steps {
            self.push_last(alloc, index, *step)?;
        }
        Ok(())
    }

    /// Adds a new cell to the last segment of a branch. No other branch has that segment.
    fn push_within(&mut self, index: usize, key: SegKey, step: Step) -> Result<(), AllocError>
        requires index { index < length self.old.branches }
        requires end { IsOwnEnd self.old index key }
        requires room { self.old.made < self.old.limits.cells }
        ensures ok { OnOk result (IsPushed self.old self.new index step) }
        ensures err { OnErr result (self.new ≡ self.old) }
    {
        self.segments.item_mut(key).push(Slot {
            cell: self.made,
            step,
        })?;
        self.branches.set_cached_len(index, None);
        self.made += 1;
        Ok(())
    }

    /// Adds a new cell at the end of a branch, in a new segment.
    fn push_segment(&mut self, alloc: Global, index: usize, step: Step) -> Result<(), AllocError>
        requires index { index < length self.old.branches }
        requires room { self.old.made < self.old.limits.cells }
        ensures ok { OnOk result (IsPushed self.old self.new index step) }
        ensures err { OnErr result (self.new ≡ self.old) }
    {
        let slot = Slot {
            cell: self.made,
            step,
        };
        let segment = Segment::new(alloc, slot)?;
        self.segments.push(index, segment)?;
        self.branches.set_cached_len(index, None);
        self.made += 1;
        Ok(())
    }

    /// The key of a branch's last segment, if that segment isn't full and no other branch has it.
    fn own_end(&self, index: usize) -> Option<SegKey>
        ensures { IfSome result (IsOwnEnd self.now index) }
    {
        let key = self.segments.last(index)?;
        if self.slots_at(key).len() >= MOST_SLOTS || !self.segments.ends_alone(index) {
            return None;
        }
        Some(key)
    }
}
