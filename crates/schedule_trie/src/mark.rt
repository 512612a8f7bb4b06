//! Marks of segments: `Trie::limbs` uses them to find the earlier branch that a branch shares cells
//! with, and how many cells it shares.

/// The mark of a segment: `branch` is the index of the first branch that has the segment, and
/// `cells` the number of that branch's cells down to the segment's end.
#[derive(Clone, Copy)]
pub(crate) struct Mark {
    pub(crate) branch: u32,
    pub(crate) cells: u32,
}
