//! Places of a branch, found by a climb: segment by segment, from the branch's last one up.

ghost use Rattle.std.specs.Prelude.{ℕ, List, ◌≡◌, ◌≤◌, ◌<◌, ◌++◌, ◌∷◌, length, Some, None, IfSome, IfNone};
ghost use Rattle.std.specs.List.{position};
ghost use Rattle.lineage.specs.Family.{last_of};
ghost use Rattle.branch_terms.specs.Forest.{is_cell, slots_in};
ghost use Rattle.schedule_trie.specs.Trie.{forest, segment_at, slots_of, keys_in, line, SpotHasCellAt, SpotIsAt, IsWhole};
ghost use Rattle.schedule_trie.specs.Climbs.{keys_to, HasClimbedTo};

use super::Trie;
use crate::segment::SegKey;
use branch_terms::slot::Slot;
use lineage::lineage::OptionalKey;

impl<T: Drop> Trie<T> {
    /// The number of cells of the branch at `index` down to the end of its segment `last`; 0 if
    /// `last` is `None`.
    pub(super) fn len_to(&self, index: usize, last: OptionalKey) -> u32
        requires { HasClimbedTo (keys_in self.now.branches index) last }
        ensures { result ≡ length (line (segment_at self.now.segments)
            (keys_to (keys_in self.now.branches index) last)) }
    {
        self.lemma_invariant();
        let mut len = 0;
        let mut at = last;
        while let Some(up) = self.slots_up(at) {
            let (_, slots, above) = up;
            len += slots.len() as u32;
            at = above;
        }
        len
    }

    /// The key of the segment that has the cell at a place of the branch at `index`, and the cell's
    /// offset in that segment. The place is this offset plus the number of cells in all segments
    /// above. `None` if the branch has no cell there.
    pub fn find_cell(&self, index: usize, place: u32) -> Option<(SegKey, usize)>
        ensures found { IfSome result (SpotHasCellAt (segment_at self.now.segments)
            (keys_in self.now.branches index) place) }
        ensures lies { IfSome result (SpotIsAt (segment_at self.now.segments)
            (keys_in self.now.branches index) place) }
        ensures none { IfNone result (length (slots_in (forest self.now).branches index) ≤ place) }
    {
        self.find_cell_with_len(index, self.len_at(index), place)
    }

    /// Same as `find_cell`, but takes the number of the branch's cells, `len`, so that they aren't
    /// counted.
    pub fn find_cell_with_len(&self, index: usize, len: u32, place: u32) -> Option<(SegKey, usize)>
        requires { len ≡ length (slots_in (forest self.now).branches index) }
        ensures found { IfSome result (SpotHasCellAt (segment_at self.now.segments)
            (keys_in self.now.branches index) place) }
        ensures lies { IfSome result (SpotIsAt (segment_at self.now.segments)
            (keys_in self.now.branches index) place) }
        ensures none { IfNone result (length (slots_in (forest self.now).branches index) ≤ place) }
    {
        if len <= place {
            return None;
        }
        // the number of cells after the one at `place`, except those of segments already passed
        let mut following = (len - place - 1) as usize;
        let mut at = self.segments.tip(index);
        while let Some(up) = self.slots_up(at) {
            let (key, slots, above) = up;
            let (left, is_here) = following.overflowing_sub(slots.len());
            if is_here {
                // `left` is 2^64 - n; the cell at `place` is the n-th of `slots`, at offset n - 1
                return Some((key, usize::MAX - left));
            }
            following = left;
            at = above;
        }
        None
    }

    /// The place, on the branch at `index`, of the cell with the number `cell`; `None` if the
    /// branch doesn't have that cell.
    pub(super) fn place_at(&self, index: usize, cell: u32) -> Option<u32>
        ensures { result ≡ position (is_cell cell) (slots_in (forest self.now).branches index) }
    {
        let mut at = self.segments.tip(index);
        while let Some(up) = self.slots_up(at) {
            let (_, slots, above) = up;
            if let Some(offset) = offset_of(slots, cell) {
                return Some(self.len_to(index, above) + offset as u32);
            }
            at = above;
        }
        None
    }

    /// One step of a climb: the key `at`, the cells of its segment, and the key of the segment
    /// above, or no key if no segment is above. `None` if the climb has ended.
    #[inline(always)]
    fn slots_up(&self, at: OptionalKey) -> Option<(SegKey, &[Slot], OptionalKey)>
        ensures key { IfSome result (λ s. at ≡ Some s.0) }
        ensures slots { IfSome result (λ s. s.1.now ≡ slots_of (segment_at self.now.segments s.0)) }
        ensures whole { IsWhole self.now }
        ensures each { IfSome result (λ s. (i : ℕ) (front back : List ℕ)
            → keys_in self.now.branches i ≡ front ++ s.0 ∷ back → s.2 ≡ last_of front) }
        ensures end { IfNone result
            ((i : ℕ) → HasClimbedTo (keys_in self.now.branches i) at → at ≡ None) }
    {
        match self.segments.climb_step(at) {
            Some((key, segment, above)) => Some((key, segment.slots.as_slice(), above)),
            None => None,
        }
    }
}

/// The index in `slots` of the cell with this number; `None` if the cell isn't there.
fn offset_of(slots: &[Slot], cell: u32) -> Option<usize>
    ensures { result ≡ position (is_cell cell) slots.now }
{
    slots.iter().position(|slot| slot.cell == cell)
}
