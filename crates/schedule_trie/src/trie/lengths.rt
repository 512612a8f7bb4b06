//! The lengths of branches, cached so that cells aren't counted again.

ghost use Rattle.std.specs.Prelude.{◌≡◌, ◌<◌, length, IfSome};
ghost use Rattle.branch_terms.specs.Forest.{slots_in};
ghost use Rattle.schedule_trie.specs.Trie.{forest, IsWhole};

use super::Trie;

impl<T: Drop> Trie<T> {
    /// The number of cells of the branch at an index; 0 if there is no such branch. The contract
    /// also states that the trie is cut correctly and within its limits (`IsWhole`), as each trie
    /// is.
    pub fn len_at(&self, index: usize) -> u32
        ensures len { result ≡ length (slots_in (forest self.now).branches index) }
        ensures whole { IsWhole self.now }
    {
        match self.branches.cached_len(index) {
            Some(len) => len,
            None => self.counted_len(index),
        }
    }

    /// The number of cells of the branch at an index, whose length isn't cached. If the branch
    /// whose length was cached last ends with the same segment, both are equally long, and no
    /// cell is counted.
    fn counted_len(&self, index: usize) -> u32
        ensures { result ≡ length (slots_in (forest self.now).branches index) }
    {
        match self.len_by_same_end(index) {
            Some(len) => len,
            None => self.len_to(index, self.segments.tip(index)),
        }
    }

    /// The cached length of the branch whose length was cached last, if it's still cached and that
    /// branch ends with the same segment as the branch at an index; otherwise `None`.
    fn len_by_same_end(&self, index: usize) -> Option<u32>
        ensures { IfSome result (λ len. len ≡ length (slots_in (forest self.now).branches index)) }
    {
        if self.segments.last(self.last_cached) == self.segments.last(index) {
            self.branches.cached_len(self.last_cached)
        } else {
            None
        }
    }

    /// Returns the number of cells of the branch at an index, and caches it. There has to be such a
    /// branch. Contracts don't see the cache.
    pub(super) fn cache_len(&mut self, index: usize) -> u32
        requires { index < length self.old.branches }
        ensures len { result ≡ length (slots_in (forest self.old).branches index) }
        ensures whole { IsWhole self.old }
        ensures same { self.new ≡ self.old }
    {
        let len = self.len_at(index);
        self.set_cached_len(index, len);
        len
    }

    /// Caches `len`, which has to be the number of cells of the branch at an index. Contracts don't
    /// see the cache.
    pub(super) fn set_cached_len(&mut self, index: usize, len: u32)
        requires index { index < length self.old.branches }
        requires len { len ≡ length (slots_in (forest self.old).branches index) }
        ensures { self.new ≡ self.old }
    {
        self.branches.set_cached_len(index, Some(len));
        self.last_cached = index;
    }
}
