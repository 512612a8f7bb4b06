//! The branches' names, with cached lengths, so that cells aren't counted again.

ghost use Rattle.std.specs.Prelude.{ℕ, ◌≡◌, ◌+◌, ◌<◌, ◌≤◌, None, IfSome, IsOk, OnOk, [], length, nat_eq, option_map, position, slice_get};
ghost use Rattle.std.specs.Cmp.Lexicographic.{pointwise};
ghost use Rattle.std.specs.List.{remove, IsDistinct};
ghost use Rattle.std.specs.Map.{keys_of};
ghost use Rattle.indexmap.specs.IndexMap.{index_map_len, insert_entry, set_value_at};
ghost use Rattle.schedule_trie.specs.NamedLengths.{cached_in};
ghost use Rattle.schedule_trie.specs.Editions.{known_in, unknown, AreEarlier};

use branch_terms::name::Name;
use indexmap::IndexMap;
use std::alloc::{AllocError, Global};
use std::marker::Model;

/// A branch's length, cached in an edition of the list: in later editions it isn't known.
#[derive(Clone, Copy)]
pub(crate) struct Cached {
    pub(crate) cells: u32,
    pub(crate) edition: u32,
}

impl Cached {
    /// A length that is known in no edition of a list.
    fn unknown() -> Cached
        ensures { result ≡ unknown }
    {
        Cached {
            cells: 0,
            edition: 0,
        }
    }

    /// A length that is cached in an edition, or known in none if it is `None`.
    fn of(len: Option<u32>, edition: u32) -> Cached
        requires { 0 < edition }
        ensures known { known_in edition result ≡ len }
        ensures earlier { result.edition ≤ edition }
    {
        match len {
            Some(cells) => Cached { cells, edition },
            None => Cached::unknown(),
        }
    }

    /// The length, if it was cached in this edition.
    fn known(&self, edition: u32) -> Option<u32>
        ensures { result ≡ known_in edition self.now }
    {
        if self.edition == edition {
            Some(self.cells)
        } else {
            None
        }
    }
}

/// The names of branches, in order, each with the branch's length if that is cached.
#[derive(Drop)]
pub(crate) struct BranchList {
    entries: IndexMap<Name, Cached>,
    // at least 1; a new one forgets all lengths at once
    edition: u32,
}

impl Model for BranchList {
    ghost use Rattle.schedule_trie.specs.NamedLengths.{NamedLengths};

    ghost Value = { NamedLengths };

    ghost use Rattle.schedule_trie.specs.Editions.{named_lengths, IsOfEditions};

    ghost view = { named_lengths };

    ghost invariant = { IsOfEditions };
}

impl BranchList {
    /// No branches. Never allocates.
    pub(crate) fn new(alloc: Global) -> BranchList
        ensures empty { result.entries ≡ [] }
    {
        BranchList {
            entries: IndexMap::new(alloc),
            edition: 1,
        }
    }

    /// The number of branches. No two have the same name.
    pub(crate) fn len(&self) -> usize
        ensures len { result ≡ length self.now.entries }
        ensures unique { IsDistinct (pointwise nat_eq) (keys_of self.now.entries) }
    {
        self.entries.len()
    }

    /// The index of the branch with this name; `None` if there is no such branch.
    pub(crate) fn get_index_of(&self, name: &Name) -> Option<usize>
        ensures index { result ≡ position (pointwise nat_eq name.now) (keys_of self.now.entries) }
        ensures within { IfSome result (λ i. i < length self.now.entries) }
    {
        self.entries.get_index_of(name)
    }

    /// The name of the branch at an index; `None` if there is no such branch.
    pub(crate) fn name(&self, index: usize) -> Option<Name>
        ensures { result ≡ option_map (λ e. e.0) (slice_get self.now.entries index) }
    {
        let (name, _) = self.entries.get_index(index)?;
        Some(*name)
    }

    /// The cached length of the branch at an index; `None` if there is no such branch, or if no
    /// length is cached for it.
    pub(crate) fn cached_len(&self, index: usize) -> Option<u32>
        ensures { result ≡ cached_in (slice_get self.now.entries index) }
    {
        let (_, cached) = self.entries.get_index(index)?;
        cached.known(self.edition)
    }

    /// Reserves memory for more branches.
    pub(crate) fn reserve(&mut self, additional: usize) -> Result<(), AllocError>
        ensures entries { self.new.entries ≡ self.old.entries }
        ensures ok { OnOk result (additional ≤ self.new.spare) }
    {
        self.entries.reserve(additional)
    }

    /// Adds a branch with no cached length. There has to be no branch with this name.
    pub(crate) fn insert(&mut self, name: Name) -> Result<(), AllocError>
        ensures entries { OnOk result
            (self.new.entries ≡ insert_entry (pointwise nat_eq) self.old.entries name None) }
        ensures succeeds { 0 < self.old.spare → IsOk result }
    {
        self.entries.insert(name, Cached::unknown())?;
        Ok(())
    }

    /// Removes the branch at an index. The index of each later branch falls by one.
    pub(crate) fn shift_remove_index(&mut self, index: usize)
        ensures entries { self.new.entries ≡ remove self.old.entries index }
    {
        self.entries.shift_remove_index(index);
    }

    /// Sets the cached length of the branch at an index, or clears it if `len` is `None`. There has
    /// to be such a branch.
    pub(crate) fn set_cached_len(&mut self, index: usize, len: Option<u32>)
        requires { index < length self.old.entries }
        ensures { self.new.entries ≡ set_value_at self.old.entries index len }
    {
        let cached = Cached::of(len, self.edition);
        set_cached(&mut self.entries, index, cached);
    }

    /// Clears the cached lengths of all branches.
    pub(crate) fn forget_lengths(&mut self)
        ensures names { keys_of self.new.entries ≡ keys_of self.old.entries }
        ensures none { (i : ℕ) → cached_in (slice_get self.new.entries i) ≡ None }
    {
        self.edition = next_edition(&mut self.entries, self.edition);
    }
}

/// Sets the cached length of the branch at an index. There has to be such a branch.
fn set_cached(entries: &mut IndexMap<Name, Cached>, index: usize, cached: Cached)
    requires { index < index_map_len entries.old }
    ensures { entries.new.entries ≡ set_value_at entries.old.entries index cached }
{
    entries[index] = cached;
}

/// Begins a new edition after this one, in which no length is known, and returns it.
fn next_edition(entries: &mut IndexMap<Name, Cached>, edition: u32) -> u32
    requires { AreEarlier (edition + 1) entries.old.entries }
    ensures some { 0 < result }
    ensures names { keys_of entries.new.entries ≡ keys_of entries.old.entries }
    ensures earlier { AreEarlier result entries.new.entries }
{
    if edition < u32::MAX {
        return edition + 1;
    }
    // the greatest edition is used up: editions begin again at 1
    forget_editions(entries);
    1
}

/// Makes each cached length one that is known in no edition.
fn forget_editions(entries: &mut IndexMap<Name, Cached>)
    ensures names { keys_of entries.new.entries ≡ keys_of entries.old.entries }
    ensures first { AreEarlier 1 entries.new.entries }
{
    for index in 0..entries.len() {
        set_cached(entries, index, Cached::unknown());
    }
}
