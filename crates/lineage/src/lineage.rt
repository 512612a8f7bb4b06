//! The fields of a lineage, and the calls that read it or change one item.

ghost use Rattle.std.specs.Prelude.{ℕ, ◌≡◌, ◌≤◌, List, ◌++◌, length, [], ◌∷◌, map, Some, None, IfOk, IfSome, IfNone, IsSome, slice_set, true, false};
ghost use Rattle.std.specs.Option.{option_copied, option_map};
ghost use Rattle.lineage.specs.Family.{item_at, path_in, last_of, EndsAlone, IsFamily};
ghost use Rattle.lineage.specs.Climbs.{Ends};
ghost use Rattle.lineage.specs.Lineages.{link_at, path_to, tip_at};

mod divide;
mod exchange;
mod fork;
mod push;
mod release;
mod reserve;
mod take_out;

use crate::node::Node;
pub use crate::node::{Key, OptionalKey};
use slab::Slab;
use std::alloc::{AllocError, Global};
use std::marker::Model;
use std::mem;

/// Paths, which are lists of items. Several paths can have the same beginning. The key of an item
/// is the number that identifies it. The item above an item is the one right before it in its
/// paths.
#[derive(Drop)]
pub struct Lineage<X> {
    nodes: Slab<Node<X>>,
    // each path's last key
    tips: Vec<OptionalKey>,
}

impl<X> Model for Lineage<X> {
    ghost use Rattle.lineage.specs.Family.{Family};

    ghost Value = { Family X };

    ghost use Rattle.lineage.specs.Lineages.{family_of, IsSoundLineage};

    ghost view = { family_of };

    ghost invariant = { IsSoundLineage };
}

impl<X: Drop> Lineage<X> {
    ghost use Rattle.std.specs.Borrow.{Lends, sem};
    ghost use Rattle.lineage.specs.contracts.lineage.Lineage.{the_row};
    ghost use Rattle.lineage.specs.Family.{with_item};

    /// A lineage with no path and no item. Never allocates.
    pub fn new(alloc: Global) -> Lineage<X>
        ensures items { result.items ≡ [] }
        ensures paths { result.paths ≡ [] }
    {
        Lineage {
            nodes: Slab::new(alloc),
            tips: Vec::new(alloc),
        }
    }

    /// The number of paths.
    pub fn count(&self) -> usize
        ensures { result ≡ length self.now.paths }
    {
        self.tips.len()
    }

    /// The number of items that there is memory for, including those that exist. The key of each
    /// item is less than this number.
    pub fn capacity(&self) -> usize
        ensures { (k : ℕ) → result ≤ k → item_at self.now k ≡ None }
    {
        self.nodes.capacity()
    }

    /// The item at a key; `None` if there is no such item.
    pub fn item(&self, key: Key) -> Option<&X>
        ensures { option_copied result ≡ item_at self.now key }
    {
        let node = self.nodes.get(key)?;
        Some(&node.item)
    }

    /// The last key of the path at an index; `None` if there is no such path, or if the path has no
    /// item.
    pub fn last(&self, path: usize) -> Option<Key>
        ensures { result ≡ last_of (path_in self.now path) }
    {
        self.tip(path).get()
    }

    /// The last key of the path at an index, in the form that `climb_step` takes; no key if there
    /// is no such path, or if the path has no item.
    pub fn tip(&self, path: usize) -> OptionalKey
        ensures { result ≡ last_of (path_in self.now path) }
    {
        tip_at(&self.tips, path)
    }

    /// Replaces the item at `key`, which has to exist, and returns the old item. Nothing else
    /// changes. Never allocates.
    pub fn replace(&mut self, key: Key, item: X) -> X
        requires { IsSome (item_at self.old key) }
        ensures was { item_at self.old key ≡ Some result }
        ensures items { self.new.items ≡ slice_set self.old.items key (Some item) }
        ensures paths { self.new.paths ≡ self.old.paths }
    {
        mem::replace(&mut self.nodes[key].item, item)
    }

    /// A mutable borrow of the item at `key`, which has to exist. A write through the borrow
    /// changes that item alone.
    pub fn item_mut(&mut self, key: Key) -> &mut X
        requires { IsSome (item_at self.old key) }
        ensures* writes_back { sem 𝓛
            (Lends (the_row X.row) X.row self.entry result (with_item self.old key)) }
        ensures value { item_at self.old key ≡ Some result.now }
    {
        let node = &mut self.nodes[key];
        &mut node.item
    }

    /// Whether the last item of the path at an index is on that path alone; false if there is no
    /// such path, or if the path has no item.
    pub fn ends_alone(&self, path: usize) -> bool
        ensures yes { result ≡ true → EndsAlone self.now path }
        ensures no { result ≡ false → EndsAlone self.now path → ⊥ }
    {
        let Some(key) = tip_at(&self.tips, path).get() else {
            return false;
        };
        self.nodes[key].holders == 1
    }

    /// Does nothing. Its contract states what the type guarantees: each key on a path has an item,
    /// each item is on a path, and paths that share a key have the same keys before it (so no key
    /// is twice in a path).
    pub fn lemma_invariant(&self)
        ensures { IsFamily self.now }
    {
        // for the proof: reading a field opens the model, so what its invariant says is known
        let _count = self.tips.len();
    }

    /// The key right before `key`, which is the same in each path that has `key`. `None` if `key`
    /// is the first of a path, or has no item.
    pub fn above(&self, key: Key) -> Option<Key>
        ensures each { (i : ℕ) (front back : List ℕ) → path_in self.now i ≡ front ++ key ∷ back
            → result ≡ last_of front }
        ensures none { item_at self.now key ≡ None → result ≡ None }
    {
        self.nodes.get(key)?.above.get()
    }

    /// The item at `key`, and the key right before `key` in each path that has `key`, which is
    /// `None` if `key` is the first of a path. The whole result is `None` if `key` has no item.
    #[inline(always)]
    pub fn step_up(&self, key: Key) -> Option<(&X, Option<Key>)>
        ensures item { option_map (λ s. s.0.now) result ≡ item_at self.now key }
        ensures each { IfSome result (λ s. (i : ℕ) (front back : List ℕ)
            → path_in self.now i ≡ front ++ key ∷ back → s.1 ≡ last_of front) }
    {
        let node = self.nodes.get(key)?;
        Some((&node.item, node.above.get()))
    }

    /// The item at `key`, which has to exist, and the key right before `key` in each path that has
    /// `key`, or no key if `key` is the first of a path.
    #[inline(always)]
    pub fn step_up_from(&self, key: Key) -> (&X, OptionalKey)
        requires { IsSome (item_at self.now key) }
        ensures item { Some result.0.now ≡ item_at self.now key }
        ensures each { (i : ℕ) (front back : List ℕ) → path_in self.now i ≡ front ++ key ∷ back
            → result.1 ≡ last_of front }
    {
        let node = &self.nodes[key];
        (&node.item, node.above)
    }

    /// One step of a walk up a path, from each key to the one before it: the key `at`, its item,
    /// and the key right before `at` in each path that has `at`, or no key if `at` is the first.
    /// `None` if `at` is no key (the walk has ended), or has no item.
    #[inline(always)]
    pub fn climb_step(&self, at: OptionalKey) -> Option<(Key, &X, OptionalKey)>
        ensures key { IfSome result (λ s. at ≡ Some s.0) }
        ensures item { IfSome result (λ s. item_at self.now s.0 ≡ Some s.1.now) }
        ensures each { IfSome result (λ s. (i : ℕ) (front back : List ℕ)
            → path_in self.now i ≡ front ++ s.0 ∷ back → s.2 ≡ last_of front) }
        ensures end { IfNone result ((k : ℕ) → at ≡ Some k → item_at self.now k ≡ None) }
    {
        // for the proof: there are fewer than 2^64 slots, so no key is the word that means `None`
        let _most = self.nodes.capacity();
        let node = self.nodes.get(at.word)?;
        Some((at.word, &node.item, node.above))
    }

    /// The keys of the path at an index, in order; no keys if there is no such path.
    ///
    /// # Errors
    ///
    /// If there is no memory for the keys.
    pub fn keys(&self, alloc: Global, path: usize) -> Result<Vec<Key>, AllocError>
        ensures { IfOk result (λ keys. keys.items ≡ path_in self.now path) }
    {
        keys_down_to(alloc, &self.nodes, tip_at(&self.tips, path).get())
    }
}

/// The last key of the path at an index; no key if there is no such path, or if the path has no
/// item.
fn tip_at(tips: &[OptionalKey], path: usize) -> OptionalKey
    ensures { result ≡ tip_at tips.now path }
{
    match tips.get(path) {
        Some(tip) => *tip,
        None => OptionalKey::none(),
    }
}

/// The keys of the path that ends with `tip`, first to last; no keys if `tip` is `None`.
fn keys_down_to<X>(
    alloc: Global,
    nodes: &Slab<Node<X>>,
    tip: Option<Key>,
) -> Result<Vec<Key>, AllocError>
    requires { Ends (link_at nodes.now.slots) tip }
    ensures { IfOk result (λ keys. keys.items ≡ path_to nodes.now.slots tip) }
{
    let mut keys = Vec::new(alloc);
    let mut at = tip;
    while let Some(key) = at {
        keys.push(key)?;
        at = match nodes.get(key) {
            Some(node) => node.above.get(),
            None => None,
        };
    }
    keys.reverse();
    Ok(keys)
}
