//! Adding a path that shares the beginning of others.

ghost use Rattle.std.specs.Prelude.{◌≡◌, ◌<◌, ◌+◌, ◌^◌, ◌++◌, ◌∷◌, [], ℕ, length, Some, None, IfSome, IsSome, IfOk, OnOk, OnErr};
ghost use Rattle.slab.specs.Slab.{get, slab_len, ContainsKey};
ghost use Rattle.lineage.specs.Family.{IsForked, IsForkedAbove, item_at};
ghost use Rattle.lineage.specs.Lineages.{is_key, with_holder};

use super::divide::put_above;
use super::reserve::{reserve_path, reserve_tip};
use super::{Key, Lineage};
use crate::node::{Node, OptionalKey};
use slab::Slab;
use std::alloc::AllocError;

impl<X: Drop> Lineage<X> {
    /// Adds a path at the end of the list of paths. It ends with `key`, which has to have an item;
    /// before `key` it has the keys that are before `key` in each path that has `key`. If `key` is
    /// `None`, the new path has no item. Items and other paths don't change.
    ///
    /// # Errors
    ///
    /// If there is no memory for the path. Then nothing changes.
    pub fn fork(&mut self, key: Option<Key>) -> Result<(), AllocError>
        requires { IfSome key (λ k. IsSome (item_at self.old k)) }
        ensures ok { OnOk result (IsForked self.old self.new key) }
        ensures err { OnErr result (self.new ≡ self.old) }
    {
        reserve_tip(&mut self.tips, self.nodes.len())?;
        hold(&mut self.nodes, key);
        self.tips.push_reserved(optional_key(&self.nodes, key));
        Ok(())
    }

    /// Puts a new item right before the item at `key`, which has to exist, in each path that has
    /// it. Then adds a path at the end of the list of paths: it ends with the new item, and before
    /// that it has the items that are before the new item in those paths. Returns the new item's
    /// key. No other item changes. Visits no path.
    ///
    /// # Errors
    ///
    /// If there is no memory for the item and the path. Then nothing changes, and the item is
    /// dropped.
    pub fn fork_above(&mut self, key: Key, item: X) -> Result<Key, AllocError>
        requires { IsSome (item_at self.old key) }
        ensures ok { IfOk result (λ fresh. IsForkedAbove self.old self.new key fresh item) }
        ensures err { OnErr result (self.new ≡ self.old) }
    {
        reserve_path(&mut self.nodes, &mut self.tips, 1)?;
        let fresh = put_above(&mut self.nodes, key, item);
        hold(&mut self.nodes, Some(fresh));
        self.tips.push_reserved(OptionalKey::of(fresh));
        Ok(fresh)
    }
}

/// `key`, which is `None` or the key of an existing item, in one word.
fn optional_key<X>(nodes: &Slab<Node<X>>, key: Option<Key>) -> OptionalKey
    requires { IfSome key (λ k. ContainsKey nodes.now k) }
    ensures { result ≡ key }
{
    // for the proof: there are fewer than 2^64 slots, so no key is the word that means `None`
    let _most = nodes.capacity();
    match key {
        Some(key) => OptionalKey::of(key),
        None => OptionalKey::none(),
    }
}

/// Counts one more holder of the node at `key`. If `key` is `None`, nothing changes.
fn hold<X>(nodes: &mut Slab<Node<X>>, key: Option<Key>)
    requires there { IfSome key (λ k. ContainsKey nodes.old k) }
    requires few { (k : ℕ) (n : Node X) → key ≡ Some k → get nodes.old k ≡ Some n
        → n.holders + 1 < 2 ^ 64 }
    ensures nodes { (k : ℕ) → get nodes.new k ≡ with_holder (is_key k key) (get nodes.old k) }
    ensures len { slab_len nodes.new ≡ slab_len nodes.old }
    ensures slots { length nodes.new.slots ≡ length nodes.old.slots }
{
    if let Some(key) = key {
        nodes[key].holders += 1;
    }
}
