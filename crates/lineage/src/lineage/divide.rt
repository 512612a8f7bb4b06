//! Putting a new item right above another.

ghost use Rattle.std.specs.Prelude.{◌≡◌, ◌≢◌, ◌<◌, ◌+◌, ◌-◌, ◌^◌, ℕ, length, map, Some, None, IsSome, IfOk, OnOk, OnErr};
ghost use Rattle.slab.specs.Slab.{get, slab_len, HasRoomFor, ContainsKey};
ghost use Rattle.lineage.specs.Family.{IsAdded, item_at, divided_keys};
ghost use Rattle.lineage.specs.Lineages.{node_over, node_under};

use super::reserve::reserve_node;
use super::{Key, Lineage};
use crate::node::{Node, OptionalKey};
use slab::Slab;
use std::alloc::AllocError;

impl<X: Drop> Lineage<X> {
    /// Puts a new item right before the item at `key`, which has to exist, in each path that has
    /// it. Returns the new item's key. No other item changes. Visits no path.
    ///
    /// # Errors
    ///
    /// If there is no memory for the item. Then nothing changes, and the item is dropped.
    pub fn divide(&mut self, key: Key, item: X) -> Result<Key, AllocError>
        requires { IsSome (item_at self.old key) }
        ensures item { IfOk result (λ fresh. IsAdded self.old self.new fresh item) }
        ensures paths { IfOk result (λ fresh. self.new.paths
            ≡ map (divided_keys key fresh) self.old.paths) }
        ensures err { OnErr result (self.new ≡ self.old) }
    {
        reserve_node(&mut self.nodes, self.tips.len())?;
        Ok(put_above(&mut self.nodes, key, item))
    }
}

/// Adds a node for a new item right above the node at `key`: the new node gets that node's link,
/// and that node links to the new one. Returns the new node's key.
pub(super) fn put_above<X>(nodes: &mut Slab<Node<X>>, key: Key, item: X) -> Key
    requires room { HasRoomFor nodes.old 1 }
    requires there { ContainsKey nodes.old key }
    ensures vacant { get nodes.old result ≡ None }
    ensures fresh { get nodes.new result ≡ node_over item (get nodes.old key) }
    ensures below { get nodes.new key ≡ node_under result (get nodes.old key) }
    ensures others { (k : ℕ) → k ≢ key → k ≢ result → get nodes.new k ≡ get nodes.old k }
    ensures len { slab_len nodes.new ≡ slab_len nodes.old + 1 }
    ensures few { result < 2 ^ 64 - 1 }
{
    // for the proof: there are fewer than 2^64 slots, so no key is the word that means `None`
    let _most = nodes.capacity();
    let above = nodes[key].above;
    let fresh = nodes.insert_reserved(Node {
        item,
        above,
        holders: 1,
    });
    nodes[key].above = OptionalKey::of(fresh);
    fresh
}
