//! Adding an item at the end of a path.

ghost use Rattle.std.specs.Prelude.{◌≡◌, ◌≢◌, ◌<◌, ◌+◌, ◌++◌, ◌∷◌, [], ℕ, length, slice_set, Some, None, IfOk, OnErr};
ghost use Rattle.slab.specs.Slab.{get, slab_len, HasRoomFor};
ghost use Rattle.lineage.specs.Family.{IsAdded, path_in};
ghost use Rattle.lineage.specs.Lineages.{node, tip_at};

use super::reserve::reserve_node;
use super::{Key, Lineage};
use crate::node::{Node, OptionalKey};
use slab::Slab;
use std::alloc::AllocError;

impl<X: Drop> Lineage<X> {
    /// Puts a new item at the end of the path at an index, which has to exist. Returns the item's
    /// key. Other paths and items don't change.
    ///
    /// # Errors
    ///
    /// If there is no memory for the item. Then nothing changes, and the item is dropped.
    pub fn push(&mut self, path: usize, item: X) -> Result<Key, AllocError>
        requires { path < length self.old.paths }
        ensures item { IfOk result (λ key. IsAdded self.old self.new key item) }
        ensures paths { IfOk result (λ key. self.new.paths
            ≡ slice_set self.old.paths path (path_in self.old path ++ key ∷ [])) }
        ensures err { OnErr result (self.new ≡ self.old) }
    {
        reserve_node(&mut self.nodes, self.tips.len())?;
        Ok(push_node(&mut self.nodes, &mut self.tips, path, item))
    }
}

/// Adds a node for a new item at the end of the path at index `path`: it links to the last key of
/// that path, and its own key is then the last. Returns that key.
pub(super) fn push_node<X>(
    nodes: &mut Slab<Node<X>>,
    tips: &mut Vec<OptionalKey>,
    path: usize,
    item: X,
) -> Key
    requires room { HasRoomFor nodes.old 1 }
    requires path { path < length tips.old.items }
    ensures vacant { get nodes.old result ≡ None }
    ensures here { get nodes.new result ≡ Some (node item (tip_at tips.old.items path) 1) }
    ensures others { (k : ℕ) → k ≢ result → get nodes.new k ≡ get nodes.old k }
    ensures len { slab_len nodes.new ≡ slab_len nodes.old + 1 }
    ensures capacity { nodes.new.capacity ≡ nodes.old.capacity }
    ensures tips { tips.new.items ≡ slice_set tips.old.items path (Some result) }
{
    // for the proof: there are fewer than 2^64 slots, so no key is the word that means `None`
    let _most = nodes.capacity();
    let above = tips[path];
    let key = nodes.insert_reserved(Node {
        item,
        above,
        holders: 1,
    });
    tips[path] = OptionalKey::of(key);
    key
}
