//! Dropping paths. An item is dropped when no path has it any more.

ghost use Rattle.std.specs.Prelude.{◌≡◌, ◌≢◌, ◌<◌, ℕ, List, Option, length};
ghost use Rattle.std.specs.List.{remove};
ghost use Rattle.slab.specs.Slab.{get, ContainsKey};
ghost use Rattle.lineage.specs.Family.{IsReleased};
ghost use Rattle.lineage.specs.Lineages.{IsReleasing, IsSoundFamily, Stays, next_up, without_holder};

use super::{Key, Lineage};
use crate::node::{Node, OptionalKey};
use slab::Slab;

impl<X: Drop> Lineage<X> {
    /// Drops the path at an index, which has to exist, and the items that are then on no path. The
    /// index of each later path falls by one. Other items don't change. Never allocates.
    pub fn drop_path(&mut self, path: usize)
        requires { path < length self.old.paths }
        ensures paths { self.new.paths ≡ remove self.old.paths path }
        ensures items { IsReleased self.old self.new }
    {
        let tip = self.tips.remove(path);
        free_up(&mut self.nodes, tip);
    }
}

/// Counts one holder less for the node at `tip`, since a link to it is gone. If the node has no
/// holder left, drops it, and does the same for the node that it linked to, and so on.
pub(super) fn free_up<X: Drop>(nodes: &mut Slab<Node<X>>, tip: OptionalKey)
    requires { (tips : List (Option ℕ))
        × IsReleasing nodes.old.slots nodes.old.slots tips tip }
    ensures sound { (tips : List (Option ℕ)) → IsReleasing nodes.old.slots nodes.old.slots tips tip
        → IsSoundFamily nodes.new.slots tips }
    ensures stays { Stays nodes.old.slots nodes.new.slots }
{
    let mut at = tip;
    while let Some(key) = at.get() {
        at = free_node(nodes, key);
    }
}

/// Takes one holder from the node at a key. If the node has no holder left, drops the node and
/// returns the key above, whose node then has to lose a holder too. Otherwise returns no key.
fn free_node<X: Drop>(nodes: &mut Slab<Node<X>>, key: Key) -> OptionalKey
    requires { ContainsKey nodes.old key }
    ensures next { result ≡ next_up (get nodes.old key) }
    ensures here { get nodes.new key ≡ without_holder (get nodes.old key) }
    ensures others { (k : ℕ) → k ≢ key → get nodes.new k ≡ get nodes.old k }
{
    let node = &mut nodes[key];
    if node.holders > 1 {
        node.holders -= 1;
        return OptionalKey::none();
    }
    let above = node.above;
    nodes.remove(key);
    above
}
