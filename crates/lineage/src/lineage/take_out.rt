//! Taking an item out of all paths.

ghost use Rattle.std.specs.Prelude.{◌≡◌, ◌≢◌, ◌<◌, ◌≤◌, ◌+◌, ◌-◌, ◌^◌, ℕ, length, map, Some, None, IfSome, IsSome};
ghost use Rattle.slab.specs.Slab.{get, ContainsKey};
ghost use Rattle.lineage.specs.Family.{item_at, keys_without};
ghost use Rattle.lineage.specs.Lineages.{is_key, past, past_node, passed_on};

use super::{Key, Lineage};
use crate::node::{Node, OptionalKey};
use slab::Slab;

impl<X: Drop> Lineage<X> {
    /// Takes the item at a key, which has to exist, out of each path that has it, and returns the
    /// item. The other items don't change, and stay in order in each path. Never allocates; visits
    /// each item and path.
    pub fn take_out(&mut self, key: Key) -> X
        requires { IsSome (item_at self.old key) }
        ensures was { item_at self.old key ≡ Some result }
        ensures gone { item_at self.new key ≡ None }
        ensures others { (k : ℕ) → k ≢ key → item_at self.new k ≡ item_at self.old k }
        ensures paths { self.new.paths ≡ map (keys_without key) self.old.paths }
    {
        let node = self.nodes.remove(key);
        pass_on(&mut self.nodes, node.above, node.holders);
        skip_in_nodes(&mut self.nodes, key, node.above);
        skip_in_tips(&mut self.tips, key, node.above);
        node.item
    }
}

/// The link that replaces `at` when `key` is skipped: `above` if `at` links to `key`, else `at`.
fn past(at: OptionalKey, key: Key, above: OptionalKey) -> OptionalKey
    ensures { result ≡ past key above at }
{
    match at.get() {
        Some(other) => { if key == other { above } else { at } }
        None => at,
    }
}

/// Corrects the number of holders of the node at `above`, which a skipped node linked to: adds the
/// skipped node's `holders`, and subtracts 1 for the skipped node itself.
fn pass_on<X>(nodes: &mut Slab<Node<X>>, above: OptionalKey, holders: usize)
    requires there { IfSome above (λ k. ContainsKey nodes.old k) }
    requires few { (k : ℕ) (n : Node X) → above ≡ Some k → get nodes.old k ≡ Some n
        → (1 ≤ n.holders) × (n.holders - 1 + holders < 2 ^ 64) }
    ensures { (k : ℕ) → get nodes.new k ≡ passed_on (is_key k above) holders (get nodes.old k) }
{
    if let Some(key) = above.get() {
        nodes[key].holders = nodes[key].holders - 1 + holders;
    }
}

/// Gives each node that links to `key` the link `above` instead.
fn skip_in_nodes<X>(nodes: &mut Slab<Node<X>>, key: Key, above: OptionalKey)
    ensures { (k : ℕ) → get nodes.new k ≡ past_node key above (get nodes.old k) }
{
    for place in 0..nodes.capacity() {
        skip_at(nodes, place, key, above);
    }
}

/// If the node at `place` links to `key`, gives that node the link `above` instead.
fn skip_at<X>(nodes: &mut Slab<Node<X>>, place: Key, key: Key, above: OptionalKey)
    ensures here { get nodes.new place ≡ past_node key above (get nodes.old place) }
    ensures others { (k : ℕ) → k ≢ place → get nodes.new k ≡ get nodes.old k }
{
    let Some(node) = nodes.get(place) else {
        return;
    };
    let skipped = past(node.above, key, above);
    nodes[place].above = skipped;
}

/// Makes `above` the last key of each path whose last key is `key`.
fn skip_in_tips(tips: &mut Vec<OptionalKey>, key: Key, above: OptionalKey)
    ensures { tips.new.items ≡ map (past key above) tips.old.items }
{
    for place in 0..tips.len() {
        tips[place] = past(tips[place], key, above);
    }
}
