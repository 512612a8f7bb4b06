//! Replacing a path by a path of new items.

ghost use Rattle.std.specs.Prelude.{◌≡◌, ◌<◌, ◌≤◌, ◌+◌, ◌^◌, length, OnOk, OnErr, vec_capacity};
ghost use Rattle.slab.specs.Slab.{slab_len, HasRoomFor};
ghost use Rattle.lineage.specs.Family.{IsExchanged};
ghost use Rattle.lineage.specs.Lineages.{IsSoundFamily, IsPathAdded};

use super::Lineage;
use super::push::push_node;
use super::release::free_up;
use super::reserve::reserve_path;
use crate::node::{Node, OptionalKey};
use slab::Slab;
use std::alloc::AllocError;

impl<X: Drop> Lineage<X> {
    /// Replaces the path at an index, which has to exist, by a path of these items, which get new
    /// keys. Drops the old items that are then on no path. Other paths and items don't change.
    ///
    /// # Errors
    ///
    /// If there is no memory for the items. Then nothing changes, and the items are dropped.
    pub fn exchange_path(&mut self, path: usize, items: Vec<X>) -> Result<(), AllocError>
        requires { path < length self.old.paths }
        ensures ok { OnOk result (IsExchanged self.old self.new path items.items) }
        ensures err { OnErr result (self.new ≡ self.old) }
    {
        reserve_path(&mut self.nodes, &mut self.tips, items.len())?;
        add_path(&mut self.nodes, &mut self.tips, items);
        let tip = self.tips.swap_remove(path);
        free_up(&mut self.nodes, tip);
        Ok(())
    }
}

/// Adds a path of these new items at the end of the list of paths.
fn add_path<X: Drop>(nodes: &mut Slab<Node<X>>, tips: &mut Vec<OptionalKey>, items: Vec<X>)
    requires sound { IsSoundFamily nodes.old.slots tips.old.items }
    requires room { HasRoomFor nodes.old (length items.items) }
    requires space { length tips.old.items < vec_capacity tips.old }
    requires few { length tips.old.items + 1 + (slab_len nodes.old + length items.items) < 2 ^ 64 }
    ensures { IsPathAdded nodes.old.slots nodes.new.slots tips.old.items tips.new.items
        items.items }
{
    let last = tips.len();
    tips.push_reserved(OptionalKey::none());
    for item in items {
        push_node(nodes, tips, last, item);
    }
}
