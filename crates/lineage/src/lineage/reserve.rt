//! Reserving memory for paths and nodes.
//!
//! The number of holders must fit in a word. Each function here begins with a test for that: if it
//! might not fit, the function makes a reserve that is sure to fail.

ghost use Rattle.std.specs.Prelude.{◌≡◌, ◌<◌, ◌+◌, ◌^◌, length, OnOk, vec_capacity};
ghost use Rattle.slab.specs.Slab.{slab_len, HasRoomFor};

use crate::node::{Node, OptionalKey};
use slab::Slab;
use std::alloc::AllocError;

/// Reserves memory for one more path, and for `count` more nodes. Fails if it can't, or if the
/// paths and nodes together would then be too many for a word to count.
pub(super) fn reserve_path<X>(
    nodes: &mut Slab<Node<X>>,
    tips: &mut Vec<OptionalKey>,
    count: usize,
) -> Result<(), AllocError>
    ensures slots { nodes.new.slots ≡ nodes.old.slots }
    ensures items { tips.new.items ≡ tips.old.items }
    ensures room { OnOk result (HasRoomFor nodes.new count) }
    ensures space { OnOk result (length tips.new.items < vec_capacity tips.new) }
    ensures few { OnOk result
        (length tips.old.items + 1 + (slab_len nodes.old + count) < 2 ^ 64) }
{
    if count >= (usize::MAX - nodes.len()).saturating_sub(tips.len()) {
        tips.reserve(usize::MAX)?;
        unreachable!();
    }
    nodes.reserve(count)?;
    tips.reserve(1)
}

/// Reserves memory for one more path; `nodes` is the number of nodes. Fails if it can't, or if the
/// paths and nodes together would then be too many for a word to count.
pub(super) fn reserve_tip(tips: &mut Vec<OptionalKey>, nodes: usize) -> Result<(), AllocError>
    ensures items { tips.new.items ≡ tips.old.items }
    ensures room { OnOk result (length tips.new.items < vec_capacity tips.new) }
    ensures few { OnOk result (length tips.old.items + nodes + 1 < 2 ^ 64) }
{
    if tips.len() >= usize::MAX - nodes {
        tips.reserve(usize::MAX)?;
        unreachable!();
    }
    tips.reserve(1)
}

/// Reserves memory for one more node; `tips` is the number of paths. Fails if it can't, or if the
/// paths and nodes together would then be too many for a word to count.
pub(super) fn reserve_node<X>(nodes: &mut Slab<Node<X>>, tips: usize) -> Result<(), AllocError>
    requires { tips < 2 ^ 63 }
    ensures slots { nodes.new.slots ≡ nodes.old.slots }
    ensures room { OnOk result (HasRoomFor nodes.new 1) }
    ensures few { OnOk result (tips + slab_len nodes.old + 1 < 2 ^ 64) }
{
    if nodes.len() >= usize::MAX - tips {
        nodes.reserve(usize::MAX)?;
        // for the proof: a capacity is less than 2^64, so that reserve hasn't succeeded
        let _most = nodes.capacity();
        unreachable!();
    }
    nodes.reserve(1)
}
