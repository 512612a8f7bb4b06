//! Paths that share their beginnings.
//!
//! Each item links to the item above it, the one right before it in each path, and a path is stored
//! as the key (number) of its last item. So adding a path that is the beginning of another stores
//! one key, and putting an item between two others changes one link.
#![tactic(auto)]

pub mod lineage;
mod node;
