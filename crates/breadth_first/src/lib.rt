//! Breadth-first search of a graph whose moves have labels.
//!
//! Of each discovered node the search keeps its key, in an `IndexSet`, whose order is that in which
//! the nodes were discovered, and a mark, which says how the node was discovered: the marks along a
//! node's parents give a shortest path to it. Whole nodes are kept in a queue until they are
//! expanded.
#![tactic(auto)]

pub mod graph;
pub mod mark;
pub mod path;
pub mod reach;
