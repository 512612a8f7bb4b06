//! What a search notes of a node, and why a search may fail.

/// How a node was discovered: the index of the node before it, the label of the move from there,
/// and the number of moves from the start. The start's mark is all zeros.
#[derive(Clone, Copy)]
pub struct Mark {
    pub parent: u32,
    pub label: usize,
    pub depth: u32,
}

/// Why a search fails.
#[derive(Clone, Copy, Debug, PartialEq, Eq)]
pub enum Unreached {
    /// More nodes are reachable than are allowed.
    TooMany,
    /// Memory ran out.
    Memory,
}
