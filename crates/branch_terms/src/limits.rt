//! The limits of a trie, and of the list of logged commands.

/// The greatest value that `Limits::cells` may have.
pub const MOST_CELLS_MADE: u32 = 1 << 28;

/// At most `cells` cells are ever made, there are at most `branches` branches, and at most `log`
/// commands are logged. `cells` is 1 to 2^28, `branches` 1 to 1,024, and `log` 1 to 2^20.
#[derive(Clone, Copy, Debug, PartialEq, Eq)]
pub struct Limits {
    pub cells: u32,
    pub branches: u32,
    pub log: u32,
}
