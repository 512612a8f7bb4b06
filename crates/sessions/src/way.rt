//! Directions along a branch.

/// The direction of a seek.
#[derive(Clone, Copy, Debug, PartialEq, Eq)]
pub enum Way {
    /// Towards the end.
    Forth,
    /// Towards the beginning.
    Back,
}
