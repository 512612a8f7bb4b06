//! What a chair knows of the list of its turn's value.

use std::collections::LinkedList;

/// What a chair knows of the list of its turn's value. For contracts alone: no `View` is ever made.
/// A chair that is split off another begins with `seen`, `reported` and `met` of that chair.
pub struct View<E> {
    /// The shares that the chair holds.
    pub shares: [bool; 16],
    /// The entries that were made under these shares; those under one share are in the list's
    /// order.
    pub calls: LinkedList<E>,
    /// The prefix of the list that the chair has seen.
    pub seen: LinkedList<E>,
    /// The greatest length of the list that the chair, or one that it took over, has read; 0 if
    /// none was read.
    pub reported: u64,
    /// Whether the chair has the turn, which is the lock.
    pub holds: bool,
    /// The two lists seen before this chair's last join: by this chair, and by the chair that it
    /// took over. Both are empty if there was no join.
    pub met: (LinkedList<E>, LinkedList<E>),
}
