//! The commands of a session.

use frames::types::Step;
use schedule_trie::name::Name;
use views::breakpoint::Break;

/// A command. `b` is the name of a branch, and `k` the place after this branch's first `k` steps.
/// The cell at a place is the one that follows the place.
#[derive(Clone, Copy, Debug, PartialEq, Eq)]
pub enum Command {
    /// The session begins, without breaks and with its cursor at the beginning of the first branch.
    Join,
    /// The session ends.
    Leave,
    /// Adds a cell with this step at the place, before the cell that is there, if any.
    Insert { b: Name, k: u32, step: Step },
    /// Removes the cell at the place.
    Remove { b: Name, k: u32 },
    /// Gives the cell at the place another step.
    Replace { b: Name, k: u32, step: Step },
    /// Adds, after all other branches, a branch called `name` that shares the cells of `b` before
    /// the place.
    Fork { b: Name, k: u32, name: Name },
    /// Gives the branch new cells, shared with no other branch, that have the same steps.
    Detach { b: Name },
    /// Drops the branch.
    Drop { b: Name },
    /// Moves the cursor to the place.
    Go { b: Name, k: u32 },
    /// Moves the cursor forward to the nearest place at which a break of the session is met.
    Seek,
    /// Moves the cursor back to the nearest place at which a break of the session is met.
    Back,
    /// Sets a break of the session.
    Break(Break),
    /// Removes a break of the session.
    Clear(Break),
}
