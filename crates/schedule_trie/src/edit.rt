//! Edits of branches, as data.

use branch_terms::name::Name;
use branch_terms::refusal::Refusal;
use schedule_steps::types::Step;

/// The result of an edit: why it is refused, if it is.
pub type Edited = Result<(), Refusal>;

/// An edit of the branch with the first name; the place is a place of that branch.
#[derive(Clone, Copy, Debug)]
pub enum Edit<'a> {
    /// Adds a cell with this step before the cell that is at the place, if any.
    Insert(&'a Name, u32, Step),
    /// Removes the cell at the place.
    Remove(&'a Name, u32),
    /// Replaces the step of the cell at the place by this step.
    Replace(&'a Name, u32, Step),
    /// Adds a branch with the second name that shares the cells before the place.
    Fork(&'a Name, u32, &'a Name),
    /// Gives the branch new cells, shared with no other branch, that have the same steps.
    Detach(&'a Name),
    /// Drops the branch.
    Drop(&'a Name),
}
