//! Branches of a schedule that share their steps.
//!
//! A branch is a list of cells, each of which has a number and holds one step. New cells are
//! numbered in the order in which they are made, from 0 on; no number is ever used again. Two
//! branches with a common cell have the same cells up to that cell.
#![tactic(auto)]

mod branch_list;
pub mod edit;
mod mark;
mod note;
mod segment;
pub mod trie;

pub use branch_terms::limb::{self, Limb, Limbs, Steps};
pub use branch_terms::limits::{self, Limits};
pub use branch_terms::listed::{self, Listed};
pub use branch_terms::name::{self, Name};
pub use branch_terms::refusal::{self, Refusal};
pub use branch_terms::slot::{self, Slot};
pub use edit::Edit;
pub use segment::SegKey;
pub use trie::Trie;
