//! Looks: what a place of a branch shows, as a page.
//!
//! To show a place, a look uses the stored runs that fit the branch's steps up to that place, and
//! replays only the segments that no stored run fits. The page is the same as if all steps up to
//! the place were replayed from the register's initial value.
#![tactic(auto)]

pub mod branches;
mod digest;
pub mod laws;
pub mod lens;
mod run_place;
pub mod slip;
pub mod spot;

pub use lens::Lens;
pub use pages::{Break, Listed, Page, Query, breakpoint, listed, page, page_text, query, verdict};
pub use slip::Slip;
