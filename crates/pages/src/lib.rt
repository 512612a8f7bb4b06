//! Pages as data and as text, the verdicts and the breaks. A page shows a configuration, the events
//! that steps recorded, or a list; nothing here depends on how these are found.
#![tactic(auto)]

pub mod breakpoint;
pub mod laws;
pub mod page;
pub mod query;
pub mod verdict;

pub use branch_terms::listed::{self, Listed};
pub use breakpoint::Break;
pub use page::{Page, page_text};
pub use query::Query;
