//! Terms of branches: their names and cells, limits, refusals, and limbs, which are branches as a
//! file stores them. `specs/` has the forest of branches, and the effect of each edit on it.
#![tactic(auto)]

pub mod limb;
pub mod limits;
pub mod listed;
pub mod name;
pub mod refusal;
pub mod slot;

pub use limb::{Limb, Limbs, Steps};
pub use limits::Limits;
pub use listed::Listed;
pub use name::Name;
pub use refusal::Refusal;
pub use slot::Slot;
