//! A crew runs jobs: the caller and its thieves (other threads) take the jobs from one deque. In
//! particular, a crew can run the jobs of a chart's plan, which are segments to replay.
#![tactic(auto)]

mod alone;
mod crew;
pub mod gate;
mod hand;
pub mod job;
mod segment;
mod slots;
mod thief;

pub use crew::Crew;
pub use gate::{Gate, NoGate};
pub use job::{Done, JobOutcome};
