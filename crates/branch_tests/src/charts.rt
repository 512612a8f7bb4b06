//! Tests of charts on one safe bit.

mod counting;
mod installs;
mod late;
mod lenses;
mod out_of_memory;
mod replay_counts;
pub(crate) mod single;
mod steps;
