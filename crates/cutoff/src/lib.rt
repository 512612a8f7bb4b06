//! Charts: a schedule's branches, cut into segments, with stored runs. A run of a segment is its
//! replay: its steps, the configurations before and after them, and their events. So reaching a
//! place of a branch replays only segments that have no stored run, or whose steps or entry an edit
//! changed.
//!
//! An edit keeps the stored run of each segment that it doesn't change, cut or drop. Whether a
//! stored run still fits is tested only when the run is needed.
#![tactic(auto)]

pub mod chart;
mod check;
mod climb;
mod found_fits;
pub mod install;
mod known;
pub mod laws;
mod number;
pub mod plan;
mod prefix;
pub mod runs;
mod segment;
pub mod settle_rest;
mod stored;

pub use chart::Chart;
pub use install::Installation;
pub use plan::Job;
pub use runs::{Runs, Spot};
pub use settle_rest::SettledLast;
