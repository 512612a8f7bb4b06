//! All answers: which answers the schedules of given operations have, each with a shortest
//! schedule.
#![tactic(auto)]

mod cycles;
mod done;
mod draft;
pub mod find;
pub mod fits;
pub mod found;
pub mod key;
pub mod moves;
pub mod outcomes;
mod packing;
pub mod question;
pub mod state;
mod tidy;
