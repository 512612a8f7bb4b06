//! Replay: making steps one after another, from the initial configuration or from a segment's
//! entry, the configuration before its steps.
#![tactic(auto)]

pub mod events;
mod mark;
mod replaying;
pub mod run;
mod stored_event;

pub use events::{EventWalk, Events};
pub use replaying::{Replayed, replay};
pub use run::{Run, run_segment};
