//! Registers, the safe bit, configurations, and the steps of a schedule.
#![tactic(auto)]

pub mod config;
pub mod flat;
pub mod laws;
pub mod limits;
mod own;
pub mod register;
pub mod roles;
pub mod running;
pub mod safe;
pub mod types;
pub mod verdict;

pub use config::Config;
pub use flat::FlatStack;
pub use register::{Behaves, Register};
pub use safe::{Safe, SafePoint};
pub use types::{
    Action, ActionKind, Event, Frame, FrameLayer, Layer, LayerName, Next, Op, Outcome, Progress,
    Reason, Stack, Step, StepEvents, Turned,
};
