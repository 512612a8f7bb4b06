//! Two bits as one register. To call `TwoBits::new`: `use own_register::{NewTwoBits, TwoBits};`
//!
//! An example of a construction of your own: docs/guide/own-register.md goes through it.
#![tactic(auto)]

pub mod laws;
mod rules;
pub mod task;

pub use rules::{NewTwoBits, TwoBits, TwoBitsRules};
