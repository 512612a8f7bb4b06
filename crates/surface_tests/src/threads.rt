//! Turns, crews and desks.

mod crews;
pub(crate) mod desks;
mod turns;
