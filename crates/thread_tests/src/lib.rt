//! Tests of the turn, the crew and the desk by their public calls, with two threads or more. This
//! crate is above the crates that it tests, so that none of them is proved again for its tests.
#![tactic(auto)]

#[cfg(test)]
mod crews;
#[cfg(test)]
mod desks;
#[cfg(test)]
mod flags;
#[cfg(test)]
mod turns;
