//! Tests of branches that share their steps, of charts over them, and of books of sessions. They
//! test facts that no contract states.
//!
//! This crate is above the crates that it tests, so that none of them is proved again for its
//! tests.
#![tactic(auto)]

#[cfg(test)]
mod books;
#[cfg(test)]
mod branches;
#[cfg(test)]
mod charts;
#[cfg(test)]
mod given;
