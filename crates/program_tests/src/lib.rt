//! Tests of the crates that the program calls. This crate is above the crates that it tests, so
//! that none of them is proved again for its tests.
#![tactic(auto)]

#[cfg(test)]
mod command_lines;
#[cfg(test)]
mod conversations;
#[cfg(test)]
mod workbench;
