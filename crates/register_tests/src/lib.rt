//! Tests of registers, of their steps and files, and of the search for all answers. This crate is
//! above the crates that it tests, so that none of them is proved again for its tests.
#![tactic(auto)]

#[cfg(test)]
mod bench_files;
#[cfg(test)]
mod built_towers;
#[cfg(test)]
mod configurations;
#[cfg(test)]
mod easiest_schedules;
#[cfg(test)]
mod file_checks;
#[cfg(test)]
mod questions;
#[cfg(test)]
mod replays;
#[cfg(test)]
mod steps;
#[cfg(test)]
mod stores;
#[cfg(test)]
mod tower_files;
