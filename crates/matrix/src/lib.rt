//! A matrix. To call `Matrix::new`: `use matrix::{Matrix, NewMatrix};`
//!
//! It is a register of many writers: a square of registers, each written by one process and read by
//! one.
#![tactic(auto)]

pub mod laws;
mod rules;
pub mod task;

pub use rules::{Matrix, MatrixRules, NewMatrix};
