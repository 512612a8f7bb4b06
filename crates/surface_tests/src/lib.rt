//! Calls each public function once, by its path and with its parameters, as a reader's own crate
//! would. The register `Switch` has only the eleven methods that a register must have. It is used
//! alone and below each layer, in a configuration, a chart, a book and a desk, and a script is
//! served at that desk.
#![tactic(auto)]

#[cfg(test)]
mod branches;
#[cfg(test)]
mod programs;
#[cfg(test)]
mod registers;
#[cfg(test)]
mod threads;
