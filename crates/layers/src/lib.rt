//! Constructions of registers from registers. An operation of a layer makes operations on the
//! layer's parts, the registers below it, one after another. One register type, `Layered`, serves
//! every construction over any register.
#![tactic(auto)]

pub mod construction;
mod drive;
pub mod fit;
pub mod laws;
pub mod layered;
pub mod nested;
pub mod prelude;

pub use construction::{Construction, Rules, Shape};
pub use fit::LayerError;
pub use layered::Layered;
pub use nested::{Ask, Continuation, Nested};
