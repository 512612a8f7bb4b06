//! The names that the rules of a construction need, for `use layers::prelude::*`.

pub use crate::construction::{Construction, Rules, Shape, one_writer};
pub use crate::fit::LayerError;
pub use crate::layered::Layered;
pub use crate::nested::{Ask, Continuation};
pub use frames::limits::{LEAST_PROCESSES, LEAST_VALUES, MOST_READERS, MOST_VALUES, MOST_WRITERS};
pub use frames::register::{Behaves, Register};
pub use frames::types::{Frame, FrameLayer, Layer, LayerName, Op, Outcome};
pub use safe_bit::Store;
