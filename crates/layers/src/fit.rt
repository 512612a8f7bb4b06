//! Which registers a layer can be built on.

ghost use Rattle.std.specs.Prelude.{◌≡◌, ◌*◌, ◌<◌, ◌≤◌, MatchResult, OnOk, Some, None};
ghost use Rattle.layers.specs.Sound.{FitsBelow};
ghost use Rattle.layers.specs.Fit.{refusal_below, error_number_and_name, layer_error_number, layer_error_display};

use crate::construction::Construction;
use frames::limits::{LEAST_PROCESSES, LEAST_VALUES, MOST_PROCESSES};
use frames::register::{MOST_CELLS, MOST_WORDS, Register};
use frames::types::STACK_FRAMES;
use std::fmt;
use thiserror::Error;

/// Why a layer can't be built on the register below.
#[derive(Clone, Copy, Debug, PartialEq, Eq, Error)]
pub enum LayerError {
    /// One of the layer's numbers, such as that of its values, is outside its limits; or the
    /// register below doesn't have the values and processes that the parts need; or the register
    /// below has depth 8, so that no frame is left for the layer.
    BadSize,
    /// The layer would have more than 4,096 cells or 65,536 words.
    TooManyBits,
}

impl LayerError {
    /// The refusal's number: 1 for `BadSize`, 2 for `TooManyBits`.
    pub fn number(self) -> u32
        ensures { result ≡ layer_error_number self }
    {
        self.number_and_name().0
    }

    /// The refusal's number and its name, which is spelled like the variant.
    fn number_and_name(self) -> (u32, &'static str)
        ensures number { result.0 ≡ (error_number_and_name self).0 }
        ensures name { result.1.now ≡ (error_number_and_name self).1 }
    {
        match self {
            LayerError::BadSize => (1, "BadSize"),
            LayerError::TooManyBits => (2, "TooManyBits"),
        }
    }
}

impl fmt::Display for LayerError {
    ghost use Rattle.std.specs.Prelude.{Some};

    ghost output = { λ e. Some (layer_error_display e) };

    fn fmt<W: fmt::Write>(&self, f: &mut fmt::Formatter<W>) -> fmt::Result {
        let (number, name) = self.number_and_name();
        write!(f, "{number} {name}")
    }
}

/// `Ok` if the layer can be built on the register below. Refused as `BadSize` if the layer has
/// fewer than 2 values or doesn't have 2 to 5 processes, or if the register below has depth 8 or
/// doesn't have the values and processes that the layer's parts need; otherwise refused as
/// `TooManyBits` if the layer would have more than 4,096 cells or 65,536 words.
pub fn fits_below<L: Construction, S: Register>(layer: &L, below: &S) -> Result<(), LayerError>
    ensures refusal { MatchResult result
        (λ _. refusal_below (L.table layer.now) (S.behaviour below.now)
        ≡ None) (λ e. refusal_below (L.table layer.now) (S.behaviour below.now) ≡ Some e) }
    ensures fit { OnOk result (FitsBelow (L.table layer.now) (S.behaviour below.now)) }
{
    let shape = layer.shape();
    let few = shape.values < LEAST_VALUES || shape.processes < LEAST_PROCESSES;
    if few || shape.processes > MOST_PROCESSES {
        return Err(LayerError::BadSize);
    }
    if below.values() != shape.inner_values
        || below.processes() != shape.inner_processes
        || below.depth() as usize >= STACK_FRAMES
    {
        return Err(LayerError::BadSize);
    }
    let size = below.size();
    let parts = u64::from(shape.parts);
    let cells = parts * u64::from(size.cell);
    let words = parts * u64::from(size.word) + u64::from(shape.words);
    if cells > u64::from(MOST_CELLS) || words > u64::from(MOST_WORDS) {
        return Err(LayerError::TooManyBits);
    }
    Ok(())
}
