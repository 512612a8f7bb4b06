//! The error of `Turn::close`, for a chair that lacks a share.

ghost use Rattle.std.specs.Prelude.{◌≡◌};

use std::fmt;
use thiserror::Error;

/// Why `Turn::close` is refused: the chair lacks at least one of the turn's 16 shares.
#[derive(Clone, Copy, Debug, PartialEq, Eq, Error)]
pub struct ChairsOut;

impl ChairsOut {
    /// The number of this refusal, which is 50.
    pub fn number(self) -> u32
        ensures { result ≡ 50 }
    {
        50
    }
}

impl fmt::Display for ChairsOut {
    ghost use Rattle.std.specs.Prelude.{Some, ◌++◌, codes};
    ghost use Rattle.std.specs.Fmt.{decimal};

    ghost output = { λ _. Some (decimal 50 ++ codes " ChairsOut") };

    fn fmt<W: fmt::Write>(&self, f: &mut fmt::Formatter<W>) -> fmt::Result {
        write!(f, "{} ChairsOut", self.number())
    }
}
