//! The six towers: a safe bit, copies of a safe bit for several readers, a regular bit, a unary
//! number, a stamped register, and a matrix of stamped registers for several writers.
#![tactic(auto)]

pub mod laws;
mod unary_tower;

ghost use Rattle.std.specs.Prelude.{◌≡◌, ◌<◌, ◌≤◌, ◌+◌, ◌*◌, ℕ};
ghost use Rattle.frames.specs.declared.limits.TheConstants.{LEAST_PROCESSES, LEAST_VALUES, MOST_READERS, MOST_VALUES, MOST_WRITERS};
ghost use Rattle.frames.specs.declared.register.TheConstants.{MOST_CELLS};
ghost use Rattle.frames.specs.OneWriter.{HasOneWriter};
ghost use Rattle.frames.specs.SafeBit.{safe_behaviour};
ghost use Rattle.towers.specs.Towers.{copies_tower, regular_tower, unary_tower, stamped_tower, matrix_tower};

use frames::register::Behaves;
use frames::safe::Safe;
use matrix::{Matrix, NewMatrix};
use reader_copies::{Copies, NewCopies};
use regular_bit::{NewRegularBit, RegularBit};
use stamped::{NewStamped, Stamped};
use unary_number::{NewUnary, Unary};
pub use unary_tower::UnaryTower;

/// Copies of a safe bit, one for each reader.
pub type CopiesTower = Copies<Safe>;

/// A regular bit over copies of a safe bit.
pub type RegularTower = RegularBit<CopiesTower>;

/// A stamped register, which is atomic, over a unary number.
pub type StampedTower = Stamped<UnaryTower>;

/// A matrix of stamped registers, for several writers.
pub type MatrixTower = Matrix<StampedTower>;

/// Returns copies of a safe bit, one for each of `readers` readers; `readers` must be 1 to 4. They
/// behave as `copies_tower readers` does.
pub fn copies(readers: u32) -> CopiesTower
    requires some { 1 ≤ readers }
    requires few { readers ≤ MOST_READERS }
    ensures { ⟦<CopiesTower as Behaves>⟧.behaviour result ≡ copies_tower readers }
{
    Copies::new(Safe, readers).unwrap()
}

/// Returns a regular bit over copies for `readers` readers, which must be 1 to 4. It behaves as
/// `regular_tower readers` does.
pub fn regular(readers: u32) -> RegularTower
    requires some { 1 ≤ readers }
    requires few { readers ≤ MOST_READERS }
    ensures { ⟦<RegularTower as Behaves>⟧.behaviour result ≡ regular_tower readers }
{
    RegularBit::new(copies(readers)).unwrap()
}

/// Returns a unary number for the values 0 to `values` - 1, over regular bits for `readers`
/// readers. `values` must be 2 to 512, and `readers` 1 to 4. It behaves as
/// `unary_tower values readers` does.
pub fn unary(values: u32, readers: u32) -> UnaryTower
    requires two { LEAST_VALUES ≤ values }
    requires most { values ≤ MOST_VALUES }
    requires some { 1 ≤ readers }
    requires few { readers ≤ MOST_READERS }
    ensures { ⟦<UnaryTower as Behaves>⟧.behaviour result ≡ unary_tower values readers }
{
    UnaryTower {
        layers: Unary::new(regular(readers), values).unwrap(),
    }
}

/// Returns a stamped register for one reader, with the values 0 to `values` - 1 and stamps up to
/// `last`. `values` must be 2 to 512, and `last` at most 511. A code is one number for a stamp and
/// a value. The number of codes, `(last + 1) * values`, must be at most 512. The stamped register
/// is over a unary number whose values are these codes. The stamped register behaves as
/// `stamped_tower values last` does.
pub fn stamped(values: u32, last: u32) -> StampedTower
    requires two { LEAST_VALUES ≤ values }
    requires few { values ≤ MOST_VALUES }
    requires stamps { last < MOST_VALUES }
    requires most { (last + 1) * values ≤ MOST_VALUES }
    ensures { ⟦<StampedTower as Behaves>⟧.behaviour result ≡ stamped_tower values last }
{
    let codes = unary((last + 1) * values, 1);
    Stamped::new(codes, values, last).unwrap()
}

/// Returns a matrix for `processes` processes, which must be 2 to 4, with 2 to 512 values, tags up
/// to `tag`, and stamps up to `stamp`; `tag` and `stamp` must be at most 511. The matrix is over
/// `processes * processes` stamped registers. Each stamped register has
/// `(stamp + 1) * (tag + 1) * processes * values` bits, one for each of its codes. This number must
/// be at most 512, and all stamped registers together may have at most 4,096 bits. The matrix
/// behaves as `matrix_tower processes values tag stamp` does.
pub fn matrix(processes: u32, values: u32, tag: u32, stamp: u32) -> MatrixTower
    requires two { LEAST_PROCESSES ≤ processes }
    requires four { processes ≤ MOST_WRITERS }
    requires some { LEAST_VALUES ≤ values }
    requires few { values ≤ MOST_VALUES }
    requires tags { tag < MOST_VALUES }
    requires stamps { stamp < MOST_VALUES }
    requires most { (stamp + 1) * ((tag + 1) * processes * values) ≤ MOST_VALUES }
    requires cells { processes * processes * ((stamp + 1) * ((tag + 1) * processes * values))
        ≤ MOST_CELLS }
    ensures { ⟦<MatrixTower as Behaves>⟧.behaviour result
        ≡ matrix_tower processes values tag stamp }
{
    let part = stamped((tag + 1) * processes * values, stamp);
    Matrix::new(part, processes, values, tag).unwrap()
}

/// Each of the five towers other than the matrix has one writer: only process 0 writes, and only
/// the other processes read. This is so for any numbers of values, readers and stamps.
pub fn have_one_writer()
    ensures safe { HasOneWriter safe_behaviour }
    ensures copies { (readers : ℕ) → HasOneWriter (copies_tower readers) }
    ensures regular { (readers : ℕ) → HasOneWriter (regular_tower readers) }
    ensures unary { (values : ℕ) (readers : ℕ) → HasOneWriter (unary_tower values readers) }
    ensures stamped { (values : ℕ) (last : ℕ) → HasOneWriter (stamped_tower values last) }
{}
