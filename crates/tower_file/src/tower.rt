//! Towers of six kinds: how many values and processes a tower has, whether it is lawful, and which
//! steps fit it.

ghost use Rattle.std.specs.Prelude.{◌≡◌, ◌<◌, ◌≤◌};
ghost use Rattle.frames.specs.declared.limits.TheConstants.{LEAST_VALUES, MOST_READERS, MOST_VALUES, MOST_WRITERS};
ghost use Rattle.tower_file.specs.Towers as spec;

use frames::limits::{LEAST_PROCESSES, LEAST_VALUES, MOST_READERS, MOST_VALUES, MOST_WRITERS};
use frames::register::MOST_CELLS;
use frames::roles::{HasRoles, step_fits};
use frames::types::{Op, Step};

/// A tower: its kind, and the numbers that its line in a file gives.
#[derive(Clone, Copy, Debug, PartialEq, Eq)]
pub enum TowerSpec {
    /// A safe bit.
    Safe {
        init: u32,
    },
    /// Copies of a safe bit, one for each reader.
    Copies {
        readers: u32,
        init: u32,
    },
    /// A regular bit.
    Regular {
        readers: u32,
        init: u32,
    },
    /// A unary number: a register of `values` values, made of one regular bit for each value.
    Unary {
        values: u32,
        readers: u32,
        init: u32,
    },
    /// A stamped register, with stamps 0 to `last`.
    Stamped {
        values: u32,
        last: u32,
    },
    /// A matrix of stamped registers, with tags 0 to `last_tag` and stamps 0 to `last_stamp`.
    Matrix {
        processes: u32,
        values: u32,
        last_tag: u32,
        last_stamp: u32,
    },
}

impl TowerSpec {
    /// How many values the tower has.
    fn values(&self) -> u32
        ensures { result ≡ spec.values_of self.now }
    {
        match self {
            TowerSpec::Safe { .. } | TowerSpec::Copies { .. } | TowerSpec::Regular { .. } => 2,
            TowerSpec::Unary { values, .. }
            | TowerSpec::Stamped { values, .. }
            | TowerSpec::Matrix { values, .. } => *values,
        }
    }

    /// Whether each number of the tower is in its range, and the tower isn't too large: a stamped
    /// register or a matrix has at most 512 codes, and a matrix has at most 4,096 bits.
    pub fn is_lawful(&self) -> bool
        ensures { result ≡ spec.is_lawful_tower self.now }
    {
        match *self {
            TowerSpec::Safe { init } => init < 2,
            TowerSpec::Copies { readers, init } | TowerSpec::Regular { readers, init } => {
                is_reader_count(readers) && init < 2
            }
            TowerSpec::Unary {
                values,
                readers,
                init,
            } => is_value_count(values) && is_reader_count(readers) && init < values,
            TowerSpec::Stamped { values, last } => {
                is_value_count(values) && last < MOST_VALUES && (last + 1) * values <= MOST_VALUES
            }
            TowerSpec::Matrix {
                processes,
                values,
                last_tag,
                last_stamp,
            } => {
                is_between(LEAST_PROCESSES, MOST_WRITERS, processes)
                    && is_value_count(values)
                    && last_tag < MOST_VALUES
                    && last_stamp < MOST_VALUES
                    && is_small_matrix(processes, values, last_tag, last_stamp)
            }
        }
    }

    /// Whether a step fits the tower: its process exists and may make such a step, a value to be
    /// written is one of the tower's values, and a choice is 0 or 1.
    pub fn fits(&self, step: Step) -> bool
        ensures { result ≡ spec.fits self.now step }
    {
        step_fits(self, step)
    }
}

impl HasRoles for TowerSpec {
    ghost use Rattle.tower_file.specs.Towers.{roles};

    ghost roles = { roles };

    fn process_count(&self) -> u64 {
        match self {
            TowerSpec::Safe { .. } | TowerSpec::Stamped { .. } => 2,
            TowerSpec::Copies { readers, .. }
            | TowerSpec::Regular { readers, .. }
            | TowerSpec::Unary { readers, .. } => u64::from(*readers) + 1,
            TowerSpec::Matrix { processes, .. } => u64::from(*processes),
        }
    }

    // In a matrix each process writes and reads; in any other tower process 0 writes, and the
    // other processes read.
    fn suits(&self, who: u32, op: Op) -> bool {
        let values = self.values();
        let processes = self.process_count();
        let who = u64::from(who);
        match (self, op) {
            (TowerSpec::Matrix { .. }, Op::Write(v)) => who < processes && v < values,
            (TowerSpec::Matrix { .. }, Op::Read) => who < processes,
            (_, Op::Write(v)) => who == 0 && v < values && 0 < processes,
            (_, Op::Read) => 1 <= who && who < processes,
        }
    }
}

/// Whether `n` is at least `least` and at most `most`.
fn is_between(least: u32, most: u32, n: u32) -> bool
    ensures { result ≡ spec.is_between least most n }
{
    least <= n && n <= most
}

/// Whether a tower may have `readers` readers.
fn is_reader_count(readers: u32) -> bool
    ensures { result ≡ spec.is_between 1 MOST_READERS readers }
{
    is_between(1, MOST_READERS, readers)
}

/// Whether a tower may have `values` values.
fn is_value_count(values: u32) -> bool
    ensures { result ≡ spec.is_between LEAST_VALUES MOST_VALUES values }
{
    is_between(LEAST_VALUES, MOST_VALUES, values)
}

/// Whether a matrix whose numbers are in their ranges has at most 512 codes and at most 4,096 bits.
fn is_small_matrix(processes: u32, values: u32, last_tag: u32, last_stamp: u32) -> bool
    requires processes { processes ≤ MOST_WRITERS }
    requires values { values ≤ MOST_VALUES }
    requires last_tag { last_tag < MOST_VALUES }
    requires last_stamp { last_stamp < MOST_VALUES }
    ensures { result ≡ spec.is_small_matrix processes values last_tag last_stamp }
{
    let codes = (last_stamp + 1) * (last_tag + 1) * processes * values;
    codes <= MOST_VALUES && processes * processes * codes <= MOST_CELLS
}
