//! The options of the program, from its command line.

ghost use Rattle.std.specs.Prelude.{◌≡◌};
ghost use Rattle.command_line.specs.Ranges.{limits_of};

use branch_terms::limits::Limits;

/// The most commands that are logged.
const MOST_LOGGED: u32 = 1 << 20;

/// The options of the program.
#[derive(Clone, Copy, Debug, PartialEq, Eq)]
pub struct Options {
    /// How many threads help with fills (storing runs before looks need them), 0 to 4.
    pub workers: u32,
    /// How many cells may be made in all, 1 to 2^28.
    pub cells: u32,
    /// How many branches there may be at a time, 1 to 1,024.
    pub branches: u32,
}

impl Options {
    /// The limits on cells and branches that these options set, and the fixed limit on the log,
    /// which is 1,048,576 commands.
    pub fn limits(self) -> Limits
        ensures { result ≡ limits_of self }
    {
        Limits {
            cells: self.cells,
            branches: self.branches,
            log: MOST_LOGGED,
        }
    }
}
