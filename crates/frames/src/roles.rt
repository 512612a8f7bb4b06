//! Which steps fit a register. This depends on the number of processes, and on the operations that
//! fit each process.

ghost use Rattle.std.specs.Prelude.{◌≡◌};
ghost use Rattle.frames.specs.Fitting.{Roles, fits_roles};

use crate::register::Register;
use crate::types::{Op, Step};

/// A register, or a description of a register, that has a number of processes and says which
/// operations fit each process.
pub trait HasRoles {
    // The number of processes, and which operations fit each process.
    ghost roles: { Self → Roles };

    /// The number of processes. The processes are 0 to one less than this number.
    fn process_count(&self) -> u64
        ensures { result ≡ (roles self.now).processes };

    /// Whether operation `op` fits process `who`.
    fn suits(&self, who: u32, op: Op) -> bool
        ensures { result ≡ (roles self.now).suits who op };
}

impl<R: Register> HasRoles for R {
    ghost use Rattle.frames.specs.Fitting.{roles_of};

    ghost roles = { λ r. roles_of (R.behaviour r) };

    fn process_count(&self) -> u64 {
        u64::from(self.processes())
    }

    fn suits(&self, who: u32, op: Op) -> bool {
        self.fits(who, op)
    }
}

/// Whether a step fits `register`, which is a register or the description of one. An invocation
/// fits if its operation fits its process; for a write, this can depend on the value. A bit action
/// fits if its process exists and the choice is 0 or 1. A stop fits if its process exists.
pub fn step_fits<T: HasRoles>(register: &T, step: Step) -> bool
    ensures { result ≡ fits_roles (T.roles register.now) step }
{
    match step {
        Step::Write { p, v } => register.suits(p, Op::Write(v)),
        Step::Read { p } => register.suits(p, Op::Read),
        Step::Go { p, c } => u64::from(p) < register.process_count() && c < 2,
        Step::Stop { p } => u64::from(p) < register.process_count(),
    }
}
