//! Refusals, each with its number and name.

ghost use Rattle.std.specs.Prelude.{◌≡◌};
ghost use Rattle.branch_terms.specs.Refusals as spec;

use std::alloc::AllocError;
use std::fmt;
use thiserror::Error;

/// Why a call is refused. Each refusal has its own number, which never changes, and a name.
#[derive(Clone, Copy, Debug, PartialEq, Eq, Error)]
pub enum Refusal {
    /// No branch has this name.
    NoBranch,
    /// There is already a branch with the new branch's name.
    NameTaken,
    /// The new name isn't a lower-case letter followed by at most 15 lower-case letters or digits.
    BadName,
    /// The place is greater than the branch's length; or a cell is to be removed or replaced, and
    /// the branch has no cell at the place.
    NoPlace,
    /// The number of cells ever made would exceed its limit.
    Full,
    /// The branch to be dropped is the only one.
    LastBranch,
    /// The number of branches is at its limit.
    TooManyBranches,
    /// The step doesn't fit the register: there is no such process, value or choice, or the process
    /// may not write or may not read.
    BadStep,
    /// A cursor is on the branch to be dropped.
    Occupied,
    /// The break to be cleared isn't set.
    NoBreak,
    /// There is no such session, or it hasn't joined.
    NoSession,
    /// The command's guard, a number of edits, isn't the number of edits so far. The field is the
    /// number of edits so far.
    Newer(u64),
    /// The number of logged commands is at its limit.
    LogFull,
    /// A line of a script can't be read as a call.
    BadLine,
    /// Out of memory.
    Memory,
}

impl Refusal {
    /// The refusal's number, which no other variant has.
    pub fn number(self) -> u32
        ensures { result ≡ spec.refusal_number self }
    {
        self.number_and_name().0
    }

    /// The refusal's name, which is spelled like the variant.
    pub fn name(self) -> &'static str
        ensures { result.now ≡ spec.refusal_name self }
    {
        self.number_and_name().1
    }

    /// The refusal's number and its name.
    fn number_and_name(self) -> (u32, &'static str)
        ensures number { result.0 ≡ spec.refusal_number self }
        ensures name { result.1.now ≡ spec.refusal_name self }
    {
        match self {
            Refusal::NoBranch => (20, "NoBranch"),
            Refusal::NameTaken => (21, "NameTaken"),
            Refusal::BadName => (22, "BadName"),
            Refusal::NoPlace => (23, "NoPlace"),
            Refusal::Full => (24, "Full"),
            Refusal::LastBranch => (25, "LastBranch"),
            Refusal::TooManyBranches => (26, "TooManyBranches"),
            Refusal::BadStep => (30, "BadStep"),
            Refusal::Occupied => (31, "Occupied"),
            Refusal::NoBreak => (32, "NoBreak"),
            Refusal::NoSession => (33, "NoSession"),
            Refusal::Newer(_) => (34, "Newer"),
            Refusal::LogFull => (35, "LogFull"),
            Refusal::BadLine => (36, "BadLine"),
            Refusal::Memory => (40, "Memory"),
        }
    }
}

impl From<AllocError> for Refusal {
    ghost use Rattle.branch_terms.specs.declared.refusal.Refusal.TheVariants.{Memory};

    ghost from_gives = { λ _ e. e ≡ Memory };

    fn from(_e: AllocError) -> Refusal {
        Refusal::Memory
    }
}

impl fmt::Display for Refusal {
    ghost use Rattle.std.specs.Prelude.{Some};

    ghost output = { λ r. Some (spec.refusal_display r) };

    fn fmt<W: fmt::Write>(&self, f: &mut fmt::Formatter<W>) -> fmt::Result {
        let (number, name) = self.number_and_name();
        write!(f, "{number} {name}")
    }
}
