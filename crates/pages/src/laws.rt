//! The law of registers with many writers, in words.

ghost use Rattle.std.specs.Prelude.{◌≡◌, ℕ, List};
ghost use Rattle.frames.specs.correctness.Ranks.{HasRanks, IsAtomicForMany};
ghost use Rattle.frames.specs.declared.types.Event.{Event};
ghost use Rattle.pages.specs.Linearizability.{HasLinearization, IsLinearizable};
ghost use Rattle.pages.specs.VerdictWords.{IsWellFormed};

use frames::register::Register;

/// A register that is atomic for many processes is linearizable (Herlihy and Wing 1990): on every
/// schedule the returned operations and some of the pending writes can be put in one order, such
/// that an operation that returned before another was invoked comes before it, and each read gives
/// the value of the last write before it, or the initial value if there is none.
pub fn linearizable<R: Register>(register: &R)
    requires { IsAtomicForMany (R.behaviour register.now) }
    ensures { IsLinearizable (R.behaviour register.now) }
{}

/// If the operations of a history can be given ranks, then the history has a linearization. If the
/// history is well-formed, the converse holds too.
pub fn linearized()
    ensures linear { (initial : ℕ) (history : List (ℕ × Event)) → HasRanks initial history
        → HasLinearization initial history }
    ensures ranked { (initial : ℕ) (history : List (ℕ × Event)) → IsWellFormed history
        → HasLinearization initial history → HasRanks initial history }
{}
