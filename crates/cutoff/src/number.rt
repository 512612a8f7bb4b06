//! Numbers of stored runs.

ghost use Rattle.std.specs.Prelude.{◌≡◌, ◌<◌, ◌≤◌, ◌⊎◌, ◌+◌, ◌-◌, ◌^◌, ℕ, Some, None, is_some, false};
ghost use Rattle.std.specs.Bool.{Decides};
ghost use Rattle.std.specs.Option.{option_or};

use std::alloc::AllocError;
use std::marker::Model;

/// The number of a stored run, or no number, in one word. In contracts it is an option of a number.
/// With two values of type `Option<u64>`, each segment would be one word larger than it is.
#[derive(Drop)]
pub(crate) struct RunNumber {
    // `u64::MAX` means no number
    word: u64,
}

impl Model for RunNumber {
    ghost use Rattle.std.specs.Prelude.{ℕ, Option};

    ghost Value = { Option ℕ };

    ghost use Rattle.cutoff.specs.Numbers.{number_of_word, word_of_number};

    ghost view = { λ n. number_of_word n.word };

    ghost inverse = { λ o. record { word = word_of_number o } };
}

impl Copy for RunNumber {}

impl Clone for RunNumber {
    ghost is_clone = { λ number copy. copy ≡ number };

    fn clone(&self) -> Result<RunNumber, AllocError> {
        Ok(*self)
    }
}

impl RunNumber {
    /// No number.
    #[inline(always)]
    pub(crate) fn none() -> RunNumber
        ensures { result ≡ None }
    {
        RunNumber { word: u64::MAX }
    }

    /// This number, which has to be less than the greatest word: that one means no number.
    #[inline(always)]
    pub(crate) fn of(number: u64) -> RunNumber
        requires { number < 2 ^ 64 - 1 }
        ensures { result ≡ Some number }
    {
        RunNumber { word: number }
    }

    /// The number that `take_number` returns next, without taking it; no number if all are used.
    pub(crate) fn peek(next: u64) -> RunNumber
        ensures { (result ≡ None) ⊎ (result ≡ Some next) }
    {
        RunNumber { word: next }
    }

    /// Whether there is a number.
    #[inline(always)]
    pub(crate) fn is_some(self) -> bool
        ensures { result ≡ is_some self }
    {
        self.word != u64::MAX
    }

    /// Whether both are numbers, and this one is at least `first`.
    #[inline(always)]
    pub(crate) fn is_from(self, first: RunNumber) -> bool
        ensures { Decides result
            ((a : ℕ) × (b : ℕ) × (self ≡ Some a) × (first ≡ Some b) × (b ≤ a)) }
    {
        // `first` is tested first: it is the same in a whole climb, so that it is tested once.
        first.word != u64::MAX && self.word != u64::MAX && first.word <= self.word
    }

    /// This number; `other` if it is none.
    pub(crate) fn or(self, other: RunNumber) -> RunNumber
        ensures { result ≡ option_or self other }
    {
        if self.is_some() { self } else { other }
    }

    /// Whether both are the same number; false if either is no number.
    #[inline(always)]
    pub(crate) fn is_same(self, other: RunNumber) -> bool
        ensures { Decides result ((a : ℕ) × (self ≡ Some a) × (other ≡ Some a)) }
    {
        self.word != u64::MAX && self.word == other.word
    }
}

/// Returns the next number for a run, and adds 1 to `next`. If all numbers are used, returns no
/// number, and changes nothing.
pub(crate) fn take_number(next: &mut u64) -> RunNumber
    ensures { ((result ≡ None) × (next.new ≡ next.old))
        ⊎ ((result ≡ Some next.old) × (next.new ≡ next.old + 1)) }
{
    if *next == u64::MAX {
        return RunNumber::none();
    }
    let number = RunNumber::of(*next);
    *next += 1;
    number
}
