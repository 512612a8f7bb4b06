//! Laws of numbers and steps, which callers' proofs use.

ghost use Rattle.std.specs.Prelude.{◌≡◌, ℕ, ◌<◌, ◌^◌, ◌↔◌, List, Some, decimal};
ghost use Rattle.frames.specs.declared.types.Step.{Step};
ghost use Rattle.words.specs.Words.{words};
ghost use Rattle.words.specs.Numbers.{number};
ghost use Rattle.words.specs.Steps.{step_of_words, step_text, HasShortNumbers};

/// A word is read as the number `n` exactly if `n` is below 10 ^ 9 and the word is the decimal form
/// of `n`.
pub fn one_spelling_of_number()
    ensures { (word : List ℕ) (n : ℕ) → (number word ≡ Some n) ↔ ((n < 10 ^ 9)
        × (word ≡ decimal n)) }
{}

/// A line is read as the step `s` exactly if the numbers of `s` are below 10 ^ 9 and the line is
/// the text of `s`.
pub fn one_spelling_of_step()
    ensures { (line : List ℕ) (s : Step)
        → (step_of_words (words line) ≡ Some s) ↔ (HasShortNumbers s
        × (line ≡ step_text s)) }
{}
