//! Steps as words.

ghost use Rattle.std.specs.Prelude.{◌≡◌, ◌++◌, ◌∷◌, [], OnOk};
ghost use Rattle.std.specs.Str.{bytes_eq};
ghost use Rattle.words.specs.Steps as spec;
ghost use Rattle.words.specs.Words.{word_with_numbers};

use crate::number::{one_number, two_numbers};
use crate::parts::Parts;
use crate::text::{Pushed, push_numbers};
use frames::types::Step;

/// Reads the next words as a step; `None` if they spell no step, or if more words follow.
pub fn step_of(words: &mut Parts<'_>) -> Option<Step>
    ensures { result ≡ spec.step_of_words words.old }
{
    match words.next() {
        b"w" => two_numbers(words).map(|(p, v)| Step::Write { p, v }),
        b"r" => one_number(words).map(|p| Step::Read { p }),
        b"g" => two_numbers(words).map(|(p, c)| Step::Go { p, c }),
        b"x" => one_number(words).map(|p| Step::Stop { p }),
        _ => None,
    }
}

/// Adds to the end of `out` the text that spells a step.
///
/// # Errors
///
/// If memory runs out.
pub fn push_step(out: &mut Vec<u8>, step: Step) -> Pushed
    ensures { OnOk result (out.new.items ≡ out.old.items ++ spec.step_text step) }
{
    match step {
        Step::Write { p, v } => push_letter(out, b'w', &[p, v]),
        Step::Read { p } => push_letter(out, b'r', &[p]),
        Step::Go { p, c } => push_letter(out, b'g', &[p, c]),
        Step::Stop { p } => push_letter(out, b'x', &[p]),
    }
}

/// Adds a word of one letter at the end of `out` and then, for each number, a space and the number.
/// Fails only if memory runs out.
fn push_letter(out: &mut Vec<u8>, letter: u8, numbers: &[u32]) -> Pushed
    ensures { OnOk result
        (out.new.items ≡ out.old.items ++ word_with_numbers (letter ∷ []) numbers.now) }
{
    out.push(letter)?;
    push_numbers(out, numbers)
}

/// Whether the bytes of `word` are those of `text`.
pub fn is_word(word: &[u8], text: &str) -> bool
    ensures { result ≡ bytes_eq word.now text.now }
{
    word == text.as_bytes()
}
