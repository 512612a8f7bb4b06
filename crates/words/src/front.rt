//! Steps at the front of a text of lines, read in a single pass.

ghost use Rattle.std.specs.Prelude.{◌≡◌, ◌<◌, ◌^◌, ℕ, List, ◌∷◌, ◌++◌, true, false, ◌⊎◌, IfSome, IfNone, decimal};
ghost use Rattle.std.specs.Char.{is_ascii_digit};
ghost use Rattle.frames.specs.declared.types.Step.{Step};
ghost use Rattle.words.specs.Steps.{step_text, HasShortNumbers};
ghost use Rattle.words.specs.Fronts.{IsWholeNumber};

use frames::types::Step;

/// The least number with nine digits. No number in a line has more digits.
const LEAST_OF_NINE_DIGITS: u32 = 100_000_000;

/// The step that the first line of `text` spells, and the text after that line's end; `None` if the
/// line spells no step, or has no line end.
pub(crate) fn front_step(text: &[u8]) -> Option<(Step, &[u8])>
    ensures short { IfSome result (λ r. HasShortNumbers r.0) }
    ensures front { IfSome result (λ r. text.now ≡ step_text r.0 ++ 10 ∷ r.1.now) }
    ensures none { IfNone result ((s : Step) (rest : List ℕ) → HasShortNumbers s
        → text.now ≡ step_text s ++ 10 ∷ rest → ⊥) }
{
    let (word, numbers) = text.split_first()?;
    let (p, left) = front_number(numbers)?;
    if has_two_numbers(*word) {
        let (second, left) = front_number(left)?;
        let left = after_line_end(left)?;
        let step = if *word == b'w' {
            Step::Write { p, v: second }
        } else {
            Step::Go { p, c: second }
        };
        return Some((step, left));
    }
    let left = after_line_end(left)?;
    match *word {
        b'r' => Some((Step::Read { p }, left)),
        b'x' => Some((Step::Stop { p }, left)),
        _ => None,
    }
}

/// Whether a step that begins with this letter has two numbers.
fn has_two_numbers(letter: u8) -> bool
    ensures two { result ≡ true → (letter ≡ 119) ⊎ (letter ≡ 103) }
    ensures one { result ≡ false → (letter ≡ 119 → ⊥) × (letter ≡ 103 → ⊥) }
{
    letter == b'w' || letter == b'g'
}

/// The number that follows a space at the front of `text`, and the text after the number; `None` if
/// the text doesn't begin with a space and a digit.
fn front_number(text: &[u8]) -> Option<(u32, &[u8])>
    ensures short { IfSome result (λ r. r.0 < 10 ^ 9) }
    ensures front { IfSome result (λ r. text.now ≡ 32 ∷ (decimal r.0 ++ r.1.now)) }
    ensures whole { IfSome result (λ r. IsWholeNumber r.0 r.1.now) }
    ensures none { IfNone result ((d : ℕ) (rest : List ℕ) → is_ascii_digit d ≡ true
        → text.now ≡ 32 ∷ d ∷ rest → ⊥) }
{
    let (space, digits) = text.split_first()?;
    let (digit, left) = digits.split_first()?;
    if *space != b' ' || !digit.is_ascii_digit() {
        return None;
    }
    let first = u32::from(*digit - b'0');
    if first == 0 {
        return Some((0, left));
    }
    Some(more_digits(first, left))
}

/// Reads the rest of a number whose first digits have the value `first`. Returns the number, and
/// the text after it.
fn more_digits(first: u32, text: &[u8]) -> (u32, &[u8])
    requires some { 0 < first }
    requires short { first < 10 ^ 9 }
    ensures short { result.0 < 10 ^ 9 }
    ensures front { decimal first ++ text.now ≡ decimal result.0 ++ result.1.now }
    ensures whole { IsWholeNumber result.0 result.1.now }
{
    let mut value = first;
    let mut left = text;
    while value < LEAST_OF_NINE_DIGITS {
        let Some((digit, following)) = left.split_first() else {
            return (value, left);
        };
        if !digit.is_ascii_digit() {
            return (value, left);
        }
        value = value * 10 + u32::from(*digit - b'0');
        left = following;
    }
    (value, left)
}

/// The text after the line end at the front of `text`; `None` if there is no line end at the front.
fn after_line_end(text: &[u8]) -> Option<&[u8]>
    ensures found { IfSome result (λ left. text.now ≡ 10 ∷ left.now) }
    ensures none { IfNone result ((left : List ℕ) → text.now ≡ 10 ∷ left → ⊥) }
{
    let (end, left) = text.split_first()?;
    (*end == b'\n').then_some(left)
}
