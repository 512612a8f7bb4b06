//! Numbers in a line.

ghost use Rattle.std.specs.Prelude.{◌≡◌, ◌≤◌, length, Some, None, if◌then◌else◌};
ghost use Rattle.std.specs.List.{list_all};
ghost use Rattle.std.specs.Char.{is_ascii_digit};
ghost use Rattle.std.specs.Str.Parse.{digits_value};
ghost use Rattle.words.specs.Words.{next, after_next};
ghost use Rattle.words.specs.Numbers as spec;

use crate::parts::Parts;

/// The most digits that a number can have.
const MOST_DIGITS: usize = 9;

/// The number that a word spells: `0`, or a digit 1 to 9 followed by digits, at most 9 digits in
/// all. `None` if the word spells no number.
pub fn number(word: &[u8]) -> Option<u32>
    ensures { result ≡ spec.number word.now }
{
    let (first, others) = word.split_first()?;
    if others.len() < MOST_DIGITS && (*first != b'0' || others.is_empty()) {
        value(word)
    } else {
        None
    }
}

/// The number that digits spell; `None` if some byte isn't a digit.
fn value(word: &[u8]) -> Option<u32>
    requires short { length word.now ≤ 9 }
    ensures { result ≡ (if list_all is_ascii_digit word.now then Some (digits_value 10 word.now)
        else None) }
{
    let mut value = 0;
    for byte in word {
        if !byte.is_ascii_digit() {
            return None;
        }
        value = value * 10 + u32::from(byte - b'0');
    }
    Some(value)
}

/// Reads the next word as a number; `None` if it isn't one.
fn next_number(words: &mut Parts<'_>) -> Option<u32>
    ensures number { result ≡ spec.number (next words.old) }
    ensures left { words.new ≡ after_next words.old }
{
    number(words.next())
}

/// Reads the next word as a number; `None` if it isn't a number, or if more words follow.
pub fn one_number(words: &mut Parts<'_>) -> Option<u32>
    ensures { result ≡ spec.one_number words.old }
{
    let first = next_number(words)?;
    words.is_end().then_some(first)
}

/// Reads the next two words as numbers; `None` if one of them isn't a number, or if more words
/// follow.
pub fn two_numbers(words: &mut Parts<'_>) -> Option<(u32, u32)>
    ensures { result ≡ spec.two_numbers words.old }
{
    let first = next_number(words)?;
    let second = one_number(words)?;
    Some((first, second))
}

/// Reads the next three words as numbers; `None` if one of them isn't a number, or if more words
/// follow.
pub fn three_numbers(words: &mut Parts<'_>) -> Option<(u32, u32, u32)>
    ensures { result ≡ spec.three_numbers words.old }
{
    let first = next_number(words)?;
    let (second, third) = two_numbers(words)?;
    Some((first, second, third))
}

/// Reads the next four words as numbers; `None` if one of them isn't a number, or if more words
/// follow.
pub fn four_numbers(words: &mut Parts<'_>) -> Option<(u32, u32, u32, u32)>
    ensures { result ≡ spec.four_numbers words.old }
{
    let first = next_number(words)?;
    let (second, third, fourth) = three_numbers(words)?;
    Some((first, second, third, fourth))
}
