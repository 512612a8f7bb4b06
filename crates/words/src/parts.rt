//! The parts of a text. Here a part is a piece of text between separators, such as a line's word.

ghost use Rattle.std.specs.Prelude.{◌≡◌, ◌==◌, ◌∷◌, position};
ghost use Rattle.std.specs.Option.{option_map};
ghost use Rattle.words.specs.Words.{parts, parts_left, next, after_next, is_end};

use std::marker::Model;

/// The parts of a text that aren't taken yet. A part is a piece of the text between separators.
#[derive(Drop)]
pub struct Parts<'a> {
    text: Option<&'a [u8]>,
    separator: u8,
}

impl<'a> Model for Parts<'a> {
    ghost use Rattle.std.specs.Prelude.{ℕ, List};
    ghost use Rattle.std.specs.Option.{option_map};
    ghost use Rattle.words.specs.Words.{parts_left};

    ghost Value = { List (List ℕ) };

    ghost view = { λ p. parts_left p.separator (option_map (λ t. t.now) p.text) };
}

impl<'a> Parts<'a> {
    /// The parts of `text`, cut at each byte that equals `separator`.
    pub fn new(text: &'a [u8], separator: u8) -> Parts<'a>
        ensures { result ≡ parts separator text.now }
    {
        Parts {
            text: Some(text),
            separator,
        }
    }

    /// Takes the next part, and returns it; returns an empty part if none is left.
    pub fn next(&mut self) -> &'a [u8]
        ensures part { result.now ≡ next self.old }
        ensures left { self.new ≡ after_next self.old }
    {
        let Some(text) = self.text else {
            return &[];
        };
        let (part, left) = first_part(text, self.separator);
        self.text = left;
        part
    }

    /// Whether no part is left.
    pub fn is_end(&self) -> bool
        ensures { result ≡ is_end self.now }
    {
        self.text.is_none()
    }
}

/// The text before the first separator, and the text after this separator; if there is no
/// separator, the whole text, and `None`.
pub(crate) fn first_part(text: &[u8], separator: u8) -> (&[u8], Option<&[u8]>)
    ensures { parts separator text.now ≡ result.0.now ∷ parts_left separator
        (option_map (λ t. t.now) result.1) }
{
    match first_index(text, separator) {
        None => (text, None),
        Some(end) => {
            let (part, following) = text.split_at(end);
            (part, Some(&following[1..]))
        }
    }
}

/// The index of the first byte that equals `byte`; `None` if there is none.
fn first_index(text: &[u8], byte: u8) -> Option<usize>
    ensures { result ≡ position (λ b. b == byte) text.now }
{
    // Parts are short: one test for each byte costs less than a call that tests many at once.
    text.iter().position(|b| *b == byte)
}
