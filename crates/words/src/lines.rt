//! The lines of a text.

ghost use Rattle.std.specs.Prelude.{◌≡◌, Some, None, false, IfSome, IfNone, OnSome};
ghost use Rattle.words.specs.Words.{lines, words, next, after_next, is_end};
ghost use Rattle.words.specs.Steps.{step_of_words};

use crate::front::front_step;
use crate::parts::first_part;
use frames::types::Step;
use std::marker::Model;

/// The lines of a text that aren't taken yet. The text is cut into lines at its line ends.
#[derive(Drop)]
pub struct Lines<'a> {
    text: Option<&'a [u8]>,
}

impl<'a> Model for Lines<'a> {
    ghost use Rattle.std.specs.Prelude.{ℕ, List};
    ghost use Rattle.std.specs.Option.{option_map};
    ghost use Rattle.words.specs.Words.{parts_left};

    ghost Value = { List (List ℕ) };

    ghost view = { λ l. parts_left 10 (option_map (λ t. t.now) l.text) };
}

impl<'a> Lines<'a> {
    /// All lines of `text`. The last of them is the text after the last line end; it may be empty.
    pub fn new(text: &'a [u8]) -> Lines<'a>
        ensures { result ≡ lines text.now }
    {
        Lines { text: Some(text) }
    }

    /// Takes the next line, and returns it; returns an empty line if none is left.
    pub fn next(&mut self) -> &'a [u8]
        ensures part { result.now ≡ next self.old }
        ensures left { self.new ≡ after_next self.old }
    {
        let Some(text) = self.text else {
            return &[];
        };
        let (line, left) = first_part(text, b'\n');
        self.text = left;
        line
    }

    /// If the next line ends with a line end and spells a step, takes the line and returns its
    /// step. Otherwise takes nothing and returns `None`. Reads the line in a single pass.
    pub fn next_step(&mut self) -> Option<Step>
        ensures step { IfSome result (λ s. step_of_words (words (next self.old)) ≡ Some s) }
        ensures whole { OnSome result (is_end (after_next self.old) ≡ false) }
        ensures left { OnSome result (self.new ≡ after_next self.old) }
        ensures kept { IfNone result (self.new ≡ self.old) }
        ensures none { IfNone result (is_end (after_next self.old) ≡ false
            → step_of_words (words (next self.old)) ≡ None) }
    {
        let (step, left) = front_step(self.text?)?;
        self.text = Some(left);
        Some(step)
    }

    /// Whether no line is left.
    pub fn is_end(&self) -> bool
        ensures { result ≡ is_end self.now }
    {
        self.text.is_none()
    }
}
