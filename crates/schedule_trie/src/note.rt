//! Notes of segments.

ghost use Rattle.std.specs.Prelude.{◌≡◌, None};
ghost use Rattle.std.specs.Option.{option_copied};

use std::marker::Model;
use std::mem;

/// The note of a segment, or no note. In contracts it is an option of a note. A cleared note is
/// dropped only when the next one is set, which frees its memory for what is made after that.
#[derive(Drop)]
pub(crate) struct Note<T> {
    state: State<T>,
}

/// The note that is set, or the one that was cleared last, if it isn't dropped yet.
#[derive(Drop)]
enum State<T> {
    Empty,
    Cleared(T),
    Set(T),
}

impl<T> Model for Note<T> {
    ghost use Rattle.std.specs.Prelude.{Option};
    ghost use Rattle.schedule_trie.specs.Notes.{note_in};

    ghost Value = { Option T };

    ghost view = { λ n. note_in n.state };
}

impl<T: Drop> Note<T> {
    /// No note.
    pub(crate) fn none() -> Note<T>
        ensures { result ≡ None }
    {
        Note {
            state: State::Empty,
        }
    }

    /// The note, if there is one.
    #[inline(always)]
    pub(crate) fn get(&self) -> Option<&T>
        ensures { option_copied result ≡ self.now }
    {
        match &self.state {
            State::Set(note) => Some(note),
            State::Cleared(_) | State::Empty => None,
        }
    }

    /// Replaces the note, and drops the one that was set or cleared before.
    #[inline(always)]
    pub(crate) fn set(&mut self, note: Option<T>)
        ensures { self.new ≡ note }
    {
        self.state = match note {
            Some(note) => State::Set(note),
            None => State::Empty,
        };
    }

    /// Clears the note, if there is one, and drops nothing.
    #[inline(always)]
    pub(crate) fn clear(&mut self)
        ensures { self.new ≡ None }
    {
        if self.get().is_none() {
            return;
        }
        self.state = match mem::replace(&mut self.state, State::Empty) {
            State::Set(note) | State::Cleared(note) => State::Cleared(note),
            State::Empty => State::Empty,
        };
    }
}
