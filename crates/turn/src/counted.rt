//! The values that a turn can guard, and the work that a chair can do on them.

ghost use Rattle.std.specs.Prelude.{◌≡◌, ℕ, ◌<◌, ◌++◌, List, length};
ghost use Rattle.turn.specs.Entries.{AtMostOne};

/// A value that a turn can guard. It has a list of entries. Each entry has a number: that of the
/// chair that made it, or at least 16 if no chair made it.
pub trait Counted {
    ghost use Rattle.std.specs.Prelude.{◌≡◌, ℕ, List, length};

    type Entry;

    /// The value's list.
    ghost entries: { Self → List Self.Entry };

    /// The number of the chair that made an entry; at least 16 if no chair made it.
    ghost by: { Self.Entry → ℕ };

    /// The length of the list.
    fn len(&self) -> u64
        ensures { result ≡ length (entries self.now) };
}

/// A piece of work on a turn's value, which a chair does while it has the turn (the lock).
pub trait Work<T: Counted> {
    ghost use Rattle.std.specs.Prelude.{◌≡◌, ℕ, ◌<◌, ◌++◌, List, length};
    ghost use Rattle.turn.specs.Entries.{AtMostOne};

    type Out;

    /// What the work guarantees. The arguments are the work before, the list before and after, the
    /// answer, and the work after.
    ghost relation: { Self → List T.Entry → List T.Entry → Self.Out → Self → Type 0 };

    /// Does the work for the chair with this number. Adds at most one entry, with this number, to
    /// the list.
    fn work(&mut self, value: &mut T, number: u32) -> Self::Out
        requires { number < 16 }
        ensures kept { relation self.old (T.entries value.old)
            (T.entries value.new) result self.new }
        ensures added { (added : List T.Entry)
            × (T.entries value.new ≡ T.entries value.old ++ added) × AtMostOne T.by number added };
}
