//! The state that the lines of a script see and change when they are answered.

ghost use Rattle.std.specs.Prelude.{◌≡◌, ℕ, Bool, List, take};
ghost use Rattle.conversation.specs.Scripts.{LineAnswering};
ghost use Rattle.conversation.specs.declared.limits.TheConstants.{KEPT_BYTES};

/// The state that is passed to the closure which answers a script's lines. For contracts, this
/// trait also defines how each line is answered, and what the line does to the state.
pub trait Answers {
    /// The type of the world in a state.
    ghost Worlds: { Type 0 };

    /// The world in a state: what lines see and change.
    ghost world: { Self → Worlds };

    /// Whether nobody else changes what lines see, so that it changes only through this state.
    ghost alone: { Self → Type 0 };

    /// The world that each line leaves, and the answer to the line.
    ghost define: { LineAnswering Worlds };

    /// What a line does, and its answer, depend only on the line's first `KEPT_BYTES` bytes.
    ghost reads_front: { (memory : Bool) (number : ℕ) (line : List ℕ) (w : Worlds) → define memory number (take KEPT_BYTES line) w ≡ define memory number line w };
}
