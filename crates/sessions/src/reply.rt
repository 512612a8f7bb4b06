//! Replies to commands.

use schedule_trie::name::Name;
use schedule_trie::refusal::Refusal;

/// The reply to a command.
#[derive(Clone, Copy, Debug, PartialEq, Eq)]
pub enum Reply {
    /// The session has begun.
    Joined,
    /// The session has ended.
    Left,
    /// The edit was accepted; this is the number of edits accepted so far.
    Edited(u64),
    /// The cursor is now at this place of this branch.
    Moved(Name, u32),
    /// No break is met in the seek's direction; the cursor hasn't moved.
    NoHit,
    /// The break is set.
    BreakSet,
    /// The break is removed.
    BreakCleared,
    /// The command was refused, for this reason.
    No(Refusal),
}
