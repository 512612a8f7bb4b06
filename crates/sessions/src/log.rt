//! The log of commands and their replies.

use crate::command::Command;
use crate::reply::Reply;
use schedule_trie::listed::Listed;

/// A logged command with its reply. `chair` is the number of the chair that made the call, `who`
/// the session, and `if_at` the guard, if one was given.
#[derive(Clone, Copy, Debug, PartialEq, Eq)]
pub struct Entry {
    pub chair: u32,
    pub who: u32,
    pub if_at: Option<u64>,
    pub command: Command,
    pub reply: Reply,
}

/// The logged commands in order. In contracts a log is the list of its entries.
pub type Log = Listed<Entry>;
