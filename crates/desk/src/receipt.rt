//! The answers of a desk to commands, looks and saves.

use schedule_trie::Limbs;
use schedule_trie::refusal::Refusal;
use sessions::reply::Reply;
use views::page::Page;

/// The answer to a command: its reply; and `at`, the length of the history when the turn was given
/// back. This length counts the command if the command was logged.
#[derive(Clone, Copy, Debug, PartialEq, Eq)]
pub struct Receipt {
    pub at: u64,
    pub reply: Reply,
}

/// The answer to a look: its page, or why the look is refused. `at` is the length of the history
/// when the turn was given back.
#[derive(Drop)]
pub struct Answer {
    pub at: u64,
    pub result: Result<Page, Refusal>,
}

/// The result of a save: the limbs, each of which describes a branch, in the order in which the
/// branches were made. `at` is the length of the history when the turn was given back.
#[derive(Debug, Drop)]
pub struct Saved {
    pub at: u64,
    pub limbs: Limbs,
}
