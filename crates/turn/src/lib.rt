//! A turn: one value guarded by one lock. Each caller has a chair, which may take the lock and
//! knows how much it has seen of the value's list.
//!
//! The value's list (`Counted`) only grows, and each new entry is made by one of the chairs. A
//! chair takes the turn to work on the value (`Turn::with`). Without the turn, a chair can read how
//! long the list is (`Turn::news`). What a chair has seen is a prefix of the list. The chairs
//! divide the turn's 16 shares; a chair that has all of them has seen the whole list.
//!
//! The lock is a test-and-set lock that yields (Herlihy and Shavit, "The Art of Multiprocessor
//! Programming", chapter 7); the list's length is in a separate word.
#![tactic(auto)]

mod chair;
mod chairs;
mod counted;
mod holding;
mod refusal;
mod rule;
mod shares;
mod steps;
mod turn;
mod view;

pub use chair::Chair;
pub use counted::{Counted, Work};
pub use refusal::ChairsOut;
pub use turn::Turn;
pub use view::View;
