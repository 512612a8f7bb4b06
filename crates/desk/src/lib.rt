//! A desk: one book guarded by one lock, the turn. Each caller of the desk has a chair. With the
//! chair, the caller gives the commands of sessions, and looks at the book.
//!
//! The logged commands of all chairs make one history, which is legal from the desk's opening: each
//! reply is the one that its command gets after the calls before it. What a chair has seen is a
//! prefix of this history. The chairs divide the turn's 16 shares, and a chair with all of them has
//! seen the whole history. Pages are made without holding the turn.
#![tactic(auto)]

mod act;
mod desk;
mod fill;
mod install;
mod item;
mod journal;
mod look;
mod plan;
mod receipt;
mod report;
mod save;
mod worth;

pub use desk::{Chair, Desk};
pub use item::Item;
pub use journal::Journal;
pub use receipt::{Answer, Receipt, Saved};
pub use report::Report;
