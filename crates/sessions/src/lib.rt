//! Sessions: the world that a desk's commands see and change, and the log of the commands that led
//! to this world.
//!
//! Each of up to sixteen sessions has a cursor on a branch, and breaks. Each command gets one
//! reply, and is logged with it unless the reply is LogFull or Memory.
#![tactic(auto)]

pub mod book;
mod breaks;
pub mod command;
pub mod cursor;
pub mod log;
pub mod reply;
pub mod seek;
pub mod way;
mod workspace;

pub use book::Book;
pub use command::Command;
pub use log::{Entry, Log};
pub use reply::Reply;
