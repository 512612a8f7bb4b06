//! Conversations: a script is read in pieces, and the answers to its lines are written. The caller
//! supplies the closure that answers one line. The file that a program opens is read whole, and the
//! file that it saves to is written whole.
#![tactic(auto)]

pub mod answers;
pub mod converse;
pub mod fault;
pub mod limits;
pub mod source;
pub mod taken;
pub mod writing;
pub mod written_file;
