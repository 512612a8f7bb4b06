//! What a line of a script can say.

use schedule_trie::name::Name;
use sessions::command::Command;
use views::query::Query;

/// A session's request.
#[derive(Clone, Copy, Debug, PartialEq, Eq)]
pub enum Request {
    /// A command. It is logged, unless the reply is LogFull or Memory. If it has a guard, it is
    /// carried out only if the guard equals the edit count.
    Act {
        if_at: Option<u64>,
        command: Command,
    },
    /// A look, which is not logged.
    Look(Query),
    /// A fill of a branch, which is not logged.
    Fill(Name),
}

/// A call, which is what a line asks for: the number of a session, and that session's request.
#[derive(Clone, Copy, Debug, PartialEq, Eq)]
pub struct Call {
    pub session: u32,
    pub request: Request,
}

/// What a line of a script says.
#[derive(Clone, Copy, Debug, PartialEq, Eq)]
pub enum Line {
    /// Nothing: the line is empty, or begins with `#`.
    Blank,
    /// The line is neither blank nor a call.
    Bad,
    /// A call.
    Call(Call),
}
