//! Looks: what a session can ask to be shown.

use branch_terms::name::Name;

/// What a look is to show. If the query has a `k`, the look shows the place after the first `k`
/// steps of branch `b`. `p` is the number of a process, and `who` that of a session.
#[derive(Clone, Copy, Debug, PartialEq, Eq)]
pub enum Query {
    /// The processes, and the values of all bit cells and words.
    State { b: Name, k: u32 },
    /// What one process is doing.
    Process { b: Name, k: u32, p: u32 },
    /// Each bit cell, with any write or read in progress on it, and each word.
    Bits { b: Name, k: u32 },
    /// The pending operation of each process, as frames.
    Pending { b: Name, k: u32 },
    /// The events of the steps up to the place.
    History { b: Name, k: u32 },
    /// The verdict on each read that returned in the steps up to the place.
    Verdict { b: Name, k: u32 },
    /// All branches, with their lengths.
    Branches,
    /// The cursor and the breaks of a session.
    Cursor { who: u32 },
    /// The steps of a branch.
    Steps { b: Name },
}

/// What a page of the configuration at a place is to show.
#[derive(Clone, Copy, Debug, PartialEq, Eq)]
pub enum ConfigKind {
    /// The processes, and the values of all bit cells and words.
    State,
    /// What the process with this number is doing.
    Process(u32),
    /// Each bit cell, with any write or read in progress on it, and each word.
    Bits,
    /// The pending operation of each process, as frames.
    Pending,
}

/// What a page of the events of the steps up to a place is to show.
#[derive(Clone, Copy, Debug, PartialEq, Eq)]
pub enum EventsKind {
    /// The events.
    History,
    /// The verdict on each read that returned. Holds the initial value if the tower has one writer,
    /// else `None`.
    Verdict(Option<u32>),
}
