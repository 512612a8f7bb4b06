//! The tasks of a register made of copies: the points of its programs at which a copy is written or
//! read.

/// A task: the write or read of one copy by a pending operation.
#[derive(Clone, Copy, Debug, PartialEq, Eq)]
pub enum CopiesTask {
    /// A write of `v` to the copy of reader `reader`.
    Writing { v: u32, reader: u32 },
    /// A read by reader `reader`, of its own copy.
    Reading { reader: u32 },
}
