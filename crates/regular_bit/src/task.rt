//! The tasks of a regular bit: the points of its programs at which the register below is written or
//! read.

/// A task: the write or read of the register below by a pending operation.
#[derive(Clone, Copy, Debug, PartialEq, Eq)]
pub enum RegularTask {
    /// A write of this value.
    Writing(u32),
    /// A read by this process.
    Reading(u32),
}
