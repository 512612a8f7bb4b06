//! The tasks of a unary number: the points of its programs at which one bit is written or read.

/// A task: the write or read of one bit by a pending operation of the unary number.
#[derive(Clone, Copy, Debug, PartialEq, Eq)]
pub enum UnaryTask {
    /// A write of a value sets the bit of this value.
    Setting(u32),
    /// A write of `x` clears bit `i`, which is below bit `x`.
    Clearing { x: u32, i: u32 },
    /// A read by process `who` reads bit `i`. There are `left` bits above bit `i`.
    Looking { who: u32, i: u32, left: u32 },
}
