//! The tasks of two bits: the points of their programs at which one of the bits is written or read.

use layers::prelude::LayerName;

/// What pages of pending operations call two bits.
pub const NAME: LayerName = LayerName(b't', b'w', b'o');

/// A task: the write or read of one bit by a pending operation.
#[derive(Clone, Copy, Debug, PartialEq, Eq)]
pub enum TwoBitsTask {
    /// A write of this value writes the high bit.
    WriteHigh(u32),
    /// A write of this value writes the low bit.
    WriteLow(u32),
    /// A read by this process reads the high bit.
    ReadHigh(u32),
    /// A read by process `who`, which got `high` from the high bit, reads the low bit.
    ReadLow { who: u32, high: u32 },
}
