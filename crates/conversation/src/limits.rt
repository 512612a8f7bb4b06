//! The limits of a script: its bytes, its reads, and how much of a line is kept.

/// The most bytes that are read of a script. A script has to have fewer, so that it ends before
/// this limit.
pub const MOST_SCRIPT_BYTES: u32 = 1 << 24;

/// The most reads that a script may take.
pub const MOST_READS: u32 = 1 << 25;

/// At most this many bytes of a line are kept: one more than a line with a call may have, so that
/// a line that is too long for a call is still too long when only these bytes are kept.
pub const KEPT_BYTES: usize = 256;
