//! Limits of layers, and of the towers built from them.

/// The least number of values that a layer can have.
pub const LEAST_VALUES: u32 = 2;

/// The most values that a unary number can have, and the most codes that a stamped register or a
/// matrix can have.
pub const MOST_VALUES: u32 = 512;

/// The most readers that a register with one writer can have.
pub const MOST_READERS: u32 = 4;

/// The least number of processes that a layer can have.
pub const LEAST_PROCESSES: u32 = 2;

/// The most processes that a layer can have: one writer and `MOST_READERS` readers.
pub const MOST_PROCESSES: u32 = 5;

/// The most processes of a matrix; each of them both writes and reads.
pub const MOST_WRITERS: u32 = 4;
