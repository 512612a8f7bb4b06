//! A process's pending operation.

use crate::types::Op;

/// A pending operation: the operation that was invoked, and the point that it has reached.
#[derive(Clone, Copy, Debug, PartialEq, Eq)]
pub struct Running<P> {
    pub op: Op,
    pub point: P,
}
