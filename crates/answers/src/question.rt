//! Questions: which answers the schedules of given operations can have.

use frames::types::Op;

/// Operation `index` of process `process`. Both are counted from 0.
#[derive(Clone, Copy, Debug, PartialEq, Eq)]
pub struct NthOp {
    pub process: u32,
    pub index: u32,
}

/// The later operation is invoked only after the earlier one has ended.
#[derive(Clone, Copy, Debug, PartialEq, Eq)]
pub struct After {
    pub later: NthOp,
    pub earlier: NthOp,
}

/// What is asked: the register's initial value; for each process the operations that it makes, in
/// order; which operations follow which; and the processes that may stop. A process without a list
/// makes no operation.
#[derive(Debug, Drop)]
pub struct Question {
    pub value: u32,
    pub operations: Vec<Vec<Op>>,
    pub after: Vec<After>,
    pub may_stop: Vec<u32>,
}
