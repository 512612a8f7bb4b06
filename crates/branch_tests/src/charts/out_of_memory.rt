//! Rows in which memory may run out. A call that ran out of memory is made again, and then has the
//! result that it would have had with enough memory, except that it doesn't replay segments
//! whose runs were stored before memory ran out.

use super::replay_counts::{Ask, LATE, Row, Wanted, first_wrong_with};
use super::steps::{Kind, step_of, writes};
use crate::given::{Branch, none_wrong};
use std::alloc::Global;
use std::process::Abort;

/// The most times that a call is made. The allocator refuses fewer times in a row.
const TRIES: u32 = 10;

#[test]
fn late_run_out_of_memory(rt: HostRuntime) {
    let mut rows = LATE;
    // the settle may have stored the run before memory ran out
    rows[2] = (Branch::Main, Ask::Settle(1, 0, 1));
    let steps = [step_of(Kind::Read)];
    let wrong = first_wrong_with(&rt, rt.alloc(), &steps, Wanted::All, TRIES, &rows);
    none_wrong(&rt, wrong);
}

/// A settle; an edit, a plan and a second settle; and a third settle, which replays nothing. The
/// first two settles replay fewer steps if they had stored runs before memory ran out.
const SETTLES: [Row; 6] = [
    (Branch::Main, Ask::Settle(1000, 0, 1000)),
    (Branch::Main, Ask::Replace(10, Kind::Go1)),
    (Branch::Main, Ask::JobsLeft(1)),
    (Branch::Main, Ask::Settle(1000, 0, 128)),
    (Branch::Main, Ask::Settle(1000, 0, 0)),
    (Branch::Main, Ask::JobsLeft(0)),
];

/// Fails if a row of `SETTLES` goes wrong; passes if there is no memory for the steps.
fn check_settles(rt: &impl Abort, alloc: Global, wanted: Wanted) {
    let Ok(steps) = writes(alloc) else {
        return;
    };
    none_wrong(
        rt,
        first_wrong_with(rt, alloc, &steps, wanted, TRIES, &SETTLES),
    );
}

#[test]
fn thousand_steps_out_of_memory(rt: HostRuntime) {
    check_settles(&rt, rt.alloc(), Wanted::All);
}

#[test]
fn last_run_of_thousand_steps_out_of_memory(rt: HostRuntime) {
    check_settles(&rt, rt.alloc(), Wanted::Last);
}
