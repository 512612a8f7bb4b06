//! Whether a state's operations have all ended.

ghost use Rattle.std.specs.Prelude.{◌≡◌, ℕ, true, length};
ghost use Rattle.std.specs.Bool.{Decides};
ghost use Rattle.answers.specs.Questions.{operations_of};
ghost use Rattle.answers.specs.States.{is_over, AreAllOver};

use crate::moves::{Moves, ended_count};
use crate::question::Question;
use crate::state::State;
use frames::register::Register;

/// The number of operations that process `p` makes.
pub(crate) fn op_count(question: &Question, p: u32) -> usize
    ensures { result ≡ length (operations_of question.now p) }
{
    match question.operations.get(p as usize) {
        Some(list) => list.len(),
        None => 0,
    }
}

/// Whether process `p` has stopped, or is idle and has ended all its operations.
fn is_over<R: Register>(question: &Question, state: &State<R>, p: u32) -> bool
    ensures { result ≡ is_over question.now state.now p }
{
    state.config.stopped(p)
        || (state.config.op(p).is_none()
            && ended_count(state.answers(), p) == op_count(question, p))
}

/// Whether each process has stopped, or is idle and has ended all its operations.
pub(crate) fn is_done<'q, R: Register>(moves: &Moves<'q, R>, state: &State<R>) -> bool
    ensures { Decides result
        (AreAllOver (R.behaviour moves.now.register) moves.now.question.now state.now) }
{
    for p in 0..moves.register.processes() {
        if !is_over(moves.question, state, p) {
            return false;
        }
    }
    true
}
