//! Whether some operation has to follow itself.

ghost use Rattle.std.specs.Prelude.{◌≡◌, ℕ, ◌<◌, ◌≤◌, ◌++◌, ◌∷◌, [], true, None, is_some, IfOk, IfSome, IfNone, OnOk, length, slice_index_or, slice_set};
ghost use Rattle.std.specs.Bool.{Decides};
ghost use Rattle.std.specs.List.{list_all};
ghost use Rattle.frames.specs.declared.types.Outcome.TheVariants.{Written};
ghost use Rattle.answers.specs.Questions.{IsAcyclic, are_asked, next_of, operations_of};
ghost use Rattle.answers.specs.States.{ended_counts};

use crate::done::op_count;
use crate::moves::{ended_count, next_op};
use crate::outcomes::{Outcomes, no_answers};
use crate::question::Question;
use frames::types::Outcome;
use std::alloc::{AllocError, Global};

/// The first process whose next operation may end, since all operations that it has to follow have
/// ended; `None` if there is no such process.
fn first_free(question: &Question, processes: u32, answers: &[Outcomes]) -> Option<u32>
    ensures there { IfSome result (λ p. p < processes) }
    ensures free { IfSome result (λ p.
        is_some (next_of question.now (ended_counts answers.now) p) ≡ true) }
    ensures stuck { IfNone result ((p : ℕ) → p < processes
        → next_of question.now (ended_counts answers.now) p ≡ None) }
{
    for p in 0..processes {
        if next_op(question, answers, p).is_some() {
            return Some(p);
        }
    }
    None
}

/// Ends the next operation of process `p`, as if it were a write.
fn end_next(answers: &mut Vec<Outcomes>, p: u32) -> Result<(), AllocError>
    requires { p < length answers.old.items }
    ensures { OnOk result (answers.new.items ≡ slice_set answers.old.items p
        (slice_index_or answers.old.items p [] ++ Written ∷ [])) }
{
    answers[p as usize].push(Outcome::Written)
}

/// Whether each process has ended all its operations.
fn have_all_ended(question: &Question, processes: u32, answers: &[Outcomes]) -> bool
    ensures { Decides result ((p : ℕ) → p < processes
        → ended_counts answers.now p ≡ length (operations_of question.now p)) }
{
    for p in 0..processes {
        if ended_count(answers, p) != op_count(question, p) {
            return false;
        }
    }
    true
}

/// Whether no operation has to follow itself: then all can end, one after another, each when those
/// that it has to follow have ended. `AllocError` if memory runs out.
pub(crate) fn is_acyclic(
    alloc: Global,
    question: &Question,
    processes: u32,
) -> Result<bool, AllocError>
    requires lists { length question.now.operations.items ≤ processes }
    requires named { list_all (are_asked question.now) question.now.after.items ≡ true }
    ensures { IfOk result (λ yes. Decides yes (IsAcyclic question.now)) }
{
    let mut answers = no_answers(alloc, processes)?;
    while let Some(p) = first_free(question, processes, &answers) {
        let Ok(()) = end_next(&mut answers, p) else {
            return Err(AllocError);
        };
    }
    Ok(have_all_ended(question, processes, &answers))
}
