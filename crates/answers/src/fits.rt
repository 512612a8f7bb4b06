//! Whether a question fits a register.

ghost use Rattle.std.specs.Prelude.{◌≡◌, ℕ, ◌≤◌, ◌&&◌, true, IfOk, length};
ghost use Rattle.std.specs.Bool.{Decides};
ghost use Rattle.std.specs.List.{list_all};
ghost use Rattle.answers.specs.Questions.{AreOperationsOf, FitsQuestion, are_asked, is_asked, operations_of};

use crate::cycles::is_acyclic;
use crate::done::op_count;
use crate::question::{After, NthOp, Question};
use frames::register::Register;
use frames::types::Op;
use std::alloc::{AllocError, Global};

/// Whether each operation in a list fits process `p`.
fn all_fit<R: Register>(register: &R, p: u32, list: &[Op]) -> bool
    ensures { result ≡ list_all ((R.behaviour register.now).suits p) list.now }
{
    list.iter().all(|op| register.fits(p, *op))
}

/// Whether each operation of process `p` fits it.
fn operations_fit<R: Register>(register: &R, question: &Question, p: u32) -> bool
    ensures { result ≡ list_all ((R.behaviour register.now).suits p)
        (operations_of question.now p) }
{
    match question.operations.get(p as usize) {
        Some(list) => all_fit(register, p, list),
        None => true,
    }
}

/// Whether each operation fits its process.
fn all_operations_fit<R: Register>(register: &R, question: &Question) -> bool
    requires { length question.now.operations.items ≤ (R.behaviour register.now).processes }
    ensures { Decides result ((p : ℕ) → list_all ((R.behaviour register.now).suits p)
        (operations_of question.now p) ≡ true) }
{
    for p in 0..register.processes() {
        if !operations_fit(register, question, p) {
            return false;
        }
    }
    true
}

/// Whether the question has this operation.
fn is_asked(question: &Question, nth: NthOp) -> bool
    ensures { result ≡ is_asked question.now nth }
{
    (nth.index as usize) < op_count(question, nth.process)
}

/// Whether the question has both operations that `after` names.
fn are_asked(question: &Question, after: &After) -> bool
    ensures { result ≡ are_asked question.now after.now }
{
    is_asked(question, after.later) && is_asked(question, after.earlier)
}

/// Whether the question has all operations that its `after` names.
fn all_asked(question: &Question) -> bool
    ensures { result ≡ list_all (are_asked question.now) question.now.after.items }
{
    question
        .after
        .iter()
        .all(|after| are_asked(question, after))
}

/// Whether the question's initial value is one of the register's values, each operation fits its
/// process, which exists, and `after` names operations that are asked.
fn is_well_formed<R: Register>(register: &R, question: &Question) -> bool
    ensures { Decides result (AreOperationsOf (R.behaviour register.now) question.now) }
{
    if question.value >= register.values() {
        return false;
    }
    if question.operations.len() > register.processes() as usize {
        return false;
    }
    if !all_operations_fit(register, question) {
        return false;
    }
    all_asked(question)
}

/// Whether the question fits the register: its initial value is one of the register's values, each
/// operation fits its process, which exists, and `after` names operations that are asked, none of
/// which has to follow itself. `AllocError` if memory runs out.
pub fn fits<R: Register>(
    alloc: Global,
    register: &R,
    question: &Question,
) -> Result<bool, AllocError>
    ensures { IfOk result (λ fit. Decides fit
        (FitsQuestion (R.behaviour register.now) question.now)) }
{
    if !is_well_formed(register, question) {
        return Ok(false);
    }
    is_acyclic(alloc, question, register.processes())
}
