//! The text of what a search found.

ghost use Rattle.std.specs.Prelude.{◌≡◌, ◌++◌, OnOk, IfOk};
ghost use Rattle.std.specs.List.{flat_map};
ghost use Rattle.question_file.specs.Asked.{lists_of};
ghost use Rattle.answer_lines.specs.Text as spec;

use answers::found::{Found, Possible};
use answers::outcomes::Outcomes;
use frames::types::{Layer, Op, Outcome, Step};
use std::alloc::{AllocError, Global};
use words::step::push_step;
use words::text::{Pushed, push_labelled, push_text};

/// Adds a space and an outcome.
fn push_outcome(out: &mut Vec<u8>, outcome: Outcome) -> Pushed
    ensures { OnOk result (out.new.items ≡ out.old.items ++ spec.outcome_text outcome) }
{
    match outcome {
        Outcome::Value(value) => push_labelled(out, " ", u64::from(value)),
        Outcome::Written => push_text(out, " written"),
        Outcome::Spent(Layer::Stamped) => push_text(out, " spent-stamped"),
        Outcome::Spent(Layer::Matrix) => push_text(out, " spent-matrix"),
    }
}

/// Adds each outcome after a space.
fn push_each_outcome(out: &mut Vec<u8>, outcomes: &[Outcome]) -> Pushed
    ensures { OnOk result (out.new.items ≡ out.old.items
        ++ flat_map spec.outcome_text outcomes.now) }
{
    for outcome in outcomes {
        push_outcome(out, *outcome)?;
    }
    Ok(())
}

/// Adds the outcomes of a process, or ` none` if there are none.
fn push_outcomes(out: &mut Vec<u8>, outcomes: &[Outcome]) -> Pushed
    ensures { OnOk result (out.new.items ≡ out.old.items ++ spec.outcomes_text outcomes.now) }
{
    if outcomes.is_empty() {
        return push_text(out, " none");
    }
    push_each_outcome(out, outcomes)
}

/// Adds the name of process `p` and its outcomes.
fn push_answers_of(out: &mut Vec<u8>, p: usize, answers: &[Outcomes]) -> Pushed
    ensures { OnOk result (out.new.items ≡ out.old.items ++ spec.answers_of answers.now p) }
{
    push_labelled(out, " p", p as u64)?;
    match answers.get(p) {
        Some(outcomes) => push_outcomes(out, outcomes.as_slice()),
        None => push_outcomes(out, &[]),
    }
}

/// Adds the name of process `p` and its outcomes, if it has operations.
fn push_part(out: &mut Vec<u8>, p: usize, operations: &[Op], answers: &[Outcomes]) -> Pushed
    ensures { OnOk result (out.new.items ≡ out.old.items
        ++ spec.answers_part answers.now p operations.now) }
{
    if operations.is_empty() {
        return Ok(());
    }
    push_answers_of(out, p, answers)
}

/// Adds the name and the outcomes of each process that has operations.
#[tactic(auto, using(crate::proofs::Parts::parts_more, crate::proofs::Parts::parts_all))]
fn push_parts(out: &mut Vec<u8>, operations: &[Vec<Op>], answers: &[Outcomes]) -> Pushed
    ensures { OnOk result (out.new.items ≡ out.old.items
        ++ spec.answers_parts answers.now 0 (lists_of operations.now)) }
{
    for (p, list) in operations.iter().enumerate() {
        push_part(out, p, list, answers)?;
    }
    Ok(())
}

/// Adds a step's line.
fn push_step_line(out: &mut Vec<u8>, step: Step) -> Pushed
    ensures { OnOk result (out.new.items ≡ out.old.items ++ spec.line_of_step step) }
{
    push_step(out, step)?;
    push_text(out, "\n")
}

/// Adds a line for each step.
fn push_steps(out: &mut Vec<u8>, steps: &[Step]) -> Pushed
    ensures { OnOk result (out.new.items ≡ out.old.items ++ flat_map spec.line_of_step steps.now) }
{
    for step in steps {
        push_step_line(out, *step)?;
    }
    Ok(())
}

/// Adds one list of answers and its schedule.
fn push_possible(out: &mut Vec<u8>, operations: &[Vec<Op>], possible: &Possible) -> Pushed
    ensures { OnOk result (out.new.items ≡ out.old.items
        ++ spec.possible_text (lists_of operations.now) possible.now) }
{
    push_text(out, "\nanswers")?;
    push_parts(out, operations, &possible.answers)?;
    push_text(out, "\n")?;
    push_steps(out, &possible.steps)
}

/// Adds each list of answers and its schedule.
fn push_each_possible(out: &mut Vec<u8>, operations: &[Vec<Op>], found: &[Possible]) -> Pushed
    ensures { OnOk result (out.new.items ≡ out.old.items
        ++ flat_map (spec.possible_text (lists_of operations.now)) found.now) }
{
    for possible in found {
        push_possible(out, operations, possible)?;
    }
    Ok(())
}

/// Adds the two lines of numbers.
fn push_counts(out: &mut Vec<u8>, states: usize, lists: usize) -> Pushed
    ensures { OnOk result (out.new.items ≡ out.old.items ++ spec.counts_text states lists) }
{
    push_labelled(out, "states ", states as u64)?;
    push_labelled(out, "\nlists ", lists as u64)?;
    push_text(out, "\n")
}

/// The text of what a search found, given the operations of each process. `AllocError` if memory
/// runs out.
pub fn answers_text(
    alloc: Global,
    operations: &[Vec<Op>],
    found: &Found,
) -> Result<Vec<u8>, AllocError>
    ensures { IfOk result (λ text. text.items ≡ spec.answers_text (lists_of operations.now)
        found.now.states found.now.possible.items) }
{
    let mut out = Vec::new(alloc);
    push_counts(&mut out, found.states, found.possible.len())?;
    push_each_possible(&mut out, operations, &found.possible)?;
    Ok(out)
}
