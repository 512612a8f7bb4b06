//! The page of a branch's steps, with a line for each step.

ghost use Rattle.std.specs.Prelude.{◌≡◌, ◌++◌, IfOk, OnOk};
ghost use Rattle.pages.specs.page.Steps as spec;

use crate::page::head::push_title;
use crate::page::lines::{Line, push_lines};
use branch_terms::listed::Listed;
use branch_terms::name::Name;
use frames::types::Step;
use std::alloc::{AllocError, Global};
use words::step::push_step;
use words::text::{Pushed, push_labelled, push_number, push_text};

/// A page that shows all steps of a branch, in order.
#[derive(Clone, Drop)]
pub struct StepsPage {
    pub branch: Name,
    pub steps: Listed<Step>,
}

/// Adds to `out` the text of a page of a branch's steps.
pub(crate) fn push_steps(out: &mut Vec<u8>, session: u32, page: &StepsPage) -> Pushed
    ensures { OnOk result (out.new.items ≡ out.old.items ++ spec.steps_text session page.now) }
{
    let steps = page.steps.as_slice();
    push_steps_head(out, session, &page.branch, steps.len())?;
    push_lines(out, steps)
}

/// Adds the first line of the page of a branch's steps.
fn push_steps_head(out: &mut Vec<u8>, session: u32, branch: &Name, len: usize) -> Pushed
    ensures { OnOk result (out.new.items ≡ out.old.items
        ++ spec.steps_head session branch.now len) }
{
    push_title(out, session, "steps", branch)?;
    push_number(out, len as u64)?;
    push_text(out, "\n")
}

/// The line shows the step's index and its text.
impl Line for Step {
    ghost line = { spec.step_line };

    fn push_line(&self, out: &mut Vec<u8>, index: usize) -> Pushed {
        push_labelled(out, "  ", index as u64)?;
        push_text(out, " ")?;
        push_step(out, *self)?;
        push_text(out, "\n")
    }
}
