//! The page that lists all branches.

ghost use Rattle.std.specs.Prelude.{◌≡◌, ◌++◌, OnOk, codes, decimal};
ghost use Rattle.pages.specs.page.Branches as spec;
ghost use Rattle.pages.specs.page.Head.{line_end};

use crate::page::head::push_pair;
use crate::page::lines::{Line, push_lines};
use branch_terms::listed::Listed;
use branch_terms::name::Name;
use std::alloc::AllocError;
use words::text::{Pushed, push_bytes, push_labelled, push_number, push_text};

/// The name of a branch, and how many cells the branch has.
#[derive(Clone, Copy, Debug, PartialEq, Eq)]
pub struct BranchLength {
    pub name: Name,
    pub len: u32,
}

/// A page that lists all branches, in the order they were made. It also shows how many edits were
/// accepted, and how many cells, each of which holds a step, were ever made.
#[derive(Clone, Drop)]
pub struct BranchesPage {
    pub edits: u64,
    pub made: u32,
    pub branches: Listed<BranchLength>,
}

/// Adds to `out` the text of a page that lists the branches.
pub(crate) fn push_branches(out: &mut Vec<u8>, session: u32, page: &BranchesPage) -> Pushed
    ensures { OnOk result (out.new.items ≡ out.old.items ++ spec.branches_text session page.now) }
{
    let branches = page.branches.as_slice();
    push_branches_head(out, session, branches.len(), page.edits, page.made)?;
    push_lines(out, branches)
}

/// Adds the first line of the page of the branches.
fn push_branches_head(
    out: &mut Vec<u8>,
    session: u32,
    count: usize,
    edits: u64,
    made: u32,
) -> Pushed
    ensures { OnOk result (out.new.items ≡ out.old.items
        ++ spec.branches_head session count edits made) }
{
    push_number(out, u64::from(session))?;
    push_labelled(out, ": branches ", count as u64)?;
    push_edits_and_made(out, edits, made)
}

/// Adds how many edits were accepted and how many cells were ever made, and the end of the line.
fn push_edits_and_made(out: &mut Vec<u8>, edits: u64, made: u32) -> Pushed
    ensures { OnOk result (out.new.items ≡ out.old.items
        ++ codes " edits " ++ decimal edits ++ codes " made " ++ decimal made ++ line_end) }
{
    push_text(out, " edits ")?;
    push_pair(out, edits, " made ", u64::from(made))
}

/// The line shows the branch's name and its length.
impl Line for BranchLength {
    ghost line = { λ index branch. spec.branch_line branch };

    fn push_line(&self, out: &mut Vec<u8>, _index: usize) -> Pushed {
        push_text(out, "  ")?;
        push_bytes(out, self.name.as_bytes())?;
        push_labelled(out, " ", u64::from(self.len))?;
        push_text(out, "\n")
    }
}
