//! The first line of a page.

ghost use Rattle.std.specs.Prelude.{◌≡◌, ◌++◌, OnOk, decimal};
ghost use Rattle.pages.specs.page.Head as spec;

use branch_terms::name::Name;
use words::text::{Pushed, push_bytes, push_labelled, push_number, push_text};

/// The place that a page shows: after the first `place` steps of a branch that has `len` steps.
#[derive(Clone, Copy, Debug, PartialEq, Eq)]
pub struct Head {
    pub branch: Name,
    pub place: u32,
    pub len: u32,
}

/// Adds to `out` the beginning of a page's first line: the session, the kind of page, the branch.
pub(crate) fn push_title(out: &mut Vec<u8>, session: u32, kind: &str, branch: &Name) -> Pushed
    ensures { OnOk result (out.new.items ≡ out.old.items
        ++ spec.page_title session kind.now branch.now) }
{
    push_number(out, u64::from(session))?;
    push_text(out, ": ")?;
    push_text(out, kind)?;
    push_text(out, " ")?;
    push_bytes(out, branch.as_bytes())?;
    push_text(out, " ")
}

/// Adds to `out` the first line of a page that shows a place: the session, the kind of page, the
/// branch, the place and the branch's length.
pub(crate) fn push_head(out: &mut Vec<u8>, session: u32, kind: &str, head: &Head) -> Pushed
    ensures { OnOk result (out.new.items ≡ out.old.items
        ++ spec.head_line session kind.now head.now) }
{
    push_title(out, session, kind, &head.branch)?;
    push_pair(out, u64::from(head.place), " of ", u64::from(head.len))
}

/// Adds to `out` the number `first`, the text `between`, the number `second`, and the end of the
/// line.
pub(super) fn push_pair(out: &mut Vec<u8>, first: u64, between: &str, second: u64) -> Pushed
    ensures { OnOk result (out.new.items ≡ out.old.items
        ++ decimal first ++ between.now ++ decimal second ++ spec.line_end) }
{
    push_number(out, first)?;
    push_labelled(out, between, second)?;
    push_text(out, "\n")
}
