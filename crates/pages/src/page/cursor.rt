//! The page that shows a session's cursor and its breaks.

ghost use Rattle.std.specs.Prelude.{◌≡◌, ◌++◌, IfOk, OnOk};
ghost use Rattle.pages.specs.page.Cursor as spec;

use crate::breakpoint::Break;
use crate::page::head::{push_pair, push_title};
use crate::page::lines::{Line, push_lines};
use branch_terms::listed::Listed;
use branch_terms::name::Name;
use std::alloc::{AllocError, Global};
use words::text::{Pushed, push_labelled, push_text};

/// A page that shows a session's cursor, which is at the place `place` of the branch `branch`, and
/// the session's breaks in order.
#[derive(Clone, Drop)]
pub struct CursorPage {
    pub branch: Name,
    pub place: u32,
    pub breaks: Listed<Break>,
}

/// Adds to `out` the text of a page that shows a session's cursor and breaks.
pub(crate) fn push_cursor(out: &mut Vec<u8>, session: u32, page: &CursorPage) -> Pushed
    ensures { OnOk result (out.new.items ≡ out.old.items ++ spec.cursor_text session page.now) }
{
    let breaks = page.breaks.as_slice();
    push_cursor_head(out, session, &page.branch, page.place, breaks.len())?;
    push_lines(out, breaks)
}

/// Adds the first line of the page of a cursor.
fn push_cursor_head(
    out: &mut Vec<u8>,
    session: u32,
    branch: &Name,
    place: u32,
    count: usize,
) -> Pushed
    ensures { OnOk result (out.new.items ≡ out.old.items
        ++ spec.cursor_head session branch.now place count) }
{
    push_title(out, session, "cursor", branch)?;
    push_pair(out, u64::from(place), " breaks ", count as u64)
}

/// The line shows what the break looks for.
impl Line for Break {
    ghost line = { λ index at. spec.break_line at };

    fn push_line(&self, out: &mut Vec<u8>, _index: usize) -> Pushed {
        push_text(out, "  ")?;
        push_break_text(out, *self)?;
        push_text(out, "\n")
    }
}

/// Adds the text of a break, without the line around it.
fn push_break_text(out: &mut Vec<u8>, at: Break) -> Pushed
    ensures { OnOk result (out.new.items ≡ out.old.items ++ spec.break_text at) }
{
    match at {
        Break::Returns(p) => push_labelled(out, "returns ", u64::from(p)),
        Break::Bit(j, v) => push_bit_break(out, j, v),
        Break::Chosen => push_text(out, "chosen"),
        Break::Void => push_text(out, "void"),
        Break::Refused => push_text(out, "refused"),
    }
}

/// Adds the text of a break on bit `j` with value `v`.
fn push_bit_break(out: &mut Vec<u8>, j: u32, v: u32) -> Pushed
    ensures { OnOk result (out.new.items ≡ out.old.items ++ spec.break_text (Break.Bit j v)) }
{
    push_labelled(out, "bit ", u64::from(j))?;
    push_labelled(out, " ", u64::from(v))
}
