//! Lines for the items of a list.

ghost use Rattle.std.specs.Prelude.{◌≡◌, ◌++◌, ℕ, List, OnOk};
ghost use Rattle.pages.specs.Lines.{numbered_lines, lines_or_none};

use words::text::{Pushed, push_text};

/// What a page shows on a line of its own.
pub(crate) trait Line {
    // The line of an item, given how many items are before it.
    ghost line: { ℕ → Self → List ℕ };

    /// Adds the line to `out`; `index` says how many items are before this one.
    fn push_line(&self, out: &mut Vec<u8>, index: usize) -> Pushed
        ensures { OnOk result (out.new.items ≡ out.old.items ++ Self.line index self.now) };
}

/// Adds to `out` a line for each item.
pub(crate) fn push_lines<L: Line>(out: &mut Vec<u8>, items: &[L]) -> Pushed
    ensures { OnOk result (out.new.items ≡ out.old.items ++ numbered_lines L.line 0 items.now) }
{
    for (index, item) in items.iter().enumerate() {
        item.push_line(out, index)?;
    }
    Ok(())
}

/// Adds to `out` a line for each item, or the line `none` if there are no items.
pub(crate) fn push_lines_or_none<L: Line>(out: &mut Vec<u8>, items: &[L]) -> Pushed
    ensures { OnOk result (out.new.items ≡ out.old.items ++ lines_or_none L.line items.now) }
{
    if items.is_empty() {
        return push_text(out, "  none\n");
    }
    push_lines(out, items)
}
