//! The lines of a page that show bit cells and words.

ghost use Rattle.std.specs.Prelude.{◌≡◌, ◌++◌, IfOk, OnOk, map};
ghost use Rattle.std.specs.List.{flat_map};
ghost use Rattle.pages.specs.page.Memory as spec;

use crate::page::lines::Line;
use branch_terms::listed::Listed;
use safe_bit::Cell;
use std::alloc::{AllocError, Global};
use words::text::{Pushed, push_labelled, push_text, push_word};

/// The value of each of these bit cells, in order.
pub(crate) fn cell_values(alloc: Global, cells: &[Cell]) -> Result<Listed<bool>, AllocError>
    ensures { IfOk result (λ all. all ≡ map spec.cell_value cells.now) }
{
    let mut all = Vec::new(alloc);
    for cell in cells {
        all.push(cell.value)?;
    }
    Ok(Listed::new(all))
}

/// A bit's value as text: `1` if it is true, else `0`.
pub(crate) fn bit_name(value: bool) -> &'static str
    ensures { result.now ≡ spec.bit_name value }
{
    if value { "1" } else { "0" }
}

/// Adds to `out` one line with the values of all bit cells.
pub(crate) fn push_bits_line(out: &mut Vec<u8>, bits: &[bool]) -> Pushed
    ensures { OnOk result (out.new.items ≡ out.old.items ++ spec.bits_line bits.now) }
{
    push_text(out, "  bits ")?;
    for bit in bits {
        push_bit_name(out, *bit)?;
    }
    push_text(out, "\n")
}

/// Adds a bit's value as text.
fn push_bit_name(out: &mut Vec<u8>, value: bool) -> Pushed
    ensures { OnOk result (out.new.items ≡ out.old.items ++ spec.bit_name value) }
{
    push_text(out, bit_name(value))
}

/// Adds to `out` one line with all words, or with a dash if there are no words.
pub(crate) fn push_words_line(out: &mut Vec<u8>, words: &[u32]) -> Pushed
    ensures { OnOk result (out.new.items ≡ out.old.items ++ spec.words_line words.now) }
{
    if words.is_empty() {
        return push_text(out, "  words -\n");
    }
    push_text(out, "  words")?;
    for word in words {
        push_labelled(out, " ", u64::from(*word))?;
    }
    push_text(out, "\n")
}

/// The line shows the cell's value and any write or read in progress; cells are numbered from 0.
impl Line for Cell {
    ghost line = { spec.bit_cell_line };

    fn push_line(&self, out: &mut Vec<u8>, index: usize) -> Pushed {
        push_labelled(out, "  ", index as u64)?;
        push_word(out, bit_name(self.value))?;
        push_word(out, writing_name(self.writing))?;
        push_word(out, reading_name(*self))?;
        push_text(out, "\n")
    }
}

/// The value being written to a bit, or a dash if no write is in progress.
fn writing_name(writing: Option<bool>) -> &'static str
    ensures { result.now ≡ spec.writing_name writing }
{
    match writing {
        None => "-",
        Some(value) => bit_name(value),
    }
}

/// A dash if no read of the bit is in progress; else `h` if a write of the bit has overlapped the
/// read, and `r` if none has.
fn reading_name(cell: Cell) -> &'static str
    ensures { result.now ≡ spec.reading_name cell }
{
    if !cell.reading {
        return "-";
    }
    if cell.hit { "h" } else { "r" }
}
