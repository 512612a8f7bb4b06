//! The page that shows each bit cell and each word.

ghost use Rattle.std.specs.Prelude.{◌≡◌, ◌++◌, IfOk, OnOk};
ghost use Rattle.pages.specs.page.Bits as spec;

use crate::page::head::{Head, push_head};
use crate::page::lines::push_lines;
use crate::page::memory::push_words_line;
use branch_terms::listed::Listed;
use frames::config::Config;
use frames::register::Register;
use safe_bit::Cell;
use std::alloc::{AllocError, Global};
use words::text::Pushed;

/// A page that shows each bit cell, with any write or read in progress on it, and each word.
#[derive(Clone, Drop)]
pub struct BitsPage {
    pub head: Head,
    pub cells: Listed<Cell>,
    pub words: Listed<u32>,
}

/// The page that shows each bit cell and each word of a configuration's memory.
pub(crate) fn bits_page<R: Register>(
    alloc: Global,
    head: &Head,
    config: &Config<R>,
) -> Result<BitsPage, AllocError>
    ensures { IfOk result (λ page. page ≡ spec.bits_page head.now config.now) }
{
    let store = config.store();
    Ok(BitsPage {
        head: *head,
        cells: Listed::of(alloc, store.cells())?,
        words: Listed::of(alloc, store.words())?,
    })
}

/// Adds to `out` the text of a page of bit cells and words.
pub(crate) fn push_bits(out: &mut Vec<u8>, session: u32, page: &BitsPage) -> Pushed
    ensures { OnOk result (out.new.items ≡ out.old.items ++ spec.bits_text session page.now) }
{
    push_head(out, session, "bits", &page.head)?;
    push_lines(out, page.cells.as_slice())?;
    push_words_line(out, page.words.as_slice())
}
