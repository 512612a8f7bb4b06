//! The page of a configuration: its processes, and the values of all bit cells and words.

ghost use Rattle.std.specs.Prelude.{◌≡◌, ◌++◌, IfOk, OnOk};
ghost use Rattle.pages.specs.page.State as spec;

use crate::page::head::{Head, push_head};
use crate::page::lines::push_lines;
use crate::page::memory::{cell_values, push_bits_line, push_words_line};
use crate::page::process::{ProcessStatus, statuses};
use branch_terms::listed::Listed;
use frames::config::Config;
use frames::register::Register;
use std::alloc::{AllocError, Global};
use words::text::Pushed;

/// A page that shows what each process is doing, and the values of all bit cells and words.
#[derive(Clone, Drop)]
pub struct StatePage {
    pub head: Head,
    pub processes: Listed<ProcessStatus>,
    pub bits: Listed<bool>,
    pub words: Listed<u32>,
}

/// The page that shows a configuration's processes, and the values of its bit cells and words.
pub(crate) fn state_page<R: Register>(
    alloc: Global,
    head: &Head,
    config: &Config<R>,
) -> Result<StatePage, AllocError>
    ensures { IfOk result
        (λ page. page ≡ spec.state_page (R.behaviour config.now.register) head.now config.now) }
{
    let store = config.store();
    Ok(StatePage {
        head: *head,
        processes: statuses(alloc, config)?,
        bits: cell_values(alloc, store.cells())?,
        words: Listed::of(alloc, store.words())?,
    })
}

/// Adds to `out` the text of a page of a configuration.
pub(crate) fn push_state(out: &mut Vec<u8>, session: u32, page: &StatePage) -> Pushed
    ensures { OnOk result (out.new.items ≡ out.old.items ++ spec.state_text session page.now) }
{
    push_head(out, session, "state", &page.head)?;
    push_lines(out, page.processes.as_slice())?;
    push_bits_line(out, page.bits.as_slice())?;
    push_words_line(out, page.words.as_slice())
}
