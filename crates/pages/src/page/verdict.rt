//! The page of verdicts on reads.

ghost use Rattle.std.specs.Prelude.{◌≡◌, ◌++◌, IfOk, OnOk};
ghost use Rattle.pages.specs.page.Verdict as spec;

use crate::page::head::{Head, push_head};
use crate::page::lines::{Line, push_lines_or_none};
use crate::page::names::verdict_name;
use crate::verdict::verdicts;
use branch_terms::listed::Listed;
use frames::types::Event;
use frames::verdict::ReadVerdict;
use std::alloc::{AllocError, Global};
use words::text::{Pushed, push_labelled, push_text, push_word};

/// A page that shows each read that returned before a place, with the verdict on it. `reads` is
/// `None` on a tower with several writers, for which verdicts aren't defined.
#[derive(Clone, Drop)]
pub struct VerdictPage {
    pub head: Head,
    pub reads: Option<Listed<ReadVerdict>>,
}

/// The page that shows the verdict on each read that returns in `events`, given the register's
/// initial value, `value`. If no initial value is given, the page's `reads` are `None`.
pub(crate) fn verdict_page(
    alloc: Global,
    head: &Head,
    value: Option<u32>,
    events: &[(usize, Event)],
) -> Result<VerdictPage, AllocError>
    ensures { IfOk result (λ page. page ≡ spec.verdict_page head.now value events.now) }
{
    let reads = match value {
        None => None,
        Some(value) => Some(Listed::new(verdicts(alloc, value, events)?)),
    };
    let head = *head;
    Ok(VerdictPage { head, reads })
}

/// Adds to `out` the text of a page of verdicts.
pub(crate) fn push_verdict(out: &mut Vec<u8>, session: u32, page: &VerdictPage) -> Pushed
    ensures { OnOk result (out.new.items ≡ out.old.items ++ spec.verdict_text session page.now) }
{
    push_head(out, session, "verdict", &page.head)?;
    push_reads(out, &page.reads)
}

/// Adds the lines of returned reads, or `undefined for matrix` if `reads` is `None`.
fn push_reads(out: &mut Vec<u8>, reads: &Option<Listed<ReadVerdict>>) -> Pushed
    ensures { OnOk result (out.new.items ≡ out.old.items ++ spec.reads_text reads.now) }
{
    match reads {
        None => push_text(out, "  undefined for matrix\n"),
        Some(reads) => push_lines_or_none(out, reads.as_slice()),
    }
}

/// The line shows the step in which the read returned, its process, its value and its verdict.
impl Line for ReadVerdict {
    ghost line = { λ index read. spec.verdict_line read };

    fn push_line(&self, out: &mut Vec<u8>, _index: usize) -> Pushed {
        push_labelled(out, "  ", self.step as u64)?;
        push_labelled(out, " p", u64::from(self.process))?;
        push_labelled(out, " ", u64::from(self.value))?;
        push_word(out, verdict_name(self.verdict))?;
        push_text(out, "\n")
    }
}
