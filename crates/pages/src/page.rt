//! Pages as data, and their texts.

ghost use Rattle.std.specs.Prelude.{◌≡◌, ◌++◌, IfOk, OnOk};
ghost use Rattle.pages.specs.Pages as spec;

pub mod bits;
pub mod branches;
pub mod cursor;
pub mod head;
pub mod history;
mod lines;
pub(crate) mod memory;
mod names;
pub mod pending;
pub mod process;
pub mod state;
pub mod steps;
pub mod verdict;

use crate::query::{ConfigKind, EventsKind};
use bits::{BitsPage, bits_page, push_bits};
use branch_terms::listed::Listed;
use branches::{BranchesPage, push_branches};
use cursor::{CursorPage, push_cursor};
use frames::config::Config;
use frames::register::Register;
use frames::types::Event;
use head::Head;
use history::{HistoryPage, push_history};
use pending::{PendingPage, push_pending};
use process::{ProcessPage, process_page, push_process};
use state::{StatePage, push_state, state_page};
use std::alloc::{AllocError, Global};
use steps::{StepsPage, push_steps};
use verdict::{VerdictPage, push_verdict, verdict_page};
use words::text::Pushed;

/// How many bytes are reserved for a page's text at first. Most texts are shorter.
const SHORT_PAGE: usize = 256;

/// What a look shows, as data; there is a variant for each kind of look.
#[derive(Clone, Drop)]
pub enum Page {
    State(StatePage),
    Process(ProcessPage),
    Bits(BitsPage),
    Pending(PendingPage),
    History(HistoryPage),
    Verdict(VerdictPage),
    Branches(BranchesPage),
    Cursor(CursorPage),
    Steps(StepsPage),
}

/// Returns the page, of this kind, of a configuration. Fails only if memory runs out.
pub fn config_page<R: Register>(
    alloc: Global,
    kind: ConfigKind,
    head: &Head,
    config: &Config<R>,
) -> Result<Page, AllocError>
    ensures { IfOk result (λ page. page
        ≡ spec.config_page (R.behaviour config.now.register) kind head.now config.now) }
{
    match kind {
        ConfigKind::State => Ok(Page::State(state_page(alloc, head, config)?)),
        ConfigKind::Process(p) => Ok(Page::Process(process_page(head, p, config))),
        ConfigKind::Bits => Ok(Page::Bits(bits_page(alloc, head, config)?)),
        ConfigKind::Pending => Ok(Page::Pending(PendingPage {
            head: *head,
            processes: pending::pending_statuses(alloc, config)?,
        })),
    }
}

/// Returns the page of history of these events, each with the index of its step; or, if `kind` is
/// `Verdict`, the page of the verdicts on the reads that return among them. Fails only if memory
/// runs out.
pub fn events_page(
    alloc: Global,
    kind: EventsKind,
    head: &Head,
    events: Vec<(usize, Event)>,
) -> Result<Page, AllocError>
    ensures { IfOk result (λ page. page ≡ spec.events_page kind head.now events.items) }
{
    match kind {
        EventsKind::History => Ok(Page::History(HistoryPage {
            head: *head,
            events: Listed::new(events),
        })),
        EventsKind::Verdict(value) => {
            Ok(Page::Verdict(verdict_page(alloc, head, value, &events)?))
        }
    }
}

/// Returns the text of a page, as the answer to session `who`, whose number the text begins with.
/// Fails only if memory runs out.
pub fn page_text(alloc: Global, who: u32, page: &Page) -> Result<Vec<u8>, AllocError>
    ensures { IfOk result (λ text. text.items ≡ spec.page_text who page.now) }
{
    let mut out = Vec::with_capacity(alloc, SHORT_PAGE)?;
    push_page(&mut out, who, page)?;
    Ok(out)
}

/// Adds the text of a page.
fn push_page(out: &mut Vec<u8>, session: u32, page: &Page) -> Pushed
    ensures { OnOk result (out.new.items ≡ out.old.items ++ spec.page_text session page.now) }
{
    match page {
        Page::State(page) => push_state(out, session, page),
        Page::Process(page) => push_process(out, session, page),
        Page::Bits(page) => push_bits(out, session, page),
        Page::Pending(page) => push_pending(out, session, page),
        Page::History(page) => push_history(out, session, page),
        Page::Verdict(page) => push_verdict(out, session, page),
        Page::Branches(page) => push_branches(out, session, page),
        Page::Cursor(page) => push_cursor(out, session, page),
        Page::Steps(page) => push_steps(out, session, page),
    }
}
