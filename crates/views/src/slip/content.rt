//! What a slip, the result of a look, holds until its page is made.

ghost use Rattle.std.specs.Prelude.{◌≡◌, IfOk};
ghost use Rattle.cutoff.specs.Fitting.{part_of};
ghost use Rattle.views.specs.RunPages as spec;

use crate::lens::Lens;
use crate::spot::{exit_at, history_of};
use checkpoints::run::Run;
use cutoff::runs::Runs;
use frames::config::Config;
use frames::register::Register;
use pages::page::head::Head;
use pages::page::{Page, config_page, events_page};
use pages::query::{ConfigKind, EventsKind};
use std::alloc::{AllocError, Global};
use std::sync::Arc;

/// What a slip holds: what a look found at a place, and only what is needed to make its page; or a
/// page that was made already.
#[derive(Drop)]
pub(super) enum Content<R: Register> {
    /// For a page of a configuration, if no step precedes the place: the configuration at the
    /// place.
    Initial(ConfigKind, Head, Config<R>),
    /// For a page of a configuration: the run that reaches the place, and how many of the run's
    /// steps precede the place.
    Last(ConfigKind, Head, Arc<Run<R>>, u32),
    /// For a page of events: the runs up to the place, each with how many of its steps precede the
    /// place.
    Runs(EventsKind, Head, Runs<R>),
    /// The page.
    Ready(Page),
}

impl<R: Register> Content<R> {
    /// The page that is made from what a slip holds. It doesn't depend on `lens`, which only saves
    /// replaying steps.
    pub(super) fn page(&self, alloc: Global, lens: &mut Lens<R>) -> Result<Page, AllocError>
        ensures { IfOk result (λ page. page ≡ spec.content_page R.behaviour self.now) }
    {
        match self {
            Content::Initial(kind, head, config) => config_page(alloc, *kind, head, config),
            Content::Last(kind, head, run, count) => {
                part_page(alloc, lens, *kind, head, run, *count)
            }
            Content::Runs(kind, head, runs) => runs_page(alloc, *kind, head, runs),
            Content::Ready(page) => page.clone(),
        }
    }
}

/// The page of the configuration after the first `count` steps of `run`. If the run has at most
/// `count` steps, the configuration is the run's exit, and the page is made from the exit itself,
/// not from a copy. Otherwise `lens` finds the configuration.
fn part_page<R: Register>(
    alloc: Global,
    lens: &mut Lens<R>,
    kind: ConfigKind,
    head: &Head,
    run: &Arc<Run<R>>,
    count: u32,
) -> Result<Page, AllocError>
    ensures { IfOk result
        (λ page. page ≡ spec.part_page R.behaviour kind head.now (part_of (run.now, count))) }
{
    if count as usize >= run.steps().len() {
        return config_page(alloc, kind, head, exit_at(run, count));
    }
    let config = lens.config_in(alloc, run, count)?;
    config_page(alloc, kind, head, &config)
}

/// The page of the events of these runs, each up to its count of steps.
fn runs_page<R: Register>(
    alloc: Global,
    kind: EventsKind,
    head: &Head,
    runs: &Runs<R>,
) -> Result<Page, AllocError>
    ensures { IfOk result (λ page. page ≡ spec.runs_page R.behaviour kind head.now runs.now) }
{
    let events = history_of(alloc, runs.as_slice())?;
    events_page(alloc, kind, head, events)
}
