//! Slips: what a look found, from which a page is made later.

ghost use Rattle.std.specs.Prelude.{◌≡◌, Some, None, true, Ok, IfOk, OnOk, IfErr, IfSome};
ghost use Rattle.schedule_trie.specs.Forest.{IsRefused};
ghost use Rattle.schedule_trie.specs.Trie.{forest};
ghost use Rattle.views.specs.Looks as spec;
ghost use Rattle.views.specs.Looks.{looked, IsChartKept};
ghost use Rattle.views.specs.ChartLooks.{IsLookAt, shown_by, config_page_in, events_page_in, steps_page};
ghost use Rattle.views.specs.RunPages.{config_content};
ghost use Rattle.pages.specs.Strays.{IsRegularOrAtomic, Judges, JudgesRegister, JudgesFrom, ShowsNoStray};

use crate::lens::Lens;
use checkpoints::run::Run;
use cutoff::chart::Chart;
use frames::config::Config;
use frames::register::Register;
use frames::types::Op;
use pages::listed::Listed;
use pages::page::Page;
use pages::page::head::Head;
use pages::page::steps::StepsPage;
use pages::query::{ConfigKind, EventsKind, Query};
use schedule_trie::name::Name;
use schedule_trie::refusal::Refusal;
use std::alloc::{AllocError, Global};
use std::marker::Model;
use std::snapshot::Snapshot;
use std::sync::Arc;

mod content;

use content::Content;

/// What a look found, from which its page is made later. The page is already determined: edits made
/// in the meantime don't change it. `judged`, which only proofs use, is the register that was
/// looked at, or `None` if `Slip::of` made the slip. If there is a register, any verdicts on the
/// page are on that register's reads.
#[derive(Drop)]
pub struct Slip<R: Register> {
    content: Content<R>,
    judged: Snapshot<Option<R>>,
}

impl<R: Register> Model for Slip<R> {
    ghost use Rattle.views.specs.RunPages.{content_page};
    ghost use Rattle.views.specs.Slips.{Slipped};
    ghost use Rattle.pages.specs.Strays.{JudgesRegister};

    ghost Value = { Slipped R };

    ghost view = { λ s. record { page = content_page R.behaviour s.content; judged = s.judged.value } };

    ghost invariant = { λ s. JudgesRegister R.behaviour s.judged.value (content_page R.behaviour s.content) };
}

impl<R: Register> Slip<R> {
    /// Looks at one branch; `query` must not be `Branches` or `Cursor`. If the query is `Steps`,
    /// the returned slip's page shows the branch's steps. Every other query has a `k`. The
    /// page then shows what a replay of the branch's first `k` steps from the initial value gives:
    /// the configuration that the replay reaches, or a part of that configuration; or the events
    /// that the replay records; or the verdicts (if they are defined) on the reads that return in
    /// these events. The slip remembers the chart's register, and any verdicts on the page are on a
    /// history of that register. If that register is regular or atomic, no verdict is stray. Of the
    /// chart, only stored runs may change, even if there is an error.
    ///
    /// # Errors
    ///
    /// NoBranch if there is no such branch; NoPlace if the query has a `k`, and the branch has
    /// fewer than `k` steps; Memory if memory runs out.
    pub fn at(alloc: Global, chart: &mut Chart<R>, query: Query) -> Result<Slip<R>, Refusal>
        requires { spec.is_at_branch query ≡ true }
        ensures page { IfOk result (λ slip. Some slip.page ≡ shown_by R.behaviour chart.old query) }
        ensures found { OnOk result (looked query (forest chart.old.trie)
            ≡ Ok (forest chart.old.trie)) }
        ensures err { IfErr result (IsRefused (looked query (forest chart.old.trie))) }
        ensures kept { IsChartKept chart.old chart.new }
        ensures judged { IfOk result (λ slip. slip.judged ≡ Some chart.old.start.register) }
        ensures judges { IfOk result
            (λ slip. Judges (R.behaviour chart.old.start.register) slip.page) }
        ensures never_stray { IsRegularOrAtomic (R.behaviour chart.old.start.register)
            → IfOk result (λ slip. ShowsNoStray slip.page) }
    {
        match query {
            Query::State { b, k } => config_slip(alloc, chart, ConfigKind::State, b, k),
            Query::Process { b, k, p } => config_slip(alloc, chart, ConfigKind::Process(p), b, k),
            Query::Bits { b, k } => config_slip(alloc, chart, ConfigKind::Bits, b, k),
            Query::Pending { b, k } => config_slip(alloc, chart, ConfigKind::Pending, b, k),
            Query::History { b, k } => events_slip(alloc, chart, EventsKind::History, b, k),
            Query::Verdict { b, k } => {
                let value = judged_from(chart);
                events_slip(alloc, chart, EventsKind::Verdict(value), b, k)
            }
            Query::Steps { b } => steps_slip(alloc, chart, b),
            Query::Branches | Query::Cursor { .. } => unreachable!(),
        }
    }

    /// Returns a slip whose page is `page`, which was made already, for example from the list of
    /// branches. The slip remembers no register. Allocates nothing.
    pub fn of(page: Page) -> Slip<R>
        ensures page { result.page ≡ page }
        ensures judged { result.judged ≡ None }
    {
        let content = Content::Ready(page);
        let judged = Snapshot::of(&None);
        Slip { content, judged }
    }

    /// Returns the slip's page. The page doesn't depend on `lens`, which only saves replaying
    /// steps. If the slip remembers the register that was looked at, any verdicts on the page are
    /// on a history of that register; and if that register is regular or atomic, none of them is
    /// stray. Fails only if memory runs out.
    pub fn page(&self, alloc: Global, lens: &mut Lens<R>) -> Result<Page, AllocError>
        ensures page { IfOk result (λ page. page ≡ self.now.page) }
        ensures judges { IfOk result (JudgesRegister R.behaviour self.now.judged) }
        ensures never_stray { IfSome self.now.judged
            (λ register. IsRegularOrAtomic (R.behaviour register) → IfOk result ShowsNoStray) }
    {
        self.content.page(alloc, lens)
    }

    /// Consumes the slip and returns its page. If the slip already holds the page, the page isn't
    /// copied. The page doesn't depend on `lens`, which only saves replaying steps. If the slip
    /// remembers the register that was looked at, any verdicts on the page are on a history of that
    /// register; and if that register is regular or atomic, none of them is stray. Fails only if
    /// memory runs out.
    pub fn into_page(self, alloc: Global, lens: &mut Lens<R>) -> Result<Page, AllocError>
        ensures page { IfOk result (λ page. page ≡ self.page) }
        ensures judges { IfOk result (JudgesRegister R.behaviour self.judged) }
        ensures never_stray { IfSome self.judged
            (λ register. IsRegularOrAtomic (R.behaviour register) → IfOk result ShowsNoStray) }
    {
        let Slip { content, judged: _ } = self;
        match content {
            Content::Ready(page) => Ok(page),
            content => content.page(alloc, lens),
        }
    }
}

/// The initial value, from which reads are judged; `None` if process 1 can write too.
fn judged_from<R: Register>(chart: &Chart<R>) -> Option<u32>
    ensures { result ≡ spec.judged_from (R.behaviour chart.now.start.register) chart.now.value }
{
    let register = chart.initial().register();
    if register.fits(1, Op::Write(0)) {
        None
    } else {
        Some(chart.value())
    }
}

/// The register that is looked at, as a value that only proofs use.
fn judged_by<R: Register>(chart: &Chart<R>) -> Snapshot<Option<R>>
    ensures { result.value ≡ Some chart.now.start.register }
{
    let register = chart.initial().register();
    Snapshot::of(&Some(register))
}

/// Looks at the configuration after the first `place` steps of a branch.
fn config_slip<R: Register>(
    alloc: Global,
    chart: &mut Chart<R>,
    kind: ConfigKind,
    branch: Name,
    place: u32,
) -> Result<Slip<R>, Refusal>
    ensures page { IfOk result
        (λ slip. slip.page ≡ config_page_in R.behaviour chart.old kind branch place) }
    ensures look { IsLookAt R.behaviour chart.old branch place result }
    ensures kept { IsChartKept chart.old chart.new }
{
    let judged = judged_by(chart);
    let last = chart.settle_last(alloc, &branch, place)?;
    let len = last.len;
    let head = Head { branch, place, len };
    let content = config_content(alloc, kind, head, chart.initial(), last.part)?;
    Ok(Slip { content, judged })
}

/// Looks at the events of the first `place` steps of a branch.
fn events_slip<R: Register>(
    alloc: Global,
    chart: &mut Chart<R>,
    kind: EventsKind,
    branch: Name,
    place: u32,
) -> Result<Slip<R>, Refusal>
    requires { JudgesFrom chart.old.value kind }
    ensures page { IfOk result
        (λ slip. slip.page ≡ events_page_in R.behaviour chart.old kind branch place) }
    ensures look { IsLookAt R.behaviour chart.old branch place result }
    ensures kept { IsChartKept chart.old chart.new }
{
    chart.lemma_steps_fit();
    let judged = judged_by(chart);
    let Some(len) = chart.len(&branch) else {
        return Err(Refusal::NoBranch);
    };
    let spot = chart.settle(alloc, &branch, place)?;
    let head = Head { branch, place, len };
    let content = Content::Runs(kind, head, spot.runs);
    Ok(Slip { content, judged })
}

/// What a slip holds for a page of a configuration: the last run up to the place, or the
/// configuration `first` if there is no run.
fn config_content<R: Register>(
    alloc: Global,
    kind: ConfigKind,
    head: Head,
    first: &Config<R>,
    last: Option<(Arc<Run<R>>, u32)>,
) -> Result<Content<R>, AllocError>
    ensures { IfOk result (λ content. content ≡ config_content kind head first.now last) }
{
    match last {
        None => Ok(Content::Initial(kind, head, first.copy(alloc)?)),
        Some((run, count)) => Ok(Content::Last(kind, head, run, count)),
    }
}

/// Looks at the steps of a branch.
fn steps_slip<R: Register>(
    alloc: Global,
    chart: &Chart<R>,
    branch: Name,
) -> Result<Slip<R>, Refusal>
    ensures page { IfOk result (λ slip. slip.page ≡ steps_page (forest chart.now.trie) branch) }
    ensures look { IsLookAt R.behaviour chart.now branch 0 result }
{
    let judged = judged_by(chart);
    let steps = Listed::new(chart.path(alloc, &branch)?);
    let content = Content::Ready(Page::Steps(StepsPage { branch, steps }));
    Ok(Slip { content, judged })
}
