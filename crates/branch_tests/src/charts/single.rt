//! Single calls of a chart, and of what it gives. Each is in a function without `ensures` clauses,
//! so that no later proof carries what the call promises.

ghost use Rattle.std.specs.Prelude.{◌≡◌, true};
ghost use Rattle.frames.specs.Configuration.{fits_step};
ghost use Rattle.frames.specs.SafeBit.{safe_behaviour};
ghost use Rattle.schedule_trie.specs.Edits.{edit_in};
ghost use Rattle.cutoff.specs.Edits.{FitsEdit};
ghost use Rattle.views.specs.Looks.{is_at_branch};

use checkpoints::run::{Run, run_segment};
use cutoff::chart::Chart;
use cutoff::install::Installation;
use cutoff::plan::Job;
use frames::register::Register;
use frames::safe::Safe;
use frames::types::Step;
use schedule_trie::edit::Edit;
use schedule_trie::name::Name;
use schedule_trie::refusal::Refusal;
use schedule_trie::trie::SegKey;
use std::alloc::Global;
use std::process::Abort;
use std::sync::Arc;
use views::lens::Lens;
use views::page::{Page, page_text};
use views::query::Query;
use views::slip::Slip;

/// The key of a segment, and a run of it.
pub(crate) type KeyedRun<R> = (SegKey, Arc<Run<R>>);

/// The run of a job.
fn run_of<R: Register>(alloc: Global, job: &Job<R>) -> Result<Arc<Run<R>>, Refusal> {
    let Ok(run) = run_segment(alloc, &job.entry, job.steps.as_slice()) else {
        return Err(Refusal::Memory);
    };
    Arc::new(alloc, run).or(Err(Refusal::Memory))
}

/// The key and the run of a job.
fn keyed_run_of<R: Register>(alloc: Global, job: &Job<R>) -> Result<KeyedRun<R>, Refusal> {
    Ok((job.key, run_of(alloc, job)?))
}

/// The key and the run of the only job; `None` unless there is just one job.
pub(crate) fn only_run<R: Register>(
    alloc: Global,
    jobs: &[Job<R>],
) -> Result<Option<KeyedRun<R>>, Refusal> {
    match jobs {
        [job] => Ok(Some(keyed_run_of(alloc, job)?)),
        _ => Ok(None),
    }
}

/// The key and the run of the first job; `None` unless it is of this step alone.
pub(super) fn first_run<R: Register>(
    alloc: Global,
    jobs: &[Job<R>],
    step: Step,
) -> Result<Option<KeyedRun<R>>, Refusal> {
    match jobs.first() {
        Some(job) if is_of(job, step) => Ok(Some(keyed_run_of(alloc, job)?)),
        _ => Ok(None),
    }
}

/// Whether a job is of this step alone.
pub(super) fn is_of<R: Register>(job: &Job<R>, step: Step) -> bool {
    job.steps.as_slice() == [step].as_slice()
}

/// The jobs of a branch's plan.
pub(super) fn jobs_of<R: Register>(
    alloc: Global,
    chart: &Chart<R>,
    branch: &Name,
) -> Result<Vec<Job<R>>, Refusal> {
    chart.plan(alloc, branch)
}

/// Adds an item to those that are kept, and returns true.
pub(super) fn keep<T: Drop>(items: &mut Vec<T>, item: T) -> Result<bool, Refusal> {
    match items.push(item) {
        Ok(()) => Ok(true),
        Err(_) => Err(Refusal::Memory),
    }
}

/// Keeps the run of the only job. Returns whether there is just one job.
pub(super) fn keeps_only<R: Register>(
    alloc: Global,
    jobs: &[Job<R>],
    runs: &mut Vec<KeyedRun<R>>,
) -> Result<bool, Refusal> {
    match only_run(alloc, jobs)? {
        Some(kept) => keep(runs, kept),
        None => Ok(false),
    }
}

/// Offers a run at a key.
pub(super) fn install<R: Register>(
    chart: &mut Chart<R>,
    key: SegKey,
    run: Arc<Run<R>>,
) -> Installation {
    chart.install(key, run)
}

/// Offers the run that was kept first, and returns whether it was installed.
pub(super) fn installs_first<R: Register>(
    chart: &mut Chart<R>,
    runs: &mut Vec<KeyedRun<R>>,
) -> bool {
    if runs.is_empty() {
        return false;
    }
    let (key, run) = runs.remove(0);
    install(chart, key, run) == Installation::Installed
}

/// The number of steps that a settle of all runs reports as replayed.
pub(super) fn settle<R: Register>(
    alloc: Global,
    chart: &mut Chart<R>,
    branch: &Name,
    place: u32,
) -> Result<u32, Refusal> {
    Ok(chart.settle(alloc, branch, place)?.replayed)
}

/// Makes an edit whose step, if it has one, fits.
pub(super) fn edit<R: Register>(
    alloc: Global,
    chart: &mut Chart<R>,
    edit: &Edit<'_>,
) -> Result<(), Refusal>
    requires { FitsEdit (R.behaviour chart.old.start.register) (edit_in edit.now) }
{
    match *edit {
        Edit::Insert(branch, place, step) => chart.insert(alloc, branch, place, step),
        Edit::Remove(branch, place) => chart.remove(branch, place),
        Edit::Replace(branch, place, step) => chart.replace(branch, place, step),
        Edit::Fork(branch, place, name) => chart.fork(alloc, branch, place, *name),
        Edit::Detach(branch) => chart.detach(alloc, branch),
        Edit::Drop(branch) => chart.drop_branch(branch),
    }
}

/// Forks a branch after the first cell of `main`.
pub(super) fn fork<R: Register>(
    alloc: Global,
    chart: &mut Chart<R>,
    main: &Name,
    branch: Name,
) -> Result<(), Refusal> {
    chart.fork(alloc, main, 1, branch)
}

/// Forks a branch after the first cell of `main`, and gives it a step.
pub(super) fn fork_with(
    alloc: Global,
    chart: &mut Chart<Safe>,
    main: &Name,
    branch: Name,
    step: Step,
) -> Result<(), Refusal>
    requires { fits_step safe_behaviour step ≡ true }
{
    fork(alloc, chart, main, branch)?;
    edit(alloc, chart, &Edit::Insert(&branch, 1, step))
}

/// The slip of a look at a branch.
pub(super) fn slip_of<R: Register>(
    alloc: Global,
    chart: &mut Chart<R>,
    query: Query,
) -> Result<Slip<R>, Refusal>
    requires { is_at_branch query ≡ true }
{
    Slip::at(alloc, chart, query)
}

/// A new lens; fails if memory runs out.
pub(super) fn new_lens<R: Register>(rt: &impl Abort, alloc: Global) -> Lens<R> {
    Lens::new(alloc).expect(rt, "memory")
}

/// A slip's page, through a lens.
fn page_through<R: Register>(
    alloc: Global,
    slip: &Slip<R>,
    lens: &mut Lens<R>,
) -> Result<Page, Refusal> {
    slip.page(alloc, lens).or(Err(Refusal::Memory))
}

/// A slip's page, through a new lens.
fn page_of<R: Register>(alloc: Global, slip: &Slip<R>) -> Result<Page, Refusal> {
    let Ok(mut lens) = Lens::new(alloc) else {
        return Err(Refusal::Memory);
    };
    page_through(alloc, slip, &mut lens)
}

/// The page of a slip that isn't used again, through a new lens.
pub(crate) fn page_once<R: Register>(alloc: Global, slip: Slip<R>) -> Result<Page, Refusal> {
    page_of(alloc, &slip)
}

/// The text of a page.
fn text_of_page(alloc: Global, page: &Page) -> Result<Vec<u8>, Refusal> {
    page_text(alloc, 0, page).or(Err(Refusal::Memory))
}

/// The text of a slip's page, through a lens.
pub(super) fn text_through<R: Register>(
    alloc: Global,
    slip: &Slip<R>,
    lens: &mut Lens<R>,
) -> Result<Vec<u8>, Refusal> {
    let page = page_through(alloc, slip, lens)?;
    text_of_page(alloc, &page)
}

/// The text of a slip's page, through a new lens.
pub(super) fn text_of<R: Register>(alloc: Global, slip: &Slip<R>) -> Result<Vec<u8>, Refusal> {
    let page = page_of(alloc, slip)?;
    text_of_page(alloc, &page)
}

/// The text of the page of a slip that isn't used again, through a new lens.
pub(crate) fn text_once<R: Register>(alloc: Global, slip: Slip<R>) -> Result<Vec<u8>, Refusal> {
    text_of(alloc, &slip)
}

/// The text of the page of a slip that isn't used again, through a lens.
pub(super) fn text_once_through<R: Register>(
    alloc: Global,
    slip: Slip<R>,
    lens: &mut Lens<R>,
) -> Result<Vec<u8>, Refusal> {
    text_through(alloc, &slip, lens)
}

/// The text of the page of a branch's state at a place.
pub(super) fn state_text(
    alloc: Global,
    chart: &mut Chart<Safe>,
    branch: Name,
    place: u32,
) -> Result<Vec<u8>, Refusal> {
    let query = Query::State {
        b: branch,
        k: place,
    };
    text_once(alloc, slip_of(alloc, chart, query)?)
}
