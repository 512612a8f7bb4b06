//! The book: a desk's world, and the log of the commands that led to it.

ghost use Rattle.std.specs.Prelude.{◌≡◌, ◌<◌, ◌≤◌, ◌⊎◌, Some, Ok, OnOk, IfOk, IfErr, [], ◌∷◌, ◌++◌, length, vec_capacity};
ghost use Rattle.std.specs.Arc.{arc_value};
ghost use Rattle.frames.specs.Recorded.{AllFit};
ghost use Rattle.schedule_trie.specs.Forest.{IsRefused, opened};
ghost use Rattle.schedule_trie.specs.Forest as forests;
ghost use Rattle.schedule_trie.specs.Trie.{AreLimits, IsCut, forest};
ghost use Rattle.cutoff.specs.Charts.{CanBegin};
ghost use Rattle.cutoff.specs.Plans.{AnswersPlan};
ghost use Rattle.cutoff.specs.Installs.{Installs};
ghost use Rattle.sessions.specs.World.{opening_of_steps};
ghost use Rattle.pages.specs.Strays.{IsRegularOrAtomic, ShowsNoStray};
ghost use Rattle.sessions.specs.Logs.{IsLegal, world_after};
ghost use Rattle.sessions.specs.Logs as spec;
ghost use Rattle.sessions.specs.Looks.{looked_in, shown_in};
ghost use Rattle.sessions.specs.Books.{ActsOnBook, BeginsAtOpening, IsLegalBook, IsNewBook, KeepsWorld, RefusesMemoryLast, LacksMemory, opening_of, opening_over};

mod limbs;
mod looks;

use crate::breaks::no_breaks;
use crate::command::Command;
use crate::cursor::SESSIONS;
use crate::log::{Entry, Log};
use crate::reply::Reply;
use crate::workspace::Workspace;
use checkpoints::run::Run;
use cutoff::chart::Chart;
use cutoff::install::Installation;
use cutoff::plan::Job;
use frames::register::Register;
use frames::types::Step;
use schedule_trie::limits::Limits;
use schedule_trie::listed::Listed;
use schedule_trie::name::Name;
use schedule_trie::refusal::Refusal;
use schedule_trie::trie::SegKey;
use snapshots::Snapshot;
use std::alloc::{AllocError, Global};
use std::marker::Model;
use std::sync::Arc;
use views::query::Query;
use views::slip::Slip;

/// A desk's world, which has the branches and the sessions' cursors and breaks, and the log of the
/// commands that led to it. In contracts a book also has the chart that it opened with, and the
/// number of further entries that its log has memory reserved for.
#[derive(Drop)]
pub struct Book<R: Register> {
    first: Snapshot<Chart<R>>,
    log_limit: u32,
    workspace: Workspace<R>,
    log: Vec<Entry>,
}

impl<R: Register> Model for Book<R> {
    ghost use Rattle.sessions.specs.Books.{BookOf, IsBook, book_of};

    ghost Value = { BookOf R R.Pending };

    ghost view = { λ b. book_of b.first.value b.workspace b.log };

    ghost invariant = { λ b. IsBook R.behaviour b.log_limit (book_of b.first.value b.workspace b.log) };
}

impl<R: Register> Book<R> {
    /// A book before its first command: its log is empty, no session has joined, and its only
    /// branch, `main`, has these steps. The steps have to fit the register, the limits have to be
    /// in their ranges, and the initial value `value` has to be one of the register's values.
    ///
    /// # Errors
    ///
    /// Full if there are more steps than the limits allow cells; otherwise Memory, if memory runs
    /// out.
    pub fn new(
        alloc: Global,
        register: R,
        value: u32,
        limits: Limits,
        steps: &[Step],
    ) -> Result<Book<R>, Refusal>
        requires begins { CanBegin (R.behaviour register) value limits }
        requires fits { AllFit (R.behaviour register) steps.now }
        ensures new { IfOk result (IsNewBook R.behaviour
            (opening_of_steps (R.behaviour register) value limits steps.now)) }
        ensures ok { OnOk result (opened limits steps.now ≡ Ok (forests.opening_forest steps.now)) }
        ensures err { IfErr result (IsRefused (opened limits steps.now)) }
    {
        let chart = Chart::new(alloc, register, value, limits, steps)?;
        Ok(Book::over(alloc, chart, limits)?)
    }

    /// A book before its first command: its log is empty, no session has joined, and the register,
    /// the initial value and the branches are those of `chart`. `limits` have to be the chart's
    /// limits, have to be in their ranges, and have to allow the cells that were made in the chart.
    /// Fails only if memory runs out.
    fn over(alloc: Global, chart: Chart<R>, limits: Limits) -> Result<Book<R>, AllocError>
        requires limits { AreLimits limits }
        requires same_limits { chart.trie.limits ≡ limits }
        requires few_cells { (forest chart.trie).made ≤ limits.cells }
        ensures { IfOk result (IsNewBook R.behaviour (opening_over R.behaviour chart limits)) }
    {
        let first = Snapshot::of(&chart);
        let breaks = no_breaks(alloc)?;
        Ok(Book {
            first,
            log_limit: limits.log,
            workspace: Workspace {
                chart,
                cursors: [None; SESSIONS],
                breaks,
                edits: 0,
            },
            log: Vec::new(alloc),
        })
    }

    /// Carries out a command of session `who`, or refuses it, and returns the reply. If a guard
    /// `if_at` is given and differs from the edit count, the command is refused. A refused command
    /// changes nothing but the log. The log gets an entry with the command, the number of the
    /// calling chair, the session, the guard and the reply, unless the reply is LogFull or Memory.
    /// The reply is never Memory if the log is full. It is Memory only if before the call the log
    /// had no memory reserved for one more entry, or if there is no other reason to refuse the
    /// command.
    pub fn act(
        &mut self,
        alloc: Global,
        chair: u32,
        who: u32,
        if_at: Option<u64>,
        command: &Command,
    ) -> Reply
        ensures acts { ActsOnBook R.behaviour self.old self.new
            (spec.entry chair who if_at command.now result)
            ⊎ LacksMemory R.behaviour self.old self.new result }
        ensures memory { RefusesMemoryLast R.behaviour self.old who if_at command.now result }
        ensures opening { opening_of R.behaviour self.new ≡ opening_of R.behaviour self.old }
    {
        if self.len() >= self.log_limit {
            return Reply::No(Refusal::LogFull);
        }
        let Ok(()) = self.log.reserve(1) else {
            return Reply::No(Refusal::Memory);
        };
        self.workspace.chart.lemma_invariant();
        let Ok(reply) = self.workspace.answer(alloc, who, if_at, command) else {
            return Reply::No(Refusal::Memory);
        };
        self.workspace.chart.lemma_invariant();
        push_within(&mut self.log, entry(chair, who, if_at, command, &reply));
        reply
    }

    /// Looks at branches, or at a session's cursor and breaks, as the query asks. Returns a slip,
    /// from which the page is made later. The page shows the world at the time of the look, as the
    /// logged commands left it: plans and installs make no difference. On a regular or an atomic
    /// register it shows no read whose verdict is `stray`. World and log are unchanged, with or
    /// without an error.
    ///
    /// # Errors
    ///
    /// NoSession if the query is for the cursor of a session that doesn't exist or hasn't joined;
    /// NoBranch if there is no such branch; NoPlace if the branch is shorter than the query's
    /// place; otherwise Memory, if memory runs out.
    pub fn look(&mut self, alloc: Global, query: Query) -> Result<Slip<R>, Refusal>
        ensures page { let w = world_after (opening_of R.behaviour self.old) self.old.log in
            IfOk result (λ slip. Some slip.page ≡ shown_in w query) }
        ensures found { let w = world_after (opening_of R.behaviour self.old) self.old.log in
            OnOk result (looked_in w query ≡ Ok w.forest) }
        ensures err { let w = world_after (opening_of R.behaviour self.old) self.old.log in
            IfErr result (IsRefused (looked_in w query)) }
        ensures never_stray { IsRegularOrAtomic (opening_of R.behaviour self.old).tower
            → IfOk result (λ slip. ShowsNoStray slip.page) }
        ensures kept { KeepsWorld R.behaviour self.old self.new }
    {
        match query {
            Query::Branches => self.look_at_branches(alloc),
            Query::Cursor { who } => self.look_at_cursor(alloc, who),
            _ => Slip::at(alloc, &mut self.workspace.chart, query),
        }
    }

    /// The plan: jobs for segments to replay before a look needs their runs. For each branch there
    /// is a job for the branch's first segment that no stored run fits; a branch without such a
    /// segment adds no job. The job of the branch called `branch`, if there is one, comes first;
    /// the other jobs are in the order the branches were made. No segment has two jobs, even if
    /// several branches share it.
    ///
    /// # Errors
    ///
    /// NoBranch if no branch is called `branch`; otherwise Memory, if memory runs out.
    pub fn plan(&self, alloc: Global, branch: &Name) -> Result<Vec<Job<R>>, Refusal>
        ensures { let chart = self.now.now.chart in
            AnswersPlan R.PartialEq.eq (R.behaviour chart.start.register) chart branch.now result }
    {
        self.workspace.chart.plan(alloc, branch)
    }

    /// Stores a run that was replayed elsewhere, on two conditions: the run fits the segment with
    /// this key, and stored runs fit all segments above that segment (before it on its branches).
    /// Returns Installed if so. Otherwise stores nothing, and returns Gone if no segment has this
    /// key, or Stale if a segment has it. Allocates nothing. World and log are unchanged.
    pub fn install(&mut self, key: SegKey, run: Arc<Run<R>>) -> Installation
        ensures installs { let old = self.old.now.chart in
            Installs R.PartialEq.eq (R.behaviour old.start.register) old self.new.now.chart key
            (arc_value run) result }
        ensures kept { KeepsWorld R.behaviour self.old self.new }
    {
        self.workspace.chart.install(key, run)
    }

    /// How many commands are logged. The contract also says what a book's type guarantees: each
    /// logged reply is the one that its command gets, the log leads from the book's opening to its
    /// present world, and the log's length is within its limit.
    pub fn len(&self) -> u32
        ensures count { result ≡ length self.now.log }
        ensures kept { IsLegalBook R.behaviour self.now }
    {
        self.log.len() as u32
    }

    /// Does nothing, but its contract gives callers what a book's type guarantees: each logged
    /// reply is the one that its command gets; the log leads from the opening to the present world,
    /// and its length is within its limit; the branches are cut into segments of 1 to 128 cells;
    /// and replay begins from the initial configuration of the register and value that the book
    /// opened with.
    pub fn lemma_invariant(&self)
        ensures log { IsLegalBook R.behaviour self.now }
        ensures cut { IsCut self.now.now.chart.trie }
        ensures begins { BeginsAtOpening R.behaviour self.now }
    {
        self.workspace.chart.lemma_invariant();
    }

    /// How many edits were accepted.
    pub fn edits(&self) -> u64
        ensures { result ≡ self.now.now.edits }
    {
        self.workspace.edits
    }

    /// The log, which is legal: each entry's reply is neither LogFull nor Memory, and is the one
    /// that its command gets in the world after the entries before it. (The first command is given
    /// in the world of the opening.)
    pub fn into_log(self) -> Log
        ensures log { result ≡ self.log }
        ensures legal { IsLegal (opening_of R.behaviour self) result }
    {
        let Self { log, .. } = self;
        Listed::new(log)
    }
}

/// The log entry of a command and its reply.
fn entry(chair: u32, who: u32, if_at: Option<u64>, command: &Command, reply: &Reply) -> Entry
    ensures { result ≡ spec.entry chair who if_at command.now reply.now }
{
    Entry {
        chair,
        who,
        if_at,
        command: *command,
        reply: *reply,
    }
}

/// Adds an item to a list that has memory reserved for it.
fn push_within<T: Copy>(list: &mut Vec<T>, item: T)
    requires { length list.old.items < vec_capacity list.old }
    ensures { list.new.items ≡ list.old.items ++ item ∷ [] }
{
    // The memory is reserved, so this can't fail.
    let _ = list.push(item);
}
