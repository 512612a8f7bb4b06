//! The chart: branches of a schedule, with stored runs of their segments.

ghost use Rattle.std.specs.Prelude.{ℕ, ◌≡◌, ◌<◌, Some, length, IfOk, IfErr, Ok, Err};
ghost use Rattle.frames.specs.Configuration.{initial_configuration};
ghost use Rattle.frames.specs.Recorded.{AllFit};
ghost use Rattle.schedule_trie.specs.Forest.{opened, IsRefused, len_of, name_in, cell_on_branch, place_of, path_of, AreNamedApart, IsForest};
ghost use Rattle.std.specs.Arc.{arc_value};
ghost use Rattle.cutoff.specs.Plans.{AnswersPlan};
ghost use Rattle.cutoff.specs.Installs.{Installs};
ghost use Rattle.cutoff.specs.Charts.{CanBegin, IsNewChart, StepsFit};
ghost use Rattle.schedule_trie.specs.Trie.{IsCut, IsBlank, forest, query_refusal};

mod edits;
mod limbs;
mod settle;

use crate::check::check_above;
use crate::install::{Installation, fits_down, has_segment};
use crate::known::Known;
use crate::number::{RunNumber, take_number};
use crate::plan::{Base, Job, plan_all};
use crate::stored::Stored;
use checkpoints::run::Run;
use frames::config::Config;
use frames::register::Register;
use frames::types::Step;
use schedule_trie::limits::Limits;
use schedule_trie::name::Name;
use schedule_trie::refusal::Refusal;
use schedule_trie::trie::{SegKey, Trie};
use std::alloc::{AllocError, Global};
use std::marker::Model;
use std::sync::Arc;

/// The branches of a schedule on a register, and the configuration before their first steps. Each
/// segment has a stored run or none. At most one segment is marked: on each branch that has it,
/// stored runs are known to fit all segments from the first down to it. The same is known of each
/// segment whose run was last found to fit with the number `fresh` or a greater one: after the last
/// edit, that run was stored, or an install found it to fit.
#[derive(Drop)]
pub struct Chart<R: Register> {
    trie: Trie<Stored<R>>,
    start: Config<R>,
    value: u32,
    next: u64,
    fresh: RunNumber,
    mark: Option<SegKey>,
}

impl<R: Register> Model for Chart<R> {
    ghost use Rattle.cutoff.specs.Charts.{Charted, IsCharted};

    ghost Value = { Charted R R.Pending };

    ghost view = { λ c. record { trie = c.trie; start = c.start; value = c.value } };

    ghost invariant = { λ c. IsCharted R.PartialEq.eq R.behaviour c.next c.fresh c.mark (record { trie = c.trie; start = c.start; value = c.value }) };
}

impl<R: Register> Chart<R> {
    /// A chart with the limits `limits` and one branch, `main`, which has these steps; they must
    /// fit the register. The branch begins from the initial configuration of `register`, in which
    /// the register holds `value`, one of its values. No run is stored. The limits have to be in
    /// the ranges that `Limits` gives.
    ///
    /// # Errors
    ///
    /// Full if there are more steps than `limits.cells`; Memory.
    #[tactic(auto, using(crate::proofs::Refusals::refused_still, crate::proofs::Refusals::out_of_memory))]
    pub fn new(
        alloc: Global,
        register: R,
        value: u32,
        limits: Limits,
        steps: &[Step],
    ) -> Result<Chart<R>, Refusal>
        requires begins { CanBegin (R.behaviour register) value limits }
        requires fits { AllFit (R.behaviour register) steps.now }
        ensures forest { IfOk result (λ c. opened limits steps.now ≡ Ok (forest c.trie)) }
        ensures limits { IfOk result (λ c. c.trie.limits ≡ limits) }
        ensures new { IfOk result (IsNewChart (R.behaviour register) register value) }
        ensures err { IfErr result (IsRefused (opened limits steps.now)) }
    {
        let trie = Trie::new(alloc, limits, steps)?;
        Ok(Chart::over(alloc, trie, register, value)?)
    }

    /// A chart of the branches of `trie`, in which no run is stored. It begins from the initial
    /// configuration of `register` with the value `value`.
    fn over(
        alloc: Global,
        trie: Trie<Stored<R>>,
        register: R,
        value: u32,
    ) -> Result<Chart<R>, AllocError>
        requires value { value < (R.behaviour register).values }
        requires fits { StepsFit (R.behaviour register) (forest trie) }
        requires cut { IsCut trie }
        requires blank { IsBlank trie }
        ensures trie { IfOk result (λ c. c.trie ≡ trie) }
        ensures new { IfOk result (IsNewChart (R.behaviour register) register value) }
    {
        let start = Config::initial(alloc, register, value)?;
        Ok(Chart {
            trie,
            start,
            value,
            next: 0,
            fresh: RunNumber::none(),
            mark: None,
        })
    }

    /// The configuration before each branch's first step: the chart's register holds its initial
    /// value, nothing is pending, and no process has stopped.
    pub fn initial(&self) -> &Config<R>
        ensures start { result.now ≡ self.now.start }
        ensures initial { result.now ≡ initial_configuration
            (R.behaviour self.now.start.register) self.now.start.register self.now.value }
    {
        &self.start
    }

    /// The register's initial value, which is one of its values.
    pub fn value(&self) -> u32
        ensures value { result ≡ self.now.value }
        ensures within { result < (R.behaviour self.now.start.register).values }
    {
        self.value
    }

    /// Does nothing. Its contract guarantees that each step of each branch fits the chart's
    /// register, and that the initial value is one of the register's values.
    pub fn lemma_steps_fit(&self)
        ensures fit { StepsFit (R.behaviour self.now.start.register) (forest self.now.trie) }
        ensures within { self.now.value < (R.behaviour self.now.start.register).values }
    {
        // for the proof: reading a field opens the model, so what its invariant says is known
        let _start = &self.start;
    }

    /// The number of cells ever made, including those that are no longer on any branch.
    pub fn made(&self) -> u32
        ensures { result ≡ (forest self.now.trie).made }
    {
        self.trie.made()
    }

    /// The number of branches. No two have the same name.
    pub fn branches(&self) -> u32
        ensures count { result ≡ length (forest self.now.trie).branches }
        ensures apart { AreNamedApart (forest self.now.trie).branches }
    {
        self.trie.branches()
    }

    /// Does nothing. Its contract states what a chart's type guarantees. The branches are a forest:
    /// their names differ, branches with a common cell have the same cells up to it, and each
    /// cell's number is below the number of cells ever made. The forest is cut into segments, and
    /// each branch begins from the initial configuration.
    pub fn lemma_invariant(&self)
        ensures forest { IsForest (forest self.now.trie) }
        ensures cut { IsCut self.now.trie }
        ensures initial { self.now.start ≡ initial_configuration
            (R.behaviour self.now.start.register) self.now.start.register self.now.value }
    {
        self.trie.lemma_invariant()
    }

    /// The name of the branch at `index`, in the order the branches were made; `None` if there is
    /// no such branch.
    pub fn name_at(&self, index: u32) -> Option<Name>
        ensures { result ≡ name_in (forest self.now.trie).branches index }
    {
        self.trie.name_at(index)
    }

    /// How many cells a branch has; `None` if there is no such branch.
    pub fn len(&self, branch: &Name) -> Option<u32>
        ensures { result ≡ len_of (forest self.now.trie) branch.now }
    {
        self.trie.len(branch)
    }

    /// The number that identifies the cell at `place` of a branch; `None` if there is no such
    /// branch or cell.
    pub fn cell_at(&self, branch: &Name, place: u32) -> Option<u32>
        ensures { result ≡ cell_on_branch (forest self.now.trie) branch.now place }
    {
        self.trie.cell_at(branch, place)
    }

    /// The place of the cell with the number `cell` on a branch; `None` if there is no such branch,
    /// or it doesn't have that cell.
    pub fn place_of(&self, branch: &Name, cell: u32) -> Option<u32>
        ensures { result ≡ place_of (forest self.now.trie) branch.now cell }
    {
        self.trie.place_of(branch, cell)
    }

    /// The steps of a branch, in order.
    ///
    /// # Errors
    ///
    /// NoBranch; Memory.
    pub fn path(&self, alloc: Global, branch: &Name) -> Result<Vec<Step>, Refusal>
        ensures ok { IfOk result (λ steps. path_of (forest self.now.trie) branch.now
            ≡ Some steps.items) }
        ensures err { IfErr result
            (λ e. query_refusal (path_of (forest self.now.trie) branch.now) ≡ e) }
    {
        self.trie.path(alloc, branch)
    }

    /// For each branch, a job for its first segment that no stored run fits: the segment's key, the
    /// configuration that replay reaches at its start, and its steps. The job of the named branch
    /// comes first, then those of the other branches in the order they were made; no segment has
    /// two jobs. There are no jobs if stored runs fit all segments.
    ///
    /// # Errors
    ///
    /// NoBranch; Memory.
    pub fn plan(&self, alloc: Global, branch: &Name) -> Result<Vec<Job<R>>, Refusal>
        ensures { AnswersPlan R.PartialEq.eq (R.behaviour self.now.start.register) self.now
            branch.now result }
    {
        let Some(index) = self.trie.index(branch) else {
            return Err(Refusal::NoBranch);
        };
        let base = Base {
            alloc,
            trie: &self.trie,
            start: &self.start,
            known: Known {
                mark: self.mark,
                fresh: self.fresh,
            },
        };
        let jobs = plan_all(&base, index)?;
        Ok(jobs)
    }

    /// Stores `run`, which was made outside the chart, in the segment `key`, if there is such a
    /// segment, the run fits it, and stored runs fit all segments above it; then returns Installed.
    /// Otherwise changes nothing, and returns Gone if there is no such segment, else Stale. Never
    /// allocates.
    pub fn install(&mut self, key: SegKey, run: Arc<Run<R>>) -> Installation
        ensures { Installs R.PartialEq.eq (R.behaviour self.old.start.register) self.old self.new
            key
            (arc_value run) result }
    {
        if !has_segment(&self.trie, key) {
            return Installation::Gone;
        }
        let (fits, above) = fits_down(&self.trie, &self.start, self.fresh, key, &run);
        if !fits {
            return Installation::Stale;
        }
        let id = take_number(&mut self.next);
        self.trie.set_note(key, Some(Stored::new(run, id, above)));
        self.mark = Some(key);
        self.fresh = self.fresh.or(id);
        check_above(&mut self.trie, self.fresh, id, key);
        Installation::Installed
    }
}
