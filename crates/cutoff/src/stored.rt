//! Stored runs, the test whether one begins at a configuration, and a segment's entry.

ghost use Rattle.std.specs.Prelude.{◌≡◌, ◌⊎◌, ℕ, None, Some, true, IfOk, IfSome};
ghost use Rattle.std.specs.Bool.{Decides};
ghost use Rattle.std.specs.Arc.{arc_value};
ghost use Rattle.std.specs.Option.{option_copied, option_map};
ghost use Rattle.checkpoints.specs.Runs.{IsTrueRun};
ghost use Rattle.frames.specs.Equality.{SameConfiguration};
ghost use Rattle.frames.specs.Recorded.{without_register};
ghost use Rattle.cutoff.specs.Fitting.{bare_run};
ghost use Rattle.cutoff.specs.Links.{run_number};
ghost use Rattle.cutoff.specs.Prefixes.{exit_or, note_if_any};

use crate::number::RunNumber;
use checkpoints::run::Run;
use frames::config::Config;
use frames::register::Register;
use schedule_trie::trie::{SegKey, Trie};
use std::alloc::{AllocError, Global};
use std::marker::Model;
use std::sync::Arc;

/// A stored run of a segment, with its number and its link, if it has them. The link is the number
/// of another run: this run was found to begin at that run's exit. `checked` is its own number, or
/// that of a run installed later, at whose install this run was found to fit.
#[derive(Drop)]
pub(crate) struct Stored<R: Register> {
    run: Arc<Run<R>>,
    id: RunNumber,
    link: RunNumber,
    checked: RunNumber,
}

impl<R: Register> Model for Stored<R> {
    ghost use Rattle.std.specs.Arc.{arc_value};
    ghost use Rattle.cutoff.specs.Fitting.{StoredRun};

    ghost Value = { StoredRun R R.Pending };

    ghost view = { λ s. record { run = arc_value s.run; id = s.id; link = s.link; checked = s.checked } };
}

impl<R: Register> Stored<R> {
    /// A stored run with the number `id` and the link `link`, either of which may be missing;
    /// `checked` is `id` too.
    pub(crate) fn new(run: Arc<Run<R>>, id: RunNumber, link: RunNumber) -> Stored<R>
        ensures run { result.run ≡ arc_value run }
        ensures id { result.id ≡ id }
        ensures link { result.link ≡ link }
        ensures checked { result.checked ≡ id }
    {
        Stored {
            run,
            id,
            link,
            checked: id,
        }
    }

    /// The run.
    pub(crate) fn run(&self) -> &Arc<Run<R>>
        ensures { arc_value result.now ≡ self.now.run }
    {
        &self.run
    }

    /// The configuration after the run's steps.
    pub(crate) fn exit(&self) -> &Config<R>
        ensures exit { result.now ≡ self.now.run.exit }
        ensures kept { IsTrueRun (R.behaviour self.now.run.entry.register) self.now.run }
    {
        self.run.exit()
    }

    /// The configuration before the run's steps.
    pub(crate) fn entry(&self) -> &Config<R>
        ensures entry { result.now ≡ self.now.run.entry }
        ensures kept { IsTrueRun (R.behaviour self.now.run.entry.register) self.now.run }
    {
        self.run.entry()
    }

    /// The run's number, if it has one.
    pub(crate) fn id(&self) -> RunNumber
        ensures { result ≡ self.now.id }
    {
        self.id
    }

    /// The run's link, if it has one: the number of the run at whose exit this one was found to
    /// begin.
    pub(crate) fn link(&self) -> RunNumber
        ensures { result ≡ self.now.link }
    {
        self.link
    }

    /// The run, to be kept after the rest is dropped.
    pub(crate) fn into_run(self) -> Arc<Run<R>>
        ensures { arc_value result ≡ self.run }
    {
        let Stored { run, .. } = self;
        run
    }

    /// The same run, with the same numbers.
    pub(crate) fn copy(&self) -> Result<Stored<R>, AllocError>
        ensures { IfOk result (λ s. s ≡ self.now) }
    {
        self.noted_with(self.link, self.checked)
    }

    /// The same run, linked to the run with the number `above`. If `above` is `None`, the run keeps
    /// its link.
    pub(crate) fn linked_to(&self, above: RunNumber) -> Result<Stored<R>, AllocError>
        ensures run { IfOk result (λ s. s.run ≡ self.now.run) }
        ensures id { IfOk result (λ s. s.id ≡ self.now.id) }
        ensures link { IfOk result (λ s. (s.link ≡ above) ⊎ (s.link ≡ self.now.link)) }
        ensures checked { IfOk result (λ s. s.checked ≡ self.now.checked) }
    {
        let link = if above.is_some() { above } else { self.link };
        self.noted_with(link, self.checked)
    }

    /// The same run, found to fit at the install of the run with the number `checked`.
    pub(crate) fn checked_at(&self, checked: RunNumber) -> Result<Stored<R>, AllocError>
        ensures run { IfOk result (λ s. s.run ≡ self.now.run) }
        ensures id { IfOk result (λ s. s.id ≡ self.now.id) }
        ensures link { IfOk result (λ s. s.link ≡ self.now.link) }
        ensures checked { IfOk result (λ s. s.checked ≡ checked) }
    {
        self.noted_with(self.link, checked)
    }

    /// The same run and number, with another link and another `checked`.
    #[inline(always)]
    fn noted_with(&self, to: RunNumber, checked: RunNumber) -> Result<Stored<R>, AllocError>
        ensures run { IfOk result (λ s. s.run ≡ self.now.run) }
        ensures id { IfOk result (λ s. s.id ≡ self.now.id) }
        ensures link { IfOk result (λ s. s.link ≡ to) }
        ensures checked { IfOk result (λ s. s.checked ≡ checked) }
    {
        let run = Arc::try_clone(&self.run)?;
        Ok(Stored {
            run,
            id: self.id,
            link: to,
            checked,
        })
    }

    /// The number of the last run at whose install this one was found to fit; its own number if
    /// there is no such run.
    #[inline(always)]
    pub(crate) fn checked(&self) -> RunNumber
        ensures { result ≡ self.now.checked }
    {
        self.checked
    }

    /// Whether the run needs no new link: `above` is `None`, or is the run's link already.
    pub(crate) fn keeps_link(&self, above: RunNumber) -> bool
        ensures { result ≡ true → (above ≡ None) ⊎ (self.now.link ≡ above) }
    {
        !above.is_some() || self.link.is_same(above)
    }

    /// Whether the run begins at `config`. `above` is `None`, or the number of a run with the exit
    /// `config`. If this run's link is that number, no configurations are compared.
    pub(crate) fn begins(&self, config: &Config<R>, above: RunNumber) -> bool
        requires linked { (a : ℕ) → self.now.link ≡ Some a → above ≡ Some a
            → SameConfiguration R.PartialEq.eq self.now.run.entry config.now }
        ensures begins { Decides result
            (SameConfiguration R.PartialEq.eq self.now.run.entry config.now) }
        ensures kept { IsTrueRun (R.behaviour self.now.run.entry.register) self.now.run }
    {
        let entry = self.run.entry();
        self.link.is_same(above) || *entry == *config
    }

    /// Whether the link of `lower` is this run's number: `lower` then begins at this run's exit.
    #[inline(always)]
    pub(crate) fn is_linked_from(&self, lower: &Stored<R>) -> bool
        ensures { Decides result ((a : ℕ) × (lower.now.link ≡ Some a) × (self.now.id ≡ Some a)) }
    {
        lower.link.is_same(self.id)
    }

    /// Whether the run's exit is `config`. `link` is `None`, or the link of a run that begins at
    /// `config`. If `link` is this run's number, no configurations are compared.
    pub(crate) fn ends(&self, config: &Config<R>, link: RunNumber) -> bool
        requires linked { (a : ℕ) → link ≡ Some a → self.now.id ≡ Some a
            → (without_register config.now ≡ without_register self.now.run.exit)
            × (R.PartialEq.eq config.now.register self.now.run.entry.register ≡ true) }
        ensures { Decides result (SameConfiguration R.PartialEq.eq config.now self.now.run.exit) }
    {
        let exit = self.run.exit();
        link.is_same(self.id) || *config == *exit
    }
}

/// What is stored in a segment; `None` if there is no segment or no run.
pub(crate) fn stored_at<R: Register>(
    trie: &Trie<Stored<R>>,
    key: Option<SegKey>,
) -> Option<&Stored<R>>
    ensures { option_copied result ≡ note_if_any trie.now key }
{
    trie.note(key?)
}

/// The configuration at which a segment begins, if `above` is stored right above it; and the number
/// of that run, if it has one.
pub(crate) fn entry_below<'a, R: Register>(
    start: &'a Config<R>,
    above: Option<&'a Stored<R>>,
) -> (&'a Config<R>, RunNumber)
    ensures entry { result.0.now
        ≡ exit_or start.now (option_map bare_run (option_copied above.entry)) }
    ensures number { result.1 ≡ run_number (option_copied above.entry) }
    ensures kept { IfSome (option_copied above.entry)
        (λ s. IsTrueRun (R.behaviour s.run.entry.register) s.run) }
{
    match above {
        Some(stored) => (stored.exit(), stored.id()),
        None => (start, RunNumber::none()),
    }
}

/// The configuration at which a segment begins, if `above` is stored right above it, to be shared;
/// a copy of `start` if there is no run above.
pub(crate) fn shared_entry<R: Register>(
    alloc: Global,
    start: &Config<R>,
    above: Option<&Stored<R>>,
) -> Result<Arc<Config<R>>, AllocError>
    ensures { IfOk result
        (λ c. arc_value c ≡ exit_or start.now (option_map bare_run (option_copied above.entry))) }
{
    match above {
        Some(stored) => Ok(Arc::try_clone(stored.run().shared_exit())?),
        None => Ok(Arc::new(alloc, start.copy(alloc)?)?),
    }
}
