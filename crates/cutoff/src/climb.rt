//! A climb up a branch, from one of its segments towards the first. It finds whether stored runs
//! fit all segments from the first down to the one at which the climb began, and whether the run
//! stored in that one ends at a given configuration. It changes nothing.

ghost use Rattle.std.specs.Prelude.{◌≡◌, ◌≤◌, ◌+◌, ℕ, None, true, length};
ghost use Rattle.schedule_trie.specs.Trie.{keys_in, line, IsCut};
ghost use Rattle.schedule_trie.specs.Climbs.{keys_to, HasClimbedTo};
ghost use Rattle.cutoff.specs.Links.{AreLinked};
ghost use Rattle.cutoff.specs.Plans.{FitsDownTo};
ghost use Rattle.cutoff.specs.Prefixes.{AreFresh, RunsDown};

use crate::number::RunNumber;
use crate::stored::Stored;
use frames::config::Config;
use frames::register::Register;
use schedule_trie::trie::{SegKey, Trie};

/// Whether stored runs fit all segments from a branch's first down to `last`, and the run in `last`
/// ends at `config`; if `last` is `None`, whether `config` equals `start`. Climbs from `last`:
/// tests whether the exit of its run is `config`, and whether the exit of each higher run is the
/// entry of the run right below. Stops after the test of a run that was last found to fit with the
/// number `fresh` or a greater one, because stored runs are known to fit down to its segment. If
/// the climb meets no such run, also tests whether the first run's entry is `start`. Never
/// allocates.
pub(crate) fn runs_lead_to<R: Register>(
    trie: &Trie<Stored<R>>,
    start: &Config<R>,
    fresh: RunNumber,
    last: Option<SegKey>,
    config: &Config<R>,
) -> bool
    requires linked { AreLinked R.PartialEq.eq start.now trie.now }
    requires cut { IsCut trie.now }
    requires fresh { AreFresh R.PartialEq.eq R.behaviour trie.now start.now fresh }
    requires reached { (i : ℕ) × HasClimbedTo (keys_in trie.now.branches i) last }
    ensures { (i : ℕ) → let keys = keys_in trie.now.branches i in HasClimbedTo keys last
        → let b = R.behaviour start.now.register in let down = keys_to keys last in
        (result ≡ true → RunsDown R.PartialEq.eq R.behaviour trie.now b start.now down config.now)
        × (FitsDownTo R.PartialEq.eq b trie.now start.now down config.now → result ≡ true) }
{
    let mut entry = config;
    let mut link = RunNumber::none();
    let mut at = last;
    // a branch has at most one segment for each cell ever made
    for _ in 0..trie.made() {
        let Some(key) = at else {
            break;
        };
        let (note, above) = trie.step_up(key);
        let Some(stored) = note else {
            return false;
        };
        let begun = stored.entry();
        if !stored.ends(entry, link) {
            return false;
        }
        if stored.checked().is_from(fresh) {
            return true;
        }
        entry = begun;
        link = stored.link();
        at = above;
    }
    *entry == *start
}
