//! After an install: records at the runs that its climb passed that they fit, so that no climb has
//! to pass them again before the next edit.

ghost use Rattle.schedule_trie.specs.Trie.{IsCut};
ghost use Rattle.cutoff.specs.Fitting.{IsChecked};

use crate::number::RunNumber;
use crate::stored::Stored;
use frames::register::Register;
use schedule_trie::trie::{SegKey, Trie};

/// Records `number`, the number of the run just installed in the segment `key`, at the runs stored
/// above that segment, which the install found to fit. Stops at a run at which the number `fresh`
/// or a greater one is recorded already. Never allocates.
pub(crate) fn check_above<R: Register>(
    trie: &mut Trie<Stored<R>>,
    fresh: RunNumber,
    number: RunNumber,
    key: SegKey,
)
    requires { IsCut trie.old }
    ensures { IsChecked trie.old trie.new number key }
{
    let mut at = trie.above(key);
    // a branch has at most one segment for each cell ever made
    for _ in 0..trie.made() {
        let Some(key) = at else {
            break;
        };
        let (note, above) = trie.step_up(key);
        let Some(stored) = note else {
            break;
        };
        if stored.checked().is_from(fresh) {
            break;
        }
        let Ok(again) = stored.checked_at(number) else {
            break;
        };
        trie.set_note(key, Some(again));
        at = above;
    }
}
