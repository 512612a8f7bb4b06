//! Tests whether stored runs are known to fit down to a segment, without a look at those above it.

ghost use Rattle.std.specs.Prelude.{◌≡◌, Some, true};
ghost use Rattle.std.specs.Bool.{Decides};
ghost use Rattle.std.specs.Option.{option_copied};
ghost use Rattle.cutoff.specs.Known.{IsKnownDownTo};

use crate::number::RunNumber;
use crate::stored::Stored;
use frames::register::Register;
use schedule_trie::trie::SegKey;

/// What is known of stored runs: they fit all segments from the first down to the marked one, if
/// one is marked, and down to each one whose run was last found to fit with the number `fresh` or a
/// greater one.
#[derive(Drop)]
pub(crate) struct Known {
    pub(crate) mark: Option<SegKey>,
    pub(crate) fresh: RunNumber,
}

impl Known {
    /// Whether anything is known.
    pub(crate) fn is_any(&self) -> bool {
        self.mark.is_some() || self.fresh.is_some()
    }
}

/// Whether stored runs are known to fit all segments from the first down to `key`, in which
/// `stored` is stored.
#[inline(always)]
pub(crate) fn is_known_down_to<R: Register>(
    known: &Known,
    key: SegKey,
    stored: Option<&Stored<R>>,
) -> bool
    ensures { result ≡ true → IsKnownDownTo known.now key (option_copied stored.entry) }
{
    match stored {
        Some(stored) => is_marked(known.mark, key) || stored.checked().is_from(known.fresh),
        None => false,
    }
}

/// Whether a climb of runs that hang from one another can stop at the segment `key`, in which
/// `stored` is stored. `is_any` says whether anything is known: it is the same in a whole climb, so
/// that a climb after an edit, when nothing is known, passes each segment without a test of it.
#[inline(always)]
pub(crate) fn may_stop<R: Register>(
    known: &Known,
    is_any: bool,
    key: SegKey,
    stored: &Stored<R>,
) -> bool
    ensures { result ≡ true → IsKnownDownTo known.now key (Some stored.now) }
{
    is_any && is_known_down_to(known, key, Some(stored))
}

/// Whether the segment `key` is the marked one; false if none is marked.
fn is_marked(mark: Option<SegKey>, key: SegKey) -> bool
    ensures { Decides result (mark ≡ Some key) }
{
    match mark {
        Some(mark) => mark == key,
        None => false,
    }
}
