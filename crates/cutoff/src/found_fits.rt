//! What a plan has found at each segment: whether stored runs fit down to it, which is so if they
//! fit all segments of its branch from the first one to it. `None`: the plan hasn't visited the
//! segment.

ghost use Rattle.std.specs.Prelude.{◌≡◌, ◌⊎◌, ℕ, None, Some, true, OnOk, MatchOption};
ghost use Rattle.cutoff.specs.FoundFits as spec;

use schedule_trie::trie::SegKey;
use std::alloc::AllocError;

/// What a plan has found at the segment with this key; `None` if nothing is recorded there.
fn found_fit_at(seen: &[Option<bool>], key: SegKey) -> Option<bool>
    ensures { result ≡ spec.found_fit_at seen.now key }
{
    if key < seen.len() { seen[key] } else { None }
}

/// Whether stored runs fit down to the segment `key`: true if `fits`, else what the plan has found
/// there; `None` if the plan hasn't visited it either.
pub(crate) fn known_fit(fits: bool, seen: &[Option<bool>], key: SegKey) -> Option<bool>
    ensures { MatchOption result (spec.found_fit_at seen.now key ≡ None)
        (λ known. ((fits ≡ true) × (known ≡ true))
        ⊎ (spec.found_fit_at seen.now key ≡ Some known)) }
{
    if fits {
        Some(true)
    } else {
        found_fit_at(seen, key)
    }
}

/// Records whether stored runs fit down to the segment `key`, and changes no other key's record.
pub(crate) fn record_fit(
    seen: &mut Vec<Option<bool>>,
    key: SegKey,
    fits: bool,
) -> Result<(), AllocError>
    ensures here { OnOk result (spec.found_fit_at seen.new.items key ≡ Some fits) }
    ensures others { OnOk result ((k : ℕ) → (k ≡ key → ⊥)
        → spec.found_fit_at seen.new.items k ≡ spec.found_fit_at seen.old.items k) }
{
    while seen.len() <= key {
        seen.push(None)?;
    }
    seen[key] = Some(fits);
    Ok(())
}
