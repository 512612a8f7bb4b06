//! Digests: to hash a list of steps, one number is computed from it and hashed in its place.

ghost use Rattle.std.specs.Prelude.{◌≡◌};
ghost use Rattle.views.specs.Digests as spec;

use frames::types::Step;

/// The number by which a digest is multiplied before the number of the next step is added: 2^64
/// over the golden ratio, rounded down. The multiplication spreads the bits of earlier steps to
/// higher bits.
const FACTOR: u64 = 0x9E37_79B9_7F4A_7C15;

/// The digest of a list of steps: the number that is hashed in place of the list. Equal lists have
/// equal digests; different lists may have equal digests too.
pub(crate) fn digest(steps: &[Step]) -> u64
    ensures { result ≡ spec.digest steps.now }
{
    let mut digest = 0;
    for step in steps {
        digest = digest_with_step(digest, *step);
    }
    digest
}

/// The digest of a list with `step` added at its end, given the list's `digest`.
#[inline(always)]
fn digest_with_step(digest: u64, step: Step) -> u64
    ensures { result ≡ spec.digest_with_step digest step }
{
    digest
        .wrapping_mul(FACTOR)
        .wrapping_add(number_of_step(step))
}

/// The number that a step adds to a digest: its two lowest bits say which kind of step it is, the
/// process is above them, and the choice or value is at 1024 and above. Bit actions, the most
/// frequent, are matched first.
#[inline(always)]
fn number_of_step(step: Step) -> u64
    ensures { result ≡ spec.number_of_step step }
{
    match step {
        Step::Go { p, c } => 4 * u64::from(p) + 1024 * u64::from(c),
        Step::Write { p, v } => 4 * u64::from(p) + 1024 * u64::from(v) + 1,
        Step::Read { p } => 4 * u64::from(p) + 2,
        Step::Stop { p } => 4 * u64::from(p) + 3,
    }
}
