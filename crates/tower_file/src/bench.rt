//! The contents of a bench file.

ghost use Rattle.std.specs.Prelude.{◌≡◌, ◌^◌, nat_lt};
ghost use Rattle.std.specs.List.{list_all};
ghost use Rattle.tower_file.specs.Benches as spec;
ghost use Rattle.tower_file.specs.Benches.{IsLawfulBench, bench_of, is_fitting};
ghost use Rattle.tower_file.specs.Towers.{fits};

use crate::tower::TowerSpec;
use branch_terms::Limbs;
use branch_terms::limb::{Limb, are_lawful};
use frames::types::Step;

/// What a bench file says: a lawful tower, and at least one limb. Each limb has a well-formed name
/// that no earlier limb has. Each limb's `from` and `shared` are below 10^9. Either both are 0, or
/// the limb's last shared cell is one of the own cells of the earlier limb at index `from`. Each
/// limb's steps fit the tower.
#[derive(Debug, Drop)]
pub struct BenchFile {
    /// The tower.
    pub tower: TowerSpec,
    /// The limbs, in the order their branches were made.
    pub limbs: Limbs,
    pub ghost lawful: { IsLawfulBench (bench_of tower limbs) },
}

impl BenchFile {
    ghost use Rattle.std.specs.Prelude.{◌≡◌};
    ghost use Rattle.std.specs.Option.{option_map};
    ghost use Rattle.tower_file.specs.Benches.{IsLawfulBench, bench_of, checked_bench};
    ghost use Rattle.tower_file.specs.Parsed.{as_bench};

    /// Returns the file with this tower and these limbs. Returns `None` if the tower isn't lawful,
    /// there is no limb, the limbs aren't lawful (`branch_terms::limb::are_lawful`), or some limb
    /// has a `from` or `shared` of 10^9 or more or a step that doesn't fit the tower.
    pub fn new(tower: TowerSpec, limbs: Vec<Limb>) -> Option<BenchFile>
        ensures { option_map as_bench result ≡ checked_bench tower limbs.items }
    {
        let is_lawful = tower.is_lawful() && !limbs.is_empty();
        if is_lawful && are_lawful(&limbs) && all_fit(&tower, &limbs) {
            Some(BenchFile::of_lawful(tower, limbs))
        } else {
            None
        }
    }

    /// The file with this tower and these limbs. All that `BenchFile` says of a file's tower and
    /// limbs must hold of them.
    pub fn of_lawful(tower: TowerSpec, limbs: Vec<Limb>) -> BenchFile
        requires lawful { IsLawfulBench (bench_of tower limbs.items) }
        ensures { as_bench result ≡ bench_of tower limbs.items }
    {
        BenchFile {
            tower,
            limbs: Limbs::new(limbs),
        }
    }
}

/// Whether each limb's `from` and `shared` are below 10^9, and its steps fit the tower.
fn all_fit(tower: &TowerSpec, limbs: &[Limb]) -> bool
    ensures { result ≡ list_all (is_fitting tower.now) limbs.now }
{
    limbs.iter().all(|limb| is_fitting(tower, limb))
}

/// Whether a limb's `from` and `shared` are below 10^9, and its steps fit the tower.
fn is_fitting(tower: &TowerSpec, limb: &Limb) -> bool
    ensures { result ≡ spec.is_fitting tower.now limb.now }
{
    is_short(limb.from) && is_short(limb.shared) && steps_fit(tower, limb.steps.as_slice())
}

/// Whether a number has at most 9 digits.
fn is_short(number: u32) -> bool
    ensures { result ≡ nat_lt number (10 ^ 9) }
{
    number < 1_000_000_000
}

/// Whether steps fit the tower.
fn steps_fit(tower: &TowerSpec, steps: &[Step]) -> bool
    ensures { result ≡ list_all (fits tower.now) steps.now }
{
    steps.iter().all(|step| tower.fits(*step))
}
