//! Limbs: branches as a file stores them.

ghost use Rattle.std.specs.Prelude.{◌≡◌, [], ◌&&◌};
ghost use Rattle.std.specs.List.{list_any};
ghost use Rattle.branch_terms.specs.Limbs as spec;

use crate::listed::Listed;
use crate::name::Name;
use schedule_steps::types::Step;

/// The steps of a limb, in order.
pub type Steps = Listed<Step>;

/// The limbs of a file, in order.
pub type Limbs = Listed<Limb>;

/// A branch as a file stores it: its name; `shared`, how many of its first cells it shares with an
/// earlier branch; `from`, the index of that branch in the file (both are 0 if no cell is shared);
/// and the steps of its own cells, which follow the shared ones.
#[derive(Debug, Drop)]
pub struct Limb {
    pub name: Name,
    pub from: u32,
    pub shared: u32,
    pub steps: Steps,
}

/// Whether `limb` may follow `limbs`, judged by the cells that it shares: either its `from` and
/// `shared` are 0, or the last cell that it shares is among the cells of the limb at index `from`
/// that follow its shared ones.
pub fn may_share(limbs: &[Limb], limb: &Limb) -> bool
    ensures { result ≡ spec.may_share limbs.now limb.now }
{
    if limb.from == 0 && limb.shared == 0 {
        return true;
    }
    let Some(parent) = limbs.get(limb.from as usize) else {
        return false;
    };
    parent.shared < limb.shared
        && (limb.shared - parent.shared) as usize <= parent.steps.as_slice().len()
}

/// Whether limbs are lawful, so that they can be loaded: each has a name of the right form that no
/// earlier limb has, and `may_share` accepts it after the earlier limbs. Each name is compared with
/// all earlier ones, so n limbs take at most n * n / 2 comparisons.
pub fn are_lawful(limbs: &[Limb]) -> bool
    ensures { result ≡ spec.are_lawful_after [] limbs.now }
{
    for index in 0..limbs.len() {
        if !may_follow(&limbs[..index], &limbs[index]) {
            return false;
        }
    }
    true
}

/// Whether `limb` may follow `limbs`, judged by its name and the cells that it shares.
fn may_follow(limbs: &[Limb], limb: &Limb) -> bool
    ensures { result ≡ (spec.is_new_name limbs.now limb.now.name
        && spec.may_share limbs.now limb.now) }
{
    is_new_name(limbs, &limb.name) && may_share(limbs, limb)
}

/// Whether a name has the form of a branch's name, and isn't the name of one of these limbs.
fn is_new_name(limbs: &[Limb], name: &Name) -> bool
    ensures { result ≡ spec.is_new_name limbs.now name.now }
{
    prove!(name.as_bytes().len() <= 16);
    name.is_well_formed() && !is_taken(limbs, name)
}

/// Whether one of these limbs has this name.
fn is_taken(limbs: &[Limb], name: &Name) -> bool
    ensures { result ≡ list_any (spec.has_name name.now) limbs.now }
{
    limbs.iter().any(|limb| has_name(name, limb))
}

/// Whether a limb has this name.
fn has_name(name: &Name, limb: &Limb) -> bool
    ensures { result ≡ spec.has_name name.now limb.now }
{
    *name == limb.name
}
