//! The limbs that have been read so far from a bench file.

ghost use Rattle.std.specs.Prelude.{◌≡◌, ◌∷◌, [], ◌++◌, OnOk, not, true, map};
ghost use Rattle.branch_terms.specs.Limbs as spec;
ghost use Rattle.tower_file.specs.Benches.{has_limbs};
ghost use Rattle.tower_file.specs.BenchReading.{limb_name, put_step};

use branch_terms::limb::{Limb, may_share};
use branch_terms::name::Name;
use frames::types::Step;
use indexmap::IndexSet;
use std::alloc::{AllocError, Global};
use std::marker::Model;

/// Limbs in the order of the file, and a hash set of their names, which makes it fast to find a
/// name. Contracts see only the list of limbs.
#[derive(Drop)]
pub(crate) struct NamedLimbs {
    limbs: Vec<Limb>,
    names: IndexSet<Name>,
}

impl Model for NamedLimbs {
    ghost use Rattle.std.specs.Prelude.{◌≡◌, List, map};
    ghost use Rattle.branch_terms.specs.declared.limb.Limb.{Limb};
    ghost use Rattle.tower_file.specs.BenchReading.{limb_name};

    ghost Value = { List Limb };

    ghost view = { λ l. l.limbs.items };

    ghost invariant = { λ l. l.names.keys ≡ map limb_name l.limbs.items };
}

impl NamedLimbs {
    /// No limbs. Allocates nothing.
    pub(crate) fn new(alloc: Global) -> NamedLimbs
        ensures { result ≡ [] }
    {
        NamedLimbs {
            limbs: Vec::new(alloc),
            names: IndexSet::new(alloc),
        }
    }

    /// Whether there are no limbs.
    pub(crate) fn is_empty(&self) -> bool
        ensures { result ≡ not (has_limbs self.now) }
    {
        self.limbs.is_empty()
    }

    /// Whether a name has the form of a branch's name, and isn't the name of one of these limbs.
    pub(crate) fn is_new_name(&self, name: &Name) -> bool
        ensures { result ≡ spec.is_new_name self.now name.now }
    {
        prove!(name.as_bytes().len() <= 16);
        name.is_well_formed() && !self.names.contains(name)
    }

    /// Whether `from` and `shared` of `limb` allow it to follow these limbs: both are 0, or the
    /// last cell that it shares is one of the own cells of limb number `from`.
    pub(crate) fn may_share(&self, limb: &Limb) -> bool
        ensures { result ≡ spec.may_share self.now limb.now }
    {
        may_share(&self.limbs, limb)
    }

    /// Adds a limb with a new name. If memory runs out, nothing is changed.
    pub(crate) fn push(&mut self, limb: Limb) -> Result<(), AllocError>
        requires new { spec.is_new_name self.old limb.name ≡ true }
        ensures { OnOk result (self.new ≡ self.old ++ limb ∷ []) }
    {
        self.limbs.reserve(1)?;
        self.names.insert(limb.name)?;
        self.limbs.push(limb)?;
        Ok(())
    }

    /// Adds a step to the last limb. Does nothing if there is no limb.
    pub(crate) fn push_step(&mut self, step: Step) -> Result<(), AllocError>
        ensures { OnOk result (self.new ≡ put_step self.old step) }
    {
        put_step(&mut self.limbs, step)
    }

    /// Returns the limbs, without the set of their names.
    pub(crate) fn into_limbs(self) -> Vec<Limb>
        ensures { result.items ≡ self }
    {
        self.limbs
    }
}

/// Adds a step to the last of these limbs, if there is one. Changes no limb's name.
fn put_step(limbs: &mut Vec<Limb>, step: Step) -> Result<(), AllocError>
    ensures put { OnOk result (limbs.new.items ≡ put_step limbs.old.items step) }
    ensures names { map limb_name limbs.new.items ≡ map limb_name limbs.old.items }
{
    if let Some(limb) = limbs.last_mut() {
        limb.steps.push(step)?;
    }
    Ok(())
}
