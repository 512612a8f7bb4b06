//! Tries made from limbs.

ghost use Rattle.std.specs.Prelude.{◌≡◌, ◌<◌, ◌≤◌, length, nat_lt, Ok, OnOk, IfOk, IfErr};
ghost use Rattle.branch_terms.specs.Forest.{IsRefused};
ghost use Rattle.schedule_trie.specs.Trie.{AreLimits, forest, IsBlank, IsCut};
ghost use Rattle.branch_terms.specs.Limbs as spec;
ghost use Rattle.branch_terms.specs.Limbs.{AreLawfulLimbs, own_cell_count, forest_of, loaded};
ghost use Rattle.schedule_trie.specs.changes.Loads.{CanAddLimb, IsLimbAdded};

use super::Trie;
use branch_terms::limb::Limb;
use branch_terms::limits::Limits;
use branch_terms::refusal::Refusal;
use std::alloc::{AllocError, Global};

impl<T: Drop> Trie<T> {
    /// A trie with these limits, of the forest that the limbs describe: it has a branch for each
    /// limb and a cell for each step of a limb. No segment has a note. Calling `limbs` on the trie
    /// gives equal limbs.
    ///
    /// There has to be at least one limb. Each limb has to have a well-formed name that no earlier
    /// limb has, and `may_share` has to accept it after the earlier limbs. The limits have to be in
    /// the ranges that `Limits` gives.
    ///
    /// # Errors
    ///
    /// The first that holds: Full if the limbs have more than `limits.cells` steps in total;
    /// TooManyBranches if there are more than `limits.branches` limbs; Memory if memory runs out.
    pub fn load(alloc: Global, limits: Limits, limbs: &[Limb]) -> Result<Trie<T>, Refusal>
        requires limits { AreLimits limits }
        requires lawful { AreLawfulLimbs limbs.now }
        requires some { 0 < length limbs.now }
        ensures ok { IfOk result (λ t. loaded limits limbs.now ≡ Ok (forest t)) }
        ensures again { IfOk result (λ t. spec.limbs (forest t) ≡ limbs.now) }
        ensures made { IfOk result (λ t. t.made ≡ own_cell_count limbs.now) }
        ensures count { IfOk result (λ t. length (forest t).branches ≡ length limbs.now) }
        ensures limits { IfOk result (λ t. t.limits ≡ limits) }
        ensures cut { IfOk result IsCut }
        ensures blank { IfOk result IsBlank }
        ensures err { IfErr result (IsRefused (loaded limits limbs.now)) }
    {
        if have_more_cells(limbs, limits.cells) {
            return Err(Refusal::Full);
        }
        if limbs.len() > limits.branches as usize {
            return Err(Refusal::TooManyBranches);
        }
        Ok(Trie::with_limbs(alloc, limits, limbs)?)
    }

    /// A trie of the forest that the limbs describe. There are at most `limits.branches` limbs,
    /// with at most `limits.cells` own cells in total.
    fn with_limbs(alloc: Global, limits: Limits, limbs: &[Limb]) -> Result<Trie<T>, AllocError>
        requires limits { AreLimits limits }
        requires lawful { AreLawfulLimbs limbs.now }
        requires some { 0 < length limbs.now }
        requires cells { own_cell_count limbs.now ≤ limits.cells }
        requires count { length limbs.now ≤ limits.branches }
        ensures forest { IfOk result (λ t. forest t ≡ forest_of limbs.now) }
        ensures limits { IfOk result (λ t. t.limits ≡ limits) }
        ensures cut { IfOk result IsCut }
        ensures blank { IfOk result IsBlank }
    {
        let [first, rest @ ..] = limbs else {
            unreachable!();
        };
        let mut trie = Trie::with_steps(alloc, limits, first.name, first.steps.as_slice())?;
        for limb in rest {
            trie.add_limb(alloc, limb)?;
        }
        Ok(trie)
    }

    /// Adds the limb's branch at the end of the list of branches. If memory runs out, the branch
    /// may have been added with only some of its steps.
    fn add_limb(&mut self, alloc: Global, limb: &Limb) -> Result<(), AllocError>
        requires { CanAddLimb self.old limb.now }
        ensures { OnOk result (IsLimbAdded self.old self.new limb.now) }
    {
        self.lemma_invariant();
        let from = limb.from as usize;
        self.cache_len(from);
        let index = self.branches() as usize;
        self.fork_at(alloc, from, limb.shared, limb.name)?;
        let steps = limb.steps.as_slice();
        self.push_all(alloc, index, steps)?;
        self.set_cached_len(index, limb.shared + steps.len() as u32);
        Ok(())
    }
}

/// Whether these limbs have more than `most` own cells in total. A limb has an own cell for each of
/// its steps.
fn have_more_cells(limbs: &[Limb], most: u32) -> bool
    ensures { result ≡ nat_lt most (spec.own_cell_count limbs.now) }
{
    let mut room = most as usize;
    for limb in limbs {
        let count = limb.steps.as_slice().len();
        if room < count {
            return true;
        }
        room -= count;
    }
    false
}
