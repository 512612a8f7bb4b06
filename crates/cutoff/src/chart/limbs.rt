//! Charts made from limbs, and the limbs of a chart. A limb describes a branch in a file: its name,
//! how many cells it shares with which branch, and its own steps.

ghost use Rattle.std.specs.Prelude.{◌≡◌, ◌<◌, length, IfOk, IfErr, Ok};
ghost use Rattle.schedule_trie.specs.Forest.{IsRefused};
ghost use Rattle.schedule_trie.specs.Trie.{forest};
ghost use Rattle.schedule_trie.specs.Limbs as spec;
ghost use Rattle.schedule_trie.specs.Limbs.{FitLimits, AreLawfulLimbs, forest_of, limbs, loaded};
ghost use Rattle.schedule_trie.specs.Renumbering.{IsRenumbered};
ghost use Rattle.cutoff.specs.Charts.{CanBegin, CanLoad, IsNewChart, LimbsFit};

use super::Chart;
use frames::register::Register;
use schedule_trie::limb::Limb;
use schedule_trie::limits::Limits;
use schedule_trie::refusal::Refusal;
use schedule_trie::trie::Trie;
use std::alloc::{AllocError, Global};

impl<R: Register> Chart<R> {
    /// A chart with the limits `limits`, of the branches that `limbs` describe. At least one limb
    /// is required. Each limb must have a well-formed name that no earlier limb has, and its own
    /// steps must fit the register. It must share either nothing (`from` and `shared` are 0), or
    /// the first cells of an earlier limb's branch, the last of which must be one of that earlier
    /// limb's own cells. Each branch begins from the initial configuration of `register`, in which
    /// the register holds `value`, one of its values. The chart's limbs equal `limbs`, and no run
    /// is stored. The limits have to be in the ranges that `Limits` gives.
    ///
    /// # Errors
    ///
    /// Full if the limbs have more own cells in total than `limits.cells`; TooManyBranches; Memory.
    #[tactic(auto, using(crate::proofs::Refusals::refused_still, crate::proofs::Refusals::out_of_memory))]
    pub fn load(
        alloc: Global,
        register: R,
        value: u32,
        limits: Limits,
        limbs: &[Limb],
    ) -> Result<Chart<R>, Refusal>
        requires limbs { CanLoad (R.behaviour register) limbs.now }
        requires begins { CanBegin (R.behaviour register) value limits }
        ensures forest { IfOk result (λ c. loaded limits limbs.now ≡ Ok (forest c.trie)) }
        ensures again { IfOk result (λ c. spec.limbs (forest c.trie) ≡ limbs.now) }
        ensures limits { IfOk result (λ c. c.trie.limits ≡ limits) }
        ensures new { IfOk result (IsNewChart (R.behaviour register) register value) }
        ensures err { IfErr result (IsRefused (loaded limits limbs.now)) }
    {
        let trie = Trie::load(alloc, limits, limbs)?;
        Ok(Chart::over(alloc, trie, register, value)?)
    }

    /// The limbs that describe the chart's branches, in the order the branches were made. They meet
    /// the conditions of `load`, and their `from` and `shared` are within the chart's limits. A
    /// chart loaded from them has the same branches, except for the numbers of the cells.
    ///
    /// # Errors
    ///
    /// AllocError if memory runs out.
    pub fn limbs(&self, alloc: Global) -> Result<Vec<Limb>, AllocError>
        ensures limbs { IfOk result (λ r. r.items ≡ limbs (forest self.now.trie)) }
        ensures kept { let f = forest self.now.trie in
            IfOk result (λ r. IsRenumbered f (forest_of r.items)) }
        ensures lawful { IfOk result (λ r. AreLawfulLimbs r.items) }
        ensures some { IfOk result (λ r. 0 < length r.items) }
        ensures near { IfOk result (λ r. FitLimits self.now.trie.limits r.items) }
        ensures fit { let b = R.behaviour self.now.start.register in
            IfOk result (λ r. LimbsFit b r.items) }
    {
        self.lemma_steps_fit();
        self.trie.limbs(alloc)
    }
}
