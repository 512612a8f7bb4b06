//! The outcomes of one process's operations.

ghost use Rattle.std.specs.Prelude.{◌≡◌, ◌∷◌, [], ◌++◌, length, replicate, IfOk, OnOk};

use frames::types::Outcome;
use std::alloc::{AllocError, Global};
use std::marker::Model;

/// The outcomes of the operations that a process has ended, in order. Contracts see a list.
#[derive(Debug, Drop)]
pub struct Outcomes {
    list: Vec<Outcome>,
}

impl Model for Outcomes {
    ghost use Rattle.std.specs.Prelude.{List};
    ghost use Rattle.frames.specs.declared.types.Outcome.{Outcome};

    ghost Value = { List Outcome };

    ghost view = { λ o. o.list.items };
}

impl PartialEq for Outcomes {
    ghost use Rattle.answers.specs.laws.StateLaws.{outcomes_eq, outcomes_per};

    ghost eq = { outcomes_eq };

    ghost laws = { outcomes_per };

    fn eq(&self, other: &Outcomes) -> bool {
        self.as_slice() == other.as_slice()
    }
}

impl Outcomes {
    /// No outcomes.
    pub fn new(alloc: Global) -> Outcomes
        ensures { result ≡ [] }
    {
        Outcomes {
            list: Vec::new(alloc),
        }
    }

    /// The outcomes, in order.
    pub fn as_slice(&self) -> &[Outcome]
        ensures { result.now ≡ self.now }
    {
        &self.list
    }

    /// The number of outcomes.
    pub fn len(&self) -> usize
        ensures { result ≡ length self.now }
    {
        self.list.len()
    }

    /// Adds an outcome at the end. `AllocError` if memory runs out.
    pub fn push(&mut self, outcome: Outcome) -> Result<(), AllocError>
        ensures { OnOk result (self.new ≡ self.old ++ outcome ∷ []) }
    {
        self.list.push(outcome)?;
        Ok(())
    }

    /// An equal copy. `AllocError` if memory runs out.
    pub fn copy(&self, alloc: Global) -> Result<Outcomes, AllocError>
        ensures { IfOk result (λ copied. copied ≡ self.now) }
    {
        Ok(Outcomes {
            list: Vec::from_slice(alloc, &self.list)?,
        })
    }
}

/// For each of `processes` processes an empty list of outcomes. `AllocError` if memory runs out.
pub(crate) fn no_answers(alloc: Global, processes: u32) -> Result<Vec<Outcomes>, AllocError>
    ensures { IfOk result (λ all. all.items ≡ replicate processes []) }
{
    let mut all = Vec::with_capacity(alloc, processes as usize)?;
    for _ in 0..processes {
        all.push_reserved(Outcomes::new(alloc));
    }
    Ok(all)
}
