//! A question file as its tower's line begins it.

ghost use Rattle.std.specs.Prelude.{◌≡◌, ◌≤◌, true, IfOk};
ghost use Rattle.tower_file.specs.Towers.{is_lawful_tower};
ghost use Rattle.question_file.specs.Asked as spec;
ghost use Rattle.question_file.specs.Parsed.{as_asked};

use crate::file::{DEFAULT_MOST_STATES, QuestionFile};
use answers::question::Question;
use frames::roles::HasRoles;
use frames::types::Op;
use std::alloc::{AllocError, Global};
use tower_file::TowerSpec;

impl QuestionFile {
    /// The file of a lawful tower, in which no process has operations.
    pub(crate) fn of_tower(alloc: Global, tower: TowerSpec) -> Result<QuestionFile, AllocError>
        requires { is_lawful_tower tower ≡ true }
        ensures { IfOk result (λ file. as_asked file ≡ spec.asked_of tower) }
    {
        let operations = no_operations(alloc, tower.process_count())?;
        Ok(QuestionFile {
            tower,
            question: Question {
                value: initial_value(tower),
                operations,
                after: Vec::new(alloc),
                may_stop: Vec::new(alloc),
            },
            most: None,
        })
    }

    /// The most states to search.
    pub fn most_states(&self) -> u32
        ensures most { result ≡ spec.most_states (as_asked self.now) }
        ensures some { 1 ≤ result }
        ensures few { result ≤ 16777216 }
    {
        self.most.unwrap_or(DEFAULT_MOST_STATES)
    }
}

/// The initial value of a tower's register.
fn initial_value(tower: TowerSpec) -> u32
    ensures { result ≡ spec.initial_value tower }
{
    match tower {
        TowerSpec::Safe { init }
        | TowerSpec::Copies { init, .. }
        | TowerSpec::Regular { init, .. }
        | TowerSpec::Unary { init, .. } => init,
        TowerSpec::Stamped { .. } | TowerSpec::Matrix { .. } => 0,
    }
}

/// An empty list of operations for each of `processes` processes.
fn no_operations(alloc: Global, processes: u64) -> Result<Vec<Vec<Op>>, AllocError>
    ensures { IfOk result (λ all. spec.lists_of all.items ≡ spec.no_lists processes) }
{
    let mut all = Vec::new(alloc);
    for _ in 0..processes {
        all.push(Vec::new(alloc))?;
    }
    Ok(all)
}
