//! The search for the answers to a question on the register of a tower.

ghost use Rattle.std.specs.Prelude.{◌≡◌, ◌≤◌, true, Err, IfOk};
ghost use Rattle.answers.specs.declared.found.Unfound.TheVariants.{Unfit};
ghost use Rattle.tower_file.specs.Towers.{is_lawful_tower};
ghost use Rattle.answer_lines.specs.Search.{FitsTower, AreAnswersOn};

use answers::find::find;
use answers::found::{Found, Unfound};
use answers::question::Question;
use frames::safe::Safe;
use std::alloc::Global;
use tower_file::TowerSpec;
use towers::{copies, matrix, regular, stamped, unary};

/// All answers that the question can have on the tower's register, each once, with a shortest
/// schedule. `Unfit` if the question doesn't fit the register; `TooMany` if more than `most` states
/// are reachable; `Memory` if memory runs out. `most` must be 1 to 2^24.
pub fn search(
    alloc: Global,
    tower: TowerSpec,
    question: &Question,
    most: u32,
) -> Result<Found, Unfound>
    requires lawful { is_lawful_tower tower ≡ true }
    requires some { 1 ≤ most }
    requires few { most ≤ 16777216 }
    ensures answered { IfOk result (λ f. AreAnswersOn tower question.now f.possible.items) }
    ensures few { IfOk result (λ f. f.states ≤ most) }
    ensures unfit { result ≡ Err Unfit → FitsTower tower question.now → ⊥ }
{
    match tower {
        TowerSpec::Safe { .. } => find(alloc, &Safe, question, most),
        TowerSpec::Copies { readers, .. } => find(alloc, &copies(readers), question, most),
        TowerSpec::Regular { readers, .. } => find(alloc, &regular(readers), question, most),
        TowerSpec::Unary {
            values,
            readers,
            ..
        } => find(alloc, &unary(values, readers), question, most),
        TowerSpec::Stamped { values, last } => {
            find(alloc, &stamped(values, last), question, most)
        }
        TowerSpec::Matrix {
            processes,
            values,
            last_tag,
            last_stamp,
        } => find(
            alloc,
            &matrix(processes, values, last_tag, last_stamp),
            question,
            most,
        ),
    }
}
