//! Reading the line of a tower or the line of a branch.

ghost use Rattle.std.specs.Prelude.{◌≡◌};
ghost use Rattle.tower_file.specs.Lines as spec;

use crate::tower::TowerSpec;
use branch_terms::limb::{Limb, Steps};
use branch_terms::name::Name;
use std::alloc::Global;
use words::number::{four_numbers, one_number, three_numbers, two_numbers};
use words::parts::Parts;
use words::step::is_word;

/// The kind of a tower, which is named by the first word of the tower's line.
#[derive(Clone, Copy, Debug, PartialEq, Eq)]
pub enum TowerName {
    Safe,
    Copies,
    Regular,
    Unary,
    Stamped,
    Matrix,
}

/// Returns `name` if `word` is `text`, and `None` otherwise.
fn named(word: &[u8], text: &str, name: TowerName) -> Option<TowerName>
    ensures { result ≡ spec.named word.now text.now name }
{
    if is_word(word, text) {
        Some(name)
    } else {
        None
    }
}

/// The kind of tower that `word` names; `None` if `word` isn't the name of a tower.
#[tactic(auto, using(crate::proofs::TowerNames::or_other))]
pub fn tower_name(word: &[u8]) -> Option<TowerName>
    ensures { result ≡ spec.tower_name word.now }
{
    named(word, "safe", TowerName::Safe)
        .or(named(word, "copies", TowerName::Copies))
        .or(named(word, "regular", TowerName::Regular))
        .or(named(word, "unary", TowerName::Unary))
        .or(named(word, "stamped", TowerName::Stamped))
        .or(named(word, "matrix", TowerName::Matrix))
}

/// Reads all words of a tower's line after the first. They must be the numbers of a tower of this
/// kind. Returns the tower; `None` if there are too few or too many words, or if one isn't a
/// number. The numbers' ranges aren't checked.
pub fn tower_of_numbers(name: TowerName, words: &mut Parts<'_>) -> Option<TowerSpec>
    ensures { result ≡ spec.tower_of_numbers name words.old }
{
    match name {
        TowerName::Safe => {
            let init = one_number(words)?;
            Some(TowerSpec::Safe { init })
        }
        TowerName::Copies => {
            let (readers, init) = two_numbers(words)?;
            Some(TowerSpec::Copies { readers, init })
        }
        TowerName::Regular => {
            let (readers, init) = two_numbers(words)?;
            Some(TowerSpec::Regular { readers, init })
        }
        TowerName::Unary => {
            let (values, readers, init) = three_numbers(words)?;
            Some(TowerSpec::Unary {
                values,
                readers,
                init,
            })
        }
        TowerName::Stamped => {
            let (values, last) = two_numbers(words)?;
            Some(TowerSpec::Stamped { values, last })
        }
        TowerName::Matrix => {
            let (processes, values, last_tag, last_stamp) = four_numbers(words)?;
            Some(TowerSpec::Matrix {
                processes,
                values,
                last_tag,
                last_stamp,
            })
        }
    }
}

/// Whether the first word of a line is `branch`.
pub fn is_branch(line: &[u8]) -> bool
    ensures { result ≡ spec.is_branch line.now }
{
    let mut words = Parts::new(line, b' ');
    is_word(words.next(), "branch")
}

/// Reads the words after `branch` as a limb without steps. There must be exactly three: the name of
/// the limb's branch, of at most 16 bytes; the number of the branch that the limb's branch starts
/// from; and how many cells the two branches share. `None` if the words don't have this form.
/// Allocates nothing.
pub fn branch_of(alloc: Global, words: &mut Parts<'_>) -> Option<Limb>
    ensures { result ≡ spec.branch_of words.old }
{
    let name = Name::new(words.next())?;
    let (from, shared) = two_numbers(words)?;
    Some(Limb {
        name,
        from,
        shared,
        steps: Steps::new(Vec::new(alloc)),
    })
}
