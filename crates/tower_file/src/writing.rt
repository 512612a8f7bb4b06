//! Writing a tower file.

ghost use Rattle.std.specs.Prelude.{◌≡◌, ◌++◌, OnOk, IfOk};
ghost use Rattle.words.specs.Words.{word_with_numbers};
ghost use Rattle.words.specs.Steps.{step_text};
ghost use Rattle.tower_file.specs.Spelling.{Spells, text_with_end, tower_text};
ghost use Rattle.tower_file.specs.Parsed.{as_file};

use crate::file::TowerFile;
use crate::tower::TowerSpec;
use frames::types::Step;
use std::alloc::{AllocError, Global};
use words::step::push_step;
use words::text::push_word_with_numbers;

/// Returns the bytes that spell `file`. The only error is that memory ran out.
pub fn print(alloc: Global, file: &TowerFile) -> Result<Vec<u8>, AllocError>
    ensures { IfOk result (λ bytes. Spells bytes.items (as_file file.now)) }
{
    let mut out = Vec::new(alloc);
    push_line(&mut out, file.version.header(), &[])?;
    push_tower(&mut out, &file.tower)?;
    for step in file.steps.as_slice() {
        push_step_line(&mut out, *step)?;
    }
    Ok(out)
}

/// Adds the line of a tower, with its line end, at the end of `out`.
pub(crate) fn push_tower(out: &mut Vec<u8>, tower: &TowerSpec) -> Result<(), AllocError>
    ensures { OnOk result (out.new.items ≡ out.old.items ++ text_with_end (tower_text tower.now)) }
{
    match *tower {
        TowerSpec::Safe { init } => push_line(out, "safe", &[init]),
        TowerSpec::Copies { readers, init } => push_line(out, "copies", &[readers, init]),
        TowerSpec::Regular { readers, init } => push_line(out, "regular", &[readers, init]),
        TowerSpec::Unary {
            values,
            readers,
            init,
        } => push_line(out, "unary", &[values, readers, init]),
        TowerSpec::Stamped { values, last } => push_line(out, "stamped", &[values, last]),
        TowerSpec::Matrix {
            processes,
            values,
            last_tag,
            last_stamp,
        } => push_line(out, "matrix", &[processes, values, last_tag, last_stamp]),
    }
}

/// Adds the line of a step, with its line end, at the end of `out`.
pub(crate) fn push_step_line(out: &mut Vec<u8>, step: Step) -> Result<(), AllocError>
    ensures { OnOk result (out.new.items ≡ out.old.items ++ text_with_end (step_text step)) }
{
    push_step(out, step)?;
    out.push(b'\n')?;
    Ok(())
}

/// Adds a line at the end of `out`: a word, each number with a space before it, and a line end.
pub(crate) fn push_line(out: &mut Vec<u8>, word: &str, numbers: &[u32]) -> Result<(), AllocError>
    ensures { OnOk result
        (out.new.items ≡ out.old.items ++ text_with_end (word_with_numbers word.now numbers.now)) }
{
    push_word_with_numbers(out, word, numbers)?;
    out.push(b'\n')?;
    Ok(())
}
