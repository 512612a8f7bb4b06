//! Writing a bench file.

ghost use Rattle.std.specs.Prelude.{◌≡◌, ◌++◌, OnOk, IfOk};
ghost use Rattle.tower_file.specs.BenchSpelling.{SpellsBench, limb_text, branch_text};
ghost use Rattle.tower_file.specs.Spelling.{text_with_end};
ghost use Rattle.tower_file.specs.Parsed.{as_bench};

use crate::bench::BenchFile;
use crate::writing::{push_line, push_step_line, push_tower};
use branch_terms::limb::Limb;
use std::alloc::{AllocError, Global};
use std::io::Write;

/// Returns the bytes that spell `file`. The only error is that memory ran out.
pub fn print_bench(alloc: Global, file: &BenchFile) -> Result<Vec<u8>, AllocError>
    ensures { IfOk result (λ bytes. SpellsBench bytes.items (as_bench file.now)) }
{
    let mut out = Vec::new(alloc);
    push_line(&mut out, "bench 1", &[])?;
    push_tower(&mut out, &file.tower)?;
    for limb in file.limbs.as_slice() {
        push_limb(&mut out, limb)?;
    }
    Ok(out)
}

/// Adds the lines of a limb: the line of its branch, and a line for each of its own steps.
fn push_limb(out: &mut Vec<u8>, limb: &Limb) -> Result<(), AllocError>
    ensures { OnOk result (out.new.items ≡ out.old.items ++ limb_text limb.now) }
{
    push_branch(out, limb)?;
    for step in limb.steps.as_slice() {
        push_step_line(out, *step)?;
    }
    Ok(())
}

/// Adds the line of a limb's branch.
fn push_branch(out: &mut Vec<u8>, limb: &Limb) -> Result<(), AllocError>
    ensures { OnOk result (out.new.items ≡ out.old.items ++ text_with_end (branch_text limb.now)) }
{
    out.write_all(b"branch ").map_err(|_| AllocError)?;
    out.write_all(limb.name.as_bytes()).map_err(|_| AllocError)?;
    push_line(out, "", &[limb.from, limb.shared])
}
