//! The tower and the branches that a run of the program opens with: those of its file; or, if it
//! has no file, a safe bit at 0 and one branch without steps.

ghost use Rattle.std.specs.Prelude.{◌≡◌, Some, Ok, IfOk, IfErr, true};
ghost use Rattle.std.specs.Option.{option_map};
ghost use Rattle.std.specs.List.{list_all};
ghost use Rattle.tower_file.specs.Parsed.{as_bench};
ghost use Rattle.tower_file.specs.Towers as towers;
ghost use Rattle.towerbench.specs.BenchSources.{opened_bench, IsFileFault, IsUnopened};
ghost use Rattle.towerbench.specs.BenchSources as spec;

use crate::fault::Fault;
use schedule_trie::limb::{Limb, Steps};
use schedule_trie::name::Name;
use schedule_trie::refusal::Refusal;
use std::alloc::{AllocError, Global};
use tower_file::{BenchFile, FileFault, TowerFile, TowerSpec, is_bench, parse, parse_bench};

/// The most bytes that a file may have. No saved file is ever longer.
pub const MOST_FILE_BYTES: usize = 1 << 32;

/// The tower and the branches that the bytes of `file` spell. If the first line is a bench file's
/// header, the bytes are read as a bench file; otherwise as a tower file, whose steps become those
/// of a branch `main`. If `file` is `None`, returns a safe bit at 0 and a branch `main` without
/// steps. An error if the bytes have a fault, or memory runs out.
pub(crate) fn opened_bench(alloc: Global, file: Option<&[u8]>) -> Result<BenchFile, Fault>
    ensures ok { IfOk result (λ bench.
        opened_bench (option_map (λ bytes. bytes.now) file.entry) ≡ Ok (as_bench bench)) }
    ensures err { IfErr result (IsUnopened (option_map (λ bytes. bytes.now) file.entry)) }
{
    let Some(bytes) = file else {
        let none = Steps::new(Vec::new(alloc));
        return match one_branch(alloc, TowerSpec::Safe { init: 0 }, none) {
            Ok(bench) => Ok(bench),
            Err(AllocError) => Err(Fault::Refused(Refusal::Memory)),
        };
    };
    match read_bench(alloc, bytes) {
        Ok(bench) => Ok(bench),
        Err(fault) => Err(Fault::File(fault)),
    }
}

/// The tower and the branches that a file's bytes spell.
fn read_bench(alloc: Global, bytes: &[u8]) -> Result<BenchFile, FileFault>
    ensures ok { IfOk result (λ bench. opened_bench (Some bytes.now) ≡ Ok (as_bench bench)) }
    ensures err { IfErr result (λ e. IsFileFault e bytes.now) }
{
    if is_bench(bytes) {
        return parse_bench(alloc, bytes);
    }
    let file = parse(alloc, bytes)?;
    let TowerFile { tower, steps, .. } = file;
    Ok(one_branch(alloc, tower, steps)?)
}

/// A tower with one branch, `main`, which has these steps.
fn one_branch(alloc: Global, tower: TowerSpec, steps: Steps) -> Result<BenchFile, AllocError>
    requires lawful { towers.is_lawful_tower tower ≡ true }
    requires fit { list_all (towers.fits tower) steps ≡ true }
    ensures { IfOk result (λ bench. as_bench bench ≡ spec.one_branch tower steps) }
{
    let mut limbs = Vec::new(alloc);
    limbs.push(Limb {
        name: Name::main(),
        from: 0,
        shared: 0,
        steps,
    })?;
    Ok(BenchFile::of_lawful(tower, limbs))
}

/// The tower of a bench file. This tower is lawful.
pub(crate) fn tower_of(bench: &BenchFile) -> TowerSpec
    ensures tower { result ≡ bench.now.tower }
    ensures lawful { towers.is_lawful_tower result ≡ true }
{
    bench.tower
}
