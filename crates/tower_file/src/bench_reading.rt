//! Reading a bench file.

ghost use Rattle.std.specs.Prelude.{◌≡◌, ◌≢◌, ℕ, List, [], ◌≤◌, ◌^◌, IsOk, length, None, Ok, IfOk, IfErr};
ghost use Rattle.tower_file.specs.declared.fault.FaultKind.TheVariants.{Memory};
ghost use Rattle.tower_file.specs.Faults as faults;
ghost use Rattle.tower_file.specs.Faults.{Gives, MemoryOnlyIf};
ghost use Rattle.tower_file.specs.Benches.{Bench};
ghost use Rattle.tower_file.specs.Parsed.{as_bench};
ghost use Rattle.tower_file.specs.BenchSpelling.{SpellsBench, SpellsFront, SpellsLimbs, bench_header};
ghost use Rattle.tower_file.specs.BenchReading as spec;
ghost use Rattle.tower_file.specs.Reading as reading;
ghost use Rattle.tower_file.specs.Reading.{first_foreign};
ghost use Rattle.words.specs.Words.{lines, words, after_next};
ghost use Rattle.words.specs.Steps.{step_of_words};

use crate::bench::BenchFile;
use crate::fault::{FaultKind, FileFault};
use crate::limbs::NamedLimbs;
use crate::line::{branch_of, is_branch};
use crate::reading::{fault, foreign_first, lines_of, tower_of};
use crate::tower::TowerSpec;
use crate::version::Version;
use branch_terms::limb::Limb;
use frames::types::Step;
use std::alloc::Global;
use words::lines::Lines;
use words::parts::Parts;
use words::step::{is_word, step_of};

/// Reads the first line. Returns whether it is a bench file's header and has a line end.
fn take_header(lines: &mut Lines<'_>) -> bool
    ensures header { result ≡ reading.has_header bench_header lines.old }
    ensures left { lines.new ≡ after_next lines.old }
{
    let header = lines.next();
    !lines.is_end() && is_word(header, "bench 1")
}

/// Adds the branch of line `number`, given that line's words after `branch`.
fn add_branch(
    alloc: Global,
    limbs: &mut NamedLimbs,
    number: u64,
    words: &mut Parts<'_>,
) -> Result<(), FileFault>
    ensures read { Gives
        (λ _. limbs.new) result (spec.then_branch number limbs.old words.old) }
    ensures memory { MemoryOnlyIf result (IsOk (spec.then_branch number limbs.old words.old)) }
{
    let Some(limb) = branch_of(alloc, words) else {
        return Err(fault(FaultKind::BadBranch, number));
    };
    if !limbs.is_new_name(&limb.name) {
        return Err(fault(FaultKind::BadBranch, number));
    }
    if !limbs.may_share(&limb) {
        return Err(fault(FaultKind::Tangled, number));
    }
    limbs.push(limb)?;
    Ok(())
}

/// Adds the step of line `number` to the last limb. `spelled` is that step, or `None` if the line
/// spells no step.
fn add_step(
    tower: &TowerSpec,
    limbs: &mut NamedLimbs,
    number: u64,
    spelled: Option<Step>,
) -> Result<(), FileFault>
    ensures read { (line : List ℕ) → step_of_words (words line) ≡ spelled
        → Gives (λ _. limbs.new) result (spec.then_step tower.now number limbs.old line) }
    ensures memory { IfErr result (λ e. e.kind ≡ Memory
        → (line : List ℕ) → step_of_words (words line) ≡ spelled
        → IsOk (spec.then_step tower.now number limbs.old line)) }
{
    if limbs.is_empty() {
        return Err(fault(FaultKind::BadBranch, number));
    }
    let Some(step) = spelled else {
        return Err(fault(FaultKind::BadStep, number));
    };
    if !Version::Two.may_have(tower, step) {
        return Err(fault(FaultKind::BadStep, number));
    }
    limbs.push_step(step)?;
    Ok(())
}

/// Adds the branch of line `number`, or adds the step of that line to the last branch.
fn add_line(
    alloc: Global,
    tower: &TowerSpec,
    limbs: &mut NamedLimbs,
    number: u64,
    line: &[u8],
) -> Result<(), FileFault>
    ensures read { Gives
        (λ _. limbs.new) result (spec.then_line tower.now number limbs.old line.now) }
    ensures memory { MemoryOnlyIf
        result (IsOk (spec.then_line tower.now number limbs.old line.now)) }
{
    let mut words = Parts::new(line, b' ');
    if is_word(words.next(), "branch") {
        return add_branch(alloc, limbs, number, &mut words);
    }
    let spelled = step_of(&mut Parts::new(line, b' '));
    add_step(tower, limbs, number, spelled)
}

/// Returns the limbs at the end of a file. There must be at least one limb, and `rest`, which
/// follows the last line end, must be empty; otherwise there is a fault on line `number`.
fn ended(limbs: NamedLimbs, number: u64, rest: &[u8]) -> Result<Vec<Limb>, FileFault>
    ensures read { Gives (λ limbs. limbs.items) result (spec.limbs_at_end number limbs rest.now) }
    ensures known { IfErr result (λ e. e.kind ≢ Memory) }
{
    if is_branch(rest) || limbs.is_empty() {
        return Err(fault(FaultKind::BadBranch, number));
    }
    if !rest.is_empty() {
        return Err(fault(FaultKind::BadStep, number));
    }
    Ok(limbs.into_limbs())
}

/// Reads the limbs from the lines that are left. The first of these is line 3.
fn limbs_of(alloc: Global, tower: &TowerSpec, lines: &mut Lines<'_>) -> Result<Vec<Limb>, FileFault>
    requires few { length lines.old ≤ 2 ^ 63 }
    ensures read { Gives
        (λ limbs. limbs.items) result (spec.limbs_of tower.now 3 [] lines.old) }
    ensures memory { MemoryOnlyIf result (SpellsLimbs tower.now lines.old) }
{
    let mut limbs = NamedLimbs::new(alloc);
    let mut number = 3;
    'reading: loop {
        if let Some(step) = lines.next_step() {
            add_step(tower, &mut limbs, number, Some(step))?;
            number += 1;
            continue 'reading;
        }
        let line = lines.next();
        if lines.is_end() {
            return ended(limbs, number, line);
        }
        add_line(alloc, tower, &mut limbs, number, line)?;
        number += 1;
    }
}

/// Reads the lines of a bench file, without a check for bytes that no file may have.
#[tactic(auto, using(crate::proofs::LinesLeft::no_more_after_line))]
fn bench_of_lines(alloc: Global, bytes: &[u8]) -> Result<BenchFile, FileFault>
    ensures exact { Gives as_bench result (spec.bench_of_lines (lines bytes.now)) }
    ensures memory { MemoryOnlyIf result (first_foreign bytes.now ≡ None → SpellsFront bytes.now) }
{
    let mut lines = lines_of(bytes);
    if !take_header(&mut lines) {
        return Err(fault(FaultKind::BadHeader, 1));
    }
    let tower = tower_of(&mut lines)?;
    let limbs = limbs_of(alloc, &tower, &mut lines)?;
    Ok(BenchFile::of_lawful(tower, limbs))
}

/// Reads a bench file. If its lines have a fault, also looks for a byte that no file may have. The
/// clauses of `parse_bench` say the same, one by one.
fn bench_of(alloc: Global, bytes: &[u8]) -> Result<BenchFile, FileFault>
    ensures parsed { reading.Parses as_bench SpellsBench spec.bench_of_lines bytes.now result }
    ensures memory { MemoryOnlyIf result (SpellsFront bytes.now) }
{
    foreign_first(bytes, bench_of_lines(alloc, bytes))
}

/// Whether these bytes are to be read as a bench file: their first line is `bench 1` and has a line
/// end.
pub fn is_bench(bytes: &[u8]) -> bool
    ensures { result ≡ spec.is_bench bytes.now }
{
    let mut lines = Lines::new(bytes);
    take_header(&mut lines)
}

/// Returns the bench file that the bytes spell. If they spell none, returns their first fault:
/// NotAscii if some byte is foreign (neither a line end nor one of 0x20 to 0x7E), or else the fault
/// of the first faulty line. If no byte is foreign, and memory runs out before a faulty line is
/// reached, returns Memory on line 0 instead.
pub fn parse_bench(alloc: Global, bytes: &[u8]) -> Result<BenchFile, FileFault>
    // The bytes spell the file that is returned.
    ensures found { IfOk result (λ b. SpellsBench bytes.now (as_bench b)) }
    // If the bytes spell a file, it is returned, unless memory runs out.
    ensures only { (b : Bench) → SpellsBench bytes.now b → Gives as_bench result (Ok b) }
    // If the bytes spell no file, their first fault is returned, unless memory runs out. A fault
    // other than Memory is returned only if they spell no file.
    ensures exact { Gives as_bench result (spec.bench_reading bytes.now) }
    ensures fault { IfErr result (λ e. e.kind ≢ Memory
        → (b : Bench) → SpellsBench bytes.now b → ⊥) }
    // Memory is reported only on line 0, only if no byte is foreign, and only if a prefix of the
    // bytes spells a bench file: so lines 1 to 3 have no fault. Any later line may have one.
    ensures memory { IfErr result (λ e. e.kind ≡ Memory → (e.line ≡ 0) × SpellsFront bytes.now) }
{
    bench_of(alloc, bytes)
}
