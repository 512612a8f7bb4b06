//! Reading a tower file.

ghost use Rattle.std.specs.Prelude.{◌≡◌, ◌≢◌, ◌∷◌, [], ◌++◌, ◌≤◌, ◌<◌, ◌^◌, ℕ, length, true, Some, None, Ok, Err, OnOk, IfOk, IfErr};
ghost use Rattle.tower_file.specs.declared.fault.FaultKind.TheVariants.{Memory};
ghost use Rattle.tower_file.specs.Faults as faults;
ghost use Rattle.tower_file.specs.Faults.{Gives, MemoryOnlyIf, out_of_memory};
ghost use Rattle.tower_file.specs.Towers.{is_lawful_tower};
ghost use Rattle.tower_file.specs.Files.{File, IsLawfulFile, file_of};
ghost use Rattle.tower_file.specs.Parsed.{as_file};
ghost use Rattle.words.specs.Words.{lines, after_next, is_end};
ghost use Rattle.tower_file.specs.Spelling.{Spells, SpellsSteps};
ghost use Rattle.tower_file.specs.Reading as spec;

use crate::fault::{FaultKind, FileFault, OUT_OF_MEMORY};
use crate::file::TowerFile;
use crate::line::{tower_name, tower_of_numbers};
use crate::tower::TowerSpec;
use crate::version::Version;
use frames::types::Step;
use std::alloc::Global;
use words::lines::Lines;
use words::parts::Parts;
use words::step::is_word;

/// The index of the first foreign byte: one that is neither a line end nor one of 0x20 to 0x7E.
fn first_foreign(bytes: &[u8]) -> Option<usize>
    ensures { result ≡ spec.first_foreign bytes.now }
{
    bytes.iter().position(|b| !is_file_byte(*b))
}

/// Whether a file may have this byte.
fn is_file_byte(b: u8) -> bool
    ensures { result ≡ spec.is_file_byte b }
{
    b == b'\n' || (0x20 <= b && b <= 0x7e)
}

/// The number, counted from 1, of the line that has the byte at index `place`.
fn line_at(place: usize, bytes: &[u8]) -> u64
    requires inside { place ≤ length bytes.now }
    ensures { result ≡ spec.line_at place bytes.now }
{
    bytes[..place].iter().filter(|b| **b == b'\n').count() as u64 + 1
}

/// The fault of this kind on this line.
pub(crate) fn fault(kind: FaultKind, line: u64) -> FileFault
    ensures { result ≡ faults.fault kind line }
{
    FileFault { kind, line }
}

/// The lines of the bytes. There are at most 2^63 of them, so their numbers fit in 64 bits.
pub(crate) fn lines_of(bytes: &[u8]) -> Lines<'_>
    ensures lines { result ≡ lines bytes.now }
    ensures few { length result ≤ 2 ^ 63 }
{
    prove!(bytes.len() < 1 << 63);
    Lines::new(bytes)
}

/// Reads the first line. Returns the version whose header this line is; `None` if the line isn't a
/// header or has no line end.
fn version_of(lines: &mut Lines<'_>) -> Option<Version>
    ensures version { result ≡ spec.version_of lines.old }
    ensures left { lines.new ≡ after_next lines.old }
{
    let header = lines.next();
    if lines.is_end() {
        return None;
    }
    if is_word(header, Version::One.header()) {
        return Some(Version::One);
    }
    if is_word(header, Version::Two.header()) {
        return Some(Version::Two);
    }
    None
}

/// Reads the second line of a file, which must be the next of `lines`. Returns the line's tower,
/// which is lawful, or the line's fault.
pub(crate) fn tower_of(lines: &mut Lines<'_>) -> Result<TowerSpec, FileFault>
    ensures tower { result ≡ spec.tower_of lines.old }
    ensures lawful { IfOk result (λ tower. is_lawful_tower tower ≡ true) }
    ensures known { IfErr result (λ e. e.kind ≢ Memory) }
    ensures left { OnOk result (lines.new ≡ after_next lines.old) }
{
    let line = lines.next();
    let is_cut = lines.is_end();
    let mut words = Parts::new(line, b' ');
    let Some(name) = tower_name(words.next()) else {
        return Err(fault(FaultKind::UnknownTower, 2));
    };
    if is_cut {
        return Err(fault(FaultKind::BadField, 2));
    }
    let Some(tower) = tower_of_numbers(name, &mut words) else {
        return Err(fault(FaultKind::BadField, 2));
    };
    if !tower.is_lawful() {
        return Err(fault(FaultKind::BadSize, 2));
    }
    Ok(tower)
}

/// Reads the step of line `number`. Returns `None` if the line is the empty text after the last
/// line end. Otherwise the line has the fault BadStep if it has no line end, or if it isn't a step
/// that the file may have.
fn next_step(
    version: Version,
    tower: &TowerSpec,
    lines: &mut Lines<'_>,
    number: u64,
) -> Result<Option<Step>, FileFault>
    ensures step { result ≡ spec.next_step version tower.now number lines.old }
    ensures fault { IfErr result (λ e. e ≡ faults.fault FaultKind.BadStep number) }
    ensures left { lines.new ≡ after_next lines.old }
{
    if let Some(step) = lines.next_step() {
        if version.may_have(tower, step) {
            return Ok(Some(step));
        }
        return Err(fault(FaultKind::BadStep, number));
    }
    let rest = lines.next();
    if lines.is_end() && rest.is_empty() {
        return Ok(None);
    }
    Err(fault(FaultKind::BadStep, number))
}

/// Adds a step, if there was memory for all earlier steps. Returns whether all steps so far are
/// kept.
fn keep(steps: &mut Vec<Step>, step: Step, were_kept: bool) -> bool
    ensures kept { result ≡ true → steps.new.items ≡ steps.old.items ++ step ∷ [] }
    ensures were_kept { result ≡ true → were_kept ≡ true }
{
    were_kept && steps.push(step).is_ok()
}

/// Reads the steps from the lines that are left. The first of these is line 3. A fault on any line
/// takes precedence over a lack of memory.
fn steps_of(
    alloc: Global,
    version: Version,
    tower: &TowerSpec,
    lines: &mut Lines<'_>,
) -> Result<Vec<Step>, FileFault>
    requires few { length lines.old ≤ 2 ^ 63 }
    ensures read { Gives
        (λ steps. steps.items) result (spec.steps_of version tower.now 3 lines.old) }
    ensures memory { MemoryOnlyIf
        result (spec.HasSomeStep (spec.steps_of version tower.now 3 lines.old)) }
{
    let mut steps = Vec::new(alloc);
    let mut are_kept = true;
    let mut number = 3;
    'reading: loop {
        let next = next_step(version, tower, lines, number)?;
        let Some(step) = next else {
            break;
        };
        are_kept = keep(&mut steps, step, are_kept);
        number += 1;
    }
    if !are_kept {
        return Err(OUT_OF_MEMORY);
    }
    Ok(steps)
}

/// Reads the lines of a file, without a check for bytes that no file may have. Only the steps need
/// memory.
#[tactic(auto, using(crate::proofs::LinesLeft::no_more_after_line))]
fn file_of_lines(alloc: Global, bytes: &[u8]) -> Result<TowerFile, FileFault>
    ensures exact { Gives as_file result (spec.file_of_lines (lines bytes.now)) }
    ensures memory { MemoryOnlyIf result
        (spec.first_foreign bytes.now ≡ None → SpellsSteps bytes.now) }
{
    let mut lines = lines_of(bytes);
    let Some(version) = version_of(&mut lines) else {
        return Err(fault(FaultKind::BadHeader, 1));
    };
    let tower = tower_of(&mut lines)?;
    let steps = steps_of(alloc, version, &tower, &mut lines)?;
    Ok(TowerFile::of_lawful(version, tower, steps))
}

/// The first fault of the bytes: NotAscii if some byte is foreign, and otherwise `of_lines`, the
/// fault that reading the lines gave.
fn first_fault(bytes: &[u8], of_lines: FileFault) -> FileFault
    ensures { result ≡ spec.first_fault (spec.first_foreign bytes.now) bytes.now of_lines }
{
    match first_foreign(bytes) {
        Some(place) => fault(FaultKind::NotAscii, line_at(place, bytes)),
        None => of_lines,
    }
}

/// Returns `of_lines`, the result of reading the bytes' lines. But if that is a fault, and some
/// byte is foreign (neither a line end nor one of 0x20 to 0x7E), returns NotAscii on the line of
/// the first foreign byte. If the lines spell a file, no byte is foreign, so none is looked for.
pub(crate) fn foreign_first<T>(bytes: &[u8], of_lines: Result<T, FileFault>) -> Result<T, FileFault>
    ensures { result ≡ spec.foreign_first bytes.now of_lines }
{
    match of_lines {
        Ok(file) => Ok(file),
        Err(of_lines) => Err(first_fault(bytes, of_lines)),
    }
}

/// Reads a tower file. If its lines have a fault, also looks for a byte that no file may have. The
/// clauses of `parse` say the same, one by one.
fn file_of(alloc: Global, bytes: &[u8]) -> Result<TowerFile, FileFault>
    ensures parsed { spec.Parses as_file Spells spec.file_of_lines bytes.now result }
    ensures memory { MemoryOnlyIf result (SpellsSteps bytes.now) }
{
    foreign_first(bytes, file_of_lines(alloc, bytes))
}

/// Returns the tower file that the bytes spell. If they spell none, returns their first fault:
/// NotAscii if some byte is foreign (neither a line end nor one of 0x20 to 0x7E), or else the fault
/// of the first faulty line. If they spell a file with steps, and there is no memory for the steps,
/// returns Memory on line 0.
pub fn parse(alloc: Global, bytes: &[u8]) -> Result<TowerFile, FileFault>
    // The bytes spell the file that is returned.
    ensures found { IfOk result (λ f. Spells bytes.now (as_file f)) }
    // If the bytes spell a file, it is returned, unless memory runs out.
    ensures only { (f : File) → Spells bytes.now f → Gives as_file result (Ok f) }
    // If the bytes spell no file, their first fault is returned. A fault other than Memory is
    // returned only if they spell no file.
    ensures exact { Gives as_file result (spec.file_reading bytes.now) }
    ensures fault { IfErr result (λ e. e.kind ≢ Memory → (f : File) → Spells bytes.now f → ⊥) }
    // Memory is reported only if the bytes spell a file that has steps.
    ensures memory { IfErr result (λ e. e.kind ≡ Memory → (e.line ≡ 0) × SpellsSteps bytes.now) }
{
    file_of(alloc, bytes)
}
