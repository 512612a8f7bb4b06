//! Reading a question file.

ghost use Rattle.std.specs.Prelude.{◌≡◌, ◌≢◌, ◌≤◌, ◌^◌, None, Some, true, false, Ok, Err, IfOk, IfErr, length};
ghost use Rattle.std.specs.List.{list_all};
ghost use Rattle.std.specs.Option.{option_map};
ghost use Rattle.tower_file.specs.Reading.{is_file_byte};
ghost use Rattle.words.specs.Words.{lines, is_end};
ghost use Rattle.question_file.specs.Faults.{out_of_memory_kind};
ghost use Rattle.question_file.specs.Parsed.{as_asked};
ghost use Rattle.question_file.specs.Reading as spec;

use crate::fault::{OUT_OF_MEMORY, QuestionFault, QuestionFaultKind};
use crate::file::QuestionFile;
use crate::line::tower_in;
use std::alloc::Global;
use tower_file::FaultKind;
use words::lines::Lines;

/// Whether a line says nothing: it is empty or begins with `#`.
fn is_comment(line: &[u8]) -> bool
    ensures { result ≡ spec.is_comment line.now }
{
    match line.first() {
        None => true,
        Some(byte) => *byte == b'#',
    }
}

/// Whether a file may have this byte, which then a tower file may have too.
fn is_file_byte(b: u8) -> bool
    ensures { result ≡ is_file_byte b }
{
    b == b'\n' || (0x20 <= b && b <= 0x7e)
}

/// Whether each byte of a line may be in a file.
fn are_file_bytes(line: &[u8]) -> bool
    ensures { result ≡ list_all is_file_byte line.now }
{
    line.iter().all(|b| is_file_byte(*b))
}

/// Begins a file with the line of its tower.
fn begin(alloc: Global, line: &[u8]) -> Result<QuestionFile, QuestionFaultKind>
    ensures begun { IfOk result (λ file.
        spec.with_content_line None line.now ≡ Ok (Some (as_asked file))) }
    ensures fault { IfErr result (λ k. k ≢ out_of_memory_kind
        → spec.with_content_line None line.now ≡ Err k) }
{
    let tower = match tower_in(alloc, line) {
        Ok(tower) => tower,
        Err(kind) => return Err(kind),
    };
    match QuestionFile::of_tower(alloc, tower) {
        Ok(file) => Ok(file),
        Err(_) => Err(OUT_OF_MEMORY),
    }
}

/// What the lines so far say, with one more that isn't a comment.
fn with_content_line(
    alloc: Global,
    file: Option<QuestionFile>,
    line: &[u8],
) -> Result<QuestionFile, QuestionFaultKind>
    ensures said { IfOk result (λ new. spec.with_content_line (option_map as_asked file) line.now
        ≡ Ok (Some (as_asked new))) }
    ensures fault { IfErr result (λ k. k ≢ out_of_memory_kind
        → spec.with_content_line (option_map as_asked file) line.now ≡ Err k) }
{
    match file {
        None => begin(alloc, line),
        Some(file) => {
            let mut file = file;
            match file.take_line(alloc, line) {
                Ok(()) => Ok(file),
                Err(kind) => Err(kind),
            }
        }
    }
}

/// What the lines so far say, with one more.
fn with_line(
    alloc: Global,
    file: Option<QuestionFile>,
    line: &[u8],
) -> Result<Option<QuestionFile>, QuestionFaultKind>
    ensures said { IfOk result (λ new. spec.with_line (option_map as_asked file) line.now
        ≡ Ok (option_map as_asked new)) }
    ensures fault { IfErr result (λ k. k ≢ out_of_memory_kind
        → spec.with_line (option_map as_asked file) line.now ≡ Err k) }
{
    if !are_file_bytes(line) {
        return Err(QuestionFaultKind::Shared(FaultKind::NotAscii));
    }
    if is_comment(line) {
        return Ok(file);
    }
    match with_content_line(alloc, file, line) {
        Ok(file) => Ok(Some(file)),
        Err(kind) => Err(kind),
    }
}

/// The lines of the bytes: at least one, and at most 2^63, so that their numbers fit in 64 bits.
fn lines_of(bytes: &[u8]) -> Lines<'_>
    ensures lines { result ≡ lines bytes.now }
    ensures few { length result ≤ 2 ^ 63 }
    ensures some { is_end result ≡ false }
{
    prove!(bytes.len() < 1 << 63);
    Lines::new(bytes)
}

/// What the bytes of a question file say. If they have a fault, the first one; if memory runs out
/// before it is found, Memory, on the line that was being read.
#[tactic(auto, using(crate::proofs::LineLoop::line_said, crate::proofs::LineLoop::line_faulty, crate::proofs::LineLoop::at_end, crate::proofs::LineLoop::one_line_less))]
pub fn parse_question(alloc: Global, bytes: &[u8]) -> Result<QuestionFile, QuestionFault>
    ensures read { IfOk result (λ file. spec.question_reading bytes.now ≡ Ok (as_asked file)) }
    ensures fault { IfErr result (λ e. e.kind ≢ out_of_memory_kind
        → spec.question_reading bytes.now ≡ Err e) }
{
    let mut lines = lines_of(bytes);
    let mut number = 1;
    let mut file = None;
    'lines: loop {
        let line = lines.next();
        if lines.is_end() {
            return end(file, line, number);
        }
        file = match with_line(alloc, file, line) {
            Ok(file) => file,
            Err(kind) => return Err(QuestionFault { kind, line: number }),
        };
        number += 1;
    }
}

/// What a file says whose lines have ended. `rest` is the text after the last line end.
fn end(file: Option<QuestionFile>, rest: &[u8], number: u64) -> Result<QuestionFile, QuestionFault>
    ensures read { IfOk result (λ f.
        spec.last_line number (option_map as_asked file) rest.now ≡ Ok (as_asked f)) }
    ensures fault { IfErr result (λ e.
        spec.last_line number (option_map as_asked file) rest.now ≡ Err e) }
{
    if !rest.is_empty() {
        return Err(QuestionFault {
            kind: QuestionFaultKind::BadLine,
            line: number,
        });
    }
    match file {
        Some(file) => Ok(file),
        None => Err(QuestionFault {
            kind: QuestionFaultKind::Shared(FaultKind::UnknownTower),
            line: number,
        }),
    }
}
