//! What the program does with its words and its streams.

ghost use Rattle.std.specs.Prelude.{◌≡◌, ◌≢◌, ◌==◌, ◌≤◌, true, false, IfOk, IfErr, OnErr, map};
ghost use Rattle.std.specs.IoError.{error_kind};
ghost use Rattle.std.specs.String.{string_bytes};
ghost use Rattle.towerbench_answers.specs.Words.{are_refused, answers_status, ends_refused};

use crate::ending::{AnswersEnding, AnswersProgramFault};
use crate::invocation::{AnswersInvocation, read_words};
use answer_lines::{AnswersFault, answer};
use conversation::source::read_file;
use conversation::writing::write_whole;
use std::alloc::Global;
use std::io;
use std::io::{ErrorKind, Write};
use std::rt::Files;

/// The most bytes that a question file may have.
const MOST_QUESTION_BYTES: usize = 1 << 20;

/// The help.
const HELP: &str = "towerbench 1.1.0
Lists the answers that the operations in FILE can have, each with a shortest schedule

Usage: towerbench-answers FILE
";

/// Does what `words`, the words after the program's name, ask for: writes to `writer` the answers
/// to the question in the file that they name, or the help. Reports a fault or a refusal to
/// `errors`. Returns the exit status: 0 if the answers or the help were written, 1 after a fault,
/// and 2 if the words are refused. The status is the same if the report can't be written.
pub fn answers_tool<F: Files + AllocGlobal, W: Write, E: Write>(
    files: &F,
    words: io::Result<Vec<String>>,
    writer: &mut W,
    errors: &mut E,
) -> u8
    ensures status { result ≤ 2 }
    // The status is 2 exactly if the words ask for nothing that the program does.
    ensures refused { IfOk words (λ ws.
        (result == 2) ≡ are_refused (map string_bytes ws.items)) }
    // If the words are refused or are an error, nothing is written to `writer`.
    ensures untouched { IfOk words (λ ws. are_refused (map string_bytes ws.items) ≡ true
        → W.contents writer.new ≡ W.contents writer.old) }
    ensures unwritten { OnErr words (W.contents writer.new ≡ W.contents writer.old) }
    // If that error is OutOfMemory, the status is 1; otherwise a word isn't text, and it is 2.
    ensures no_memory { IfErr words (λ e. error_kind e ≡ ErrorKind.OutOfMemory → result ≡ 1) }
    ensures not_text { IfErr words (λ e. error_kind e ≢ ErrorKind.OutOfMemory → result ≡ 2) }
{
    match words {
        Ok(words) => {
            let ending = follow(files, words.as_slice(), writer);
            report(errors, ending)
        }
        Err(e) if e.kind() == ErrorKind::OutOfMemory => {
            let _ = writeln!(errors, "towerbench-answers: memory");
            1
        }
        Err(_) => {
            let _ = writeln!(
                errors,
                "towerbench-answers: a word of the command line is not text"
            );
            2
        }
    }
}

/// Reports how the program ended, unless it ended well, and returns the exit status, even if the
/// report can't be written.
fn report<E: Write>(errors: &mut E, ending: AnswersEnding) -> u8
    ensures { result ≡ answers_status ending }
{
    match ending {
        AnswersEnding::Done => 0,
        AnswersEnding::Refused => {
            let _ = writeln!(errors, "towerbench-answers: usage: towerbench-answers FILE");
            2
        }
        AnswersEnding::Faulted(fault) => {
            let _ = writeln!(errors, "towerbench-answers: {fault}");
            1
        }
    }
}

/// Does what the words ask for, and returns how the program ends.
fn follow<F: Files + AllocGlobal, W: Write>(
    files: &F,
    words: &[String],
    writer: &mut W,
) -> AnswersEnding
    ensures refused { ends_refused result ≡ are_refused (map string_bytes words.now) }
    ensures untouched { are_refused (map string_bytes words.now) ≡ true
        → W.contents writer.new ≡ W.contents writer.old }
{
    match read_words(words) {
        AnswersInvocation::File(path) => ending_of(write_answers(files, path, writer)),
        AnswersInvocation::Help => ending_of(write(writer, HELP.as_bytes())),
        AnswersInvocation::Nothing => AnswersEnding::Refused,
    }
}

/// How the program ends, given the result of doing what its words ask for.
fn ending_of(done: Result<(), AnswersProgramFault>) -> AnswersEnding
    ensures { ends_refused result ≡ false }
{
    match done {
        Ok(()) => AnswersEnding::Done,
        Err(fault) => AnswersEnding::Faulted(fault),
    }
}

/// Writes the answers to the question in the file at a path.
fn write_answers<F: Files + AllocGlobal, W: Write>(
    files: &F,
    path: &str,
    writer: &mut W,
) -> Result<(), AnswersProgramFault> {
    let bytes = match read_file(files, path, MOST_QUESTION_BYTES) {
        Ok(bytes) => bytes,
        Err(fault) => return Err(AnswersProgramFault::Source(fault)),
    };
    let text = answers_of(files.alloc(), &bytes)?;
    write(writer, &text)
}

/// The text of the answers to the question that the bytes spell.
fn answers_of(alloc: Global, bytes: &[u8]) -> Result<Vec<u8>, AnswersProgramFault> {
    let answered = match answer(alloc, bytes) {
        Ok(answered) => answered,
        Err(fault) => return Err(AnswersProgramFault::Answer(fault)),
    };
    match answered.text(alloc) {
        Ok(text) => Ok(text),
        Err(_) => Err(AnswersProgramFault::Answer(AnswersFault::Memory)),
    }
}

/// Writes all bytes. The fault is Write if a write fails or takes no bytes.
fn write<W: Write>(writer: &mut W, bytes: &[u8]) -> Result<(), AnswersProgramFault> {
    match write_whole(writer, bytes) {
        Ok(()) => Ok(()),
        Err(_) => Err(AnswersProgramFault::Write),
    }
}
