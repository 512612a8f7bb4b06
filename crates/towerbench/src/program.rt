//! What the program does with its words and its streams.

ghost use Rattle.std.specs.Prelude.{◌≡◌, ◌≢◌, ◌≤◌, ℕ, List, Option, Ok, IfOk, IfErr, OnErr, map};
ghost use Rattle.std.specs.IoError.{error_kind};
ghost use Rattle.std.specs.Option.{is_some};
ghost use Rattle.std.specs.String.{string_bytes};
ghost use Rattle.tower_file.specs.Parsed.{as_bench};
ghost use Rattle.conversation.specs.Streams.{streams};
ghost use Rattle.command_line.specs.Ranges.{AreOptionsInRange, limits_of};
ghost use Rattle.towerbench.specs.declared.ending.Ending.{Ending};
ghost use Rattle.towerbench.specs.RunEndings.{IsUntouched};
ghost use Rattle.towerbench.specs.BenchSources.{opened_bench};
ghost use Rattle.towerbench.specs.Endings.{IsFaultBeforeBench, IsPrinted, IsReadIfNamed, ProgramEndsBy, WorksOut, ending_of, exit_status};

use crate::bench_source::{MOST_FILE_BYTES, opened_bench};
use crate::ending::Ending;
use crate::fault::{Fault, ProgramFault};
use crate::opening::{Fate, Reporting, Setup};
use crate::running::run_setup;
use crate::saved_file::save_at;
use command_line::{Invocation, Options, parse_words};
use conversation::source::read_file;
use conversation::writing::write_whole;
use std::io;
use std::io::{ErrorKind, Read, Write};
use std::rt::Files;
use std::sync::Wait;
use std::thread::Threads;
use tower_file::BenchFile;

/// Does what `words`, the words after the program's name, ask for: reads a script from `reader`,
/// writes the answers to `writer`, and saves the branches if a path to save to is given; or writes
/// the help to `writer`. Reports a fault or a refusal to `errors`. Returns the exit status: 1 after
/// a fault, such as a failed save, and 2 if the words are refused; otherwise 0, and then the whole
/// script was answered or the help was written. The process should end after this call: after a
/// script that ended well, the memory of the branches isn't freed until then.
pub fn tool<F: Files + AllocGlobal + Threads + Wait + Sync, R: Read, W: Write, E: Write>(
    files: &F,
    words: io::Result<Vec<String>>,
    reader: &mut R,
    writer: &mut W,
    errors: &mut E,
) -> u8
    ensures status { result ≤ 2 }
    ensures ends { IfOk words (λ ws. (ending : Ending)
        × ProgramEndsBy (map string_bytes ws.items)
        (streams (R.remaining reader.old) (W.contents writer.old))
        (streams (R.remaining reader.new) (W.contents writer.new)) ending
        × (result ≡ exit_status ending)) }
    // If `words` is an error, nothing is read from `reader` or written to `writer`.
    ensures unread { OnErr words (IsUntouched
        (streams (R.remaining reader.old) (W.contents writer.old))
        (streams (R.remaining reader.new) (W.contents writer.new)) × (1 ≤ result)) }
    // If that error is OutOfMemory, the program ends with a fault, and the status is 1. After any
    // other error, a word that isn't text, the words are refused, and the status is 2.
    ensures no_memory { IfErr words (λ e. error_kind e ≡ ErrorKind.OutOfMemory → result ≡ 1) }
    ensures not_text { IfErr words (λ e. error_kind e ≢ ErrorKind.OutOfMemory → result ≡ 2) }
{
    match words {
        Ok(words) => {
            let ending = follow(files, words.as_slice(), reader, writer);
            report(errors, ending)
        }
        Err(e) if e.kind() == ErrorKind::OutOfMemory => report_fault(errors, ProgramFault::Memory),
        Err(_) => {
            // The status says the same, even if this line can't be written.
            let _ = writeln!(errors, "towerbench: a word of the command line is not text");
            2
        }
    }
}

/// Reports how the program ended, unless it ended well, and returns the exit status.
fn report<E: Write>(errors: &mut E, ending: Ending) -> u8
    ensures { result ≡ exit_status ending }
{
    match ending {
        Ending::Done => 0,
        Ending::Refused(text) => {
            // The status says the same, even if the text can't be written.
            let _ = errors.write_all(text.as_bytes());
            2
        }
        Ending::Faulted(fault) => report_fault(errors, fault),
    }
}

/// Does what the words ask for, and returns how the program ends.
fn follow<F: Files + AllocGlobal + Threads + Wait + Sync, R: Read, W: Write>(
    files: &F,
    words: &[String],
    reader: &mut R,
    writer: &mut W,
) -> Ending
    ensures { ProgramEndsBy (map string_bytes words.now)
        (streams (R.remaining reader.old) (W.contents writer.old))
        (streams (R.remaining reader.new) (W.contents writer.new)) result }
{
    match parse_words(files.alloc(), words) {
        Invocation::Run {
            file,
            options,
            save,
        } => work(files, file, options, save, reader, writer),
        Invocation::Help(text) => print(writer, &text),
        Invocation::Refused(text) => Ending::Refused(text),
        Invocation::Memory => Ending::Faulted(ProgramFault::Memory),
    }
}

/// Opens the named file, if a file is named, and answers the script. If the script ended well and a
/// path to save to is given, saves the branches that the script left.
fn work<F: Files + AllocGlobal + Threads + Wait + Sync, R: Read, W: Write>(
    files: &F,
    file: Option<&str>,
    options: Options,
    save: Option<&str>,
    reader: &mut R,
    writer: &mut W,
) -> Ending
    requires limits { AreOptionsInRange options }
    ensures { WorksOut (is_some file.entry) (limits_of options) (is_some save.entry)
        (streams (R.remaining reader.old) (W.contents writer.old))
        (streams (R.remaining reader.new) (W.contents writer.new)) result }
{
    let bench = match bench_at(files, file) {
        Ok(bench) => bench,
        Err(fault) => return Ending::Faulted(fault),
    };
    let setup = Setup {
        bench,
        options,
        fate: Fate::Forgotten,
    };
    let Some(path) = save else {
        let none = Reporting::Nothing;
        match run_setup(files, files.alloc(), setup, none, reader, writer) {
            Ok(_) => {}
            Err(fault) => return ending_of(Err(fault)),
        }
        return Ending::Done;
    };
    let branches = Reporting::Branches;
    match run_setup(files, files.alloc(), setup, branches, reader, writer) {
        Ok(bytes) => ending_of(save_at(files, path, &bytes)),
        Err(fault) => ending_of(Err(fault)),
    }
}

/// The tower and the branches of the file at a path. If no path is given, they are a safe bit at 0
/// and a branch `main` without steps.
fn bench_at<F: Files + AllocGlobal>(
    files: &F,
    file: Option<&str>,
) -> Result<BenchFile, ProgramFault>
    ensures ok { IfOk result (λ bench. (bytes : Option (List ℕ))
        × IsReadIfNamed (is_some file.entry) bytes × (opened_bench bytes ≡ Ok (as_bench bench))) }
    ensures err { IfErr result (IsFaultBeforeBench (is_some file.entry)) }
{
    let Some(path) = file else {
        return match opened_bench(files.alloc(), None) {
            Ok(bench) => Ok(bench),
            Err(fault) => Err(ProgramFault::Run(fault)),
        };
    };
    let bytes = match read_file(files, path, MOST_FILE_BYTES) {
        Ok(bytes) => bytes,
        Err(fault) => return Err(ProgramFault::Source(fault)),
    };
    match opened_bench(files.alloc(), Some(&bytes)) {
        Ok(bench) => Ok(bench),
        Err(fault) => Err(ProgramFault::Run(fault)),
    }
}

/// How the program ends, given the result of its run.
fn ending_of(ran: Result<(), Fault>) -> Ending
    ensures { result ≡ ending_of ran }
{
    match ran {
        Ok(()) => Ending::Done,
        Err(fault) => Ending::Faulted(ProgramFault::Run(fault)),
    }
}

/// Writes the help. The ending is the fault Help if a write or the flush fails.
fn print<W: Write>(writer: &mut W, text: &str) -> Ending
    ensures { IsPrinted (W.contents writer.old) (W.contents writer.new) result }
{
    let Ok(()) = write_whole(writer, text.as_bytes()) else {
        return Ending::Faulted(ProgramFault::Help);
    };
    let Ok(()) = writer.flush() else {
        return Ending::Faulted(ProgramFault::Help);
    };
    Ending::Done
}

/// Reports a fault, and returns its exit status, even if the report can't be written.
fn report_fault<E: Write>(errors: &mut E, fault: ProgramFault) -> u8
    ensures { result ≡ 1 }
{
    let _ = writeln!(errors, "towerbench: {fault}");
    1
}
