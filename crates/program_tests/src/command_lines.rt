//! Tests of command lines, good and bad.

use command_line::{Invocation, Options, parse_words};
use std::alloc::Global;
use std::process::Abort;
use std::test::Fail;

/// The words of a line, split at spaces.
fn split(alloc: Global, line: &str) -> Result<Vec<String>, Fail> {
    let mut words = Vec::new(alloc);
    for word in line.split_ascii_whitespace() {
        words.push(String::from_str(alloc, word)?)?;
    }
    Ok(words)
}

/// What a command line asks for: the program's file, its options, and the path that it saves to.
type Run<'a> = (Option<&'a str>, Options, Option<&'a str>);

/// Asserts that a line asks the program for `expected`.
fn check_run(rt: &impl Abort, alloc: Global, line: &str, expected: Run<'_>) -> Result<(), Fail> {
    let words = split(alloc, line)?;
    match parse_words(alloc, words.as_slice()) {
        Invocation::Run {
            file,
            options,
            save,
        } => assert_eq!(rt; (file, options, save), expected, "{line}"),
        _ => panic!(rt; "{line}"),
    }
    Ok(())
}

/// The text with which a line is refused.
fn refused(rt: &impl Abort, alloc: Global, line: &str) -> Result<String, Fail> {
    let words = split(alloc, line)?;
    match parse_words(alloc, words.as_slice()) {
        Invocation::Refused(text) => Ok(text),
        _ => panic!(rt; "{line}"),
    }
}

#[test]
fn saves(rt: HostRuntime) -> Result<(), Fail> {
    for (line, file, path, workers, cells) in [
        ("--save kept", None, "kept", 0, 65536),
        ("--save=kept tower", Some("tower"), "kept", 0, 65536),
        ("tower --save tower", Some("tower"), "tower", 0, 65536),
        ("--workers 4 --save kept --cells 4", None, "kept", 4, 4),
        ("--save -", None, "-", 0, 65536),
    ] {
        let options = Options {
            workers,
            cells,
            branches: 64,
        };
        check_run(&rt, rt.alloc(), line, (file, options, Some(path)))?;
    }
    Ok(())
}

#[test]
fn runs(rt: HostRuntime) -> Result<(), Fail> {
    for (line, file, workers, cells, branches) in [
        ("", None, 0, 65536, 64),
        ("tower", Some("tower"), 0, 65536, 64),
        ("-", Some("-"), 0, 65536, 64),
        ("--workers 0", None, 0, 65536, 64),
        ("--workers 1 tower", Some("tower"), 1, 65536, 64),
        ("--workers 4", None, 4, 65536, 64),
        ("tower --workers=4", Some("tower"), 4, 65536, 64),
        ("--cells 1", None, 0, 1, 64),
        ("--cells 268435456", None, 0, 268435456, 64),
        ("--cells=268435456", None, 0, 268435456, 64),
        ("--cells 65537 tower", Some("tower"), 0, 65537, 64),
        ("tower --cells 4", Some("tower"), 0, 4, 64),
        ("--cells=4 tower", Some("tower"), 0, 4, 64),
        ("-- tower", Some("tower"), 0, 65536, 64),
        ("-- --cells", Some("--cells"), 0, 65536, 64),
        ("-- --workers", Some("--workers"), 0, 65536, 64),
        ("--cells 4 -- --help", Some("--help"), 0, 4, 64),
        ("--branches 1", None, 0, 65536, 1),
        ("--branches=1024 tower", Some("tower"), 0, 65536, 1024),
        ("--branches 2 --cells 4 tower", Some("tower"), 0, 4, 2),
        ("--cells 4 tower --branches 2", Some("tower"), 0, 4, 2),
        ("--workers 3 --cells 4 --branches 2", None, 3, 4, 2),
        (
            "--branches 2 tower --cells 4 --workers 3",
            Some("tower"),
            3,
            4,
            2,
        ),
    ] {
        let options = Options {
            workers,
            cells,
            branches,
        };
        check_run(&rt, rt.alloc(), line, (file, options, None))?;
    }
    Ok(())
}

/// Lines that are refused.
const REFUSED: &str = "\
one two
one -- two
--cells
--cells=
tower --cells
--cells 0
--cells 268435457
--cells 99999999999999999999
--cells -1
--cells=-1
--cells x
--cells 4x
--cells 0x4
--cells 4.0
--cells --help
--cells 4 --cells 4
--cell 4
--Cells 4
-c 4
--workers
--workers=
tower --workers
--workers 5
--workers -1
--workers=-1
--workers x
--workers 4 --workers 4
--workers 4 one two
--worker 4
--branches
--branches 0
--branches 1025
--branches x
--branches 4 --branches 4
--branches 4 one two
--save
tower --save
--save kept --save kept
--save one two three
--version
-V
-x
--help=1
one two --help
--cells 0 --help
";

#[test]
fn refusals(rt: HostRuntime) -> Result<(), Fail> {
    for line in REFUSED.lines() {
        let text = refused(&rt, rt.alloc(), line)?;
        assert!(rt; text.contains("--help"), "{line}: {text}");
    }
    Ok(())
}

/// The help.
const HELP: &str = "\
towerbench 1.1.0

Answers the script on standard input: edits and looks over the runs of a register tower

Usage: towerbench [OPTIONS] [FILE]

Arguments:
  [FILE]  A tower and its steps, or its branches; without it a safe bit

Options:
      --workers <N>   Threads that help to fill, 0 to 4 [default: 0]
      --cells <N>     The most cells that are ever made, 1 to 268435456 [default: 65536]
      --branches <N>  The most branches that there are at a time, 1 to 1024 [default: 64]
      --save <PATH>   Where the branches are saved after the script
  -h, --help          Print help
";

/// Lines that ask for the help.
const HELP_LINES: &str =
    "--help\n-h\ntower --help\n--cells 4 -h\n--workers 4 --help\n--help --workers 5\n";

#[test]
fn help(rt: HostRuntime) -> Result<(), Fail> {
    for line in HELP_LINES.lines() {
        let words = split(rt.alloc(), line)?;
        match parse_words(rt.alloc(), words.as_slice()) {
            Invocation::Help(text) => assert_eq!(rt; text.as_str(), HELP, "{line}"),
            _ => panic!(rt; "{line}"),
        }
    }
    Ok(())
}

/// The text of a refusal names what is wrong.
#[test]
fn what_is_wrong_is_named(rt: HostRuntime) -> Result<(), Fail> {
    for (line, want) in [
        (
            "--workers 5",
            "error: invalid value '5' for '--workers <N>': 5 is not in 0..=4\n\n\
             For more information, try '--help'.\n",
        ),
        (
            "--workers=-1",
            "error: invalid value '-1' for '--workers <N>': -1 is not in 0..=4\n\n\
             For more information, try '--help'.\n",
        ),
        (
            "--workers",
            "error: a value is required for '--workers <N>' but none was supplied\n\n\
             For more information, try '--help'.\n",
        ),
        (
            "--workers 1 --workers 1",
            "error: the argument '--workers <N>' cannot be used multiple times\n\n\
             Usage: towerbench [OPTIONS] [FILE]\n\n\
             For more information, try '--help'.\n",
        ),
        (
            "--cells 0",
            "error: invalid value '0' for '--cells <N>': 0 is not in 1..=268435456\n\n\
             For more information, try '--help'.\n",
        ),
        (
            "--cells",
            "error: a value is required for '--cells <N>' but none was supplied\n\n\
             For more information, try '--help'.\n",
        ),
        (
            "--branches 1025",
            "error: invalid value '1025' for '--branches <N>': 1025 is not in 1..=1024\n\n\
             For more information, try '--help'.\n",
        ),
        (
            "--threads 4",
            "error: unexpected argument '--threads' found\n\n  \
             tip: to pass '--threads' as a value, use '-- --threads'\n\n\
             Usage: towerbench [OPTIONS] [FILE]\n\n\
             For more information, try '--help'.\n",
        ),
        (
            "one two",
            "error: unexpected argument 'two' found\n\n\
             Usage: towerbench [OPTIONS] [FILE]\n\n\
             For more information, try '--help'.\n",
        ),
    ] {
        assert_eq!(rt; refused(&rt, rt.alloc(), line)?.as_str(), want, "{line}");
    }
    Ok(())
}
