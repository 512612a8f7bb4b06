//! Tests of the program's status, answers and fault lines, if its streams end early, fail or give
//! their bytes slowly.

use super::{Sink, Slow, Way};
use std::alloc::{AllocError, Global};
use std::io;
use std::io::ErrorKind;
use std::process::Abort;
use std::rt::Files;
use std::sync::Wait;
use std::test::Fail;
use std::thread::Threads;
use towerbench::tool;

/// How the program ended: its status, its answers and its fault lines.
#[derive(Drop)]
struct Ended {
    status: u8,
    answers: Vec<u8>,
    reported: Vec<u8>,
}

/// Runs the program with these words and this reader. `out` is what the writer of answers does with
/// bytes, and `err` what the writer of fault lines does.
fn run_tool<F: Files + AllocGlobal + Threads + Wait + Sync>(
    files: &F,
    words: io::Result<Vec<String>>,
    reader: &mut Slow<'_>,
    out: Way,
    err: Way,
) -> Ended {
    let mut writer = Sink {
        way: out,
        taken: Vec::new(files.alloc()),
    };
    let mut errors = Sink {
        way: err,
        taken: Vec::new(files.alloc()),
    };
    let status = tool(files, words, reader, &mut writer, &mut errors);
    Ended {
        status,
        answers: writer.taken,
        reported: errors.taken,
    }
}

/// Asserts how the program ends if it gets no words. `way` is what the writer of answers does with
/// bytes.
fn check<F: Abort + Files + AllocGlobal + Threads + Wait + Sync>(
    rt: &F,
    reader: &mut Slow<'_>,
    way: Way,
    status: u8,
    answers: &str,
    reported: &str,
) {
    let words = Ok(Vec::new(rt.alloc()));
    let ended = run_tool(rt, words, reader, way, Way::Takes);
    assert_eq!(rt; ended.answers.as_slice(), answers.as_bytes());
    assert_eq!(rt; ended.reported.as_slice(), reported.as_bytes());
    assert_eq!(rt; ended.status, status);
}

const SCRIPT: &[u8] = b"0 insert main 0 r 1\n0 history main 1";

/// Interrupted reads are retried.
#[test]
fn slow_script(rt: HostRuntime) {
    let mut reader = Slow::new(SCRIPT, 1, None);
    let want = "0: edit 1\n0: history main 1 of 1\n  0 p1 invoke read\n";
    check(&rt, &mut reader, Way::Takes, 0, want, "");
}

#[test]
fn failed_read(rt: HostRuntime) {
    let mut reader = Slow::new(SCRIPT, 1, Some(ErrorKind::Other));
    let reported = "towerbench: read failed\n";
    check(&rt, &mut reader, Way::Takes, 1, "0: edit 1\n", reported);
}

#[test]
fn failed_write(rt: HostRuntime) {
    for way in [Way::TakesNone, Way::Fails] {
        let script = b"# nothing to write\n0 state main 0\n";
        let mut reader = Slow::new(script.as_slice(), 0, None);
        check(&rt, &mut reader, way, 1, "", "towerbench: write failed\n");
    }
}

#[test]
fn failed_flush(rt: HostRuntime) {
    let mut reader = Slow::new(b"0 state zed 0\n".as_slice(), 0, None);
    let answers = "0: refused 20 NoBranch\n";
    let reported = "towerbench: write failed\n";
    check(&rt, &mut reader, Way::Sticks, 1, answers, reported);
}

/// The status is the same if the fault line can't be written.
#[test]
fn fault_line_lost(rt: HostRuntime) {
    let mut reader = Slow::new(b"0 state main 0\n".as_slice(), 0, None);
    let words = Ok(Vec::new(rt.alloc()));
    let ended = run_tool(&rt, words, &mut reader, Way::TakesNone, Way::Fails);
    assert_eq!(rt; ended.status, 1);
}

/// A script whose reads are interrupted forever is too long after 2^25 reads, and not before.
#[test]
fn endless_interruptions(rt: HostRuntime) {
    let mut reader = Slow::new(SCRIPT, u32::MAX, None);
    let reported = "towerbench: script too long\n";
    check(&rt, &mut reader, Way::Takes, 1, "", reported);
    assert_eq!(rt; reader.reads, 1 << 25);
}

/// A writer that fails is no fault if there is nothing to write.
#[test]
fn nothing_to_write(rt: HostRuntime) {
    for way in [Way::Fails, Way::Sticks] {
        let mut reader = Slow::new(b"# nothing to write\n\n#".as_slice(), 0, None);
        check(&rt, &mut reader, way, 0, "", "");
    }
}

/// The words of a command line.
fn words_of(alloc: Global, texts: &[&str]) -> Result<Vec<String>, AllocError> {
    let mut words = Vec::new(alloc);
    for text in texts {
        let word = String::from_str(alloc, text)?;
        words.push(word).map_err(AllocError::from)?;
    }
    Ok(words)
}

/// Help that can't be written is a fault.
#[test]
fn help_not_written(rt: HostRuntime) -> Result<(), Fail> {
    for way in [Way::TakesNone, Way::Fails, Way::Sticks] {
        let words = Ok(words_of(rt.alloc(), ["--help"].as_slice())?);
        let mut reader = Slow::new(SCRIPT, 0, None);
        let ended = run_tool(&rt, words, &mut reader, way, Way::Takes);
        assert_eq!(rt; ended.status, 1);
        assert_eq!(rt;
            ended.reported.as_slice(),
            b"towerbench: write failed\n".as_slice()
        );
    }
    Ok(())
}

/// Words are refused, or the help is given, before anything of the script is read.
#[test]
fn words_before_the_script(rt: HostRuntime) -> Result<(), Fail> {
    for (texts, status) in [(["--cells", "0"].as_slice(), 2), (["--help"].as_slice(), 0)] {
        let words = Ok(words_of(rt.alloc(), texts)?);
        let mut reader = Slow::new(SCRIPT, 0, None);
        let ended = run_tool(&rt, words, &mut reader, Way::Takes, Way::Takes);
        assert_eq!(rt; ended.status, status);
        assert_eq!(rt; ended.answers.is_empty(), status == 2);
        assert_eq!(rt; ended.reported.is_empty(), status == 0);
        assert_eq!(rt; reader.reads, 0);
    }
    Ok(())
}

/// If there is no memory for the words, that is a fault; words that aren't text are refused.
#[test]
fn words_that_cannot_be_read(rt: HostRuntime) {
    for (kind, status, reported) in [
        (ErrorKind::OutOfMemory, 1, "towerbench: memory\n"),
        (
            ErrorKind::InvalidData,
            2,
            "towerbench: a word of the command line is not text\n",
        ),
    ] {
        let words = Err(io::Error::from(kind));
        let mut reader = Slow::new(SCRIPT, 0, None);
        let ended = run_tool(&rt, words, &mut reader, Way::Takes, Way::Takes);
        assert_eq!(rt; ended.status, status);
        assert!(rt; ended.answers.is_empty());
        assert_eq!(rt; ended.reported.as_slice(), reported.as_bytes());
        assert_eq!(rt; reader.reads, 0);
    }
}
