//! Row `bench-file`, run by `run_saving`: what the saver takes, also if it fails after some byte.

ghost use Rattle.command_line.specs.Ranges.{AreOptionsInRange};

use super::cut::{ALL, Narrow};
use super::{Sink, Way, limited, options};
use command_line::Options;
use schedule_trie::refusal::Refusal;
use std::process::Abort;
use std::sync::Wait;
use std::thread::Threads;
use towerbench::{Fault, run_saving};

const FILE: &[u8] = b"bench 1\nsafe 0\nbranch main 0 0\nr 1\nw 0 1\n\
    branch a 0 1\ng 1 0\nbranch b 1 2\ng 1 1\n";

const SCRIPT: &[u8] = b"0 insert a 1 w 0 0\n0 branches\n";

const ANSWERS: &[u8] = b"0: edit 1\n0: branches 3 edits 1 made 5\n  main 2\n  a 3\n  b 4\n";

const SAVED: &[u8] = b"bench 1\nsafe 0\nbranch main 0 0\nr 1\nw 0 1\n\
    branch a 0 1\nw 0 0\ng 1 0\nbranch b 1 3\ng 1 1\n";

/// Runs the program over the file with these options. The writer takes at most `answers` bytes, and
/// the saver at most `saved`. Returns the fault, if there was one, and what the writer and the
/// saver took.
fn run_file<H: AllocGlobal + Threads + Wait + Sync>(
    rt: &H,
    options: Options,
    answers: usize,
    saved: usize,
) -> (Option<Fault>, Vec<u8>, Vec<u8>)
    requires { AreOptionsInRange options }
{
    let mut reader = SCRIPT;
    let mut writer = Narrow::new(rt.alloc(), answers);
    let mut saver = Narrow::new(rt.alloc(), saved);
    let ran = run_saving(
        rt,
        rt.alloc(),
        Some(FILE),
        options,
        &mut reader,
        &mut writer,
        &mut saver,
    );
    (ran.err(), writer.taken, saver.taken)
}

/// The saver fails after any byte. It has taken the file up to that byte, and all answers were
/// written.
#[test]
fn a_saver_fails_after_each_byte(rt: HostRuntime) {
    for room in 0..=SAVED.len() {
        let (found, answers, saved) = run_file(&rt, options(), ALL, room);
        let fault = if room < SAVED.len() {
            Some(Fault::Save)
        } else {
            None
        };
        assert_eq!(rt; found, fault, "{room}");
        assert!(rt; answers.as_slice() == ANSWERS, "{room}");
        assert!(rt; saved.as_slice() == &SAVED[..room], "{room}");
    }
}

/// If the saver takes no byte, the save fails: nothing is saved, and all answers were written.
#[test]
fn a_saver_takes_no_byte(rt: HostRuntime) {
    let mut reader = SCRIPT;
    let mut writer = Narrow::new(rt.alloc(), ALL);
    let mut saver = Sink {
        way: Way::TakesNone,
        taken: Vec::new(rt.alloc()),
    };
    let ran = run_saving(
        &rt,
        rt.alloc(),
        Some(FILE),
        options(),
        &mut reader,
        &mut writer,
        &mut saver,
    );
    assert_eq!(rt; ran.err(), Some(Fault::Save));
    assert!(rt; writer.taken.as_slice() == ANSWERS);
    assert!(rt; saver.taken.is_empty());
}

/// If the script ends with a fault, nothing is saved.
#[test]
fn a_write_fails_before_the_save(rt: HostRuntime) {
    for room in 0..ANSWERS.len() {
        let (found, answers, saved) = run_file(&rt, options(), room, ALL);
        assert_eq!(rt; found, Some(Fault::Write), "{room}");
        assert!(rt; answers.as_slice() == &ANSWERS[..room], "{room}");
        assert!(rt; saved.is_empty(), "{room}");
    }
}

/// Asserts that the file's branches are refused with these options, and that nothing is answered or
/// saved then.
fn check_refused<H: Abort + AllocGlobal + Threads + Wait + Sync>(
    rt: &H,
    options: Options,
    refusal: Refusal,
)
    requires { AreOptionsInRange options }
{
    let (found, answers, saved) = run_file(rt, options, ALL, ALL);
    assert_eq!(rt; found, Some(Fault::Refused(refusal)));
    assert!(rt; answers.is_empty() && saved.is_empty());
}

#[test]
fn refused_branches(rt: HostRuntime) {
    check_refused(&rt, limited(3, 4), Refusal::Full);
    check_refused(&rt, limited(64, 2), Refusal::TooManyBranches);
}
