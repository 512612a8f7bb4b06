//! The program as calls: a run, a run that saves, and the whole tool with its command line.

ghost use Rattle.command_line.specs.Ranges.{AreOptionsInRange};

use std::test::Fail;
use towerbench::{Options, run, run_saving, tool};

const SCRIPT: &[u8] = b"0 insert main 0 r 1\n";

const ANSWER: &[u8] = b"0: edit 1\n";

/// No workers, and limits that are ample for these tests.
fn options() -> Options
    ensures { AreOptionsInRange result }
{
    Options {
        workers: 0,
        cells: 64,
        branches: 4,
    }
}

#[test]
fn script_is_run(rt: HostRuntime) -> Result<(), Fail> {
    let mut reader = SCRIPT;
    let mut writer = Vec::new(rt.alloc());
    let ran = run(&rt, rt.alloc(), None, options(), &mut reader, &mut writer);
    assert!(rt; ran.is_ok());
    assert_eq!(rt; writer.as_slice(), ANSWER);
    Ok(())
}

#[test]
fn branches_are_saved(rt: HostRuntime) -> Result<(), Fail> {
    let mut reader = SCRIPT;
    let mut writer = Vec::new(rt.alloc());
    let mut saver = Vec::new(rt.alloc());
    let ran = run_saving(
        &rt,
        rt.alloc(),
        None,
        options(),
        &mut reader,
        &mut writer,
        &mut saver,
    );
    assert!(rt; ran.is_ok());
    let saved: &[u8] = b"bench 1\nsafe 0\nbranch main 0 0\nr 1\n";
    assert!(rt; saver.as_slice() == saved);
    Ok(())
}

#[test]
fn tool_is_run_without_words(rt: HostRuntime) -> Result<(), Fail> {
    let words = Ok(Vec::new(rt.alloc()));
    let mut reader = SCRIPT;
    let mut writer = Vec::new(rt.alloc());
    let mut errors = Vec::new(rt.alloc());
    let status = tool(&rt, words, &mut reader, &mut writer, &mut errors);
    assert_eq!(rt; status, 0);
    assert_eq!(rt; writer.as_slice(), ANSWER);
    assert!(rt; errors.is_empty());
    Ok(())
}
