//! The program `towerbench-answers`: it passes its command-line words, its standard output and its
//! standard error to `answers_tool`.
#![tactic(auto)]

use std::process::ExitCode;
use std::rt::Env;
use std::{env, io};
use towerbench_answers::answers_tool;

fn main(rt: HostRuntime) -> ExitCode {
    let words = arguments(&rt);
    let mut output = rt.stdout();
    let mut errors = rt.stderr();
    ExitCode::from(answers_tool(&rt, words, &mut output, &mut errors))
}

/// The words of the command line after the program's name.
fn arguments(rt: &(impl Env + AllocGlobal)) -> io::Result<Vec<String>> {
    let mut words = Vec::new(rt.alloc());
    for word in env::args(rt)?.skip(1) {
        words.push(word)?;
    }
    Ok(words)
}
