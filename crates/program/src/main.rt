//! The program: it passes its command-line words and its three standard streams to the workbench.
#![tactic(auto)]

use std::process::ExitCode;
use std::rt::Env;
use std::{env, io};
use towerbench::tool;

fn main(rt: HostRuntime) -> ExitCode {
    let words = arguments(&rt);
    let mut input = rt.stdin();
    let mut output = rt.stdout();
    let mut errors = rt.stderr();
    ExitCode::from(tool(&rt, words, &mut input, &mut output, &mut errors))
}

/// The words of the command line after the program's name.
fn arguments(rt: &(impl Env + AllocGlobal)) -> io::Result<Vec<String>> {
    let mut words = Vec::new(rt.alloc());
    for word in env::args(rt)?.skip(1) {
        words.push(word)?;
    }
    Ok(words)
}
