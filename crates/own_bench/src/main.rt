//! The workbench on two safe bits: it answers a script from standard input. An example of a main
//! for a register of your own: docs/guide/own-register.md goes through it.
#![tactic(auto)]

use desk::Desk;
use frames::safe::Safe;
use own_register::{NewTwoBits, TwoBits};
use schedule_trie::limits::Limits;
use std::process::ExitCode;
use towerbench::serve;

/// Ends with status 0; 1 if a stream fails; 3 if the register is refused or memory runs out.
fn main(rt: HostRuntime) -> ExitCode {
    let Ok(register) = TwoBits::new(Safe) else {
        return ExitCode::from(3);
    };
    let limits = Limits {
        cells: 65536,
        branches: 64,
        log: 1048576,
    };
    let Ok((desk, chair)) = Desk::open(rt.alloc(), register, 0, limits, &[]) else {
        return ExitCode::from(3);
    };
    match serve(
        &rt,
        rt.alloc(),
        desk,
        chair,
        0,
        &mut rt.stdin(),
        &mut rt.stdout(),
    ) {
        Ok(()) => ExitCode::from(0),
        Err(_) => ExitCode::from(1),
    }
}
