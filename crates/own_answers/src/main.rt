//! All answers of two safe bits, while 2 is written over 1 and read once. An example of a question
//! about a register of your own: docs/guide/own-register.md goes through it.
#![tactic(auto)]

use answer_lines::answers_text;
use answers::find::find;
use answers::question::Question;
use frames::safe::Safe;
use frames::types::Op;
use own_register::{NewTwoBits, TwoBits};
use std::alloc::{AllocError, Global};
use std::io::Write;
use std::process::ExitCode;

/// The most states that are searched.
const MOST_STATES: u32 = 1 << 16;

/// Ends with status 0; 1 if the output fails; 3 if `answers` returns `None`.
fn main(rt: HostRuntime) -> ExitCode {
    let Some(text) = answers(rt.alloc()) else {
        return ExitCode::from(3);
    };
    match rt.stdout().write_all(&text) {
        Ok(()) => ExitCode::from(0),
        Err(_) => ExitCode::from(1),
    }
}

/// The answers as text; `None` if the register or the question is refused, or memory runs out.
fn answers(alloc: Global) -> Option<Vec<u8>> {
    let Ok(register) = TwoBits::new(Safe) else {
        return None;
    };
    let Ok(question) = question(alloc) else {
        return None;
    };
    let Ok(found) = find(alloc, &register, &question, MOST_STATES) else {
        return None;
    };
    match answers_text(alloc, &question.operations, &found) {
        Ok(text) => Some(text),
        Err(_) => None,
    }
}

/// The register is at 1. Process 0 writes 2, and process 1 reads.
fn question(alloc: Global) -> Result<Question, AllocError> {
    let write = list_of(alloc, Op::Write(2))?;
    let read = list_of(alloc, Op::Read)?;
    let mut operations = Vec::with_capacity(alloc, 2)?;
    operations.push_reserved(write);
    operations.push_reserved(read);
    Ok(Question {
        value: 1,
        operations,
        after: Vec::new(alloc),
        may_stop: Vec::new(alloc),
    })
}

/// A list of one operation.
fn list_of(alloc: Global, op: Op) -> Result<Vec<Op>, AllocError> {
    let mut list = Vec::with_capacity(alloc, 1)?;
    list.push_reserved(op);
    Ok(list)
}
