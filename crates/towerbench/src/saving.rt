//! A run of the program that saves the branches that its script left.

ghost use Rattle.std.specs.Prelude.{◌≡◌, OnOk, OnErr, IfErr};
ghost use Rattle.std.specs.Option.{option_map};
ghost use Rattle.std.specs.Io.KnownBytes.{Appends};
ghost use Rattle.conversation.specs.Conversations.{WrotePrefix};
ghost use Rattle.conversation.specs.Streams.{streams};
ghost use Rattle.command_line.specs.Ranges.{AreOptionsInRange, limits_of};
ghost use Rattle.towerbench.specs.RunEndings.{RanSaving, RanSavingInto};

use crate::bench_source::opened_bench;
use crate::fault::Fault;
use crate::opening::{Fate, Reporting, Setup};
use crate::running::run_setup;
use command_line::Options;
use conversation::writing::write_whole;
use std::alloc::Global;
use std::io::{Read, Write};
use std::sync::Wait;
use std::thread::Threads;

/// Answers a script on the tower and the branches that the bytes of `file` spell, or, if `file` is
/// `None`, on a safe bit at 0 and one branch without steps. Each option must be in its range. If
/// the script ended well, also writes a bench file to `saver`: the tower, and the branches that the
/// script left.
///
/// After the fault Save, the script has ended well, and a prefix of the bench file has been written
/// to `saver`. After any other fault, nothing has been written to `saver`, and `reader` and
/// `writer` are as `run` leaves them after that fault; but Memory may also follow a script that
/// ended well.
pub fn run_saving<H: Threads + Wait + Sync, R: Read, W: Write, S: Write>(
    rt: &H,
    alloc: Global,
    file: Option<&[u8]>,
    options: Options,
    reader: &mut R,
    writer: &mut W,
    saver: &mut S,
) -> Result<(), Fault>
    requires limits { AreOptionsInRange options }
    ensures done { OnOk result (RanSaving
        (option_map (λ bytes. bytes.now) file.entry) (limits_of options)
        (streams (R.remaining reader.old) (W.contents writer.old))
        (streams (R.remaining reader.new) (W.contents writer.new))
        (S.contents saver.old) (S.contents saver.new)) }
    ensures fault { IfErr result (RanSavingInto
        (option_map (λ bytes. bytes.now) file.entry) (limits_of options)
        (streams (R.remaining reader.old) (W.contents writer.old))
        (streams (R.remaining reader.new) (W.contents writer.new))
        (S.contents saver.old) (S.contents saver.new)) }
{
    let bench = match opened_bench(alloc, file) {
        Ok(bench) => bench,
        Err(fault) => return Err(fault),
    };
    let setup = Setup {
        bench,
        options,
        fate: Fate::Dropped,
    };
    match run_setup(rt, alloc, setup, Reporting::Branches, reader, writer) {
        Ok(bytes) => save(saver, &bytes),
        Err(fault) => Err(fault),
    }
}

/// Writes all bytes. If a write fails or takes no bytes, the fault is Save, and a prefix of the
/// bytes has been written.
fn save<S: Write>(saver: &mut S, bytes: &[u8]) -> Result<(), Fault>
    ensures written { OnOk result
        (Appends (S.contents saver.old) (S.contents saver.new) bytes.now) }
    ensures front { OnErr result
        (WrotePrefix (S.contents saver.old) (S.contents saver.new) bytes.now) }
    ensures fault { IfErr result (λ e. e ≡ Fault.Save) }
{
    match write_whole(saver, bytes) {
        Ok(()) => Ok(()),
        Err(_) => Err(Fault::Save),
    }
}
