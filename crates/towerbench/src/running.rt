//! A run of the program: it reads a script from a reader, and writes the answers to a writer.

ghost use Rattle.std.specs.Prelude.{◌≡◌, ◌<◌, true, false, OnOk, OnErr, IfOk, IfErr};
ghost use Rattle.std.specs.Option.{option_map};
ghost use Rattle.schedule_trie.specs.Limbs.{limbs};
ghost use Rattle.tower_file.specs.Benches.{bench_of};
ghost use Rattle.command_line.specs.Ranges.{AreOptionsInRange, limits_of};
ghost use Rattle.conversation.specs.Streams.{streams};
ghost use Rattle.towerbench.specs.RunEndings.{IsReported, Ran, RanInto, EndsFrom, reports_branches};
ghost use Rattle.towerbench.specs.DeskOpenings.{Builds, IsOnTower};
ghost use Rattle.towerbench.specs.Seats.{IsAlone, world_at};

use crate::bench_source::{opened_bench, tower_of};
use crate::fault::{Fault, fault_of_stream};
use crate::opening::{Fate, Opening, Reporting, Setup};
use crate::seat::Seat;
use crate::serving::serve_at;
use command_line::Options;
use conversation::taken::Taken;
use frames::register::Register;
use frames::safe::Safe;
use std::alloc::{AllocError, Global};
use std::io::{Read, Write};
use std::mem::forget;
use std::sync::Wait;
use std::thread::Threads;
use tower_file::{BenchFile, TowerSpec, print_bench};
use towers::{copies, matrix, regular, stamped, unary};

/// Answers a script on the tower and the branches that the bytes of `file` spell, or, if `file` is
/// `None`, on a safe bit at 0 and one branch without steps. Each option must be in its range. All
/// lines whose ends have been read are answered before the next read. If the result is `Ok`, the
/// script was read to its end, and the answers to all its lines were written.
///
/// If the file has a fault (File), or the branches can't be loaded (Refused), nothing has been read
/// or written. After the stream fault Read or TooLong, the answers to all whole lines that were
/// read have been written; after Memory, the answers to the first `count` of these lines, for some
/// `count`; after Write, a prefix of the answers to the lines that were read, which may end within
/// an answer.
pub fn run<H: Threads + Wait + Sync, R: Read, W: Write>(
    rt: &H,
    alloc: Global,
    file: Option<&[u8]>,
    options: Options,
    reader: &mut R,
    writer: &mut W,
) -> Result<(), Fault>
    requires limits { AreOptionsInRange options }
    ensures done { OnOk result (Ran (option_map (λ bytes. bytes.now) file.entry) (limits_of options)
        (streams (R.remaining reader.old) (W.contents writer.old))
        (streams (R.remaining reader.new) (W.contents writer.new))) }
    ensures fault { IfErr result (RanInto false
        (option_map (λ bytes. bytes.now) file.entry) (limits_of options)
        (streams (R.remaining reader.old) (W.contents writer.old))
        (streams (R.remaining reader.new) (W.contents writer.new))) }
{
    let bench = match opened_bench(alloc, file) {
        Ok(bench) => bench,
        Err(fault) => return Err(fault),
    };
    let setup = Setup {
        bench,
        options,
        fate: Fate::Dropped,
    };
    match run_setup(rt, alloc, setup, Reporting::Nothing, reader, writer) {
        Ok(_) => {}
        Err(fault) => return Err(fault),
    }
    Ok(())
}

/// Answers a script on the tower and the branches of `setup`. Returns the bytes that `reporting`
/// asks for about the branches that the script left. The limbs that spell the branches of `setup`
/// are dropped before anything is read.
pub(crate) fn run_setup<H: Threads + Wait + Sync, R: Read, W: Write>(
    rt: &H,
    alloc: Global,
    setup: Setup,
    reporting: Reporting,
    reader: &mut R,
    writer: &mut W,
) -> Result<Vec<u8>, Fault>
    requires limits { AreOptionsInRange setup.options }
    ensures { EndsFrom setup reporting
        (streams (R.remaining reader.old) (W.contents writer.old))
        (streams (R.remaining reader.new) (W.contents writer.new)) result }
{
    // A macro, since the registers of the towers have different types.
    macro_rules! begin_with {
        ($register:expr, $value:expr) => {{
            let opening = Opening {
                register: $register,
                value: $value,
                setup,
            };
            begin(rt, alloc, opening, reporting, reader, writer)
        }};
    }
    match tower_of(&setup.bench) {
        TowerSpec::Safe { init } => begin_with!(Safe, init),
        TowerSpec::Copies { readers, init } => begin_with!(copies(readers), init),
        TowerSpec::Regular { readers, init } => begin_with!(regular(readers), init),
        TowerSpec::Unary {
            values,
            readers,
            init,
        } => begin_with!(unary(values, readers), init),
        TowerSpec::Stamped { values, last } => begin_with!(stamped(values, last), 0),
        TowerSpec::Matrix {
            processes,
            values,
            last_tag,
            last_stamp,
        } => begin_with!(matrix(processes, values, last_tag, last_stamp), 0),
    }
}

/// Opens a desk, and answers a script at it. The opening's limbs are dropped before anything is
/// read.
fn begin<B: Register + Send + Sync, H: Threads + Wait + Sync, R: Read, W: Write>(
    rt: &H,
    alloc: Global,
    opening: Opening<B>,
    reporting: Reporting,
    reader: &mut R,
    writer: &mut W,
) -> Result<Vec<u8>, Fault>
where
    B::Pending: Send + Sync,
    requires value { opening.value < (B.behaviour opening.register).values }
    requires limits { AreOptionsInRange opening.setup.options }
    requires builds { Builds B.behaviour opening.register opening.value opening.setup.bench.tower }
    ensures { EndsFrom opening.setup reporting
        (streams (R.remaining reader.old) (W.contents writer.old))
        (streams (R.remaining reader.new) (W.contents writer.new)) result }
{
    let fate = opening.setup.fate;
    let tower = opening.setup.bench.tower;
    let mut seat = match Seat::open(rt, alloc, opening) {
        Ok(seat) => seat,
        Err(refusal) => return Err(Fault::Refused(refusal)),
    };
    match serve_at(alloc, &mut seat, reader, &mut Taken::nothing(), writer) {
        Ok(()) => {}
        Err(fault) => return Err(fault_of_stream(fault)),
    }
    match reported_bytes(alloc, &mut seat, tower, reporting) {
        Ok(reported) => {
            drop_or_forget(seat, fate);
            Ok(reported)
        }
        Err(AllocError) => Err(Fault::Memory),
    }
}

/// Drops or forgets a seat after a script that ended well.
fn drop_or_forget<B: Register, H>(seat: Seat<'_, B, H>, fate: Fate) {
    match fate {
        Fate::Dropped => {}
        Fate::Forgotten => forget(seat),
    }
}

/// The bytes that `reporting` asks for about the branches at a seat. The seat's register must be
/// that of `tower`. An error if memory runs out; if nothing is asked for, there is no error.
fn reported_bytes<B: Register, H: Wait>(
    alloc: Global,
    seat: &mut Seat<'_, B, H>,
    tower: TowerSpec,
    reporting: Reporting,
) -> Result<Vec<u8>, AllocError>
    requires alone { IsAlone seat.old }
    requires ground { IsOnTower tower (world_at B.behaviour seat.old) }
    ensures reported { IfOk result (λ bytes. IsReported (reports_branches reporting)
        (bench_of tower (limbs (world_at B.behaviour seat.old).forest)) bytes.items) }
    ensures fault { OnErr result (reports_branches reporting ≡ true) }
{
    match reporting {
        Reporting::Nothing => Ok(Vec::new(alloc)),
        Reporting::Branches => {
            let limbs = seat.limbs(alloc)?;
            let left = BenchFile::of_lawful(tower, limbs);
            print_bench(alloc, &left)
        }
    }
}
