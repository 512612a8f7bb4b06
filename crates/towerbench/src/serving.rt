//! Serving a script at a desk.

ghost use Rattle.std.specs.Prelude.{◌≡◌, ◌≤◌, OnOk, IfErr};
ghost use Rattle.conversation.specs.Amounts.{MayEndBy, nothing};
ghost use Rattle.conversation.specs.Conversations.{IsAnswered, Leaves, EndsWithFault};
ghost use Rattle.conversation.specs.Streams.{streams};
ghost use Rattle.conversation.specs.Scripts.{answers_to, IsLineAnswer};
ghost use Rattle.script.specs.Answers.{answer_line};
ghost use Rattle.turn.specs.Shares.{HasAll};
ghost use Rattle.turn.specs.Chairs.{view};
ghost use Rattle.desk.specs.Chairs.{IsChairOf};
ghost use Rattle.towerbench.specs.StreamFaults.{EndsWithStreamFault, IsOfStreams};
ghost use Rattle.towerbench.specs.Seats.{IsAlone, seated, world_at};

use crate::answer::{LineAnswer, answer};
use crate::fault::{Fault, fault_of_stream};
use crate::seat::Seat;
use conversation::converse::converse;
use conversation::fault::StreamFault;
use conversation::taken::Taken;
use desk::{Chair, Desk};
use frames::register::Register;
use std::alloc::Global;
use std::io::{Read, Write};
use std::sync::Wait;
use std::thread::Threads;

/// Answers a script at a desk, by one of the desk's chairs. All lines whose ends have been read are
/// answered before the next read. If the chair holds all 16 shares, the first line finds the world
/// after the history of logged calls that the chair has seen; and if the result is then `Ok`, the
/// answers to all lines of the script were written. At most 4 `thieves`, which are threads that
/// take jobs, help with fills; if the result is `Ok`, and no line was refused memory, the answers
/// don't depend on their number. A look or a fill is refused memory only if no other refusal is
/// due, and a command only if the log isn't full. The desk and the chair are dropped.
///
/// # Errors
///
/// Read, Write, TooLong, Memory. If the chair holds all shares, then after Read or TooLong the
/// answers to all whole lines that were read have been written; after Memory, the answers to the
/// first `count` of these lines, for some `count`; after Write, a prefix of the answers to the
/// lines that were read, which may end within an answer.
pub fn serve<B: Register + Send + Sync, H: Threads + Wait + Sync, R: Read, W: Write>(
    rt: &H,
    alloc: Global,
    desk: Desk<B>,
    chair: Chair<B>,
    thieves: u32,
    reader: &mut R,
    writer: &mut W,
) -> Result<(), Fault>
where
    B::Pending: Send + Sync,
    requires chair { IsChairOf B.behaviour desk chair }
    requires thieves { thieves ≤ 4 }
    ensures done { HasAll (view chair).shares → OnOk result (IsAnswered
        (answers_to answer_line (world_at B.behaviour (seated desk (view chair))))
        (streams (R.remaining reader.old) (W.contents writer.old))
        (streams (R.remaining reader.new) (W.contents writer.new))) }
    ensures fault { HasAll (view chair).shares → IfErr result (λ e. EndsWithStreamFault
        (answers_to answer_line (world_at B.behaviour (seated desk (view chair)))) e
        (streams (R.remaining reader.old) (W.contents writer.old))
        (streams (R.remaining reader.new) (W.contents writer.new))) }
    ensures of_streams { IfErr result IsOfStreams }
{
    let mut seat = Seat::new(rt, desk, chair, thieves);
    match serve_at(alloc, &mut seat, reader, &mut Taken::nothing(), writer) {
        Ok(()) => Ok(()),
        Err(fault) => Err(fault_of_stream(fault)),
    }
}

/// Answers a script at a seat. If the seat's chair holds every share, and the script ends well, the
/// seat's world is then the one that the script's lines leave. `taken` has to say that nothing was
/// read yet, and counts what is read; the fault is TooLong only if that reached a limit.
pub(crate) fn serve_at<B: Register + Send + Sync, H: Threads + Wait + Sync, R: Read, W: Write>(
    alloc: Global,
    seat: &mut Seat<'_, B, H>,
    reader: &mut R,
    taken: &mut Taken,
    writer: &mut W,
) -> Result<(), StreamFault>
where
    B::Pending: Send + Sync,
    requires unread { taken.old ≡ nothing }
    ensures done { IsAlone seat.old → OnOk result (Leaves answer_line
        (world_at B.behaviour seat.old) (world_at B.behaviour seat.new)
        (streams (R.remaining reader.old) (W.contents writer.old))
        (streams (R.remaining reader.new) (W.contents writer.new))) }
    ensures alone { IsAlone seat.old → OnOk result (IsAlone seat.new) }
    ensures fault { IsAlone seat.old → IfErr result (λ e. EndsWithFault
        (answers_to answer_line (world_at B.behaviour seat.old)) e
        (streams (R.remaining reader.old) (W.contents writer.old))
        (streams (R.remaining reader.new) (W.contents writer.new))) }
    ensures limits { IfErr result (λ e. MayEndBy e taken.new) }
{
    let answering = |seat: &mut Seat<'_, B, H>, number: u32, line: &[u8], out: &mut Vec<
        u8,
    >| -> LineAnswer
        ensures { IsAlone seat.old → OnOk result (IsLineAnswer answer_line number line.now
            (world_at B.behaviour seat.old) (world_at B.behaviour seat.new) out.old.items
            out.new.items
            × IsAlone seat.new) }
    { answer(alloc, seat, number, line, out) };
    converse(alloc, seat, &answering, reader, taken, writer)
}
