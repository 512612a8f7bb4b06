//! Answering the lines of a script at a desk.

ghost use Rattle.std.specs.Prelude.{◌≡◌, ◌⊎◌, ◌++◌, Bool, OnOk};
ghost use Rattle.schedule_trie.specs.Forest.{index_of};
ghost use Rattle.sessions.specs.Looks.{looked_in};
ghost use Rattle.script.specs.Answers.{shown_text};
ghost use Rattle.script.specs.Answers as spec;
ghost use Rattle.script.specs.Texts.{answer_text};
ghost use Rattle.conversation.specs.Scripts.{IsLineAnswer};
ghost use Rattle.pages.specs.Pages.{page_text};
ghost use Rattle.towerbench.specs.Seats.{AddsAnswer, IsAlone, world_at};

use crate::seat::Seat;
use conversation::answers::Answers;
use frames::register::Register;
use schedule_trie::name::Name;
use schedule_trie::refusal::Refusal;
use script::call::{Call, Line, Request};
use script::line::read_line;
use script::text::{push_bad_line, push_filled, push_reply};
use sessions::reply::Reply;
use std::alloc::{AllocError, Global};
use std::sync::Wait;
use std::thread::Threads;
use views::page::{Page, page_text};
use views::query::Query;

impl<R: Register, W: Wait> Answers for Seat<'_, R, W> {
    ghost use Rattle.sessions.specs.World.{World};
    ghost use Rattle.towerbench.specs.Seats.{IsAlone, world_at};
    ghost use Rattle.script.specs.Answers.{answer_line};
    ghost use Rattle.script.specs.laws.LineFronts.{answer_line-front};

    ghost Worlds = { World R.Pending };

    ghost world = { world_at R.behaviour };

    ghost alone = { IsAlone };

    ghost define = { answer_line };

    ghost reads_front = { answer_line-front };
}

/// `Ok` if the answer to a line was added; an error if there was no memory for the answer's text.
pub(crate) type LineAnswer = Result<(), AllocError>;

/// Adds the answer to `line`, which is line `number` of the script, at the end of `out`. If the
/// seat's chair holds every share, and the result is `Ok`, the line was answered in the world that
/// the seat had, and the seat now has the world after the line.
pub(crate) fn answer<R: Register + Send + Sync, W: Threads + Wait + Sync>(
    alloc: Global,
    seat: &mut Seat<'_, R, W>,
    number: u32,
    line: &[u8],
    out: &mut Vec<u8>,
) -> LineAnswer
where
    R::Pending: Send + Sync,
    ensures answer { IsAlone seat.old → OnOk result (IsLineAnswer spec.answer_line number line.now
        (world_at R.behaviour seat.old) (world_at R.behaviour seat.new) out.old.items
        out.new.items) }
    ensures alone { IsAlone seat.old → IsAlone seat.new }
{
    match &read_line(line) {
        Line::Blank => Ok(()),
        Line::Bad => push_bad_line(out, number),
        Line::Call(call) => answer_call(alloc, seat, call, out),
    }
}

/// Answers a call.
fn answer_call<R: Register + Send + Sync, W: Threads + Wait + Sync>(
    alloc: Global,
    seat: &mut Seat<'_, R, W>,
    call: &Call,
    out: &mut Vec<u8>,
) -> Result<(), AllocError>
where
    R::Pending: Send + Sync,
    ensures answer { let w = world_at R.behaviour seat.old in IsAlone seat.old
        → OnOk result (AddsAnswer
        (λ memory. spec.answer_call memory call.now w)
        (world_at R.behaviour seat.new) out.old.items out.new.items) }
    ensures alone { IsAlone seat.old → IsAlone seat.new }
{
    let session = call.session;
    match &call.request {
        Request::Act { if_at, command } => {
            let reply = seat.act(alloc, session, *if_at, command);
            push_reply(out, session, &reply)
        }
        Request::Look(query) => answer_look(alloc, seat, session, *query, out),
        Request::Fill(branch) => answer_fill(alloc, seat, session, branch, out),
    }
}

/// Answers a look.
fn answer_look<R: Register, W: Wait>(
    alloc: Global,
    seat: &mut Seat<'_, R, W>,
    session: u32,
    query: Query,
    out: &mut Vec<u8>,
) -> Result<(), AllocError>
    ensures text { let w = world_at R.behaviour seat.old in IsAlone seat.old
        → OnOk result ((memory : Bool)
        × (out.new.items ≡ out.old.items
        ++ spec.look_text memory session (looked_in w query) (shown_text session query w))) }
    ensures kept { IsAlone seat.old → world_at R.behaviour seat.new
        ≡ world_at R.behaviour seat.old }
    ensures alone { IsAlone seat.old → IsAlone seat.new }
{
    match seat.look(alloc, query) {
        Ok(page) => push_page(alloc, session, &page, out),
        Err(refusal) => push_reply(out, session, &Reply::No(refusal)),
    }
}

/// Adds the text of a page, or the refusal Memory if there was no memory to make the text.
fn push_page(alloc: Global, session: u32, page: &Page, out: &mut Vec<u8>) -> Result<(), AllocError>
    ensures { OnOk result ((out.new.items ≡ out.old.items ++ page_text session page.now)
        ⊎ (out.new.items ≡ out.old.items ++ answer_text session (Reply.No Refusal.Memory))) }
{
    match page_text(alloc, session, page) {
        Ok(text) => out.extend_from_slice(&text),
        Err(AllocError) => push_reply(out, session, &Reply::No(Refusal::Memory)),
    }
}

/// Answers a fill.
fn answer_fill<R: Register + Send + Sync, W: Threads + Wait + Sync>(
    alloc: Global,
    seat: &mut Seat<'_, R, W>,
    session: u32,
    branch: &Name,
    out: &mut Vec<u8>,
) -> Result<(), AllocError>
where
    R::Pending: Send + Sync,
    ensures alone { IsAlone seat.old → IsAlone seat.new }
    ensures text { let w = world_at R.behaviour seat.old in IsAlone seat.old
        → OnOk result ((memory : Bool)
        × (out.new.items ≡ out.old.items
        ++ spec.fill_text memory session (index_of w.forest.branches branch.now))) }
    ensures kept { IsAlone seat.old → world_at R.behaviour seat.new
        ≡ world_at R.behaviour seat.old }
{
    match seat.fill(alloc, branch) {
        Ok(_) => push_filled(out, session),
        Err(refusal) => push_reply(out, session, &Reply::No(refusal)),
    }
}
