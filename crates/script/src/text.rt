//! The lines of answers.

ghost use Rattle.std.specs.Prelude.{◌≡◌, ◌++◌, OnOk};
ghost use Rattle.script.specs.Texts as spec;

use schedule_trie::name::Name;
use schedule_trie::refusal::Refusal;
use sessions::reply::Reply;
use words::text::{Pushed, push_bytes, push_labelled, push_number, push_text, push_word};

/// Adds, at the end of `out`, the line that answers a session's call with a reply: the session's
/// number and the reply's text. Fails only if memory runs out.
pub fn push_reply(out: &mut Vec<u8>, session: u32, reply: &Reply) -> Pushed
    ensures { OnOk result (out.new.items ≡ out.old.items ++ spec.answer_text session reply.now) }
{
    push_number(out, u64::from(session))?;
    push_text(out, ": ")?;
    push_reply_text(out, reply)?;
    push_text(out, "\n")
}

/// Adds, at the end of `out`, the line that answers a session's fill if the fill isn't refused.
/// Fails only if memory runs out.
pub fn push_filled(out: &mut Vec<u8>, session: u32) -> Pushed
    ensures { OnOk result (out.new.items ≡ out.old.items ++ spec.filled_text session) }
{
    let number = u64::from(session);
    push_number(out, number)?;
    push_text(out, ": filled\n")
}

/// Adds, at the end of `out`, the answer to a bad line: a line with the bad line's number and the
/// refusal BadLine. Fails only if memory runs out.
pub fn push_bad_line(out: &mut Vec<u8>, line: u32) -> Pushed
    ensures { OnOk result (out.new.items ≡ out.old.items ++ spec.bad_line_text line) }
{
    push_labelled(out, "line ", u64::from(line))?;
    push_text(out, ": ")?;
    push_refusal(out, Refusal::BadLine)?;
    push_text(out, "\n")
}

/// Adds the text of a reply, without the session's number and without a line end.
fn push_reply_text(out: &mut Vec<u8>, reply: &Reply) -> Pushed
    ensures { OnOk result (out.new.items ≡ out.old.items ++ spec.reply_text reply.now) }
{
    match reply {
        Reply::Joined => push_text(out, "joined"),
        Reply::Left => push_text(out, "left"),
        Reply::Edited(edits) => push_labelled(out, "edit ", *edits),
        Reply::Moved(branch, place) => push_place(out, branch, *place),
        Reply::NoHit => push_text(out, "no hit"),
        Reply::BreakSet => push_text(out, "break set"),
        Reply::BreakCleared => push_text(out, "break cleared"),
        Reply::No(refusal) => push_refusal(out, *refusal),
    }
}

/// Adds the text of the reply that a cursor has moved to this place of this branch.
fn push_place(out: &mut Vec<u8>, branch: &Name, place: u32) -> Pushed
    ensures { OnOk result (out.new.items ≡ out.old.items ++ spec.place_text branch.now place) }
{
    push_text(out, "at ")?;
    push_bytes(out, branch.as_bytes())?;
    push_labelled(out, " ", u64::from(place))
}

/// Adds the text of a refusal: `refused`, its number, its name and, for Newer, the edit count.
fn push_refusal(out: &mut Vec<u8>, refusal: Refusal) -> Pushed
    ensures { OnOk result (out.new.items ≡ out.old.items ++ spec.refusal_text refusal) }
{
    push_labelled(out, "refused ", u64::from(refusal.number()))?;
    push_word(out, refusal.name())?;
    push_detail(out, refusal)
}

/// Adds the text after a refusal's name: for Newer, a space and the edit count; otherwise nothing.
fn push_detail(out: &mut Vec<u8>, refusal: Refusal) -> Pushed
    ensures { OnOk result (out.new.items ≡ out.old.items ++ spec.refusal_detail refusal) }
{
    match refusal {
        Refusal::Newer(edits) => push_labelled(out, " ", edits),
        _ => Ok(()),
    }
}
