//! A conversation: a script is read in pieces; after each piece, the answers to the lines that end
//! in it are written together.

ghost use Rattle.std.specs.Prelude.{◌≡◌, ◌++◌, ◌∷◌, [], ◌<◌, ◌≤◌, ◌+◌, ◌^◌, ℕ, List, Option, OnOk, OnErr, IfOk, IfErr, MatchOption, ◌⊎◌, length, take};
ghost use Rattle.std.specs.Io.KnownBytes.{Appends, Consumes, IsAtEnd};
ghost use Rattle.conversation.specs.declared.limits.TheConstants.{KEPT_BYTES, MOST_SCRIPT_BYTES};
ghost use Rattle.conversation.specs.Streams.{Streams, streams};
ghost use Rattle.conversation.specs.Scripts.{answers_to, AnswersBy, IsLineAnswer};
ghost use Rattle.conversation.specs.Pieces.{HasNoEnd, kept_with, AnswersFurther, Reached, PieceAnswered, Finished};
ghost use Rattle.conversation.specs.Conversations.{Leaves, EndsWithFault, WrotePrefix};
ghost use Rattle.conversation.specs.Amounts.{MayEndBy, nothing};

use crate::answers::Answers;
use crate::fault::StreamFault;
use crate::limits::KEPT_BYTES;
use crate::taken::Taken;
use crate::writing::write_whole;
use bstr::ByteSlice;
use std::alloc::{AllocError, Global};
use std::io::{Read, Write};

/// The most bytes of a script that one read takes.
const PIECE_BYTES: usize = 4096;

/// The end of a line.
const LINE_END: u8 = b'\n';

/// How far a conversation has got: at most `KEPT_BYTES` bytes of the line that hasn't ended yet,
/// how many lines have ended, and the answers that aren't written yet.
#[derive(Drop)]
pub struct Conversation {
    line: Vec<u8>,
    lines: u32,
    out: Vec<u8>,
}

impl Conversation {
    /// A conversation before the first read.
    fn new(alloc: Global) -> Conversation
        ensures line { result.line.items ≡ [] }
        ensures lines { result.lines ≡ 0 }
        ensures out { result.out.items ≡ [] }
    {
        Conversation {
            line: Vec::new(alloc),
            lines: 0,
            out: Vec::new(alloc),
        }
    }

    /// Answers the lines that end in a piece of the script: adds the answers to `out`, and writes
    /// none of them. Of the line that hasn't ended yet, keeps at most the first `KEPT_BYTES` bytes.
    fn answer_each<A: Answers, F: Fn(&mut A, u32, &[u8], &mut Vec<u8>) -> Result<(), AllocError>>(
        &mut self,
        state: &mut A,
        answer: &F,
        piece: &[u8],
    ) -> Result<(), AllocError>
        requires few { self.old.lines + length piece.now < 2 ^ 32 }
        requires callable { F.IsAlwaysCallable answer.now }
        requires answers { AnswersBy A.alone A.define A.world (F.post answer.now) }
        ensures reported { A.alone state.old
            → OnOk result (AnswersFurther A.define (A.world state.old)
            self.old (A.world state.new) self.new piece.now) }
        ensures alone { A.alone state.old → OnOk result (A.alone state.new) }
        ensures lines { self.new.lines ≤ self.old.lines + length piece.now }
    {
        let mut rest = piece;
        'lines: while let Some((end, following)) = first_line(rest) {
            self.answer_line(end, state, answer)?;
            rest = following;
        }
        self.keep(rest)
    }

    /// Answers the line that ends with the bytes `end`, and adds the answer to `out`. If no byte of
    /// the line was kept before, the line isn't copied.
    fn answer_line<A: Answers, F: Fn(&mut A, u32, &[u8], &mut Vec<u8>) -> Result<(), AllocError>>(
        &mut self,
        end: &[u8],
        state: &mut A,
        answer: &F,
    ) -> Result<(), AllocError>
        requires few { self.old.lines + 1 < 2 ^ 32 }
        requires callable { F.IsAlwaysCallable answer.now }
        requires answers { AnswersBy A.alone A.define A.world (F.post answer.now) }
        ensures lines { self.new.lines ≤ self.old.lines + 1 }
        ensures counted { OnOk result (self.new.lines ≡ self.old.lines + 1) }
        ensures line { OnOk result (self.new.line.items ≡ []) }
        ensures answer { A.alone state.old
            → OnOk result (IsLineAnswer A.define (self.old.lines + 1)
            (kept_with self.old.line.items end.now) (A.world state.old) (A.world state.new)
            self.old.out.items self.new.out.items) }
        ensures alone { A.alone state.old → OnOk result (A.alone state.new) }
    {
        // By the slice, since no clause of `Vec::is_empty` is about the items.
        if self.line.as_slice().is_empty() {
            self.lines += 1;
            answer(state, self.lines, kept_front(end), &mut self.out)?;
            return Ok(());
        }
        self.keep(end)?;
        self.answer_kept(state, answer)
    }

    /// Answers the kept line, which has ended, and adds the answer to `out`.
    fn answer_kept<A: Answers, F: Fn(&mut A, u32, &[u8], &mut Vec<u8>) -> Result<(), AllocError>>(
        &mut self,
        state: &mut A,
        answer: &F,
    ) -> Result<(), AllocError>
        requires callable { F.IsAlwaysCallable answer.now }
        requires answers { AnswersBy A.alone A.define A.world (F.post answer.now) }
        requires few { self.old.lines + 1 < 2 ^ 32 }
        ensures lines { self.new.lines ≡ self.old.lines + 1 }
        ensures line { OnOk result (self.new.line.items ≡ []) }
        ensures answer { A.alone state.old
            → OnOk result (IsLineAnswer A.define (self.old.lines + 1)
            self.old.line.items (A.world state.old) (A.world state.new)
            self.old.out.items self.new.out.items) }
        ensures alone { A.alone state.old → OnOk result (A.alone state.new) }
    {
        self.lines += 1;
        answer(state, self.lines, &self.line, &mut self.out)?;
        self.line.clear();
        Ok(())
    }

    /// Keeps more bytes of the line, up to `KEPT_BYTES` in all.
    fn keep(&mut self, bytes: &[u8]) -> Result<(), AllocError>
        ensures out { self.new.out ≡ self.old.out }
        ensures lines { self.new.lines ≡ self.old.lines }
        ensures line { OnOk result (self.new.line.items ≡ kept_with self.old.line.items bytes.now) }
    {
        let room = KEPT_BYTES.saturating_sub(self.line.len());
        let most = bytes.len().min(room);
        self.line.extend_from_slice(&bytes[..most])
    }

    /// Writes the answers, in one write if the writer takes them all; if there are none, writes
    /// nothing. After an error, a prefix of the answers was written.
    fn send<W: Write>(&mut self, writer: &mut W) -> Result<(), StreamFault>
        ensures line { self.new.line ≡ self.old.line }
        ensures lines { self.new.lines ≡ self.old.lines }
        ensures sent { OnOk result
            (Appends (W.contents writer.old) (W.contents writer.new) self.old.out.items) }
        ensures out { OnOk result (self.new.out.items ≡ []) }
        ensures front { OnErr result
            (WrotePrefix (W.contents writer.old) (W.contents writer.new) self.old.out.items) }
        ensures fault { IfErr result (λ e. e ≡ StreamFault.Write) }
    {
        if self.out.is_empty() {
            return Ok(());
        }
        write_whole(writer, &self.out)?;
        let Ok(()) = writer.flush() else {
            return Err(StreamFault::Write);
        };
        self.out.clear();
        Ok(())
    }

    /// Answers the lines that end in a piece of the script, and writes the answers.
    fn answer_piece<
        A: Answers,
        F: Fn(&mut A, u32, &[u8], &mut Vec<u8>) -> Result<(), AllocError>,
        W: Write,
    >(&mut self, state: &mut A, answer: &F, piece: &[u8], writer: &mut W) -> Result<(), StreamFault>
        requires few { self.old.lines + length piece.now < 2 ^ 32 }
        requires sent { self.old.out.items ≡ [] }
        requires callable { F.IsAlwaysCallable answer.now }
        requires answers { AnswersBy A.alone A.define A.world (F.post answer.now) }
        ensures out { OnOk result (self.new.out.items ≡ []) }
        ensures lines { self.new.lines ≤ self.old.lines + length piece.now }
        ensures alone { A.alone state.old → OnOk result (A.alone state.new) }
        ensures fault { IfErr result
            (λ e. (e ≡ StreamFault.Memory) ⊎ (e ≡ StreamFault.Write)) }
        ensures answered { A.alone state.old
            → (start : A.Worlds) (before : Streams) (unread next : Option (List ℕ)) (count : ℕ)
            → Consumes unread next piece.now → count + length piece.now ≤ MOST_SCRIPT_BYTES
            → Reached A.define start before (streams unread (W.contents writer.old))
            count (A.world state.old) self.old.lines self.old.line.items
            → PieceAnswered A.define start before (streams next (W.contents writer.new))
            (count + length piece.now) (A.world state.new) self.new.lines self.new.line.items
            result }
    {
        let Ok(()) = self.answer_each(state, answer, piece) else {
            return Err(StreamFault::Memory);
        };
        let Ok(()) = self.send(writer) else {
            return Err(StreamFault::Write);
        };
        Ok(())
    }

    /// Answers the last line, which has no line end, and writes the answer. The last line is empty
    /// if the script ends with a line end.
    fn finish<
        A: Answers,
        F: Fn(&mut A, u32, &[u8], &mut Vec<u8>) -> Result<(), AllocError>,
        W: Write,
    >(&mut self, state: &mut A, answer: &F, writer: &mut W) -> Result<(), StreamFault>
        requires few { self.old.lines + 1 < 2 ^ 32 }
        requires sent { self.old.out.items ≡ [] }
        requires callable { F.IsAlwaysCallable answer.now }
        requires answers { AnswersBy A.alone A.define A.world (F.post answer.now) }
        ensures alone { A.alone state.old → OnOk result (A.alone state.new) }
        ensures fault { IfErr result
            (λ e. (e ≡ StreamFault.Memory) ⊎ (e ≡ StreamFault.Write)) }
        ensures ended { A.alone state.old
            → (start : A.Worlds) (before : Streams) (unread : Option (List ℕ)) (count : ℕ)
            → count < MOST_SCRIPT_BYTES → IsAtEnd unread
            → Reached A.define start before (streams unread (W.contents writer.old)) count
            (A.world state.old) self.old.lines self.old.line.items
            → Finished A.define start before (streams unread (W.contents writer.new))
            (A.world state.new) result }
    {
        let Ok(()) = self.answer_kept(state, answer) else {
            return Err(StreamFault::Memory);
        };
        let Ok(()) = self.send(writer) else {
            return Err(StreamFault::Write);
        };
        Ok(())
    }
}

/// The part of a line that is kept: at most its first `KEPT_BYTES` bytes.
fn kept_front(line: &[u8]) -> &[u8]
    ensures { result.now ≡ take KEPT_BYTES line.now }
{
    &line[..KEPT_BYTES.min(line.len())]
}

/// The bytes before the first line end of `text`, and the bytes after that end; `None` if `text`
/// has no line end.
fn first_line(text: &[u8]) -> Option<(&[u8], &[u8])>
    ensures { MatchOption result (HasNoEnd text.now) (λ r. HasNoEnd r.0.now
        × (text.now ≡ r.0.now ++ LINE_END ∷ r.1.now)) }
{
    let end = text.find_byte(LINE_END)?;
    let (line, following) = text.split_at(end);
    Some((line, &following[1..]))
}

/// Answers a script: reads it in pieces from `reader`, calls `answer` with `state` for each line,
/// and writes the answers to `writer`. The answers to the lines that end in one read are written
/// before the next read. While nobody else changes what lines see, each call of `answer` that
/// returns Ok has to answer its line as `A::define` says. `taken` has to say that nothing was read
/// yet, and counts what is read.
///
/// If nobody else changes what lines see, then on success the whole script was read, the answers to
/// all its lines were written, the world is the one that these lines leave, and still nobody else
/// changes what lines see.
///
/// # Errors
///
/// Read or Write if a stream fails; TooLong only if `MOST_SCRIPT_BYTES` bytes were read, or
/// `MOST_READS` reads were made, without an end; Memory if memory runs out. If nobody else changes
/// what lines see, only a prefix of the answers was then written.
pub fn converse<
    A: Answers,
    F: Fn(&mut A, u32, &[u8], &mut Vec<u8>) -> Result<(), AllocError>,
    R: Read,
    W: Write,
>(
    alloc: Global,
    state: &mut A,
    answer: &F,
    reader: &mut R,
    taken: &mut Taken,
    writer: &mut W,
) -> Result<(), StreamFault>
    requires callable { F.IsAlwaysCallable answer.now }
    requires answers { AnswersBy A.alone A.define A.world (F.post answer.now) }
    requires unread { taken.old ≡ nothing }
    ensures done { A.alone state.old → OnOk result (Leaves A.define
        (A.world state.old) (A.world state.new)
        (streams (R.remaining reader.old) (W.contents writer.old))
        (streams (R.remaining reader.new) (W.contents writer.new))) }
    ensures alone { A.alone state.old → OnOk result (A.alone state.new) }
    ensures fault { A.alone state.old → IfErr result (λ e. EndsWithFault
        (answers_to A.define (A.world state.old)) e
        (streams (R.remaining reader.old) (W.contents writer.old))
        (streams (R.remaining reader.new) (W.contents writer.new))) }
    ensures limits { IfErr result (λ e. MayEndBy e taken.new) }
{
    let mut conversation = Conversation::new(alloc);
    let mut buffer = [0; PIECE_BYTES];
    'reads: while taken.may_go_on() {
        let most = PIECE_BYTES.min(taken.room() as usize);
        let Ok(piece) = taken.read_piece(reader, &mut buffer, most) else {
            return Err(StreamFault::Read);
        };
        let Some(count) = piece else {
            return conversation.finish(state, answer, writer);
        };
        conversation.answer_piece(state, answer, &buffer[..count], writer)?;
    }
    Err(StreamFault::TooLong)
}
