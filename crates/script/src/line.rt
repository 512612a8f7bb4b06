//! Reading a line of a script. A function that reads words returns `None` or `Line::Bad` if they
//! don't spell what it reads.

ghost use Rattle.std.specs.Prelude.{◌≡◌};
ghost use Rattle.std.specs.List.{list_all};
ghost use Rattle.std.specs.Option.{option_map};
ghost use Rattle.words.specs.Steps.{step_of_words};
ghost use Rattle.script.specs.declared.call.Line.{Line};
ghost use Rattle.script.specs.declared.call.Request.TheVariants.{Fill, Look};
ghost use Rattle.script.specs.Lines as spec;
ghost use Rattle.script.specs.Spelling.{LineSays};

use crate::call::{Call, Line, Request};
use crate::look::{branch_and_place, look_of, only_branch, place_in};
use crate::verb::{CommandVerb, LookVerb, Verb, verb_of};
use frames::types::Step;
use schedule_trie::name::Name;
use sessions::command::Command;
use views::breakpoint::Break;
use words::number::{number, one_number, two_numbers};
use words::parts::Parts;
use words::step::{is_word, step_of};

/// The most bytes of a call.
const MOST_CALL_BYTES: usize = 255;

/// What a line says: nothing if it is empty or begins with `#`; otherwise the call that it spells;
/// or that it is bad, if it spells no call.
pub fn read_line(line: &[u8]) -> Line
    ensures read { result ≡ spec.read_line line.now }
    // The result is the only `Line` that the line says. `LineSays` is defined by the text that
    // spells each call, not by how a line is read.
    ensures says { LineSays line.now result }
    ensures only { (said : Line) → LineSays line.now said → result ≡ said }
{
    reading(line)
}

/// Reads a line, which is blank, bad, or the number of a session and then its request. `read_line`
/// only calls this, and draws its other clauses from the one here.
fn reading(line: &[u8]) -> Line
    ensures { result ≡ spec.read_line line.now }
{
    if matches!(line.first(), None | Some(b'#')) {
        return Line::Blank;
    }
    if line.len() > MOST_CALL_BYTES || !are_call_bytes(line) {
        return Line::Bad;
    }
    let words = &mut Parts::new(line, b' ');
    let Some(session) = number(words.next()) else {
        return Line::Bad;
    };
    let word = words.next();
    request_line(session, word, words)
}

/// Whether each byte is one of 0x20 to 0x7E.
fn are_call_bytes(line: &[u8]) -> bool
    ensures { result ≡ list_all spec.is_call_byte line.now }
{
    // Without an early exit, many bytes can be tested at once.
    let mut all = true;
    for byte in line {
        all &= 0x20 <= *byte && *byte <= 0x7e;
    }
    all
}

/// Reads a session's request that begins with this word.
fn request_line(session: u32, word: &[u8], words: &mut Parts<'_>) -> Line
    ensures { result ≡ spec.line_of session (spec.request_of session word.now words.old) }
{
    match verb_of(word) {
        None => guarded_line(session, word, words),
        Some(Verb::Look(verb)) => look_line(session, verb, words),
        Some(Verb::Fill) => fill_line(session, words),
        Some(Verb::Command(verb)) => act_line(session, None, verb, words),
    }
}

/// Reads the words of a look after its first word.
fn look_line(session: u32, verb: LookVerb, words: &mut Parts<'_>) -> Line
    ensures { result ≡ spec.line_of session
        (option_map Look (spec.look_of session verb words.old)) }
{
    let Some(query) = look_of(session, verb, words) else {
        return Line::Bad;
    };
    let request = Request::Look(query);
    Line::Call(Call { session, request })
}

/// Reads the words of a fill after its first word.
fn fill_line(session: u32, words: &mut Parts<'_>) -> Line
    ensures { result ≡ spec.line_of session (option_map Fill (spec.only_branch words.old)) }
{
    let Some(branch) = only_branch(words) else {
        return Line::Bad;
    };
    let request = Request::Fill(branch);
    Line::Call(Call { session, request })
}

/// Reads a command with a guard. `word`, the request's first word, has to be `@` and the guard.
fn guarded_line(session: u32, word: &[u8], words: &mut Parts<'_>) -> Line
    ensures { result ≡ spec.line_of session (spec.guarded word.now words.old) }
{
    let Some((b'@', guard)) = word.split_first() else {
        return Line::Bad;
    };
    let Some(edits) = number(guard) else {
        return Line::Bad;
    };
    match verb_of(words.next()) {
        Some(Verb::Command(verb)) => act_line(session, Some(u64::from(edits)), verb, words),
        _ => Line::Bad,
    }
}

/// Reads the words of a command after the command's first word; the guard is read already.
fn act_line(session: u32, if_at: Option<u64>, verb: CommandVerb, words: &mut Parts<'_>) -> Line
    ensures { result ≡ spec.line_of session (spec.act_of if_at verb words.old) }
{
    let Some(command) = command_of(verb, words) else {
        return Line::Bad;
    };
    let request = Request::Act { if_at, command };
    Line::Call(Call { session, request })
}

/// Reads the words of a command after its first word.
fn command_of(verb: CommandVerb, words: &mut Parts<'_>) -> Option<Command>
    ensures { result ≡ spec.command_of verb words.old }
{
    match verb {
        CommandVerb::Join => words.is_end().then_some(Command::Join),
        CommandVerb::Leave => words.is_end().then_some(Command::Leave),
        CommandVerb::Seek => words.is_end().then_some(Command::Seek),
        CommandVerb::Back => words.is_end().then_some(Command::Back),
        CommandVerb::Go => branch_and_place(words).map(|(b, k)| Command::Go { b, k }),
        CommandVerb::Break => break_of(words).map(Command::Break),
        CommandVerb::Clear => break_of(words).map(Command::Clear),
        CommandVerb::Insert => step_at(words).map(|(b, k, step)| Command::Insert { b, k, step }),
        CommandVerb::Remove => branch_and_place(words).map(|(b, k)| Command::Remove { b, k }),
        CommandVerb::Replace => step_at(words).map(|(b, k, step)| Command::Replace { b, k, step }),
        CommandVerb::Fork => {
            let (b, k) = place_in(words)?;
            only_branch(words).map(|name| Command::Fork { b, k, name })
        }
        CommandVerb::Detach => only_branch(words).map(|b| Command::Detach { b }),
        CommandVerb::Drop => only_branch(words).map(|b| Command::Drop { b }),
    }
}

/// Reads a break, after which the line has to end.
fn break_of(words: &mut Parts<'_>) -> Option<Break>
    ensures { result ≡ spec.break_of words.old }
{
    let word = words.next();
    if is_word(word, "returns") {
        let process = one_number(words)?;
        return Some(Break::Returns(process));
    }
    if is_word(word, "bit") {
        let (bit, value) = two_numbers(words)?;
        return Some(Break::Bit(bit, value));
    }
    if words.is_end() {
        one_word_break(word)
    } else {
        None
    }
}

/// The break that is spelled by this word alone.
fn one_word_break(word: &[u8]) -> Option<Break>
    ensures { result ≡ spec.one_word_break word.now }
{
    if is_word(word, "chosen") {
        Some(Break::Chosen)
    } else if is_word(word, "void") {
        Some(Break::Void)
    } else if is_word(word, "refused") {
        Some(Break::Refused)
    } else {
        None
    }
}

/// Reads a branch, a place and a step, after which the line has to end.
fn step_at(words: &mut Parts<'_>) -> Option<(Name, u32, Step)>
    ensures { result ≡ spec.place_and_rest step_of_words words.old }
{
    let (branch, place) = place_in(words)?;
    step_of(words).map(|step| (branch, place, step))
}
