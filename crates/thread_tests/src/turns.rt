//! Tests of chairs at a turn: two in one thread, two in two threads, and one that asks how many
//! calls were made while the other holds the turn.

ghost use Rattle.std.specs.Prelude.{◌≡◌, ◌<◌, IfOk};
ghost use Rattle.turn.specs.Shares.{every_share};
ghost use Rattle.turn.specs.Chairs.{IsOf, view};

use crate::flags::Flags;
use std::alloc::{AllocError, Global};
use std::process::Abort;
use std::sync::Wait;
use std::test::Fail;
use std::thread;
use std::thread::Threads;
use turn::{Chair, ChairsOut, Counted, Turn, Work};

/// A number that was written down, and the number of the chair that wrote it.
#[derive(Clone, Copy, Debug, PartialEq, Eq)]
struct Note {
    chair: u32,
    value: u32,
}

/// What chairs wrote down, in the order they wrote it.
#[derive(Drop)]
struct Notes {
    all: Vec<Note>,
}

impl Counted for Notes {
    type Entry = Note;

    ghost entries = { λ notes. notes.all.items };

    ghost by = { λ note. note.chair };

    fn len(&self) -> u64 {
        self.all.len() as u64
    }
}

/// Writes a number down.
#[derive(Drop)]
struct Write {
    value: u32,
}

impl Work<Notes> for Write {
    ghost use Rattle.std.specs.Prelude.{⊤};

    type Out = Result<(), AllocError>;

    ghost relation = { λ _ _ _ _ _. ⊤ };

    fn work(&mut self, notes: &mut Notes, number: u32) -> Result<(), AllocError> {
        let note = Note {
            chair: number,
            value: self.value,
        };
        notes.all.push(note)?;
        Ok(())
    }
}

/// Writes nothing down, and holds the turn until another thread signals the holder to go on.
#[derive(Drop)]
struct Pause<'a> {
    flags: &'a Flags,
}

impl Work<Notes> for Pause<'_> {
    ghost use Rattle.std.specs.Prelude.{◌≡◌};

    type Out = ();

    ghost relation = { λ _ before after _ _. after ≡ before };

    fn work(&mut self, _notes: &mut Notes, _number: u32) {
        self.flags.hold();
    }
}

/// A turn without notes, and its first chair.
fn empty_turn(alloc: Global) -> Result<(Turn<Notes>, Chair<Notes>), AllocError>
    ensures { IfOk result (λ r. IsOf r.0 r.1 × ((view r.1).shares ≡ every_share)) }
{
    Turn::new(
        alloc,
        Notes {
            all: Vec::new(alloc),
        },
    )
}

/// Splits `shares` shares off a chair that has every share. Returns both chairs.
fn parted(turn: &Turn<Notes>, mut chair: Chair<Notes>, shares: u32) -> (Chair<Notes>, Chair<Notes>)
    requires chair { IsOf turn.now chair }
    requires every { (view chair).shares ≡ every_share }
    requires shares { (0 < shares) × (shares < 16) }
    ensures { IsOf turn.now result.0 × IsOf turn.now result.1 }
{
    let other = turn.split(&mut chair, shares);
    (chair, other)
}

/// Writes a number down, and returns whether there was memory for it.
fn write_down<R: Wait>(rt: &R, turn: &Turn<Notes>, chair: &mut Chair<Notes>, value: u32) -> bool
    requires { IsOf turn.now chair.old }
    ensures { IsOf turn.now chair.new }
{
    turn.with(rt, chair, &mut Write { value }).is_ok()
}

/// Asks for news. Unlike that of `Turn::news`, this contract promises nothing about the answer.
fn asked(turn: &Turn<Notes>, chair: &mut Chair<Notes>) -> u64
    requires { IsOf turn.now chair.old }
    ensures { IsOf turn.now chair.new }
{
    turn.news(chair)
}

/// Joins two chairs, and closes the turn. Returns the notes; `None` if the chairs together lack a
/// share.
fn closed(turn: Turn<Notes>, mut first: Chair<Notes>, second: Chair<Notes>) -> Option<Notes>
    requires { IsOf turn first × IsOf turn second }
{
    turn.join(&mut first, second);
    let all = first.shares() == 16;
    let notes = turn.close(first).ok();
    if all { notes } else { None }
}

/// Writes down 0 to `count` - 1. Returns the chair, and whether there was memory for all.
fn write_all<R: Wait>(
    rt: &R,
    turn: &Turn<Notes>,
    mut chair: Chair<Notes>,
    count: u32,
) -> (Chair<Notes>, bool)
    requires { IsOf turn.now chair }
    ensures { IsOf turn.now result.0 }
{
    let mut all = true;
    for value in 0..count {
        all &= write_down(rt, turn, &mut chair, value);
    }
    (chair, all)
}

/// Whether a chair wrote down 0 to `count` - 1, in order.
fn has_counted(notes: &Notes, chair: u32, count: u32) -> bool {
    let mut next = 0;
    for note in &notes.all {
        if note.chair == chair {
            if next >= count || note.value != next {
                return false;
            }
            next += 1;
        }
    }
    next == count
}

/// The second chair asks for news, each chair writes a number down, and the first asks for news.
fn write_in_turn<R: Abort + Wait>(
    rt: &R,
    turn: &Turn<Notes>,
    first: &mut Chair<Notes>,
    second: &mut Chair<Notes>,
)
    requires { IsOf turn.now first.old × IsOf turn.now second.old }
    ensures { IsOf turn.now first.new × IsOf turn.now second.new }
{
    assert_eq!(rt; asked(turn, second), 0);
    assert!(rt; write_down(rt, turn, first, 7) && write_down(rt, turn, second, 9));
    assert_eq!(rt; asked(turn, first), 2);
}

/// The notes of a new turn after `write_in_turn`.
fn written_in_turn<R: Abort + Wait>(rt: &R, alloc: Global) -> Result<Option<Notes>, AllocError> {
    let (turn, first) = empty_turn(alloc)?;
    assert_eq!(rt; first.shares(), 16);
    let (mut first, mut second) = parted(&turn, first, 8);
    assert!(rt; first.shares() == 8 && second.shares() == 8);
    write_in_turn(rt, &turn, &mut first, &mut second);
    Ok(closed(turn, first, second))
}

/// Whether these are the notes of `write_in_turn`.
fn are_in_turn(notes: &Notes) -> bool {
    let expected = [Note { chair: 0, value: 7 }, Note { chair: 1, value: 9 }];
    notes.all.as_slice() == expected.as_slice()
}

#[test]
fn two_chairs(rt: HostRuntime) -> Result<(), Fail> {
    let Some(notes) = written_in_turn(&rt, rt.alloc())? else {
        panic!(rt; "a share is missing")
    };
    assert!(rt; are_in_turn(&notes));
    Ok(())
}

/// Closes a turn by two chairs. Before that, a close by only one of them is refused. Returns this
/// refusal; `None` if something went wrong.
fn refused_and_closed(
    turn: Turn<Notes>,
    first: Chair<Notes>,
    second: Chair<Notes>,
) -> Option<ChairsOut>
    requires { IsOf turn first × IsOf turn second }
{
    let Err((refusal, turn, first)) = turn.close(first) else {
        return None;
    };
    let notes = closed(turn, first, second);
    if notes.is_some() { Some(refusal) } else { None }
}

#[test]
fn chairs_out(rt: HostRuntime) -> Result<(), Fail> {
    let (turn, first) = empty_turn(rt.alloc())?;
    let (first, second) = parted(&turn, first, 1);
    let Some(refusal) = refused_and_closed(turn, first, second) else {
        panic!(rt; "a close went wrong")
    };
    assert!(rt; refusal == ChairsOut && refusal.number() == 50);
    let text = format!(in rt.alloc(); "{refusal}")?;
    assert_eq!(rt; text.as_str(), "50 ChairsOut");
    Ok(())
}

/// Two threads write down 0 to `count` - 1 each; then the chairs join and the turn is closed.
/// Returns the notes; `None` if something went wrong.
fn written_by_two<R: Threads + Wait + Sync>(
    rt: &R,
    turn: Turn<Notes>,
    first: Chair<Notes>,
    second: Chair<Notes>,
    count: u32,
) -> Option<Notes>
    requires { IsOf turn first × IsOf turn second }
{
    let shared = &turn;
    let ((first, one), (second, other)) = thread::join(
        rt,
        move || -> (Chair<Notes>, bool)
            requires { IsOf shared.now first }
            ensures { IsOf shared.entry.now result.0 }
        { write_all(rt, shared, first, count) },
        move || -> (Chair<Notes>, bool)
            requires { IsOf shared.now second }
            ensures { IsOf shared.entry.now result.0 }
        { write_all(rt, shared, second, count) },
    );
    let notes = closed(turn, first, second);
    if one && other { notes } else { None }
}

/// What two threads wrote down under a new turn; `None` if a share was missing, or memory ran out.
fn notes_of_two_threads<R: Threads + Wait + Sync>(
    rt: &R,
    alloc: Global,
    count: u32,
) -> Result<Option<Notes>, AllocError> {
    let (turn, first) = empty_turn(alloc)?;
    let (first, second) = parted(&turn, first, 8);
    Ok(written_by_two(rt, turn, first, second, count))
}

#[test]
fn two_threads(rt: HostRuntime) -> Result<(), Fail> {
    for _ in 0..50 {
        let Some(notes) = notes_of_two_threads(&rt, rt.alloc(), 100)? else {
            panic!(rt; "a share is missing")
        };
        assert_eq!(rt; notes.all.len(), 200);
        assert!(rt; has_counted(&notes, 0, 100) && has_counted(&notes, 1, 100));
    }
    Ok(())
}

/// Holds the turn until another thread signals the holder to go on.
fn hold_turn<R: Wait>(rt: &R, turn: &Turn<Notes>, mut chair: Chair<Notes>, flags: &Flags)
    requires { IsOf turn.now chair }
{
    turn.with(rt, &mut chair, &mut Pause { flags });
}

/// Asks for news once the turn is held, and then signals. Returns whether the turn was held, and
/// the news.
fn ask_then_signal(turn: &Turn<Notes>, mut chair: Chair<Notes>, flags: &Flags) -> (bool, u64)
    requires { IsOf turn.now chair }
{
    let held = flags.wait_until_held();
    let news = turn.news(&mut chair);
    flags.release();
    (held, news)
}

/// One thread holds the turn while another asks for news. Returns whether the turn was held, and
/// the news.
fn ask_while_held<R: Threads + Wait + Sync>(
    rt: &R,
    turn: &Turn<Notes>,
    first: Chair<Notes>,
    second: Chair<Notes>,
    flags: &Flags,
) -> (bool, u64)
    requires { IsOf turn.now first × IsOf turn.now second }
{
    let (_, answer) = thread::join(
        rt,
        move ||
            requires { IsOf turn.now first }
        { hold_turn(rt, turn, first, flags) },
        move || -> (bool, u64)
            requires { IsOf turn.now second }
        { ask_then_signal(turn, second, flags) },
    );
    answer
}

#[test]
fn news_while_held(rt: HostRuntime) -> Result<(), Fail> {
    let flags = Flags::new();
    let (turn, first) = empty_turn(rt.alloc())?;
    let (mut first, second) = parted(&turn, first, 8);
    assert!(rt; write_down(&rt, &turn, &mut first, 3));
    let (held, news) = ask_while_held(&rt, &turn, first, second, &flags);
    assert!(rt; held && flags.were_released());
    assert_eq!(rt; news, 1);
    Ok(())
}
