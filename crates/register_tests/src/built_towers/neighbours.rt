//! Two unary numbers next to each other in one store: operations on one leave the other as it was.

ghost use Rattle.std.specs.Prelude.{◌≡◌, ◌⊎◌, [], true};
ghost use Rattle.safe_bit.specs.Parts.{LiesIn, part, origin};
ghost use Rattle.register_tests.specs.Neighbours.{IsPending, IsPendingUnlessEnded};

use frames::flat::FlatStack;
use frames::register::Register;
use frames::types::{Op, Outcome};
use safe_bit::{Cell, Place, Store};
use std::alloc::{AllocError, Global};
use std::marker::Model;
use std::process::Abort;
use std::test::Fail;
use towers::unary;

/// Two registers of one kind in one store, the second right after the first.
#[derive(Drop)]
struct Neighbours<R: Register> {
    register: R,
    store: Store,
}

impl<R: Register> Model for Neighbours<R> {
    ghost use Rattle.register_tests.specs.Neighbours.{Neighbours, AreNeighbours};

    ghost Value = { Neighbours R };

    ghost view = { λ n. record { register = n.register; memory = n.store } };

    ghost invariant = { λ n. AreNeighbours (R.behaviour n.register) (R.Holds n.register) n.store };
}

/// One of two neighbours.
#[derive(Clone, Copy, Debug, PartialEq, Eq)]
enum Side {
    First,
    Second,
}

impl<R: Register> Neighbours<R> {
    /// Two neighbours in a new store, both set to a value.
    fn new(
        rt: &impl Abort,
        alloc: Global,
        register: R,
        value: u32,
    ) -> Result<Neighbours<R>, AllocError> {
        assert!(rt; value < register.values());
        let size = register.size();
        let mut store = Store::new(alloc, 2 * size.cell, 2 * size.word)?;
        register.init(&mut store, Place::default(), value);
        register.init(&mut store, size, value);
        Ok(Neighbours { register, store })
    }

    /// The place of one neighbour.
    fn place(&self, side: Side) -> Place
        ensures inside { LiesIn result (R.behaviour self.now.register).size self.now.memory }
        ensures holds { R.Holds self.now.register (part result
            (R.behaviour self.now.register).size self.now.memory) }
        ensures side { (result ≡ origin) ⊎ (result ≡ (R.behaviour self.now.register).size) }
    {
        match side {
            Side::First => Place::default(),
            Side::Second => self.register.size(),
        }
    }

    /// A process invokes an operation on one neighbour, with an empty stack. Returns the outcome if
    /// the operation ends at once.
    fn begin(&mut self, side: Side, who: u32, op: Op, stack: &mut FlatStack) -> Option<Outcome>
        requires fits { (R.behaviour self.old.register).suits who op ≡ true }
        requires idle { stack.old ≡ [] }
        ensures register { self.new.register ≡ self.old.register }
        ensures pending { IsPendingUnlessEnded (R.behaviour self.old.register)
            (R.Reaches self.old.register) who stack.new result }
    {
        let at = self.place(side);
        self.register.begin_on(&mut self.store, at, who, op, stack)
    }

    /// A pending operation on one neighbour makes its next bit action. Returns the outcome if the
    /// operation ends.
    fn go(&mut self, side: Side, who: u32, stack: &mut FlatStack) -> Option<Outcome>
        requires { IsPending (R.behaviour self.old.register) (R.Reaches self.old.register) who
            stack.old }
        ensures register { self.new.register ≡ self.old.register }
        ensures pending { IsPendingUnlessEnded (R.behaviour self.old.register)
            (R.Reaches self.old.register) who stack.new result }
    {
        let at = self.place(side);
        let progress = self
            .register
            .go_on(&mut self.store, at, who, stack, 0, false);
        progress.end
    }

    /// The cells and the words of one neighbour.
    fn content(&self, alloc: Global, side: Side) -> Result<(Vec<Cell>, Vec<u32>), AllocError> {
        let at = self.place(side);
        let size = self.register.size();
        let mut cells = Vec::new(alloc);
        for i in 0..size.cell {
            cells.push(self.store.cell(at.cell + i))?;
        }
        let mut words = Vec::new(alloc);
        for i in 0..size.word {
            words.push(self.store.word(at.word + i))?;
        }
        Ok((cells, words))
    }

    /// Invokes an operation on one neighbour, and leaves it pending after its first bit action.
    fn leave_pending(&mut self, rt: &impl Abort, side: Side, who: u32, op: Op) {
        assert!(rt; self.register.fits(who, op));
        let mut stack = FlatStack::new();
        if self.begin(side, who, op, &mut stack).is_none() {
            self.go(side, who, &mut stack);
        }
    }

    /// Makes a whole operation on one neighbour. Returns the outcome; `None` if the operation takes
    /// more than 100 bit actions.
    fn run_whole(&mut self, rt: &impl Abort, side: Side, who: u32, op: Op) -> Option<Outcome> {
        assert!(rt; self.register.fits(who, op));
        let mut stack = FlatStack::new();
        let mut end = self.begin(side, who, op, &mut stack);
        for _ in 0..100 {
            if end.is_some() {
                return end;
            }
            end = self.go(side, who, &mut stack);
        }
        end
    }
}

/// Asserts that a neighbour has these cells and words.
fn assert_content<R: Register>(
    rt: &(impl Abort + AllocGlobal),
    both: &Neighbours<R>,
    side: Side,
    cells: &[Cell],
    words: &[u32],
) -> Result<(), AllocError> {
    let content = both.content(rt.alloc(), side)?;
    assert_eq!(rt; content.0.as_slice(), cells);
    assert_eq!(rt; content.1.as_slice(), words);
    Ok(())
}

/// Writes a value to one neighbour, and asserts that both readers read it.
fn write_and_read<R: Register>(rt: &impl Abort, both: &mut Neighbours<R>, side: Side, value: u32) {
    let written = both.run_whole(rt, side, 0, Op::Write(value));
    assert_eq!(rt; written, Some(Outcome::Written));
    for who in [1, 2] {
        let read = both.run_whole(rt, side, who, Op::Read);
        assert_eq!(rt; read, Some(Outcome::Value(value)));
    }
}

/// Writes to one neighbour and reads it. Asserts that the other stays as it is, in the middle of a
/// write of 0 to a unary number that was 2.
fn assert_other_left<R: Register>(
    rt: &(impl Abort + AllocGlobal),
    both: &mut Neighbours<R>,
    side: Side,
    other: Side,
) -> Result<(), AllocError> {
    let (cells, words) = both.content(rt.alloc(), other)?;
    assert_eq!(rt; (cells.len(), words.as_slice()), (6, [1, 0, 1].as_slice()));
    for value in [2, 0, 1, 1] {
        write_and_read(rt, both, side, value);
        assert_content(rt, both, other, &cells, &words)?;
    }
    Ok(())
}

/// Writes 2 to one neighbour, a unary number, and begins to write 0 to it.
fn begin_write<R: Register>(rt: &impl Abort, both: &mut Neighbours<R>, side: Side) {
    let written = both.run_whole(rt, side, 0, Op::Write(2));
    assert_eq!(rt; written, Some(Outcome::Written));
    both.leave_pending(rt, side, 0, Op::Write(0));
}

#[test]
fn work_on_one_leaves_the_other(rt: HostRuntime) -> Result<(), Fail> {
    for (side, other) in [(Side::First, Side::Second), (Side::Second, Side::First)] {
        let mut both = Neighbours::new(&rt, rt.alloc(), unary(3, 2), 1)?;
        begin_write(&rt, &mut both, other);
        assert_other_left(&rt, &mut both, side, other)?;
    }
    Ok(())
}
