//! A turn that guards a list, taken by two chairs in one thread.

ghost use Rattle.std.specs.Prelude.{◌≡◌, IfOk};
ghost use Rattle.turn.specs.Shares.{every_share};
ghost use Rattle.turn.specs.Chairs.{IsOf, view};

use std::alloc::{AllocError, Global};
use std::test::Fail;
use turn::{Chair, Counted, Turn, Work};

/// The numbers of the chairs that took the turn, in order.
#[derive(Drop)]
struct Signatures(Vec<u32>);

impl Counted for Signatures {
    type Entry = u32;

    ghost entries = { λ signatures. signatures.0.items };

    ghost by = { λ number. number };

    fn len(&self) -> u64 {
        self.0.len() as u64
    }
}

/// Adds the chair's number.
#[derive(Drop)]
struct Sign;

impl Work<Signatures> for Sign {
    ghost use Rattle.std.specs.Prelude.{⊤};

    type Out = Result<(), AllocError>;

    ghost relation = { λ _ _ _ _ _. ⊤ };

    fn work(&mut self, signatures: &mut Signatures, number: u32) -> Result<(), AllocError> {
        signatures.0.push(number)?;
        Ok(())
    }
}

/// A turn that guards an empty list, and its first chair.
fn empty(alloc: Global) -> Result<(Turn<Signatures>, Chair<Signatures>), AllocError>
    ensures { IfOk result (λ r. IsOf r.0 r.1 × ((view r.1).shares ≡ every_share)) }
{
    Turn::new(alloc, Signatures(Vec::new(alloc)))
}

#[test]
fn each_call_of_a_turn(rt: HostRuntime) -> Result<(), Fail> {
    let (turn, mut first) = empty(rt.alloc())?;
    let mut second = turn.split(&mut first, 4);
    turn.with(&rt, &mut first, &mut Sign)?;
    turn.with(&rt, &mut second, &mut Sign)?;
    assert_eq!(rt; turn.news(&mut first), 2);
    assert_eq!(rt; (first.shares(), second.shares()), (12, 4));
    let Err((out, turn, mut first)) = turn.close(first) else {
        panic!(rt; "12 shares closed the turn")
    };
    assert_eq!(rt; out.number(), 50);
    turn.join(&mut first, second);
    let Ok(signatures) = turn.close(first) else {
        panic!(rt; "a share is missing")
    };
    assert_eq!(rt; signatures.0.as_slice(), [0, 1].as_slice());
    Ok(())
}
