//! The invariant of a turn's table, the shared memory that keeps the lock, the value and the list's
//! length, and what each kind of step on the table guarantees.

ghost use Rattle.std.specs.Prelude.{Bool, List};

use crate::counted::Counted;
use crate::view::View;
use atomic_table::{Join, Play, Seat, Shared, Split, TableRule};
use std::marker::{Brand, PhantomData};
use std::snapshot::Snapshot;

/// The invariant of a turn's table: there is one list, of which each chair has seen a prefix, and
/// which is the value's list while the turn is free.
pub struct Rule<T>(PhantomData<T>);

impl<T: Counted> TableRule<Option<T>, View<T::Entry>, Snapshot<T>> for Rule<T> {
    ghost use Rattle.turn.specs.Histories.{first_view};
    ghost use Rattle.turn.specs.Rule.{TurnInvariant};

    ghost holds = { λ _. TurnInvariant T.by T.entries };

    ghost first = { λ about. first_view (T.entries about.value) };
}

/// A turn's table as its chairs share it: two atomic words, and a slot for the value.
pub(crate) type Board<T> = Shared<Option<T>, View<<T as Counted>::Entry>, Snapshot<T>, Rule<T>>;

/// A chair's access to the turn's table: with it, the chair takes steps there. For contracts, it
/// has the chair's view, which is what the chair knows.
pub(crate) type Access<T> = Seat<Option<T>, View<<T as Counted>::Entry>>;

/// For contracts alone: the entries that one call of `publish` adds to the list. The call passes
/// the type `Brand`, and its proof chooses the entries.
pub(crate) trait Added<E> {
    ghost use Rattle.std.specs.Prelude.{List};

    ghost added: { List E };
}

impl<E> Added<E> for Brand {
    ghost use Rattle.std.specs.Prelude.{[]};

    ghost added = { [] };
}

/// For contracts alone: the shares that one call of `split` gives away. The call passes the type
/// `Brand`, and its proof chooses the shares.
pub(crate) trait Given {
    ghost use Rattle.std.specs.Prelude.{List, Bool};

    ghost given: { List Bool };
}

impl Given for Brand {
    ghost use Rattle.std.specs.Prelude.{[]};

    ghost given = { [] };
}

/// A step that takes the turn if it is free, and otherwise does nothing.
pub(crate) struct Grab<T>(PhantomData<T>);

impl<T: Counted> Play<Option<T>, View<T::Entry>> for Grab<T> {
    ghost use Rattle.turn.specs.Rule.{grab_reports};

    ghost then = { grab_reports T.by T.entries };
}

/// A step of the chair that has the turn: it writes the list's new length.
pub(crate) struct Publish<T, N>(PhantomData<(T, N)>);

impl<T: Counted, N: Added<T::Entry>> Play<Option<T>, View<T::Entry>> for Publish<T, N> {
    ghost use Rattle.turn.specs.Rule.{publish_reports};

    ghost then = { publish_reports T.by T.entries N.added };
}

/// A step of the chair that has the turn: it frees the turn.
pub(crate) struct Release<T>(PhantomData<T>);

impl<T: Counted> Play<Option<T>, View<T::Entry>> for Release<T> {
    ghost use Rattle.turn.specs.Rule.{release_reports};

    ghost then = { release_reports T.by T.entries };
}

/// A step that reads the list's length.
pub(crate) struct News<T>(PhantomData<T>);

impl<T: Counted> Play<Option<T>, View<T::Entry>> for News<T> {
    ghost use Rattle.turn.specs.Rule.{news_reports};

    ghost then = { news_reports T.by T.entries };
}

/// A step by which a new chair gets some of a chair's shares, and the calls made under them.
pub(crate) struct SplitOff<T, G>(PhantomData<(T, G)>);

impl<T: Counted, G: Given> Split<View<T::Entry>> for SplitOff<T, G> {
    ghost use Rattle.turn.specs.Histories.{kept, handed};

    ghost left = { kept T.by G.given };

    ghost right = { handed T.by G.given };
}

/// A step by which one chair takes over another chair's shares and calls.
pub(crate) struct JoinIn<T>(PhantomData<T>);

impl<T: Counted> Join<View<T::Entry>> for JoinIn<T> {
    ghost use Rattle.turn.specs.Histories.{joined, spent_view};

    ghost both = { joined };

    ghost spent = { spent_view };
}
