//! The turn: one value guarded by one lock.

ghost use Rattle.std.specs.Prelude.{◌≡◌};

use crate::counted::Counted;
use crate::rule::Rule;
use crate::view::View;
use atomic_table::Table;
use std::alloc::Global;
use std::snapshot::Snapshot;

/// The table (two atomic words and a slot) in which a turn keeps its lock, the list's length, and
/// its value. `Rule` is the table's invariant.
pub(crate) type TurnTable<T> = Table<
    Option<T>,
    View<<T as Counted>::Entry>,
    Snapshot<T>,
    Rule<T>,
    Global,
>;

/// One value guarded by one lock. Its callers share it by reference; each has a chair.
#[derive(Drop)]
pub struct Turn<T: Counted> {
    pub(crate) table: TurnTable<T>,
    ghost sized: { (table.shared.table_id.words ≡ 2) × (table.shared.table_id.slots ≡ 1) },
}

impl<T: Counted> Turn<T> {
    /// The turn's table.
    pub(crate) fn into_table(self) -> TurnTable<T>
        ensures { result ≡ self.table }
    {
        let Self { table } = self;
        table
    }
}
