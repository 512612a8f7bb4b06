//! The breaks of a session: what its seeks stop at.

ghost use Rattle.std.specs.Prelude.{◌≡◌, [], not, replicate, IfOk, OnOk, OnErr};
ghost use Rattle.sessions.specs.BreakLists as spec;

use crate::cursor::SESSIONS;
use std::alloc::{AllocError, Global};
use std::marker::Model;
use views::breakpoint::Break;

/// Breaks in the order in which they were set, without duplicates.
#[derive(Drop)]
pub(crate) struct Breaks {
    list: Vec<Break>,
}

impl Model for Breaks {
    ghost use Rattle.std.specs.Prelude.{List};
    ghost use Rattle.pages.specs.declared.breakpoint.Break.{Break};

    ghost Value = { List Break };

    ghost view = { λ b. b.list.items };
}

impl Breaks {
    /// An empty list of breaks.
    pub(crate) fn new(alloc: Global) -> Breaks
        ensures { result ≡ [] }
    {
        Breaks {
            list: Vec::new(alloc),
        }
    }

    /// The breaks, in the order in which they were set.
    pub(crate) fn as_slice(&self) -> &[Break]
        ensures { result.now ≡ self.now }
    {
        &self.list
    }

    /// Whether `sought` is one of these breaks.
    pub(crate) fn has(&self, sought: Break) -> bool
        ensures { result ≡ spec.has_break sought self.now }
    {
        self.list.iter().any(|other| is_same(sought, *other))
    }

    /// Adds a break at the end, unless it is already one of these. If memory runs out, nothing
    /// changes.
    pub(crate) fn add(&mut self, added: Break) -> Result<(), AllocError>
        ensures ok { OnOk result (self.new ≡ spec.with_break added self.old) }
        ensures err { OnErr result (self.new ≡ self.old) }
    {
        if !self.has(added) {
            self.list.push(added)?;
        }
        Ok(())
    }

    /// Removes a break, if it is one of these.
    pub(crate) fn remove(&mut self, gone: Break)
        ensures { self.new ≡ spec.without_break gone self.old }
    {
        self.list.retain(|other| differ(gone, *other));
    }
}

/// Sixteen empty lists of breaks, for sessions that haven't joined.
pub(crate) fn no_breaks(alloc: Global) -> Result<Vec<Breaks>, AllocError>
    ensures { IfOk result (λ breaks. breaks.items ≡ replicate 16 []) }
{
    let mut breaks = Vec::new(alloc);
    while breaks.len() < SESSIONS {
        breaks.push(Breaks::new(alloc))?;
    }
    Ok(breaks)
}

/// Whether two breaks are equal.
fn is_same(one: Break, other: Break) -> bool
    ensures { result ≡ spec.is_same one other }
{
    one == other
}

/// Whether two breaks differ.
fn differ(one: Break, other: Break) -> bool
    ensures { result ≡ not (spec.is_same one other) }
{
    !is_same(one, other)
}
