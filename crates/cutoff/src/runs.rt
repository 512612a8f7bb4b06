//! Lists of the stored runs of a branch's first cells.

ghost use Rattle.std.specs.Prelude.{◌≡◌, IfOk, map};
ghost use Rattle.cutoff.specs.Fitting.{part_of, parts_of, run_at};

use crate::stored::Stored;
use checkpoints::run::Run;
use frames::register::Register;
use schedule_trie::trie::{SegKey, Trie};
use std::alloc::{AllocError, Global};
use std::marker::Model;
use std::sync::Arc;

/// The stored runs of a branch's first cells, in order, each with how many of its steps are steps
/// of these cells: all, unless it is the last run. Contracts see a list of values, and don't see
/// the vector's capacity.
#[derive(Drop)]
pub struct Runs<R: Register> {
    items: Vec<(Arc<Run<R>>, u32)>,
}

impl<R: Register> Model for Runs<R> {
    ghost use Rattle.std.specs.Prelude.{List, map};
    ghost use Rattle.cutoff.specs.Fitting.{RunPart, part_of};

    ghost Value = { List (RunPart R R.Pending) };

    ghost view = { λ r. map part_of r.items.items };
}

impl<R: Register> Runs<R> {
    /// The list of these runs, each with how many of its steps count, in this order. Never
    /// allocates.
    pub fn new(items: Vec<(Arc<Run<R>>, u32)>) -> Runs<R>
        ensures { result ≡ map part_of items.items }
    {
        Runs { items }
    }

    /// The runs, in order, each with how many of its steps count.
    pub fn as_slice(&self) -> &[(Arc<Run<R>>, u32)]
        ensures { map part_of result.now ≡ self.now }
    {
        &self.items
    }
}

/// The result of settling a branch's first cells: their stored runs, and how many steps were
/// replayed to make the new ones among them.
#[derive(Drop)]
pub struct Spot<R: Register> {
    pub runs: Runs<R>,
    pub replayed: u32,
}

/// The runs stored in those of the segments `keys` that have one of the first `place` of all their
/// cells, in order; each run comes with how many of its steps are steps of these `place` cells.
/// Stops at a segment with no stored run.
pub(crate) fn runs_in<R: Register>(
    alloc: Global,
    trie: &Trie<Stored<R>>,
    keys: &[SegKey],
    place: u32,
) -> Result<Runs<R>, AllocError>
    ensures { IfOk result (λ runs. runs ≡ parts_of place (map (run_at trie.now) keys.now)) }
{
    let mut runs = Vec::new(alloc);
    let mut rest = place;
    for key in keys {
        if rest == 0 {
            break;
        }
        let Some(stored) = trie.note(*key) else {
            break;
        };
        let run = Arc::try_clone(stored.run())?;
        let count = (rest as usize).min(run.steps().len()) as u32;
        rest -= count;
        runs.push((run, count))?;
    }
    let parts = Runs::new(runs);
    Ok(parts)
}
