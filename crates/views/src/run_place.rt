//! Places in runs. These places are the keys of a lens, which is a cache of configurations.

ghost use Rattle.std.specs.Prelude.{◌≡◌, ◌++◌, IfOk};
ghost use Rattle.std.specs.Arc.{arc_value};
ghost use Rattle.std.specs.Hash as fed;
ghost use Rattle.views.specs.Digests.{digest};
ghost use Rattle.views.specs.HashedSteps.{hashed_steps};

use crate::digest::digest;
use checkpoints::run::Run;
use frames::register::Register;
use frames::types::Step;
use slices::{following, front};
use std::alloc::AllocError;
use std::hash::{Hash, Hasher};
use std::marker::Model;
use std::sync::Arc;

/// The most steps that are hashed for a place: the last steps before it. To hash more would slow
/// each look down. Different places may have equal hashes; `eq` tells such places apart.
const HASHED_STEPS: usize = 4;

/// The place after the first `count` steps of a run. Two places are equal if their counts are
/// equal, and their runs have the same steps and begin from equal configurations.
#[derive(Drop)]
pub(crate) struct RunPlace<R: Register> {
    run: Arc<Run<R>>,
    count: u32,
}

impl<R: Register> Model for RunPlace<R> {
    ghost use Rattle.std.specs.Arc.{arc_value};
    ghost use Rattle.cutoff.specs.Fitting.{RunPart};

    ghost Value = { RunPart R R.Pending };

    ghost view = { λ p. record { run = arc_value p.run; count = p.count } };
}

impl<R: Register> RunPlace<R> {
    /// The place after the first `count` steps of `run`.
    pub(crate) fn new(run: &Arc<Run<R>>, count: u32) -> Result<RunPlace<R>, AllocError>
        ensures { IfOk result (λ p. p ≡ record { run = arc_value run.now; count = count }) }
    {
        let run = Arc::try_clone(run)?;
        Ok(RunPlace { run, count })
    }

    /// The last steps before the place: at most `HASHED_STEPS` of them.
    fn hashed_steps(&self) -> &[Step]
        ensures { result.now ≡ hashed_steps self.now }
    {
        let made = front(self.run.steps(), self.count as usize);
        following(made, made.len().saturating_sub(HASHED_STEPS))
    }
}

impl<R: Register> PartialEq for RunPlace<R> {
    ghost use Rattle.views.specs.laws.PlaceLaws.{same_place, same_place_per};

    ghost eq = { same_place R.PartialEq.eq R.Pending.PartialEq.eq };

    ghost laws = { same_place_per R.PartialEq.eq R.Pending.PartialEq.eq R.same_pending R.PartialEq.laws };

    fn eq(&self, other: &RunPlace<R>) -> bool {
        self.count == other.count
            && self.run.steps() == other.run.steps()
            && *self.run.entry() == *other.run.entry()
    }
}

impl<R: Register> Eq for RunPlace<R> {
    ghost use Rattle.views.specs.laws.PlaceLaws.{same_place_equivalence};

    ghost laws = { same_place_equivalence R.PartialEq.eq R.Pending.PartialEq.eq R.same_pending R.Eq.laws };
}

impl<R: Register> Hash for RunPlace<R> {
    ghost use Rattle.views.specs.laws.PlaceLaws.{places_hash_alike};

    ghost hash_input = { λ p. fed.u64 (digest (hashed_steps p)) ++ fed.u32 p.count };

    ghost respects_eq = { places_hash_alike R.PartialEq.eq R.Pending.PartialEq.eq R.same_pending };

    fn hash<H: Hasher>(&self, state: &mut H) {
        state.write_u64(digest(self.hashed_steps()));
        state.write_u32(self.count);
    }
}
