//! What replay shows at a place: the configuration that it reaches, and the events recorded so far.

ghost use Rattle.std.specs.Prelude.{◌≡◌, ◌≤◌, IfOk, length, map};
ghost use Rattle.frames.specs.Configuration.{replayed};
ghost use Rattle.frames.specs.Recorded.{AllFit, indexed};
ghost use Rattle.cutoff.specs.Fitting.{part_of};
ghost use Rattle.views.specs.Spots.{part_end, parts_events};

use checkpoints::run::Run;
use frames::config::Config;
use frames::register::Register;
use frames::types::{Event, Step};
use std::alloc::{AllocError, Global};
use std::sync::Arc;

/// The exit of `run`: the configuration after all steps of the run. The run must have at most
/// `count` steps, so the exit is also the configuration after the run's first `count` steps.
#[tactic(auto, using(std::proofs::lemmas::List::take_all))]
pub(crate) fn exit_at<R: Register>(run: &Run<R>, count: u32) -> &Config<R>
    requires { length run.now.steps ≤ count }
    ensures { result.now ≡ part_end R.behaviour (record { run = run.now; count = count }) }
{
    run.exit()
}

/// Replays `steps` from `config`, and sets `config` to the configuration after them. Each step must
/// fit the register.
pub(crate) fn make_steps<R: Register>(config: &mut Config<R>, steps: &[Step])
    requires { AllFit (R.behaviour config.old.register) steps.now }
    ensures { config.new ≡ replayed (R.behaviour config.old.register) config.old steps.now }
{
    for step in steps {
        // The events that the step records aren't needed here.
        config.step(*step);
    }
}

/// The events that the first steps of successive runs record. The number that comes with a run says
/// how many steps of the run are used, from its first one. Each event has the index of its step;
/// the steps used are numbered from 0, through all runs.
pub(crate) fn history_of<R: Register>(
    alloc: Global,
    runs: &[(Arc<Run<R>>, u32)],
) -> Result<Vec<(usize, Event)>, AllocError>
    ensures { IfOk result
        (λ all. all.items ≡ indexed 0 (parts_events R.behaviour (map part_of runs.now))) }
{
    let mut all = Vec::new(alloc);
    let mut index = 0;
    for (run, count) in runs {
        let walk = run.events().front(*count as usize);
        index = walk.push_indexed(index, &mut all)?;
    }
    Ok(all)
}
