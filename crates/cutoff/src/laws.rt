//! The law of early cutoff, which follows from the definition of settling (`Settles`).

ghost use Rattle.cutoff.specs.EarlyCutoff.{StopsEarly};

use crate::chart::Chart;
use frames::register::Register;

/// Early cutoff. Suppose that stored runs fitted some consecutive segments, of which the first
/// began at a configuration c; that an edit then left the cells and runs of these segments
/// unchanged; and that a settle after the edit reaches c right above them. Then the settle replays
/// none of these segments.
pub fn early_cutoff<R: Register>(chart: &Chart<R>)
    ensures { StopsEarly R.PartialEq.eq (R.behaviour chart.now.start.register) }
{}
