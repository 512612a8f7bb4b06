//! The versions of the tower file format: the header of each, and the steps that it can express.

ghost use Rattle.std.specs.Prelude.{◌≡◌};
ghost use Rattle.std.specs.List.{list_all};
ghost use Rattle.tower_file.specs.Versions as spec;

use crate::tower::TowerSpec;
use frames::types::Step;

/// A version of the tower file format.
#[derive(Clone, Copy, Debug, PartialEq, Eq)]
pub enum Version {
    /// Version 1, which can express writes, reads and bit actions.
    One,
    /// Version 2, which can also express stops.
    Two,
}

impl Version {
    /// The first line of each file of this version.
    pub(crate) fn header(self) -> &'static str
        ensures { result.now ≡ spec.header self }
    {
        match self {
            Version::One => "tower 1",
            Version::Two => "tower 2",
        }
    }

    /// Whether a file of this version can express the step: version 1 can express all steps except
    /// stops, and version 2 can express all steps.
    pub fn has(self, step: Step) -> bool
        ensures { result ≡ spec.has_step self step }
    {
        match step {
            Step::Write { .. } | Step::Read { .. } | Step::Go { .. } => true,
            Step::Stop { .. } => self == Version::Two,
        }
    }

    /// Whether a file of this version, with this tower, may have the step: the version can express
    /// it, and it fits the tower.
    pub(crate) fn may_have(self, tower: &TowerSpec, step: Step) -> bool
        ensures { result ≡ spec.may_have self tower.now step }
    {
        self.has(step) && tower.fits(step)
    }
}

/// Whether a file of this version, with this tower, may have these steps: the version can express
/// each of them, and each fits the tower.
pub(crate) fn may_have_all(version: Version, tower: &TowerSpec, steps: &[Step]) -> bool
    ensures { result ≡ list_all (spec.may_have version tower.now) steps.now }
{
    steps.iter().all(|step| version.may_have(tower, *step))
}
