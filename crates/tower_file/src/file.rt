//! The contents of a tower file.

ghost use Rattle.tower_file.specs.Files.{IsLawfulFile, file_of};

use crate::tower::TowerSpec;
use crate::version::{Version, may_have_all};
use branch_terms::limb::Steps;
use frames::types::Step;

/// What a tower file says: a version of the file format, a lawful tower, and a schedule. The
/// version can express each step of the schedule, and each step fits the tower.
#[derive(Debug, Drop)]
pub struct TowerFile {
    /// The version.
    pub version: Version,
    /// The tower.
    pub tower: TowerSpec,
    /// The schedule.
    pub steps: Steps,
    pub ghost lawful: { IsLawfulFile (file_of version tower steps) },
}

impl TowerFile {
    ghost use Rattle.std.specs.Prelude.{◌≡◌};
    ghost use Rattle.std.specs.Option.{option_map};
    ghost use Rattle.tower_file.specs.Files.{IsLawfulFile, checked_file, file_of};
    ghost use Rattle.tower_file.specs.Parsed.{as_file};

    /// Returns the file with this version, tower and steps. Returns `None` if the tower isn't
    /// lawful, or if some step doesn't fit the tower or can't be expressed in this version, such as
    /// a stop in version 1.
    pub fn new(version: Version, tower: TowerSpec, steps: Vec<Step>) -> Option<TowerFile>
        ensures { option_map as_file result ≡ checked_file version tower steps.items }
    {
        if tower.is_lawful() && may_have_all(version, &tower, &steps) {
            Some(TowerFile::of_lawful(version, tower, steps))
        } else {
            None
        }
    }

    /// The file with this version, tower and steps. The tower must be lawful. Each step must fit
    /// the tower, and be one that this version can express.
    pub(crate) fn of_lawful(version: Version, tower: TowerSpec, steps: Vec<Step>) -> TowerFile
        requires lawful { IsLawfulFile (file_of version tower steps.items) }
        ensures { as_file result ≡ file_of version tower steps.items }
    {
        TowerFile {
            version,
            tower,
            steps: Steps::new(steps),
        }
    }
}
