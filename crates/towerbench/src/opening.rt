//! What the desk that a script is answered at is opened with.

use command_line::Options;
use tower_file::BenchFile;

/// What is done with a seat after a script that ended well. After a fault the seat is always
/// dropped.
#[derive(Clone, Copy)]
pub(crate) enum Fate {
    /// The seat is dropped, because the process goes on and needs the memory of the desk.
    Dropped,
    /// The seat isn't dropped, because the process ends, and the system then takes back all of the
    /// desk's memory at once.
    Forgotten,
}

/// What a run of the program returns about the branches that its script left.
#[derive(Clone, Copy)]
pub(crate) enum Reporting {
    /// Nothing.
    Nothing,
    /// The bytes of the bench file that the branches are saved as.
    Branches,
}

/// What a run of the program begins with: a tower and its branches, the options, and what is done
/// with the seat after the script.
#[derive(Drop)]
pub(crate) struct Setup {
    pub bench: BenchFile,
    pub options: Options,
    pub fate: Fate,
}

/// What a desk is opened with: the register of a tower, that register's initial value, and a setup.
#[derive(Drop)]
pub(crate) struct Opening<R> {
    pub register: R,
    pub value: u32,
    pub setup: Setup,
}
