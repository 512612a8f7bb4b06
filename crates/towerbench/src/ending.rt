//! How the program ends.

use crate::fault::ProgramFault;

/// How the program ends.
#[derive(Debug, Drop)]
pub enum Ending {
    /// The script has ended and its answers were written, or the help was written.
    Done,
    /// The words of the command line are refused, and this text gives the reason.
    Refused(String),
    /// The program had this fault.
    Faulted(ProgramFault),
}
