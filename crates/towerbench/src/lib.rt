//! A workbench for a tower of registers: it reads a script of edits and looks, and writes the
//! answers. The program passes its streams and the words of its command line to `tool`.
#![tactic(auto)]

mod answer;
mod bench_source;
mod ending;
mod fault;
pub mod laws;
mod opening;
mod program;
mod running;
mod saved_file;
mod saving;
mod seat;
mod serving;

pub use command_line::Options;
pub use conversation::source::{SourceFault, read_all};
pub use ending::Ending;
pub use fault::{Fault, ProgramFault};
pub use program::tool;
pub use running::run;
pub use saving::run_saving;
pub use serving::serve;
