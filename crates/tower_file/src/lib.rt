//! Tower files: a register tower and a schedule of steps, as text. Bench files: a tower and the
//! limbs of a forest of branches, as text. A limb is one branch as a file stores it: its name, what
//! it shares with an earlier branch, and its own steps.
//!
//! A file is lines of bytes 0x20 to 0x7E, each ended by a line feed. A line is words separated by
//! exactly one space. A number is `0`, or a digit 1 to 9 followed by digits, at most 9 digits in
//! all. The first line is `tower 1` or `tower 2`, the file's version. The second is one of
//!
//! - `safe INIT`,
//! - `copies READERS INIT` and `regular READERS INIT`,
//! - `unary VALUES READERS INIT`,
//! - `stamped VALUES LAST`, with (LAST + 1) * VALUES at most 512,
//! - `matrix PROCESSES VALUES TAG STAMP`, with CODES = (STAMP + 1) * (TAG + 1) * PROCESSES * VALUES
//!   at most 512, and PROCESSES * PROCESSES * CODES at most 4,096.
//!
//! READERS is 1 to 4, VALUES is 2 to 512, and PROCESSES is 2 to 4. LAST, TAG and STAMP are each 0
//! to 511. INIT is less than VALUES, or less than 2 if the tower has no VALUES.
//!
//! Each further line is a step that fits the tower: `w P V` (process P invokes a write of V), `r P`
//! (P invokes a read), `g P C` (P makes a bit action, with choice C, 0 or 1), or, only in version
//! 2, `x P` (P stops). In a matrix each process writes and reads. In other towers process 0 writes,
//! and processes 1 to READERS read, or process 1 if the tower has no READERS. Each process makes
//! bit actions and can stop.
//!
//! [`parse`] reports the first fault in the order of [`FaultKind`]'s numbers, except that BadStep
//! (14) comes after BadSize (15). A version, a tower and a list of steps have one spelling
//! ([`laws::one_spelling`]).
//!
//! The first line of a bench file is `bench 1`, and the second is as above. One or more branches
//! follow. Each is a line `branch NAME P K` and then its own steps, as in version 2. Branches are
//! counted from 0. The branch NAME begins with the first K cells of branch P. NAME is 1 to 16
//! bytes, a lower-case letter and then lower-case letters or digits, and differs from all earlier
//! names. P and K may both be 0. Otherwise P is an earlier branch, and K is more than that branch's
//! own K and at most the number of that branch's cells. So if K isn't 0, P is the first branch that
//! has the last shared cell. Thus a forest has one spelling ([`laws::one_bench_spelling`]).
//!
//! [`parse_bench`] reports NotAscii (10) and the faults of the first two lines as [`parse`] does,
//! and then the fault of the first bad line from the third on. If the bad line's first word is
//! `branch`, the fault is BadBranch (16) if the line's form, end or name is wrong, and Tangled (17)
//! if only P and K are wrong. If the bad line's first word isn't `branch`, the fault is BadBranch
//! before the first branch's line, and BadStep (14) after that line. So a file that ends after two
//! lines has BadBranch on line 3.
#![tactic(auto)]

mod bench;
mod bench_reading;
mod bench_writing;
mod fault;
mod file;
pub mod laws;
mod limbs;
mod line;
mod reading;
mod tower;
mod version;
mod writing;

pub use bench::BenchFile;
pub use bench_reading::{is_bench, parse_bench};
pub use bench_writing::print_bench;
pub use fault::{FaultKind, FileFault};
pub use file::TowerFile;
pub use reading::parse;
pub use tower::TowerSpec;
pub use version::Version;
pub use writing::print;
