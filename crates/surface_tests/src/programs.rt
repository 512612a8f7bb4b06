//! What the program does: files, a script that is served, and whole runs.

mod files;
mod runs;
mod serving;
