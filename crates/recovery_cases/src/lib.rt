//! The cases of recovery, of what is foreign and of stable ends: the lines of a file, and what the library answers to each
//! (`slog_bench/data/README.md`).
//!
//! It is for tests alone. Its functions return on every input, and their contracts say no more than that.
#![tactic(auto)]

pub mod hostile;
pub mod intervals;
pub mod own;
pub mod recovery;
pub mod stops;
