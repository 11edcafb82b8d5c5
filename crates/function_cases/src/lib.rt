//! The cases that no line of a file can say: functions that are compared with others, sessions, buffers that are written in every
//! order, identifiers, and folders of files.
//!
//! It is for tests alone. Its functions return on every input, and their contracts say no more than that.
#![tactic(auto)]

mod batches;
mod copies;
mod errors;
mod folders;
mod formats;
pub mod functions;
mod identifiers;
mod laws;
mod orders;
mod sessions;
mod sorted;
mod torn;
