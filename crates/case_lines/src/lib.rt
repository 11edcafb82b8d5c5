//! What the programs that compare cases read and write: the words of a line, texts, answers, calls of a device, and what
//! came of the cases of a file.
//!
//! It is for tests alone. Its functions return on every input, and their contracts say no more than that.
#![tactic(auto)]

pub mod answer;
pub mod devices;
pub mod lines;
pub mod noted;
pub mod tally;
pub mod texts;
