//! The cases of `sled_codec` and `sled_store`: the lines of a file, and what the library answers to each
//! (`slog_bench/data/README.md`).
//!
//! It is for tests alone. Its functions return on every input, and their contracts say no more than that.
#![tactic(auto)]

pub mod accountant;
pub mod codecs;
pub mod segment_headers;
pub mod words;
