//! Identifiers that are never given twice, over any restarts and crashes: the smallest crate on top of the log.
//!
//! A generator gives numbers out that ascend. It takes them in blocks: the end of a block, its bound, is a message of the log that is
//! durable before the first identifier of the block is given out. After a restart, or a crash, it goes on from the greatest bound
//! that is found, so that what was left of a block is lost, and nothing comes again.
#![tactic(auto)]

pub mod generator;
pub mod laws;
mod reading;
pub mod run;

pub use crate::generator::IdGenerator;
