//! Slow, plain readings of the definitions that the libraries are proved by, for tests.
//!
//! A test compares with them what the libraries do, or asks them whether what it made up may be. No program needs them.
#![tactic(auto)]

pub mod foreign;
pub mod history;
pub mod intervals;
pub mod own;
pub mod record;
