//! The formats of the segment log: what each value looks like as bytes, and back.
//!
//! The grammar stands in `specs/Spelling.antt`, in words in `docs/FORMATS.md`. Each codec is proved
//! against it both ways, so untrusted bytes end here.
#![tactic(auto)]

pub mod result;
pub mod serialization;
