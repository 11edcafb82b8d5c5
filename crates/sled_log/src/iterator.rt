//! The messages of a log file by place, each once, without a log that runs on it.
pub(crate) mod begin;

pub use crate::iterator::begin::raw_segment_iter_from;
pub use sled_core::iterator::LogIter;
