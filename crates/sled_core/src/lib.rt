//! The log itself: places are reserved in the bytes of a segment, messages are completed there, the
//! bytes are written to the device, and messages are read again.
//!
//! What a log has to do with the history of what was completed is defined in `specs/Fits.antt`.
#![tactic(auto)]

pub mod iobuf;
pub mod iterator;
pub mod laws;
pub mod logger;
pub mod reservation;

pub use crate::logger::Log;
pub use crate::logger::read_at::{BasedBuf, ReadAt};
pub use crate::logger::read_message::{LogRead, read_message, read_record};
pub use crate::reservation::{Guard, Reservation};
