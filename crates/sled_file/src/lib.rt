//! A log's device over the files of a folder, the checksum of sled's own files, and one for new folders. A folder tells the
//! size of its segments and its checksum, and is opened with these alone.
//!
//! What is read is what was found at the opening and written since; each call that changes or syncs is the call
//! on the files that it means, and is noted. The trace of the device is read off these notes
//! (`specs/Calls.antt`). What has to be believed of the files stands in this crate's README.
#![tactic(auto)]

mod calls;
pub mod copy;
mod crc32;
pub mod device;
mod failure;
mod faults;
mod folder;
mod format;
mod host;
mod log_crc32;
mod mirror;
mod opening;
mod start;

pub use crc32::Crc32;
pub use device::FileDevice;
pub use failure::{Doing, Failure};
pub use folder::Folder;
pub use format::{FolderChecksum, Format, format_of};
pub use host::HostFolder;
pub use log_crc32::LogCrc32;
pub use opening::{OpenError, Progress, Untold, open, open_told, read};
pub use start::{Start, Unknown};
