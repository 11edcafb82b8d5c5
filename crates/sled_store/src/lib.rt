//! What the segment log stands on: the device that it is kept on, the sizes that it is kept in, and what a snapshot
//! says of it.
//!
//! What a device does, and what a crash may leave of it, is defined in `specs/Device.antt` and told in
//! `docs/DEVICE.md`.
#![tactic(auto)]

pub mod blob_io;
pub mod config;
pub mod device;
pub mod header;
pub mod laws;
pub mod segment;
pub mod snapshot_file;

pub use config::{Config, RunningConfig};
pub use device::Device;
pub use device::choice::{Choice, Offer};
pub use device::crash_device::CrashDevice;
pub use device::memory::MemDevice;
