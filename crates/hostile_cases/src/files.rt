//! What a device has: its log file, its blobs and its snapshots, each with its bytes.

use case_lines::devices::log_of;
use case_lines::lines::{Fault, Outcome};
use case_lines::texts::Text;
use sled_log::device::{Device, MemDevice};
use std::alloc::Global;
use std::io;

/// A file of a device.
#[derive(Debug, Clone, Copy, PartialEq)]
pub(crate) enum File {
    Log,
    Blob(i64),
    Snapshot(i64),
}

/// The files of a device, the log first, then blobs and snapshots by number.
pub(crate) type Files = Vec<(File, Vec<u8>)>;

/// Returns the files that a device has. A device that is stopped or that is made to fail has none.
///
/// # Errors
///
/// Out of memory, or a device that fails.
pub(crate) fn files_of(alloc: Global, device: &mut MemDevice) -> Outcome<Files> {
    let mut files = Vec::new(alloc);
    files.push((File::Log, done(log_of(alloc, device))?))?;
    for place in &done(device.blobs())? {
        files.push((File::Blob(*place), done(device.blob_read(*place))?))?;
    }
    for number in &done(device.snapshots())? {
        files.push((
            File::Snapshot(*number),
            done(device.snapshot_read(*number))?,
        ))?;
    }
    Ok(files)
}

/// Returns a device with these files, but with those bytes in the one of this index. All of it is settled.
///
/// # Errors
///
/// Out of memory.
pub(crate) fn device_with(
    alloc: Global,
    files: &Files,
    index: usize,
    changed: &[u8],
) -> Outcome<MemDevice> {
    let mut device = MemDevice::new(alloc);
    for (number, (file, bytes)) in files.iter().enumerate() {
        let bytes = if number == index { changed } else { bytes };
        put(&mut device, *file, bytes)?;
    }
    done(device.sync())?;
    done(device.sync_names())?;
    Ok(device)
}

// Puts a file on a device that doesn't have it yet.
fn put(device: &mut MemDevice, file: File, bytes: &[u8]) -> Outcome<()> {
    match file {
        File::Log => done(device.write_at(0, bytes)),
        File::Blob(place) => {
            done(device.blob_create(place, bytes))?;
            done(device.blob_sync(place))
        }
        File::Snapshot(number) => {
            done(device.snapshot_write(bytes))?;
            done(device.snapshot_publish(number))
        }
    }
}

// What a call of a device answered that has no cause to fail but memory.
fn done<T>(answer: io::Result<T>) -> Outcome<T> {
    match answer {
        Ok(value) => Ok(value),
        Err(_) => Err(Fault("the device failed, or out of memory")),
    }
}

/// Adds which file it is.
pub(crate) fn push_file(text: &mut Text, file: File) {
    match file {
        File::Log => text.push("log"),
        File::Blob(place) => {
            text.push("blob ");
            text.signed(place);
        }
        File::Snapshot(number) => {
            text.push("snapshot ");
            text.signed(number);
        }
    }
}
