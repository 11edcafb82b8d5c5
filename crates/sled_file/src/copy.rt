//! A copy of what a folder holds, on a device in memory.
ghost use Rattle.std.specs.Prelude.{◌≡◌, ◌<◌, [], length, OnOk, IfOk};
ghost use Rattle.sled_store.specs.Device.{state_of};
ghost use Rattle.sled_file.specs.Copies.{HasSlots, IsOwnCopy, LogStays};

use sled_store::{Config, Device, MemDevice, Offer};
use std::alloc::Global;
use std::io;

/// Returns all that a device holds.
///
/// # Errors
///
/// What a call of the device fails with, and `OutOfMemory` where memory is refused.
pub fn contents_of<D: Device>(alloc: Global, device: &mut D) -> io::Result<Offer> {
    let len = device.len()?;
    let mut bytes = vec![in alloc; 0u8; len as usize]?;
    device.read_at(0, &mut bytes)?;
    let mut blobs = Vec::new(alloc);
    for place in device.blobs()? {
        blobs.push((place, device.blob_read(place)?))?;
    }
    let mut snapshots = Vec::new(alloc);
    for number in device.snapshots()? {
        snapshots.push((number, device.snapshot_read(number)?))?;
    }
    Ok(Offer {
        bytes,
        blobs,
        snapshots,
    })
}

/// Returns a device in memory with this content, all of it settled.
///
/// # Errors
///
/// As `fill`.
pub fn filled(alloc: Global, config: Config, content: &Offer) -> io::Result<MemDevice>
    ensures { IfOk result (λ device. IsOwnCopy config.segment_size content.now.bytes.items (state_of (⟦<MemDevice as Device>⟧.trace device))) }
{
    let mut device = MemDevice::new(alloc);
    fill(&mut device, config, content)?;
    Ok(device)
}

/// Writes this content to a device that is empty, and settles it. Each slot of the log file has a write of its own: what
/// stands in a slot counts as the log's own only where a write begins with its header (`docs/DEFINITIONS.md`, "NoForeign").
///
/// # Errors
///
/// What a call of the device fails with, after which what was written so far stays. A device in memory fails where memory
/// is refused, and where two blobs have one place.
pub fn fill<D: Device>(device: &mut D, config: Config, content: &Offer) -> io::Result<()>
    requires { D.trace device.old ≡ [] }
    ensures { OnOk result (IsOwnCopy config.segment_size content.now.bytes.items (state_of (D.trace device.new))) }
{
    write_slots(device, config.segment_size as usize, &content.bytes)?;
    device.sync()?;
    make_blobs(device, &content.blobs)?;
    publish_snapshots(device, &content.snapshots)?;
    device.sync_names()
}

// Writes the bytes of a log file, slot by slot.
fn write_slots<D: Device>(device: &mut D, size: usize, bytes: &[u8]) -> io::Result<()>
    requires size { 255 < size }
    requires empty { D.trace device.old ≡ [] }
    ensures { OnOk result (HasSlots size bytes.now (length bytes.now) (state_of (D.trace device.new))) }
{
    let mut at = 0;
    while at < bytes.len() {
        let count = size.min(bytes.len() - at);
        device.write_at(at as u64, &bytes[at..at + count])?;
        at += count;
    }
    Ok(())
}

// Makes blobs, each under its place, and settles their bytes.
fn make_blobs<D: Device>(device: &mut D, blobs: &[(i64, Vec<u8>)]) -> io::Result<()>
    ensures { OnOk result (LogStays (state_of (D.trace device.old)) (state_of (D.trace device.new))) }
{
    for (place, bytes) in blobs {
        device.blob_create(*place, bytes)?;
        device.blob_sync(*place)?;
    }
    Ok(())
}

// Publishes snapshots, each under its number.
fn publish_snapshots<D: Device>(device: &mut D, snapshots: &[(i64, Vec<u8>)]) -> io::Result<()>
    ensures { OnOk result (LogStays (state_of (D.trace device.old)) (state_of (D.trace device.new))) }
{
    for (number, bytes) in snapshots {
        device.snapshot_write(bytes)?;
        device.snapshot_publish(*number)?;
    }
    Ok(())
}
