//! All that the files of a folder hold, slot by slot and record by record.

mod as_json;
mod as_text;

use crate::Ended;
use crate::content::{Copied, Folder, load};
use crate::dump::as_json::JsonDump;
use crate::dump::as_text::TextDump;
use crate::named_files::{Faulty, blob_kind, snapshot_in};
use crate::output::printed;
use crate::records::{Slot, count_slots, read};
use anyhow::Result;
use sled_log::device::{Checksum, Device};
use sled_log::logger::{LogOffset, MessageKind};
use sled_log::snapshot::Snapshot;
use std::alloc::Global;
use std::io::{self, BufWriter, Write};

/// Who prints what is found, in this order: the log file, its slots, the blobs, the snapshots, and the end.
trait Dump {
    /// The log file, before its slots.
    fn log(&mut self, len: u64, segment_size: u64) -> io::Result<()>;

    /// A slot.
    fn slot(&mut self, offset: LogOffset, slot: &Slot) -> io::Result<()>;

    /// Blobs follow.
    fn blobs(&mut self) -> io::Result<()>;

    /// A blob, with its kind or what is wrong with it.
    fn blob(
        &mut self,
        place: i64,
        len: u64,
        kind: &std::result::Result<MessageKind, Faulty>,
    ) -> io::Result<()>;

    /// Snapshots follow.
    fn snapshots(&mut self) -> io::Result<()>;

    /// A snapshot, or what is wrong with it.
    fn snapshot(
        &mut self,
        number: i64,
        len: u64,
        snapshot: &std::result::Result<Snapshot, Faulty>,
    ) -> io::Result<()>;

    /// That is all.
    fn end(&mut self) -> io::Result<()>;
}

/// Prints what the files of a folder hold.
pub(crate) fn show<C: Checksum + Copy + Drop>(
    rt: &HostRuntime,
    folder: &Folder<'_, C>,
    is_json: bool,
) -> Result<Ended> {
    let alloc = rt.alloc();
    let mut config = load(rt, folder)?;
    let mut writer = BufWriter::new(alloc, io::writer(rt))?;
    if is_json {
        print_json(alloc, folder.path, &mut config, &mut writer)?;
    } else {
        tell(&mut config, &mut TextDump::new(&mut writer))?;
    }
    printed(writer.flush())?;
    Ok(Ended::Well)
}

/// Prints it as one object of JSON.
pub(crate) fn print_json<C: Checksum, W: Write>(
    alloc: Global,
    folder: &str,
    config: &mut Copied<C>,
    writer: &mut W,
) -> Result<()> {
    tell(config, &mut JsonDump::new(alloc, folder, writer))
}

// Goes over all, and has it printed.
fn tell<C: Checksum, P: Dump>(config: &mut Copied<C>, dump: &mut P) -> Result<()> {
    tell_log(config, dump)?;
    tell_blobs(config, dump)?;
    tell_snapshots(config, dump)?;
    printed(dump.end())
}

fn tell_log<C: Checksum, P: Dump>(config: &mut Copied<C>, dump: &mut P) -> Result<()> {
    let size = config.config.segment_size;
    printed(dump.log(config.device.len()?, size))?;
    for index in 0..count_slots(config)? {
        let offset = index.saturating_mul(size);
        let slot = read(config, offset)?;
        printed(dump.slot(offset, &slot))?;
    }
    Ok(())
}

fn tell_blobs<C: Checksum, P: Dump>(config: &mut Copied<C>, dump: &mut P) -> Result<()> {
    printed(dump.blobs())?;
    for place in config.device.blobs()? {
        let bytes = config.device.blob_read(place)?;
        let kind = blob_kind(&config.checksum, &bytes);
        printed(dump.blob(place, bytes.len() as u64, &kind))?;
    }
    Ok(())
}

fn tell_snapshots<C: Checksum, P: Dump>(config: &mut Copied<C>, dump: &mut P) -> Result<()> {
    printed(dump.snapshots())?;
    for number in config.device.snapshots()? {
        let bytes = config.device.snapshot_read(number)?;
        let snapshot = snapshot_in(config.alloc(), &config.checksum, &bytes)?;
        printed(dump.snapshot(number, bytes.len() as u64, &snapshot))?;
    }
    Ok(())
}
