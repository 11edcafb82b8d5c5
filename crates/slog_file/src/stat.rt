//! How much the files of a folder hold.

use crate::Ended;
use crate::content::{Copied, Folder, load, recovered};
use crate::json::Json;
use crate::output::printed;
use crate::records::{Slot, count_slots, read};
use anyhow::Result;
use sled_log::device::{Checksum, Device};
use sled_log::snapshot::{PageState, Snapshot};
use std::alloc::Global;
use std::io::{self, BufWriter, Write};

// How many files of a kind there are, and how many bytes they have.
#[derive(Debug, Clone, Copy)]
struct Files {
    count: u64,
    bytes: u64,
}

// What is counted.
#[derive(Debug, Clone, Copy)]
struct Counts {
    segment_size: u64,
    // The bytes of the log file, those of headers and records in it, and those of records that pages have.
    log: u64,
    used: u64,
    live: u64,
    slots: u64,
    // How many slots have a segment.
    segments: u64,
    blobs: Files,
    snapshots: Files,
    pages: u64,
    // How many pages were given back.
    free_pages: u64,
}

/// Prints how much the files hold. The folder is only read.
pub(crate) fn show<C: Checksum + Copy + Drop>(
    rt: &HostRuntime,
    folder: &Folder<'_, C>,
    is_json: bool,
) -> Result<Ended> {
    let alloc = rt.alloc();
    let mut config = load(rt, folder)?;
    let mut counts = Counts::of_files(&mut config)?;
    let snapshot = recovered(alloc, folder.path, &mut config)?;
    counts.add_pages(&snapshot);
    let mut writer = BufWriter::new(alloc, io::writer(rt))?;
    if is_json {
        printed(as_json(alloc, folder.path, &counts, &mut Json::new(&mut writer)))?;
    } else {
        printed(as_text(&counts, &mut writer))?;
    }
    printed(writer.flush())?;
    Ok(Ended::Well)
}

impl Counts {
    // Counts what the files have, without the pages.
    fn of_files<C: Checksum>(config: &mut Copied<C>) -> Result<Counts> {
        let (segments, used) = count_segments(config)?;
        Ok(Counts {
            segment_size: config.config.segment_size,
            log: config.device.len()?,
            used,
            live: 0,
            slots: count_slots(config)?,
            segments,
            blobs: count_blobs(config)?,
            snapshots: count_snapshots(config)?,
            pages: 0,
            free_pages: 0,
        })
    }

    // Adds the pages of a table, and the records that they have.
    fn add_pages(&mut self, snapshot: &Snapshot) {
        self.pages = snapshot.pt.len() as u64;
        for page in &snapshot.pt {
            match page {
                PageState::Present { base, frags } => {
                    self.live = self.live.saturating_add(base.2);
                    for entry in frags {
                        self.live = self.live.saturating_add(entry.2);
                    }
                }
                PageState::Free(_, _) | PageState::Uninitialized => {
                    self.free_pages = self.free_pages.saturating_add(1);
                }
            }
        }
    }

    // The bytes of the log file that no header and no record has.
    fn free(&self) -> u64 {
        self.log.saturating_sub(self.used)
    }

    // The slots without a segment.
    fn free_slots(&self) -> u64 {
        self.slots.saturating_sub(self.segments)
    }
}

// How many slots have a segment, and how many bytes their headers and records have.
fn count_segments<C: Checksum>(config: &mut Copied<C>) -> Result<(u64, u64)> {
    let (mut segments, mut used) = (0u64, 0u64);
    for index in 0..count_slots(config)? {
        let slot = index.saturating_mul(config.config.segment_size);
        if let Slot::Segment { walk, .. } = read(config, slot)? {
            segments = segments.saturating_add(1);
            used = used.saturating_add(walk.end.saturating_sub(slot));
        }
    }
    Ok((segments, used))
}

fn count_blobs<C: Checksum>(config: &mut Copied<C>) -> Result<Files> {
    let mut files = Files { count: 0, bytes: 0 };
    for place in config.device.blobs()? {
        files.add(config.device.blob_read(place)?.len());
    }
    Ok(files)
}

fn count_snapshots<C: Checksum>(config: &mut Copied<C>) -> Result<Files> {
    let mut files = Files { count: 0, bytes: 0 };
    for number in config.device.snapshots()? {
        files.add(config.device.snapshot_read(number)?.len());
    }
    Ok(files)
}

impl Files {
    // One more file, with so many bytes.
    fn add(&mut self, len: usize) {
        self.count = self.count.saturating_add(1);
        self.bytes = self.bytes.saturating_add(len as u64);
    }
}

fn as_text<W: Write>(counts: &Counts, writer: &mut W) -> io::Result<()> {
    let (log, used, free, live) = (counts.log, counts.used, counts.free(), counts.live);
    let (segments, free_slots) = (counts.segments, counts.free_slots());
    let (blobs, snapshots) = (counts.blobs, counts.snapshots);
    let (pages, free_pages) = (counts.pages, counts.free_pages);
    writeln!(
        writer,
        "log {log} bytes, used {used} free {free} live {live}"
    )?;
    writeln!(
        writer,
        "slots of {} bytes, used {segments} free {free_slots}",
        counts.segment_size
    )?;
    writeln!(writer, "blobs {} of {} bytes", blobs.count, blobs.bytes)?;
    writeln!(
        writer,
        "snapshots {} of {} bytes",
        snapshots.count, snapshots.bytes
    )?;
    writeln!(writer, "pages {pages}, free {free_pages}")
}

fn as_json<W: Write>(
    alloc: Global,
    folder: &str,
    counts: &Counts,
    json: &mut Json<'_, W>,
) -> io::Result<()> {
    json.open("{")?;
    json.text(alloc, "folder", folder)?;
    json.number("segment_size", counts.segment_size)?;
    json.number("log_bytes", counts.log)?;
    json.number("used_bytes", counts.used)?;
    json.number("free_bytes", counts.free())?;
    json.number("live_bytes", counts.live)?;
    json.number("used_slots", counts.segments)?;
    json.number("free_slots", counts.free_slots())?;
    json.number("blobs", counts.blobs.count)?;
    json.number("blob_bytes", counts.blobs.bytes)?;
    json.number("snapshots", counts.snapshots.count)?;
    json.number("snapshot_bytes", counts.snapshots.bytes)?;
    json.number("pages", counts.pages)?;
    json.number("free_pages", counts.free_pages)?;
    json.close("}")?;
    json.end_line()
}
