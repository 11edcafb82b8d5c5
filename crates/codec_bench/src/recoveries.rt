//! Recovery of log files of many segments, each full of records. The files are laid out here, byte by byte.
ghost use Rattle.std.specs.Prelude.{◌<◌, ◌≤◌, ◌+◌, ◌^◌, length};

use crate::figure::Shortest;
use sled_codec::serialization::{
    MessageHeader, MessageKind, SegmentHeader, SegmentNumber, Serialize,
};
use sled_log::config::{Config, RunningConfig};
use sled_log::device::{Device, MemDevice, PlaceSum};
use sled_log::logger::MAX_MSG_HEADER_LEN;
use sled_log::snapshot::read_snapshot_or_default;
use sled_oracle::record::sum_in_place;
use std::alloc::Global;
use std::io;
use std::time::Instant;

/// How often each file is recovered.
const RUNS: u32 = 5;

/// A log file: segments of one size, each full of records whose bodies have so many bytes, which replace so many pages
/// in turn.
#[derive(Clone, Copy)]
pub struct Shape {
    pub segment_size: u64,
    pub segments: u64,
    pub body: usize,
    pub pages: u64,
}

/// The bytes of a log file, and how many records it has.
#[derive(Drop)]
struct File {
    bytes: Vec<u8>,
    records: u32,
}

impl File {
    /// A log file of this shape.
    fn new(alloc: Global, shape: Shape) -> io::Result<File> {
        let mut file = File {
            bytes: Vec::new(alloc),
            records: 0,
        };
        let body = vec![in alloc; 7u8; shape.body]?;
        for number in 0..shape.segments {
            file.push_segment(alloc, shape, number, &body)?;
        }
        Ok(file)
    }

    /// One more segment.
    fn push_segment(
        &mut self,
        alloc: Global,
        shape: Shape,
        number: u64,
        body: &[u8],
    ) -> io::Result<()> {
        let Some(place) = number.checked_mul(shape.segment_size) else {
            return Err(wrong());
        };
        let Some(end) = place.checked_add(shape.segment_size) else {
            return Err(wrong());
        };
        self.push_header(place)?;
        for _ in 0..u32::MAX {
            if !self.has_room(end, body.len()) {
                break;
            }
            let page = u64::from(self.records) % shape.pages.max(1);
            self.push_record(alloc, MessageKind::InlineNode, number, page, body)?;
            self.records = self.records.wrapping_add(1);
        }
        self.push_end(alloc, number, end)
    }

    /// Whether one more record has room below an end, and a cap behind it.
    fn has_room(&self, end: u64, body: usize) -> bool {
        let Some(left) = end.checked_sub(self.bytes.len() as u64) else {
            return false;
        };
        left > body as u64 && left - body as u64 >= 2 * MAX_MSG_HEADER_LEN as u64
    }

    /// The header of the segment at a place. All before it is stable.
    fn push_header(&mut self, place: u64) -> io::Result<()> {
        let Ok(lsn) = i64::try_from(place) else {
            return Err(wrong());
        };
        let header = SegmentHeader {
            lsn,
            max_stable_lsn: lsn.wrapping_sub(1),
            ok: true,
        };
        self.bytes.extend_from_slice(&header.to_bytes(&PlaceSum))?;
        Ok(())
    }

    /// One more record.
    fn push_record(
        &mut self,
        alloc: Global,
        kind: MessageKind,
        number: u64,
        pid: u64,
        body: &[u8],
    ) -> io::Result<()> {
        let header = MessageHeader {
            crc32: 0,
            kind,
            segment_number: SegmentNumber(number),
            pid,
            len: body.len() as u64,
        };
        let len = header.serialized_size();
        if !(4..=MAX_MSG_HEADER_LEN as u64).contains(&len) {
            return Err(wrong());
        }
        let mut head = [0u8; MAX_MSG_HEADER_LEN];
        let _ = header.serialize_into(&mut head, 0);
        let mut record = Vec::new(alloc);
        record.extend_from_slice(&head[..len as usize])?;
        record.extend_from_slice(body)?;
        let sum = sum_in_place(&PlaceSum, &mut record, len as usize);
        self.bytes.extend_from_slice(&sum.to_le_bytes())?;
        self.bytes.extend_from_slice(&record[4..])?;
        Ok(())
    }

    /// A cap, and zeros up to the end of the segment.
    fn push_end(&mut self, alloc: Global, number: u64, end: u64) -> io::Result<()> {
        let left = end.saturating_sub(self.bytes.len() as u64) as usize;
        if left >= MAX_MSG_HEADER_LEN {
            let body = vec![in alloc; 0u8; left - MAX_MSG_HEADER_LEN]?;
            self.push_record(alloc, MessageKind::Cap, number, u64::MAX, &body)?;
        }
        let left = end.saturating_sub(self.bytes.len() as u64) as usize;
        for _ in 0..left {
            self.bytes.push(0)?;
        }
        Ok(())
    }
}

/// Measures the recovery of a log file, and prints the shortest run.
pub fn measure(rt: &HostRuntime, name: &str, shape: Shape) -> io::Result<()> {
    let file = File::new(rt.alloc(), shape)?;
    let Some(config) = Config::new(shape.segment_size) else {
        return Err(wrong());
    };
    let mut recovery = Shortest::new();
    for _ in 0..RUNS {
        let mut device = MemDevice::new(rt.alloc());
        device.write_at(0, &file.bytes)?;
        let mut config = RunningConfig::new(rt.alloc(), config, device, PlaceSum);
        let start = Instant::now(rt)?;
        let read = read_snapshot_or_default(&mut config);
        recovery.add(start.elapsed(rt)?);
        let Ok(snapshot) = read else {
            return Err(wrong());
        };
        if snapshot.pt.len() as u64 != shape.pages.min(u64::from(file.records)) {
            return Err(wrong());
        }
    }
    recovery.print(rt, name, "recovery", file.records)?;
    recovery.print_rate(rt, name, "recovery", file.bytes.len() as u64)
}

/// What was read is not what was laid out.
fn wrong() -> io::Error {
    io::Error::other("what was recovered is not what was written")
}
