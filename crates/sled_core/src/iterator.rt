//! Reading a log file: which segments are found in it, what is met in each, and an iterator over the messages.
//!
//! `specs/Scan.antt` says what is met, for any log file, and `specs/Iterates.antt` what an iterator gives.
ghost use Rattle.std.specs.Prelude.{take, ℤ, IfNone, ◌≡◌, ◌-◌, ◌/◌, ◌%◌, ◌≤◌, ◌<◌, ℕ, None, pos, [], IfOk, IfSome, OnErr, OnOk};
ghost use Rattle.sled_codec.specs.Errors.{IsCorruption};
ghost use Rattle.sled_codec.specs.Places.{part};
ghost use Rattle.sled_codec.specs.Record.{IsHeader};
ghost use Rattle.sled_store.specs.Device.{state_of};
ghost use Rattle.sled_store.specs.Causes.{DeviceAnswers};
ghost use Rattle.sled_core.specs.Keeps.{OnlyReads};
ghost use Rattle.sled_core.specs.LogSegments.{begins_from};

pub mod blobs;
pub mod log_iter;
pub mod records;
pub mod rest;
pub mod scan;
pub(crate) mod step;
pub(crate) mod sums;

pub use crate::iterator::log_iter::LogIter;
use crate::logger::read_at::{BasedBuf, ReadAt};
use sled_codec::result::{Error, LogOffset, Lsn, Result};
use sled_codec::serialization::{Checksum, SegmentHeader};
use sled_store::segment::SEG_HEADER_LEN;
use sled_store::{Device, RunningConfig};

/// A segment that was found in the log file.
#[derive(Debug, Clone, Copy)]
pub struct Segment {
    /// Where it begins in the log.
    pub place: u64,
    /// Where its slot begins in the file.
    pub slot: LogOffset,
    /// The mark of its header: up to here the log was stable when the segment was begun, or -1.
    pub mark: Lsn,
}

/// Returns where the segment begins that holds a place, from which an iterator begins; a negative one counts as 0.
pub fn begins_from(size: u64, lsn: Lsn) -> u64
    requires { 0 < size }
    ensures is { result ≡ begins_from size lsn }
    ensures aligned { result % size ≡ 0 }
{
    u64::try_from(lsn).unwrap_or(0) / size * size
}

/// Returns the bytes of a slot of the log file, as far as the file has them.
///
/// # Errors
///
/// `Io` where the device failed, and `OutOfMemory`.
pub fn read_slot<D: Device, C: Checksum>(
    config: &mut RunningConfig<D, C>,
    slot: LogOffset,
) -> Result<BasedBuf>
    ensures offset { IfOk result (λ b. b.offset ≡ slot) }
    ensures bytes { IfOk result (λ b. b.buf.items ≡ part (state_of (D.trace config.old.device)).log.bytes slot config.old.config.segment_size) }
    ensures answers { DeviceAnswers result (D.faults config.old.device) (D.faults config.new.device) }
    ensures readable { IsCorruption result → ⊥ }
    ensures reads { OnlyReads D.trace config.old config.new }
{
    let mut buf = BasedBuf::new(config.alloc());
    match read_slot_into(config, slot, &mut buf) {
        Ok(()) => Ok(buf),
        Err(e) => Err(e),
    }
}

/// Reads the bytes of a slot, as far as the file has them, into a buffer, whose memory serves for slot after slot. After
/// an error the buffer has no bytes.
///
/// # Errors
///
/// `Io` where the device failed, and `OutOfMemory`.
pub fn read_slot_into<D: Device, C: Checksum>(
    config: &mut RunningConfig<D, C>,
    slot: LogOffset,
    buf: &mut BasedBuf,
) -> Result<()>
    ensures offset { buf.new.offset ≡ slot }
    ensures emptied { OnErr result (buf.new.buf.items ≡ []) }
    ensures bytes { OnOk result (buf.new.buf.items ≡ part (state_of (D.trace config.old.device)).log.bytes slot config.old.config.segment_size) }
    ensures answers { DeviceAnswers result (D.faults config.old.device) (D.faults config.new.device) }
    ensures readable { IsCorruption result → ⊥ }
    ensures reads { OnlyReads D.trace config.old config.new }
{
    let size = config.config.segment_size as usize;
    buf.offset = slot;
    if let Err(e) = buf.buf.resize(size, 0) {
        buf.buf.clear();
        return Err(Error::from(e));
    }
    match config.pread_exact_or_eof(&mut buf.buf, slot) {
        Ok(count) => {
            buf.buf.truncate(count);
            Ok(())
        }
        Err(e) => {
            buf.buf.clear();
            Err(e)
        }
    }
}

/// Returns the segment whose header stands at the beginning of a slot, where one passes there that begins at
/// this place or above it.
pub fn segment_in<C: Checksum>(checksum: &C, buf: &BasedBuf, least: u64) -> Option<Segment>
    ensures slot { IfSome result (λ s. s.slot ≡ buf.now.offset) }
    ensures least { IfSome result (λ s. least ≤ s.place) }
    ensures found { IfSome result (λ s. IsHeader C.sum_of (take 20 buf.now.buf.items) (pos s.place) s.mark) }
    ensures none { IfNone result ((place : ℕ) (mark : ℤ) → least ≤ place → IsHeader C.sum_of (take 20 buf.now.buf.items) (pos place) mark → ⊥) }
{
    let header = match header_in(checksum, &buf.buf) {
        Some(header) => header,
        None => return None,
    };
    match place_from(header.lsn, least) {
        Some(place) => Some(Segment {
            place,
            slot: buf.offset,
            mark: header.max_stable_lsn,
        }),
        None => None,
    }
}

/// A place that is not below another.
fn place_from(lsn: Lsn, least: u64) -> Option<u64>
    ensures some { IfSome result (λ place. (lsn ≡ pos place) × (least ≤ place)) }
    ensures none { IfNone result ((place : ℕ) → least ≤ place → lsn ≡ pos place → ⊥) }
{
    match u64::try_from(lsn) {
        Ok(place) => {
            if place < least {
                return None;
            }
            Some(place)
        }
        Err(_) => None,
    }
}

/// The header that bytes begin with, where it passes.
fn header_in<C: Checksum>(checksum: &C, bytes: &[u8]) -> Option<SegmentHeader>
    ensures found { IfSome result (λ h. IsHeader C.sum_of (take 20 bytes.now) h.lsn h.max_stable_lsn) }
    ensures none { IfNone result ((lsn mark : ℤ) → IsHeader C.sum_of (take 20 bytes.now) lsn mark → ⊥) }
{
    match bytes.first_chunk::<SEG_HEADER_LEN>() {
        Some(first) => {
            let header = SegmentHeader::from_bytes(first, checksum);
            if !header.ok {
                return None;
            }
            Some(header)
        }
        None => None,
    }
}
