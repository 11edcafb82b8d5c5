//! What a reader finds at an offset of a slot whose bytes it has: a record of the segment, the end of what was written, or
//! nothing that passes (`IsStep`, `specs/Scan.antt`). No memory is taken for it.
ghost use Rattle.std.specs.Prelude.{◌≡◌, ◌≢◌, ◌⊎◌, ◌+◌, ◌%◌, ◌^◌, ◌≤◌, ◌<◌, ℕ, List, length, drop, IfOk, IfErr, IfSome, IfNone, MatchOption, true};
ghost use Rattle.sled_codec.specs.declared.serialization.message.MessageHeader.{MessageHeader};
ghost use Rattle.sled_codec.specs.declared.serialization.message.MessageKind.TheVariants as kind;
ghost use Rattle.sled_codec.specs.Errors.{IsCorruption, IsDecodeError};
ghost use Rattle.sled_codec.specs.Places.{part};
ghost use Rattle.sled_core.specs.inside.Reading.{IsBare, IsLaid};
ghost use Rattle.sled_core.specs.Reading.{IsMalformed, StandsAt, file_of, is_blob};
ghost use Rattle.sled_core.specs.inside.Scan.{HasPlace};
ghost use Rattle.sled_core.specs.Scan.{IsStep, Says};

use crate::iterator::scan::{RecordContent, ScanEnd, ScannedRecord, Step};
use crate::iterator::sums::sum_in_place;
use crate::logger::read_at::BasedBuf;
use crate::logger::read_message::{has_sum, header_of, may_be, place_of};
use sled_codec::result::{DiskPtr, LogOffset, Result};
use sled_codec::serialization::{Checksum, LogKind, MessageHeader, MessageKind, SegmentNumber};
use sled_store::RunningConfig;
use std::alloc::Global;

/// What is met at an offset of a segment, where a record may begin. The buffer has the bytes of its slot, and has them behind
/// the call too. `Corruption` comes where a record has to hold a place and does not.
#[inline(always)]
pub(crate) fn meet<D, C: Checksum>(
    config: &RunningConfig<D, C>,
    buf: &mut BasedBuf,
    number: SegmentNumber,
    place: u64,
    at: u64,
) -> Result<Step>
    requires begin { at + 32 ≤ config.now.config.segment_size }
    requires place { place + config.now.config.segment_size < 2 ^ 63 }
    requires slot { buf.old.offset + config.now.config.segment_size < 2 ^ 63 }
    requires aligned { buf.old.offset % config.now.config.segment_size ≡ 0 }
    ensures step { IfOk result (IsStep C.sum_of config.now.config.segment_size (file_of buf.old) (buf.old.offset + at) (place + at) number.0) }
    ensures room { IfOk result (HasPlace config.now.config.segment_size at) }
    ensures damaged { IsCorruption result → IsMalformed C.sum_of config.now.config.segment_size (file_of buf.old) (buf.old.offset + at) number.0 }
    ensures errors { IfErr result IsDecodeError }
    ensures bytes { buf.new.buf.items ≡ buf.old.buf.items }
    ensures offset { buf.new.offset ≡ buf.old.offset }
{
    let (header, header_len) = match stands_at(config, buf, number, at) {
        Some(found) => found,
        None => return Ok(Step::Ends(ScanEnd::Broken)),
    };
    let len = header_len as u64 + header.len;
    let body = &buf.buf[at as usize + header_len..(at + len) as usize];
    match content_of(&header, buf.offset + at, body) {
        Ok(Some(what)) => Ok(Step::Meets(ScannedRecord {
            place: place + at,
            len,
            what,
        })),
        Ok(None) => Ok(Step::Ends(ScanEnd::Capped)),
        Err(e) => Err(e),
    }
}

/// The header of the record of a segment that stands at an offset of its slot, and how long its spelling is.
#[inline(always)]
fn stands_at<D, C: Checksum>(
    config: &RunningConfig<D, C>,
    buf: &mut BasedBuf,
    number: SegmentNumber,
    at: u64,
) -> Option<(MessageHeader, usize)>
    requires begin { at + 32 ≤ config.now.config.segment_size }
    requires slot { buf.old.offset + config.now.config.segment_size < 2 ^ 63 }
    requires aligned { buf.old.offset % config.now.config.segment_size ≡ 0 }
    ensures stands { IfSome result (λ x. StandsAt C.sum_of config.now.config.segment_size (file_of buf.old) (buf.old.offset + at) number.0 x.0
        (part buf.old.buf.items (at + x.1) x.0.len) (x.1 + x.0.len)) }
    ensures none { IfNone result ((h : MessageHeader) (body : List ℕ) (len : ℕ)
        → StandsAt C.sum_of config.now.config.segment_size (file_of buf.old) (buf.old.offset + at) number.0 h body len → ⊥) }
    ensures headed { IfSome result (λ x. 8 ≤ x.1) }
    ensures in_file { IfSome result (λ x. at + x.1 + x.0.len ≤ length buf.old.buf.items) }
    ensures in_slot { IfSome result (λ x. at + x.1 + x.0.len ≤ config.now.config.segment_size) }
    ensures bytes { buf.new.buf.items ≡ buf.old.buf.items }
    ensures offset { buf.new.offset ≡ buf.old.offset }
{
    let laid = laid_at(config.alloc(), buf, config.config.segment_size, number, at);
    let (header, header_len) = match laid {
        Some(found) => found,
        None => return None,
    };
    let len = header_len + header.len as usize;
    let sum = sum_in_place(&config.checksum, &mut buf.buf, at as usize, header_len, len);
    if !has_sum(&header, sum) {
        return None;
    }
    Some((header, header_len))
}

/// The header that is laid at an offset of a slot with the body that it announces, and how long its spelling is. Its sum may
/// be wrong.
#[inline(always)]
fn laid_at(
    alloc: Global,
    buf: &BasedBuf,
    size: u64,
    number: SegmentNumber,
    at: u64,
) -> Option<(MessageHeader, usize)>
    requires begin { at + 32 ≤ size }
    requires slot { buf.now.offset + size < 2 ^ 63 }
    requires aligned { buf.now.offset % size ≡ 0 }
    ensures laid { IfSome result (λ x. IsLaid size (file_of buf.now) (buf.now.offset + at) number.0
        (part buf.now.buf.items at x.1) x.0 (part buf.now.buf.items (at + x.1) x.0.len)) }
    ensures none { IfNone result (IsBare size (file_of buf.now) (buf.now.offset + at) number.0) }
    ensures headed { IfSome result (λ x. 8 ≤ x.1) }
    ensures in_file { IfSome result (λ x. at + x.1 + x.0.len ≤ length buf.now.buf.items) }
    ensures in_slot { IfSome result (λ x. at + x.1 + x.0.len ≤ size) }
{
    let bytes = bytes_from(buf, at);
    let (header, header_len) = match header_of(alloc, bytes) {
        Some(found) => found,
        None => return None,
    };
    let room = (size - at).min(bytes.len() as u64);
    if !may_be(&header, header_len, number, room) {
        return None;
    }
    Some((header, header_len))
}

/// The bytes of a buffer from an index on. Behind its end there are none.
#[inline(always)]
fn bytes_from(buf: &BasedBuf, at: u64) -> &[u8]
    ensures { result.now ≡ drop at buf.now.buf.items }
{
    &buf.buf[(at as usize).min(buf.buf.len())..]
}

/// What a record of this header and this body is, which begins at an offset of the file, unless it is a Cap.
#[inline(always)]
fn content_of(header: &MessageHeader, lid: LogOffset, body: &[u8]) -> Result<Option<RecordContent>>
    requires { header.now.kind ≢ kind.Corrupted }
    ensures says { IfOk result (λ o. MatchOption o (header.now.kind ≡ kind.Cap) (Says header.now body.now lid)) }
    ensures malformed { IsCorruption result → ((is_blob header.now.kind ≡ true) ⊎ (header.now.kind ≡ kind.BatchManifest)) × (length body.now ≢ 8) }
    ensures errors { IfErr result IsDecodeError }
{
    let what = match header.kind {
        MessageKind::Canceled => RecordContent::Skipped,
        MessageKind::Cap => return Ok(None),
        MessageKind::BatchManifest => RecordContent::BatchStart(place_of(body)?),
        MessageKind::BlobMeta | MessageKind::BlobNode | MessageKind::BlobLink => {
            RecordContent::NamesBlob(header.kind, header.pid, lid, place_of(body)?)
        }
        _ => {
            let does = LogKind::from(header.kind);
            RecordContent::Gives(does, header.pid, DiskPtr::Inline(lid))
        }
    };
    Ok(Some(what))
}
