//! Reading a message from the device: which bytes pass as its record, and what that holds.
ghost use Rattle.std.specs.Prelude.{IfSome, IfNone, None, Some, is_some, ◌≡◌, ◌≢◌, ◌≤◌, ◌<◌, ◌+◌, ◌-◌, ◌%◌, ◌^◌, ◌++◌, ◌↔◌, ℕ, List, length, take, min, vec_capacity, IfOk, IfErr, IsTrue, slice_index, MatchOption, ◌⊎◌, true};
ghost use Rattle.sled_codec.specs.declared.serialization.message.MessageHeader.{MessageHeader};
ghost use Rattle.sled_codec.specs.declared.serialization.message.MessageKind.TheVariants as kind;
ghost use Rattle.sled_codec.specs.Errors.{IsCorruption, IsDecodeError};
ghost use Rattle.sled_codec.specs.Places.{part, MayBegin};
ghost use Rattle.sled_codec.specs.Spelling.{SpellsMessageHeader, SpellsSigned};
ghost use Rattle.sled_codec.specs.Sums.{flipped};
ghost use Rattle.sled_store.specs.Device.{state_of};
ghost use Rattle.sled_store.specs.Causes.{DeviceAnswers};
ghost use Rattle.sled_store.specs.Blobs.{IsDamagedFor, NamesBlobAt, OnDamage};
ghost use Rattle.sled_core.specs.Keeps.{OnlyReads};
ghost use Rattle.sled_core.specs.Causes.{ItemAnswersOver, ReaderAnswers};
ghost use Rattle.sled_core.specs.inside.Reading.{HoldsAs, IsWithItem, IsFound, IsBare};
ghost use Rattle.sled_core.specs.Reading.{IsRecordRead, IsReading, IsMalformed, IsUnreadable, IsUnreadableAs, IsAnnounced, file_read, data_of, is_blob};

use crate::iobuf::record::sum_behind;
use crate::logger::read_at::{BasedBuf, ReadAt};
use crate::logger::unverified_record::{READ_AHEAD, UnverifiedRecord};
use sled_codec::result::{BlobPointer, Error, LogOffset, Lsn, Result};
use sled_codec::serialization::{Checksum, MessageHeader, MessageKind, SegmentNumber, Serialize};
use sled_store::blob_io::read_item;
use sled_store::segment::MAX_MSG_HEADER_LEN;
use sled_store::{Device, RunningConfig};
use std::alloc::Global;
use std::io;

/// What stands at an offset of the log.
#[derive(Debug, Drop)]
pub enum LogRead {
    /// A message whose item stands in its record: its header, the item's bytes, and how long the
    /// record is.
    Inline(MessageHeader, Vec<u8>, u32),
    /// A message whose item is a blob: its header, the item's bytes, the blob's place, and how long
    /// the record is.
    Blob(MessageHeader, Vec<u8>, BlobPointer, u32),
    /// A message that was aborted, and how long its record is.
    Canceled(u32),
    /// The rest of the segment of this number was given up.
    Cap(SegmentNumber),
    /// No record of the segment stands there.
    Corrupted,
    /// A message whose blob is gone: its header, the blob's place, and how long the record is.
    DanglingBlob(MessageHeader, BlobPointer, u32),
    /// The beginning of a batch: the place of the batch's last byte, and how long the record is.
    BatchManifest(Lsn, u32),
}

impl LogRead {
    /// Returns whether it is a message with its item.
    pub fn is_successful(&self) -> bool
        ensures { result ≡ is_some (data_of self.now) }
    {
        match self {
            LogRead::Inline(_, _, _) | LogRead::Blob(_, _, _, _) => true,
            _ => false,
        }
    }

    /// Returns the item's bytes, where it is a message with its item.
    pub fn into_data(self) -> Option<Vec<u8>>
        ensures { MatchOption result (data_of self ≡ None) (λ bytes. data_of self ≡ Some bytes.items) }
    {
        match self {
            LogRead::Inline(_, bytes, _) | LogRead::Blob(_, bytes, _, _) => Some(bytes),
            _ => None,
        }
    }
}

/// Returns what stands at an offset, for a segment of this number: its record is read from a buffer, whose end then is
/// that of the file, or from the device, and its blob from the device. It asks for an offset at which a record may
/// begin, and that lies in the buffer.
///
/// # Errors
///
/// `Corruption` where a record stands there that has to hold a place and does not, or whose blob has fewer than five
/// bytes or is of another kind; and with the blob's place where the blob's checksum fails. `Io` where the device failed,
/// and `OutOfMemory`, which comes only where a header of this segment stands there and announces a record that ends within
/// its slot.
pub fn read_message<D: Device, C: Checksum>(
    config: &mut RunningConfig<D, C>,
    buf: Option<&BasedBuf>,
    lid: LogOffset,
    number: SegmentNumber,
) -> Result<LogRead>
    requires begin { MayBegin config.old.config.segment_size lid }
    requires behind { IfSome buf (λ b. b.now.offset ≤ lid) }
    ensures reading { let s = state_of (D.trace config.old.device) in IfOk result (IsReading C.sum_of config.old.config.segment_size
        (file_read buf.entry s.log.bytes) s.blobs.file lid number.0) }
    ensures unreadable { let s = state_of (D.trace config.old.device) in IsCorruption result → IsUnreadable C.sum_of config.old.config.segment_size
        (file_read buf.entry s.log.bytes) s.blobs.file lid number.0 }
    ensures named { let s = state_of (D.trace config.old.device) in OnDamage result (IsUnreadableAs C.sum_of config.old.config.segment_size
        (file_read buf.entry s.log.bytes) s.blobs.file lid number.0) }
    ensures memory { let log = (state_of (D.trace config.old.device)).log.bytes in IfErr result (λ e. e ≡ Error.OutOfMemory
        → IsAnnounced config.old.config.segment_size (file_read buf.entry log) lid number.0) }
    ensures answers { ItemAnswersOver D.trace D.faults C.sum_of result config.old config.new }
    ensures reads { OnlyReads D.trace config.old config.new }
{
    match read_record(config, buf, lid, number) {
        Ok(LogRead::DanglingBlob(header, place, len)) => with_item(config, header, place, len),
        read => read,
    }
}

/// The message of this header, with the item that its blob has.
fn with_item<D: Device, C: Checksum>(
    config: &mut RunningConfig<D, C>,
    header: MessageHeader,
    place: BlobPointer,
    len: u32,
) -> Result<LogRead>
    requires { is_blob header.kind ≡ true }
    ensures item { IfOk result (IsWithItem C.sum_of (state_of (D.trace config.old.device)).blobs.file header place len) }
    ensures damaged { IsCorruption result → IsDamagedFor C.sum_of header.kind ((state_of (D.trace config.old.device)).blobs.file place) }
    ensures named { OnDamage result (NamesBlobAt C.sum_of (state_of (D.trace config.old.device)).blobs.file place) }
    ensures answers { ItemAnswersOver D.trace D.faults C.sum_of result config.old config.new }
    ensures reads { OnlyReads D.trace config.old config.new }
{
    match read_item(config, header.kind, place) {
        Ok(Some(item)) => Ok(LogRead::Blob(header, item, place, len)),
        Ok(None) => Ok(LogRead::DanglingBlob(header, place, len)),
        Err(e) => Err(e),
    }
}

/// Returns what stands at an offset as `read_message` does, but looks for no blob: a message whose item is a blob is
/// answered as one whose blob is gone.
///
/// # Errors
///
/// `Corruption` where a record stands there that has to hold a place and does not. `Io` where the device failed,
/// and `OutOfMemory`, as of `read_message`.
#[inline(always)]
pub fn read_record<D: Device, C: Checksum>(
    config: &mut RunningConfig<D, C>,
    buf: Option<&BasedBuf>,
    lid: LogOffset,
    number: SegmentNumber,
) -> Result<LogRead>
    requires begin { MayBegin config.old.config.segment_size lid }
    requires behind { IfSome buf (λ b. b.now.offset ≤ lid) }
    ensures reading { IfOk result (IsRecordRead C.sum_of config.old.config.segment_size
        (file_read buf.entry (state_of (D.trace config.old.device)).log.bytes) lid number.0) }
    ensures malformed { IsCorruption result → IsMalformed C.sum_of config.old.config.segment_size
        (file_read buf.entry (state_of (D.trace config.old.device)).log.bytes) lid number.0 }
    ensures memory { let log = (state_of (D.trace config.old.device)).log.bytes in IfErr result (λ e. e ≡ Error.OutOfMemory
        → IsAnnounced config.old.config.segment_size (file_read buf.entry log) lid number.0) }
    ensures answers { DeviceAnswers result (D.faults config.old.device) (D.faults config.new.device) }
    ensures reads { OnlyReads D.trace config.old config.new }
{
    match find_in(config, buf, lid, number)? {
        Some(found) => read_found(&config.checksum, found),
        None => Ok(LogRead::Corrupted),
    }
}

/// What is laid at an offset of the buffer, or of the device's log.
#[inline(always)]
fn find_in<D: Device, C: Checksum>(
    config: &mut RunningConfig<D, C>,
    buf: Option<&BasedBuf>,
    lid: LogOffset,
    number: SegmentNumber,
) -> Result<Option<UnverifiedRecord>>
    requires behind { IfSome buf (λ b. b.now.offset ≤ lid) }
    ensures found { IfOk result (λ o. IfSome o (IsFound config.old.config.segment_size
        (file_read buf.entry (state_of (D.trace config.old.device)).log.bytes) lid number.0)) }
    ensures none { IfOk result (λ o. IfNone o (IsBare config.old.config.segment_size
        (file_read buf.entry (state_of (D.trace config.old.device)).log.bytes) lid number.0)) }
    ensures valid { IfOk result (λ o. IfSome o (λ f. f.header.kind ≢ kind.Corrupted)) }
    ensures memory { let log = (state_of (D.trace config.old.device)).log.bytes in IfErr result (λ e. e ≡ Error.OutOfMemory
        → IsAnnounced config.old.config.segment_size (file_read buf.entry log) lid number.0) }
    ensures answers { DeviceAnswers result (D.faults config.old.device) (D.faults config.new.device) }
    ensures readable { IsCorruption result → ⊥ }
    ensures reads { OnlyReads D.trace config.old config.new }
{
    let alloc = config.alloc();
    let size = config.config.segment_size;
    match buf {
        Some(mut buf) => find_record(alloc, &mut buf, size, lid, number),
        None => find_record(alloc, config, size, lid, number),
    }
}

/// What a record holds, where its sum is right.
#[inline(always)]
fn read_found<C: Checksum>(checksum: &C, found: UnverifiedRecord) -> Result<LogRead>
    requires { found.header.kind ≢ kind.Corrupted }
    ensures reading { (size : ℕ) (log : List ℕ) (lid number : ℕ) → IsFound size log lid number found → IfOk result (IsRecordRead C.sum_of size log lid number) }
    ensures malformed { (size : ℕ) (log : List ℕ) (lid number : ℕ) → IsFound size log lid number found → IsCorruption result
        → IsMalformed C.sum_of size log lid number }
    ensures errors { IfErr result IsDecodeError }
    ensures memory { IfErr result (λ e. e ≢ Error.OutOfMemory) }
{
    let UnverifiedRecord {
        header,
        head,
        header_len,
        mut body,
    } = found;
    if !passes(checksum, &header, &mut body, &head[4..header_len]) {
        return Ok(LogRead::Corrupted);
    }
    let len = header_len + body.len();
    reading_of(header, body, len as u32)
}

/// What is laid at an offset for a segment of this number, if it is a record but for its sum.
#[inline(always)]
fn find_record<R: ReadAt>(
    alloc: Global,
    reader: &mut R,
    size: u64,
    lid: LogOffset,
    number: SegmentNumber,
) -> Result<Option<UnverifiedRecord>>
    requires size { (0 < size) × (size < 2 ^ 32) }
    requires behind { R.begins reader.old ≤ lid }
    ensures found { IfOk result (λ o. IfSome o (IsFound size (R.file reader.old) lid number.0)) }
    ensures none { IfOk result (λ o. IfNone o (IsBare size (R.file reader.old) lid number.0)) }
    ensures valid { IfOk result (λ o. IfSome o (λ f. f.header.kind ≢ kind.Corrupted)) }
    ensures memory { IfErr result (λ e. e ≡ Error.OutOfMemory → IsAnnounced size (R.file reader.old) lid number.0) }
    ensures answers { DeviceAnswers result (R.faults reader.old) (R.faults reader.new) }
    ensures readable { IsCorruption result → ⊥ }
    ensures rest { R.rest reader.new ≡ R.rest reader.old }
{
    let (head, count) = read_head(reader, lid)?;
    match header_of(alloc, &head[..]) {
        Some((header, header_len)) => {
            if header_len > count {
                return Ok(None);
            }
            find_announced(alloc, reader, size, lid, number, head, header, header_len)
        }
        None => Ok(None),
    }
}

/// The same, where the first bytes at the offset begin with this header.
#[inline(always)]
fn find_announced<R: ReadAt>(
    alloc: Global,
    reader: &mut R,
    size: u64,
    lid: LogOffset,
    number: SegmentNumber,
    head: [u8; READ_AHEAD],
    header: MessageHeader,
    header_len: usize,
) -> Result<Option<UnverifiedRecord>>
    requires size { (0 < size) × (size < 2 ^ 32) }
    requires behind { R.begins reader.old ≤ lid }
    requires head { (k : ℕ) → k ≤ 32 → lid + k ≤ length (R.file reader.old) → take k head ≡ part (R.file reader.old) lid k }
    requires long { length head ≡ 32 }
    requires bytes { (i : ℕ) → slice_index head i < 256 }
    requires found { SpellsMessageHeader (take header_len head) header }
    requires some { 8 ≤ header_len }
    requires short { header_len ≤ 32 }
    requires there { lid + header_len ≤ length (R.file reader.old) }
    ensures found { IfOk result (λ o. IfSome o (IsFound size (R.file reader.old) lid number.0)) }
    ensures none { IfOk result (λ o. IfNone o (IsBare size (R.file reader.old) lid number.0)) }
    ensures valid { IfOk result (λ o. IfSome o (λ f. f.header.kind ≢ kind.Corrupted)) }
    ensures memory { IfErr result (λ e. e ≡ Error.OutOfMemory → IsAnnounced size (R.file reader.old) lid number.0) }
    ensures answers { DeviceAnswers result (R.faults reader.old) (R.faults reader.new) }
    ensures readable { IsCorruption result → ⊥ }
    ensures rest { R.rest reader.new ≡ R.rest reader.old }
{
    if !may_be(&header, header_len, number, size - lid % size) {
        return Ok(None);
    }
    if !is_offset(lid, header_len as u64 + header.len) {
        return Ok(None);
    }
    let at = lid + header_len as u64;
    match read_body(alloc, reader, at, header.len as usize)? {
        Some(body) => Ok(Some(UnverifiedRecord {
            header,
            head,
            header_len,
            body,
        })),
        None => Ok(None),
    }
}

/// The first bytes from an offset on, and how many of them the file has. The others are anything.
#[inline(always)]
fn read_head<R: ReadAt>(reader: &mut R, lid: LogOffset) -> Result<([u8; READ_AHEAD], usize)>
    requires { R.begins reader.old ≤ lid }
    ensures head { IfOk result (λ read. (k : ℕ) → k ≤ 32 → lid + k ≤ length (R.file reader.old) → take k read.0 ≡ part (R.file reader.old) lid k) }
    ensures long { IfOk result (λ read. length read.0 ≡ 32) }
    ensures count { IfOk result (λ read. read.1 ≡ min 32 (length (R.file reader.old) - lid)) }
    ensures answers { ReaderAnswers result ⊥ (R.faults reader.old) (R.faults reader.new) }
    ensures file { R.file reader.new ≡ R.file reader.old }
    ensures begins { R.begins reader.new ≡ R.begins reader.old }
    ensures rest { R.rest reader.new ≡ R.rest reader.old }
{
    let mut head = blank();
    let count = reader.pread_exact_or_eof(&mut head, lid)?;
    Ok((head, count))
}

/// Bytes to read into.
fn blank() -> [u8; READ_AHEAD] {
    [0; READ_AHEAD]
}

/// The header that bytes begin with, and how long its spelling is. Reading one takes no memory.
#[inline(always)]
pub(crate) fn header_of(alloc: Global, bytes: &[u8]) -> Option<(MessageHeader, usize)>
    ensures found { IfSome result (λ x. SpellsMessageHeader (take x.1 bytes.now) x.0) }
    ensures none { IfNone result ((front rest : List ℕ) (h : MessageHeader) → bytes.now ≡ front ++ rest → SpellsMessageHeader front h → ⊥) }
    ensures inside { IfSome result (λ x. (8 ≤ x.1) × (x.1 ≤ length bytes.now)) }
    ensures bytes { (i : ℕ) → slice_index bytes.now i < 256 }
{
    let mut rest = bytes;
    let header = match MessageHeader::deserialize(alloc, &mut rest) {
        Ok(header) => header,
        Err(_) => return None,
    };
    Some((header, bytes.len() - rest.len()))
}

/// Whether a record of this header may stand where there are so many bytes, for a segment.
#[inline(always)]
pub(crate) fn may_be(
    header: &MessageHeader,
    header_len: usize,
    number: SegmentNumber,
    room: u64,
) -> bool
    ensures { IsTrue result ↔ ((header.now.kind ≢ kind.Corrupted) × (header.now.segment_number ≡ number) × (header_len + header.now.len ≤ room)) }
{
    let header_len = header_len as u64;
    header.kind != MessageKind::Corrupted
        && header.segment_number == number
        && header_len <= room
        && header.len <= room - header_len
}

/// Whether the end of so many bytes from an offset on is an offset.
fn is_offset(lid: LogOffset, len: u64) -> bool
    ensures { IsTrue result ↔ (lid + len < 2 ^ 64) }
{
    lid.checked_add(len).is_some()
}

/// So many bytes from an offset on, with room for a header behind them, where the file has them.
#[inline(always)]
fn read_body<R: ReadAt>(
    alloc: Global,
    reader: &mut R,
    at: u64,
    len: usize,
) -> Result<Option<Vec<u8>>>
    requires small { len < 2 ^ 32 }
    requires behind { R.begins reader.old ≤ at }
    requires there { at ≤ length (R.file reader.old) }
    ensures body { IfOk result (λ body. MatchOption body (length (R.file reader.old) < at + len) (λ b. (b.items ≡ part (R.file reader.old) at len)
        × (at + len ≤ length (R.file reader.old)))) }
    ensures room { IfOk result (λ o. IfSome o (λ b. len + 32 ≤ vec_capacity b)) }
    ensures len { IfOk result (λ o. IfSome o (λ b. length b.items ≡ len)) }
    ensures answers { DeviceAnswers result (R.faults reader.old) (R.faults reader.new) }
    ensures readable { IsCorruption result → ⊥ }
    ensures rest { R.rest reader.new ≡ R.rest reader.old }
{
    let mut body = Vec::with_capacity(alloc, len + READ_AHEAD)?;
    body.resize(len, 0)?;
    let count = reader.pread_exact_or_eof(&mut body, at)?;
    if count < len {
        return Ok(None);
    }
    Ok(Some(body))
}

/// Whether a header carries the sum of this body and of what stands behind the sum.
#[inline(always)]
fn passes<C: Checksum>(
    checksum: &C,
    header: &MessageHeader,
    body: &mut Vec<u8>,
    tail: &[u8],
) -> bool
    requires { length body.old.items + length tail.now ≤ vec_capacity body.old }
    ensures passes { IsTrue result ↔ (header.now.crc32 ≡ flipped (C.sum_of (body.old.items ++ tail.now))) }
    ensures body { body.new.items ≡ body.old.items }
{
    let sum = sum_behind(checksum, body, 0, tail);
    has_sum(header, sum)
}

/// Whether a header carries this sum.
#[inline(always)]
pub(crate) fn has_sum(header: &MessageHeader, sum: u32) -> bool
    ensures { IsTrue result ↔ (header.now.crc32 ≡ flipped sum) }
{
    header.crc32 == u32::MAX - sum
}

/// What a record holds, by its kind.
#[inline(always)]
fn reading_of(header: MessageHeader, body: Vec<u8>, len: u32) -> Result<LogRead>
    requires { header.kind ≢ kind.Corrupted }
    ensures reading { IfOk result (HoldsAs header body.items len) }
    ensures malformed { IsCorruption result → ((is_blob header.kind ≡ true) ⊎ (header.kind ≡ kind.BatchManifest)) × (length body.items ≢ 8) }
    ensures errors { IfErr result IsDecodeError }
    ensures memory { IfErr result (λ e. e ≢ Error.OutOfMemory) }
{
    match header.kind {
        MessageKind::Canceled => Ok(LogRead::Canceled(len)),
        MessageKind::Cap => Ok(LogRead::Cap(header.segment_number)),
        MessageKind::BatchManifest => Ok(LogRead::BatchManifest(place_of(&body)?, len)),
        MessageKind::BlobMeta | MessageKind::BlobNode | MessageKind::BlobLink => {
            Ok(LogRead::DanglingBlob(header, place_of(&body)?, len))
        }
        _ => Ok(LogRead::Inline(header, body, len)),
    }
}

/// The place that these bytes are, where there are eight.
pub(crate) fn place_of(body: &[u8]) -> Result<Lsn>
    ensures place { IfOk result (SpellsSigned body.now) }
    ensures malformed { IsCorruption result → length body.now ≢ 8 }
    ensures errors { IfErr result IsDecodeError }
    ensures memory { IfErr result (λ e. e ≢ Error.OutOfMemory) }
{
    if body.len() != 8 {
        return Err(Error::Corruption { at: None });
    }
    let mut bytes = [0; 8];
    bytes.copy_from_slice(body);
    Ok(u64::from_le_bytes(bytes).cast_signed())
}
