//! Which bytes are a record of a message. A plain, slow reading of `IsRecord` in `specs/Record.antt` of
//! `sled_codec`.
ghost use Rattle.std.specs.Prelude.{◌≡◌, ◌≢◌, ◌↔◌, ◌-◌, ◌≤◌, ◌++◌, length, take, drop, IfOk, IsTrue, IsOkUnless};
ghost use Rattle.sled_codec.specs.Record.{IsRecord};
ghost use Rattle.sled_oracle.specs.Announced.{Announces};
ghost use Rattle.sled_codec.specs.Sums.{flipped};

use sled_codec::result::{Error, PageId, Result};
use sled_codec::serialization::{Checksum, MessageHeader, MessageKind, SegmentNumber, Serialize};
use std::alloc::Global;

/// Returns whether bytes are the record of a message: a header that announces this body and carries the
/// checksum of the body and of its own rest, and then the body.
///
/// # Errors
///
/// `OutOfMemory` alone.
pub fn is_record<C: Checksum>(
    alloc: Global,
    checksum: &C,
    text: &[u8],
    kind: MessageKind,
    page: PageId,
    number: SegmentNumber,
    body: &[u8],
) -> Result<bool>
    ensures decided { IfOk result (λ b. IsTrue b ↔ IsRecord C.sum_of text.now kind page number.0 body.now) }
    ensures err { IsOkUnless result Error.OutOfMemory }
{
    let mut rest: &[u8] = text;
    let header = match MessageHeader::deserialize(alloc, &mut rest) {
        Ok(header) => header,
        Err(Error::Corruption { at: _ }) => return Ok(false),
        Err(e) => return Err(e),
    };
    if !announces(&header, kind, page, number, body) {
        return Ok(false);
    }
    if rest != body {
        return Ok(false);
    }
    let behind_sum = &text[4..text.len() - rest.len()];
    Ok(header.crc32 == flipped_sum(alloc, checksum, body, behind_sum)?)
}

// Whether a header is that of a message.
fn announces(
    header: &MessageHeader,
    kind: MessageKind,
    page: PageId,
    number: SegmentNumber,
    body: &[u8],
) -> bool
    ensures { IsTrue result ↔ Announces header.now kind page number.0 (length body.now) }
{
    kind != MessageKind::Corrupted
        && header.kind == kind
        && header.pid == page
        && header.segment_number.0 == number.0
        && header.len == body.len() as u64
}

// The sum of two parts, flipped.
fn flipped_sum<C: Checksum>(alloc: Global, checksum: &C, first: &[u8], second: &[u8]) -> Result<u32>
    ensures sum { IfOk result (λ sum. sum ≡ flipped (C.sum_of (first.now ++ second.now))) }
    ensures err { IsOkUnless result Error.OutOfMemory }
{
    let mut summed = Vec::new(alloc);
    summed.extend_from_slice(first)?;
    summed.extend_from_slice(second)?;
    Ok(!checksum.sum(&summed))
}

/// Returns the checksum that a record is to carry, of the body and of the header behind its checksum, where
/// `head` of its bytes are the header. The record is turned in place for it, and back, so it takes no memory.
pub fn sum_in_place<C: Checksum>(checksum: &C, bytes: &mut [u8], head: usize) -> u32
    requires whole_sum { 4 ≤ head }
    requires whole_head { head ≤ length bytes.old }
    ensures sum { result ≡ flipped (C.sum_of (drop head bytes.old ++ take (head - 4) (drop 4 bytes.old))) }
    ensures same { bytes.new ≡ bytes.old }
{
    let behind_sum = &mut bytes[4..];
    behind_sum.rotate_left(head - 4);
    let sum = !checksum.sum(behind_sum);
    behind_sum.rotate_right(head - 4);
    sum
}
