//! What a reader finds in the bytes of a log file: records of one number, one behind another, and the header of a
//! segment.
ghost use Rattle.std.specs.Prelude.{◌≡◌, ◌↔◌, ◌<◌, ℕ, length, IsTrue, IfOk, IsOkUnless};
ghost use Rattle.sled_store.specs.Foreign.{IsReached, first_record};
ghost use Rattle.sled_oracle.specs.OwnParts.{FindsRecord, FindsRead, IsCap, FindsHeader};

use crate::record::is_record;
use sled_codec::result::{Error, Result};
use sled_codec::serialization::{
    Checksum, MessageHeader, MessageKind, SegmentHeader, SegmentNumber, Serialize,
};
use std::alloc::Global;

// The length of the record of a number with which bytes begin, where they do.
fn record_len<C: Checksum>(
    alloc: Global,
    checksum: &C,
    number: SegmentNumber,
    bytes: &[u8],
) -> Result<Option<usize>>
    ensures found { IfOk result (FindsRecord C.sum_of number.0 bytes.now 0) }
    ensures err { IsOkUnless result Error.OutOfMemory }
{
    let mut rest: &[u8] = bytes;
    let header = match MessageHeader::deserialize(alloc, &mut rest) {
        Ok(header) => header,
        Err(Error::Corruption { at: _ }) => return Ok(None),
        Err(e) => return Err(e),
    };
    let len = header.len as usize;
    if len > rest.len() {
        return Ok(None);
    }
    let whole = bytes.len() - rest.len() + len;
    let (kind, page) = (header.kind, header.pid);
    let is_there = is_record(
        alloc,
        checksum,
        &bytes[..whole],
        kind,
        page,
        number,
        &rest[..len],
    )?;
    if is_there {
        return Ok(Some(whole));
    }
    Ok(None)
}

// The length of the record of a number that begins at an offset of a text, where one does.
fn record_at<C: Checksum>(
    alloc: Global,
    checksum: &C,
    number: SegmentNumber,
    text: &[u8],
    at: usize,
) -> Result<Option<usize>>
    ensures found { IfOk result (FindsRecord C.sum_of number.0 text.now at) }
    ensures err { IsOkUnless result Error.OutOfMemory }
{
    if at > text.len() {
        return Ok(None);
    }
    record_len(alloc, checksum, number, &text[at..])
}

// Whether a reader of the records of a number comes to an offset of a text, from a first one on.
pub(crate) fn is_reached<C: Checksum>(
    alloc: Global,
    checksum: &C,
    number: SegmentNumber,
    text: &[u8],
    first: usize,
    at: usize,
) -> Result<bool>
    ensures reached { (size : ℕ) → IfOk result (λ b. IsTrue b ↔ IsReached C.sum_of size number.0 text.now first at) }
    ensures err { IsOkUnless result Error.OutOfMemory }
{
    let mut here = first;
    while here < at {
        match record_at(alloc, checksum, number, text, here)? {
            Some(len) => here += len,
            None => return Ok(false),
        }
    }
    Ok(here == at)
}

// Where in a write to an offset of the file the first record begins.
pub(crate) fn first_record(size: usize, at: usize) -> usize
    requires { 0 < size }
    ensures { result ≡ first_record size at }
{
    if at % size > 0 { 0 } else { 20 }
}

// The length of the record of a number that a reader reads at an offset of a segment, where it reads one.
pub(crate) fn read_at<C: Checksum>(
    alloc: Global,
    checksum: &C,
    size: usize,
    number: SegmentNumber,
    text: &[u8],
    at: usize,
) -> Result<Option<usize>>
    ensures found { IfOk result (FindsRead C.sum_of size number.0 text.now at) }
    ensures err { IsOkUnless result Error.OutOfMemory }
{
    if size < 32 || at > size - 32 {
        return Ok(None);
    }
    record_at(alloc, checksum, number, text, at)
}

// Whether the record of a text is a Cap.
pub(crate) fn is_cap(text: &[u8]) -> bool
    requires { 4 < length text.now }
    ensures { IsTrue result ↔ IsCap text.now }
{
    match MessageKind::from(text[4]) {
        MessageKind::Cap => true,
        _ => false,
    }
}

// The header that these bytes pass as, where they do.
pub(crate) fn header_of<C: Checksum>(checksum: &C, bytes: &[u8]) -> Option<SegmentHeader>
    requires { length bytes.now ≡ 20 }
    ensures { FindsHeader C.sum_of bytes.now result }
{
    let mut copy = [0u8; 20];
    copy.copy_from_slice(bytes);
    let header = SegmentHeader::from_bytes(&copy, checksum);
    if header.ok {
        return Some(header);
    }
    None
}
