//! How a record is laid out at the end of a segment's bytes. Until it is completed it has zeros in place
//! of its sum and its kind.
ghost use Rattle.std.specs.Prelude.{◌≡◌, ◌+◌, ◌-◌, ◌≤◌, ◌<◌, ◌++◌, length, take, drop, replicate, vec_capacity};
ghost use Rattle.sled_codec.specs.Places.{part};
ghost use Rattle.sled_codec.specs.Spelling.{short_header_tail};
ghost use Rattle.sled_core.specs.inside.Buffers.{placeholder_head};
ghost use Rattle.sled_core.specs.inside.Caps.{capped_rest};
ghost use Rattle.sled_core.specs.invariants.Caps.{segment_rest};

use sled_codec::result::PageId;
use sled_codec::serialization::bytes::copy_in;
use sled_codec::serialization::{Checksum, MessageHeader, MessageKind, SegmentNumber, Serialize};
use sled_store::segment::MAX_MSG_HEADER_LEN;

/// The sum and the kind in the header of a message: what completes a record.
pub(crate) const COMPLETING_LEN: usize = 5;

/// The header of a message as it is written, but for its sum.
#[derive(Clone, Copy)]
pub(crate) struct Head {
    pub(crate) bytes: [u8; 32],
    pub(crate) len: usize,
    ghost within: { len ≤ 32 },
    ghost long: { 5 ≤ len },
}

impl Head {
    /// Zeros, as many as the longest header has.
    #[inline(always)]
    pub(crate) fn new() -> Head {
        Head {
            bytes: [0; MAX_MSG_HEADER_LEN],
            len: MAX_MSG_HEADER_LEN,
        }
    }

    /// Becomes the header of a message of a segment whose body is this long.
    #[inline(always)]
    pub(crate) fn fill(&mut self, kind: MessageKind, number: SegmentNumber, pid: PageId, len: u64)
        ensures bytes { drop 4 (take self.new.len self.new.bytes) ≡ short_header_tail kind len number.0 pid }
        ensures len { self.new.len ≡ 4 + length (short_header_tail kind len number.0 pid) }
    {
        let header = MessageHeader {
            crc32: 0,
            kind,
            segment_number: number,
            pid,
            len,
        };
        self.len = header.serialize_into(&mut self.bytes, 0);
    }

    /// What stands behind the sum.
    pub(crate) fn tail(&self) -> &[u8]
        ensures tail { result.now ≡ drop 4 (take self.now.len self.now.bytes) }
        ensures len { length result.now + 4 ≡ self.now.len }
    {
        &self.bytes[4..self.len]
    }
}

/// Puts bytes behind what is there, where there is room for them.
pub(crate) fn push_bytes(bytes: &mut Vec<u8>, more: &[u8])
    requires { length bytes.old.items + length more.now ≤ vec_capacity bytes.old }
    ensures bytes { bytes.new.items ≡ bytes.old.items ++ more.now }
    ensures len { length bytes.new.items ≡ length bytes.old.items + length more.now }
    ensures capacity { vec_capacity bytes.old ≤ vec_capacity bytes.new }
{
    let _ = bytes.extend_from_slice(more);
}

/// Puts the placeholder of a record behind what is there: its header with zeros in place of its sum and its kind, and its item.
/// Returns its sum.
#[inline(always)]
pub(crate) fn push_placeholder<T: Serialize, C: Checksum>(
    checksum: &C,
    bytes: &mut Vec<u8>,
    head: &Head,
    item: &T,
    item_len: usize,
) -> u32
    requires fits { T.fits (T.meaning item.now) }
    requires len { item_len ≡ length (T.short (T.meaning item.now)) }
    requires room { length bytes.old.items + head.now.len + item_len + 32 ≤ vec_capacity bytes.old }
    ensures sum { result ≡ C.sum_of (T.short (T.meaning item.now) ++ drop 4 (take head.now.len head.now.bytes)) }
    ensures bytes { bytes.new.items ≡ bytes.old.items ++ placeholder_head (take head.now.len head.now.bytes) ++ T.short (T.meaning item.now) }
    ensures len { length bytes.new.items ≡ length bytes.old.items + head.now.len + item_len }
    ensures capacity { vec_capacity bytes.old ≤ vec_capacity bytes.new }
{
    let from = bytes.len();
    let end = from + head.len + item_len;
    let _ = bytes.resize(end + MAX_MSG_HEADER_LEN, 0);
    let sum = put_placeholder(checksum, bytes, from, head, item, item_len);
    bytes.truncate(end);
    sum
}

/// Writes the placeholder of a record over what is there. Its sum goes over the item and then over the header behind its sum,
/// which is put behind the item for it. What stood within 32 bytes behind the placeholder is lost: a header is copied with what
/// stands behind it, since that takes no call.
#[inline(always)]
fn put_placeholder<T: Serialize, C: Checksum>(
    checksum: &C,
    buf: &mut [u8],
    at: usize,
    head: &Head,
    item: &T,
    item_len: usize,
) -> u32
    requires fits { T.fits (T.meaning item.now) }
    requires len { item_len ≡ length (T.short (T.meaning item.now)) }
    requires room { at + head.now.len + item_len + 32 ≤ length buf.old }
    ensures sum { result ≡ C.sum_of (T.short (T.meaning item.now) ++ drop 4 (take head.now.len head.now.bytes)) }
    ensures bytes { take (at + head.now.len + item_len) buf.new
        ≡ take at buf.old ++ placeholder_head (take head.now.len head.now.bytes) ++ T.short (T.meaning item.now) }
    ensures len { length buf.new ≡ length buf.old }
{
    let body = at + head.len;
    let end = body + item_len;
    put_head(buf, at, head);
    item.serialize_into(buf, body);
    copy_in(&head.bytes[4..], buf, end);
    checksum.sum(&buf[body..end + head.len - 4])
}

/// Writes a header over what is there, with zeros in place of its sum and its kind. What stood within 32 bytes is lost.
#[inline(always)]
fn put_head(buf: &mut [u8], at: usize, head: &Head)
    requires { at + 32 ≤ length buf.old }
    ensures front { take (at + head.now.len) buf.new ≡ take at buf.old ++ placeholder_head (take head.now.len head.now.bytes) }
    ensures len { length buf.new ≡ length buf.old }
{
    copy_in(&head.bytes, buf, at);
    copy_in(&[0; COMPLETING_LEN], buf, at);
}

/// The sum of the bytes from an offset on and of a header behind its sum. That is put behind the bytes
/// for it, so that nothing else is copied, and taken away again.
pub(crate) fn sum_behind<C: Checksum>(
    checksum: &C,
    bytes: &mut Vec<u8>,
    from: usize,
    tail: &[u8],
) -> u32
    requires from { from ≤ length bytes.old.items }
    requires room { length bytes.old.items + length tail.now ≤ vec_capacity bytes.old }
    ensures sum { result ≡ C.sum_of (drop from bytes.old.items ++ tail.now) }
    ensures bytes { bytes.new.items ≡ bytes.old.items }
    ensures capacity { vec_capacity bytes.old ≤ vec_capacity bytes.new }
{
    let end = bytes.len();
    push_bytes(bytes, tail);
    let sum = checksum.sum(&bytes[from..]);
    bytes.truncate(end);
    sum
}

/// The sum of a record in a text: of its body, and of its header behind the sum. That is turned behind the
/// body for it, so that no memory is taken, and back again.
pub(crate) fn sum_around<C: Checksum>(
    checksum: &C,
    bytes: &mut Vec<u8>,
    from: usize,
    header_len: usize,
    len: usize,
) -> u32
    requires headed { 4 ≤ header_len }
    requires long { header_len ≤ len }
    requires within { from + len ≤ length bytes.old.items }
    ensures sum { result ≡ C.sum_of (part bytes.old.items (from + header_len) (len - header_len) ++ part bytes.old.items (from + 4) (header_len - 4)) }
    ensures bytes { bytes.new.items ≡ bytes.old.items }
    ensures capacity { vec_capacity bytes.new ≡ vec_capacity bytes.old }
{
    let summed = &mut bytes[from + 4..from + len];
    summed.rotate_left(header_len - 4);
    let sum = checksum.sum(summed);
    summed.rotate_right(header_len - 4);
    sum
}

/// The page of a Cap.
const CAP_PAGE: PageId = u64::MAX;

/// Fills a segment to its end: a Cap and zeros, or zeros alone where a header has no room.
pub(crate) fn push_rest<C: Checksum>(
    checksum: &C,
    bytes: &mut Vec<u8>,
    number: SegmentNumber,
    size: usize,
)
    requires inside { length bytes.old.items ≤ size }
    requires room { size ≤ vec_capacity bytes.old }
    ensures bytes { bytes.new.items ≡ bytes.old.items ++ segment_rest C.sum_of size number.0 (length bytes.old.items) }
    ensures len { length bytes.new.items ≡ size }
    ensures capacity { vec_capacity bytes.old ≤ vec_capacity bytes.new }
{
    if size - bytes.len() < MAX_MSG_HEADER_LEN {
        push_zeros(bytes, size);
    } else {
        push_cap(checksum, bytes, number, size);
    }
}

/// Puts a Cap behind what is there, and zeros up to the end of the segment. The zeros are put there first,
/// and the header is written over the front of them.
fn push_cap<C: Checksum>(checksum: &C, bytes: &mut Vec<u8>, number: SegmentNumber, size: usize)
    requires header { length bytes.old.items + 32 ≤ size }
    requires room { size ≤ vec_capacity bytes.old }
    ensures bytes { bytes.new.items ≡ bytes.old.items ++ capped_rest C.sum_of size number.0 (length bytes.old.items) }
    ensures capacity { vec_capacity bytes.old ≤ vec_capacity bytes.new }
{
    let at = bytes.len();
    let body_len = size - at - MAX_MSG_HEADER_LEN;
    push_zeros(bytes, at + body_len);
    let mut head = Head::new();
    head.fill(MessageKind::Cap, number, CAP_PAGE, body_len as u64);
    let sum = sum_behind(checksum, bytes, at, head.tail());
    push_zeros(bytes, size);
    let header = MessageHeader {
        crc32: !sum,
        kind: MessageKind::Cap,
        segment_number: number,
        pid: CAP_PAGE,
        len: body_len as u64,
    };
    header.serialize_into(bytes, at);
}

/// Puts zeros behind what is there, up to a length.
fn push_zeros(bytes: &mut Vec<u8>, to: usize)
    requires inside { length bytes.old.items ≤ to }
    requires room { to ≤ vec_capacity bytes.old }
    ensures bytes { bytes.new.items ≡ bytes.old.items ++ replicate (to - length bytes.old.items) 0 }
    ensures capacity { vec_capacity bytes.old ≤ vec_capacity bytes.new }
{
    let _ = bytes.resize(to, 0);
}
