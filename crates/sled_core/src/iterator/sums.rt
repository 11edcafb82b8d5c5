//! The sum of a record, taken where the record stands in the bytes of its slot: nothing of its body is copied.
ghost use Rattle.std.specs.Prelude.{◌≡◌, ◌+◌, ◌-◌, ◌≤◌, ◌++◌, length, vec_capacity};
ghost use Rattle.sled_codec.specs.Places.{part};
ghost use Rattle.sled_codec.specs.Written.{written};

use crate::iobuf::record::sum_around;
use sled_codec::serialization::Checksum;
use sled_store::segment::MAX_MSG_HEADER_LEN;

/// How many bytes are moved at once. What a header has behind its sum is no longer.
const CHUNK_LEN: usize = 32;

/// The sum of a record: of its body, and of its header behind the sum. That is put behind the body for it, over what stands
/// there, which is put back. At the end of the bytes there is no place for it; then it is turned behind the body.
#[inline(always)]
pub(crate) fn sum_in_place<C: Checksum>(
    checksum: &C,
    bytes: &mut Vec<u8>,
    from: usize,
    header_len: usize,
    len: usize,
) -> u32
    requires headed { 4 ≤ header_len }
    requires long { header_len ≤ len }
    requires within { from + len ≤ length bytes.old.items }
    ensures sum { result ≡ C.sum_of (part bytes.old.items (from + header_len) (len - header_len) ++ part bytes.old.items (from + 4) (header_len - 4)) }
    ensures bytes { bytes.new.items ≡ bytes.old.items }
    ensures capacity { vec_capacity bytes.new ≡ vec_capacity bytes.old }
{
    if header_len <= MAX_MSG_HEADER_LEN && bytes.len() - (from + len) >= CHUNK_LEN {
        return sum_over(checksum, bytes, from, header_len, len);
    }
    sum_around(checksum, bytes, from, header_len, len)
}

/// The same where so many bytes stand behind the record.
#[inline(always)]
fn sum_over<C: Checksum>(
    checksum: &C,
    bytes: &mut [u8],
    from: usize,
    header_len: usize,
    len: usize,
) -> u32
    requires headed { 4 ≤ header_len }
    requires short { header_len ≤ 32 }
    requires long { header_len ≤ len }
    requires within { from + len + 32 ≤ length bytes.old }
    ensures sum { result ≡ C.sum_of (part bytes.old (from + header_len) (len - header_len) ++ part bytes.old (from + 4) (header_len - 4)) }
    ensures bytes { bytes.new ≡ bytes.old }
{
    let end = from + len;
    let tail = chunk_at(bytes, from + 4);
    let behind = chunk_at(bytes, end);
    put_chunk(bytes, end, &tail);
    let sum = checksum.sum(&bytes[from + header_len..end + header_len - 4]);
    put_chunk(bytes, end, &behind);
    sum
}

/// The bytes from an index on.
#[inline(always)]
fn chunk_at(bytes: &[u8], at: usize) -> [u8; CHUNK_LEN]
    requires { at + 32 ≤ length bytes.now }
    ensures { result ≡ part bytes.now at 32 }
{
    let mut chunk = [0; CHUNK_LEN];
    chunk.copy_from_slice(&bytes[at..at + CHUNK_LEN]);
    chunk
}

/// Puts these bytes over those from an index on.
#[inline(always)]
fn put_chunk(bytes: &mut [u8], at: usize, chunk: &[u8; CHUNK_LEN])
    requires { at + 32 ≤ length bytes.old }
    ensures { bytes.new ≡ written bytes.old at chunk.now }
{
    bytes[at..at + CHUNK_LEN].copy_from_slice(chunk);
}
