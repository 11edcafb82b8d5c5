//! Headers of messages: encoded one behind another, and decoded again.
ghost use Rattle.std.specs.Prelude.{◌≤◌, length};

use crate::figure::{RUNS, Shortest, VALUES, same_sum};
use crate::sequence::Sequence;
use sled_codec::serialization::{MessageHeader, MessageKind, SegmentNumber, Serialize};
use std::alloc::{AllocError, Global};
use std::io;
use std::time::Instant;

/// Headers as a log of some gigabytes has them: 1000 segments, a million pages, bodies below 4096 bytes.
pub fn of_any_size(
    alloc: Global,
    sequence: &mut Sequence,
) -> Result<Vec<MessageHeader>, AllocError> {
    let mut headers = Vec::new(alloc);
    for _ in 0..VALUES {
        headers.push(MessageHeader {
            crc32: sequence.word(),
            kind: MessageKind::InlineNode,
            segment_number: SegmentNumber(sequence.below(1000)),
            pid: sequence.below(1000000),
            len: sequence.below(4096),
        })?;
    }
    Ok(headers)
}

/// Headers of 14 bytes each, whose numbers take three, two and four bytes.
pub fn of_one_size(
    alloc: Global,
    sequence: &mut Sequence,
) -> Result<Vec<MessageHeader>, AllocError> {
    let mut headers = Vec::new(alloc);
    for _ in 0..VALUES {
        headers.push(MessageHeader {
            crc32: sequence.word(),
            kind: MessageKind::InlineNode,
            segment_number: SegmentNumber(300 + sequence.below(700)),
            pid: 100000 + sequence.below(900000),
            len: 3000 + sequence.below(1096),
        })?;
    }
    Ok(headers)
}

/// Measures both ways, and prints the shortest run of each.
pub fn measure(rt: &HostRuntime, name: &str, headers: &[MessageHeader]) -> io::Result<()> {
    let mut buf = vec![in rt.alloc(); 0u8; 32 * VALUES as usize]?;
    let written = sum_of(headers);
    let mut encode = Shortest::new();
    let mut decode = Shortest::new();
    for _ in 0..RUNS {
        let start = Instant::now(rt)?;
        let end = encode_all(headers, &mut buf);
        encode.add(start.elapsed(rt)?);
        let start = Instant::now(rt)?;
        let read = decode_all(rt.alloc(), &buf[..end], headers.len());
        decode.add(start.elapsed(rt)?);
        same_sum(read, written)?;
    }
    encode.print(rt, name, "encode", VALUES)?;
    decode.print(rt, name, "decode", VALUES)
}

// All numbers of a header, added up.
fn weight(header: &MessageHeader) -> u64 {
    u64::from(header.crc32)
        .wrapping_add(header.segment_number.0)
        .wrapping_add(header.pid)
        .wrapping_add(header.len)
}

fn sum_of(headers: &[MessageHeader]) -> u64 {
    let mut sum = 0u64;
    for header in headers {
        sum = sum.wrapping_add(weight(header));
    }
    sum
}

// Writes the headers one behind another while there is room for any, and answers where they end.
fn encode_all(headers: &[MessageHeader], buf: &mut [u8]) -> usize
    ensures { result ≤ length buf.new }
{
    let mut at = 0;
    for header in headers {
        if buf.len() - at < 32 || !header.can_serialize() {
            return at;
        }
        at = header.serialize_into(buf, at);
    }
    at
}

// Reads so many headers, and answers the sum of their numbers.
fn decode_all(alloc: Global, buf: &[u8], count: usize) -> Option<u64> {
    let mut rest = buf;
    let mut sum = 0u64;
    for _ in 0..count {
        let Ok(header) = MessageHeader::deserialize(alloc, &mut rest) else {
            return None;
        };
        sum = sum.wrapping_add(weight(&header));
    }
    Some(sum)
}
