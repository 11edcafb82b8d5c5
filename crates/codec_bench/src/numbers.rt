//! Numbers: encoded one behind another, and decoded again.
ghost use Rattle.std.specs.Prelude.{◌≡◌, ◌≤◌, ◌*◌, length};

use crate::figure::{RUNS, Shortest, VALUES, same_sum};
use crate::sequence::Sequence;
use sled_codec::serialization::Serialize;
use std::alloc::{AllocError, Global};
use std::io;
use std::time::Instant;

/// Numbers that take one byte.
pub fn below_241(alloc: Global, sequence: &mut Sequence) -> Result<Vec<u64>, AllocError> {
    let mut values = Vec::new(alloc);
    for _ in 0..VALUES {
        values.push(sequence.below(241))?;
    }
    Ok(values)
}

/// Numbers of all lengths.
pub fn of_any_size(alloc: Global, sequence: &mut Sequence) -> Result<Vec<u64>, AllocError> {
    let mut values = Vec::new(alloc);
    for _ in 0..VALUES {
        values.push(sequence.of_any_size())?;
    }
    Ok(values)
}

/// The same numbers, in ascending order.
pub fn sorted(alloc: Global, values: &[u64]) -> Result<Vec<u64>, AllocError> {
    let mut sorted = values.to_vec(alloc)?;
    sorted.sort_unstable();
    Ok(sorted)
}

/// Measures both ways, and prints the shortest run of each.
pub fn measure(rt: &HostRuntime, name: &str, values: &[u64]) -> io::Result<()> {
    let mut buf = vec![in rt.alloc(); 0u8; 9 * VALUES as usize]?;
    let written = sum_of(values);
    let mut encode = Shortest::new();
    let mut decode = Shortest::new();
    for _ in 0..RUNS {
        let start = Instant::now(rt)?;
        let end = encode_all(values, &mut buf);
        encode.add(start.elapsed(rt)?);
        let start = Instant::now(rt)?;
        let read = decode_all(rt.alloc(), &buf[..end], values.len());
        decode.add(start.elapsed(rt)?);
        same_sum(read, written)?;
    }
    encode.print(rt, name, "encode", VALUES)?;
    decode.print(rt, name, "decode", VALUES)
}

fn sum_of(values: &[u64]) -> u64 {
    let mut sum = 0u64;
    for value in values {
        sum = sum.wrapping_add(*value);
    }
    sum
}

// Writes the numbers one behind another while there is room for any, and answers where they end.
fn encode_all(values: &[u64], buf: &mut [u8]) -> usize
    ensures { result ≤ length buf.new }
{
    let mut at = 0;
    for value in values {
        if buf.len() - at < 9 {
            return at;
        }
        at = value.serialize_into(buf, at);
    }
    at
}

// Reads so many numbers, and answers their sum.
fn decode_all(alloc: Global, buf: &[u8], count: usize) -> Option<u64> {
    let mut rest = buf;
    let mut sum = 0u64;
    for _ in 0..count {
        let Ok(value) = u64::deserialize(alloc, &mut rest) else {
            return None;
        };
        sum = sum.wrapping_add(value);
    }
    Some(sum)
}
