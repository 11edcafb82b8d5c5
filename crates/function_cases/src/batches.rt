//! Batches whose buffers are written in every order, each of them stopped in its write and torn at each of its bytes: a
//! recovery finds all of a batch, or nothing of it.
//!
//! The files are laid out here, so that each of their parts is known. What a device has behind some writes depends on which they
//! were, and not on their order. So each set of buffers is tried once, as the ones that are written, with each other buffer
//! torn behind them; that is every order, stopped behind each write. What isn't written is zeros, as in a file that was
//! filled.
//!
//! But for the first one, which is given as bytes, seven records of twenty bytes are durable in each file, up to place 160. A
//! message follows that is in no batch, so that a cut in front of a manifest is another one than where the durable records
//! end. A place is also the offset in the file.
//!
//! Behind each set of whole buffers a second recovery has to find the same, and so has one that has a snapshot of the durable
//! records. Behind torn buffers that isn't tried.
//!
//! `logged` has the log itself make some of the files, and writes its buffers in each order; `pegs` asks where a batch may end.

use crate::batches::parts::{Part, text_of};
use case_lines::devices::log_of;
use sled_log::config::{Config, RunningConfig};
use sled_log::device::{Device, MemDevice, PlaceSum};
use sled_log::logger::{DiskPtr, Lsn};
use sled_log::result::{Error, Result};
use sled_log::snapshot::{PageState, Snapshot, read_snapshot_or_default};
use std::alloc::Global;

mod logged;
mod parts;
mod pegs;

/// Whether each recovery finds what it has to.
pub fn hold(alloc: Global) -> Result<bool> {
    Ok(
        by_hand(alloc)?
            && is_laid_out_so(alloc)?
            && over_two_segments(alloc)?
            && over_three_segments(alloc)?
            && one_behind_another(alloc)?
            && over_a_whole_segment(alloc)?
            && pegs::hold(alloc)?,
    )
}

// The first segment begins at place 0, and nothing was stable before.
const HEADER: [u8; 20] = [
    35, 216, 255, 255, 255, 255, 255, 255, 255, 255, 255, 127, 0, 0, 0, 0, 0, 0, 0, 128,
];

// A batch up to place 83. The sum is 83 over the body, and 34797 over the header: 34880 = 136 * 256 + 64, and flipped.
const MANIFEST: [u8; 24] = [
    191, 119, 255, 255, 3, 8, 0, 255, 101, 253, 255, 255, 255, 255, 255, 255, 83, 0, 0, 0, 0, 0, 0,
    0,
];

// Pages 0 and 1 replaced by eleven sevens. The sum is 11 and 7 * (2 + .. + 12) = 539 over the body. Behind that come
// 13 * 6 and 14 * 12, in all 796 = 3 * 256 + 28; or 13 * 5, 14 * 12 and 16 * 1, in all 799.
const FIRST: [u8; 20] = [
    227, 252, 255, 255, 6, 12, 0, 0, 11, 7, 7, 7, 7, 7, 7, 7, 7, 7, 7, 7,
];

const SECOND: [u8; 20] = [
    224, 252, 255, 255, 5, 12, 0, 1, 11, 7, 7, 7, 7, 7, 7, 7, 7, 7, 7, 7,
];

// A batch of two pages, as bytes: it counts where it is whole, and not where its last byte is another one.
fn by_hand(alloc: Global) -> Result<bool> {
    let mut bytes = Vec::new(alloc);
    bytes.extend_from_slice(&HEADER)?;
    bytes.extend_from_slice(&MANIFEST)?;
    bytes.extend_from_slice(&FIRST)?;
    bytes.extend_from_slice(&SECOND)?;
    let both = table(alloc, 84, Some(0), &[44, 64])?;
    let is_whole = finds(&mut device_with(alloc, &bytes)?, &both)?;
    if let Some(last) = bytes.last_mut() {
        *last = 8;
    }
    let none = table(alloc, 20, Some(0), &[])?;
    Ok(is_whole && finds(&mut device_with(alloc, &bytes)?, &none)?)
}

// The files below have the bytes that were worked out by hand.
fn is_laid_out_so(alloc: Global) -> Result<bool> {
    Ok(
        text_of(alloc, 0, Part::Header)?.as_slice() == HEADER.as_slice()
            && text_of(alloc, 20, Part::Manifest(83))?.as_slice() == MANIFEST.as_slice()
            && text_of(alloc, 44, Part::Page(0))?.as_slice() == FIRST.as_slice()
            && text_of(alloc, 64, Part::Page(1))?.as_slice() == SECOND.as_slice(),
    )
}

// The batch is in five buffers. The third one leaves 12 bytes of its segment, and the fourth one has the header of the next.
// The peg, 315, has six bytes of zeros, so the manifest is there before its record ends. A message follows in the last buffer.
fn over_two_segments(alloc: Global) -> Result<bool> {
    let case = Case {
        len: 512,
        parts: &[
            (0, 160, Part::Page(0), 180),
            (0, 180, Part::Manifest(315), 198),
            (1, 204, Part::Page(1), 224),
            (2, 224, Part::Page(2), 244),
            (3, 256, Part::Header, 276),
            (3, 276, Part::Page(3), 296),
            (4, 296, Part::Page(4), 316),
            (4, 316, Part::Page(5), 336),
        ],
        buffers: &[(160, 204), (204, 224), (224, 244), (256, 296), (296, 336)],
        messages: &[160, 204, 224, 276, 296, 316],
        found: &[
            (160, Some(0), 0),
            (180, Some(0), 1),
            (180, Some(0), 1),
            (180, Some(0), 1),
            (180, Some(0), 1),
            (180, Some(0), 1),
            (180, Some(0), 1),
            (316, Some(256), 5),
            (336, Some(256), 6),
        ],
    };
    holds(alloc, &case)
}

// The batch is in four buffers, and has a message that was aborted and, over the rest of the second segment, a cap. What
// stands of the cap are the 16 bytes of its header. The peg is 551, and a message follows in the last buffer.
fn over_three_segments(alloc: Global) -> Result<bool> {
    let case = Case {
        len: 768,
        parts: &[
            (0, 160, Part::Page(0), 180),
            (0, 180, Part::Manifest(551), 198),
            (0, 204, Part::Page(1), 224),
            (0, 224, Part::Page(2), 244),
            (1, 256, Part::Header, 276),
            (1, 276, Part::Page(3), 296),
            (1, 296, Part::Canceled, 316),
            (2, 316, Part::Page(4), 336),
            (2, 336, Part::Cap, 352),
            (3, 512, Part::Header, 532),
            (3, 532, Part::Page(5), 552),
            (3, 552, Part::Page(6), 572),
        ],
        buffers: &[(160, 244), (256, 316), (316, 352), (512, 572)],
        messages: &[160, 204, 224, 276, 316, 532, 552],
        found: &[
            (160, Some(0), 0),
            (180, Some(0), 1),
            (180, Some(0), 1),
            (180, Some(0), 1),
            (180, Some(0), 1),
            (180, Some(0), 1),
            (180, Some(0), 1),
            (180, Some(0), 1),
            (180, Some(0), 1),
            (180, Some(0), 1),
            (180, Some(0), 1),
            (552, Some(512), 6),
            (572, Some(512), 7),
        ],
    };
    holds(alloc, &case)
}

// The first batch ends with the last record of its segment, at 243, so its segment is full where it counts. The second one
// begins behind the header of the next, and ends at 339. Among the sets are those that have the buffers of the second batch
// first.
fn one_behind_another(alloc: Global) -> Result<bool> {
    let case = Case {
        len: 512,
        parts: &[
            (0, 160, Part::Page(0), 180),
            (0, 180, Part::Manifest(243), 197),
            (0, 204, Part::Page(1), 224),
            (1, 224, Part::Page(2), 244),
            (2, 256, Part::Header, 276),
            (2, 276, Part::Manifest(339), 294),
            (2, 300, Part::Page(3), 320),
            (3, 320, Part::Page(4), 340),
        ],
        buffers: &[(160, 224), (224, 244), (256, 320), (320, 340)],
        messages: &[160, 204, 224, 300, 320],
        found: &[
            (160, Some(0), 0),
            (180, Some(0), 1),
            (180, Some(0), 1),
            (180, Some(0), 1),
            (256, None, 3),
            (276, Some(256), 3),
            (276, Some(256), 3),
            (276, Some(256), 3),
            (340, Some(256), 5),
        ],
    };
    holds_of_both(alloc, &case)
}

// The pages 3 to 12 and a message that was aborted have all of the second segment.
const WHOLE_SEGMENT: [(usize, u64, Part, u64); 19] = [
    (0, 160, Part::Page(0), 180),
    (0, 180, Part::Manifest(551), 198),
    (0, 204, Part::Page(1), 224),
    (0, 224, Part::Page(2), 244),
    (1, 256, Part::Header, 276),
    (1, 276, Part::Page(3), 296),
    (1, 296, Part::Page(4), 316),
    (1, 316, Part::Canceled, 336),
    (1, 336, Part::Page(5), 356),
    (1, 356, Part::Page(6), 376),
    (1, 376, Part::Page(7), 396),
    (2, 396, Part::Page(8), 416),
    (2, 416, Part::Page(9), 436),
    (2, 436, Part::Page(10), 456),
    (2, 456, Part::Page(11), 476),
    (2, 476, Part::Page(12), 496),
    (3, 512, Part::Header, 532),
    (3, 532, Part::Page(13), 552),
    (3, 552, Part::Page(14), 572),
];

// Up to the peg nothing behind the first message counts.
const FOUND_OF_WHOLE_SEGMENT: [(Lsn, Option<u64>, usize); 20] = [
    (160, Some(0), 0),
    (180, Some(0), 1),
    (180, Some(0), 1),
    (180, Some(0), 1),
    (180, Some(0), 1),
    (180, Some(0), 1),
    (180, Some(0), 1),
    (180, Some(0), 1),
    (180, Some(0), 1),
    (180, Some(0), 1),
    (180, Some(0), 1),
    (180, Some(0), 1),
    (180, Some(0), 1),
    (180, Some(0), 1),
    (180, Some(0), 1),
    (180, Some(0), 1),
    (180, Some(0), 1),
    (180, Some(0), 1),
    (552, Some(512), 14),
    (572, Some(512), 15),
];

// The batch has all of the second segment, and its last message in the third one. The peg is 551, and a message follows in the
// last buffer.
fn over_a_whole_segment(alloc: Global) -> Result<bool> {
    let case = Case {
        len: 768,
        parts: &WHOLE_SEGMENT,
        buffers: &[(160, 244), (256, 396), (396, 496), (512, 572)],
        messages: &[
            160, 204, 224, 276, 296, 336, 356, 376, 396, 416, 436, 456, 476, 532, 552,
        ],
        found: &FOUND_OF_WHOLE_SEGMENT,
    };
    holds_of_both(alloc, &case)
}

// A file of whole segments, of which the writes of the last buffers may be missing or torn.
#[derive(Clone, Copy)]
struct Case<'a> {
    // The length of the file.
    len: usize,
    // What is written behind the durable records: its buffer, its place, what it is, and the place behind the last one of its
    // bytes that isn't zero.
    parts: &'a [(usize, u64, Part, u64)],
    // Where each buffer begins, and where it ends. The zeros that it has there up to the end of its segment stand in the file
    // whether or not they are written, so they are left out.
    buffers: &'a [(u64, u64)],
    // Where the message of each page lies, from page 0 on.
    messages: &'a [u64],
    // What a recovery finds where so many of the parts stand, one behind another: the cut, the active segment, and how many of
    // the messages.
    found: &'a [(Lsn, Option<u64>, usize)],
}

// The durable records, which replace the pages 0 to 2 in turn, and where those pages lie by them.
const DURABLE: [u64; 7] = [20, 40, 60, 80, 100, 120, 140];

const BEFORE: [u64; 3] = [140, 100, 120];

// Whether each recovery finds what the case says, of the file that is laid out and of those that the log makes.
fn holds_of_both(alloc: Global, case: &Case<'_>) -> Result<bool> {
    Ok(holds(alloc, case)? && logged::holds(alloc, case)?)
}

// Whether each recovery finds what the case says: each set of buffers is written as a whole.
fn holds(alloc: Global, case: &Case<'_>) -> Result<bool> {
    let whole = file_of(alloc, case)?;
    let mut sets = 1u64;
    for _ in case.buffers {
        sets = sets.saturating_mul(2);
    }
    let mut is_so = true;
    for set in 0..sets {
        is_so &= set_holds(alloc, case, &whole, set)?;
    }
    Ok(is_so)
}

// The buffers of a set are written, and then each other one is torn.
fn set_holds(alloc: Global, case: &Case<'_>, whole: &[u8], set: u64) -> Result<bool> {
    let mut ends = ends_of(alloc, case, set)?;
    let mut is_so = recovers_again(alloc, case, whole, &ends)?;
    for (n, (from, to)) in case.buffers.iter().enumerate() {
        if ends.get(n) == Some(from) {
            is_so &= torn_holds(alloc, case, whole, &mut ends, n, (*from, *to))?;
        }
    }
    Ok(is_so)
}

// Up to where each buffer is written: those of a set, by the digits of its number to the base of two, up to their end.
fn ends_of(alloc: Global, case: &Case<'_>, set: u64) -> Result<Vec<u64>> {
    let mut ends = Vec::new(alloc);
    let mut rest = set;
    for (from, to) in case.buffers {
        ends.push(if rest % 2 == 1 { *to } else { *from })?;
        rest /= 2;
    }
    Ok(ends)
}

// A buffer is torn at each of its bytes, behind those that are written. It is missing again in the end.
fn torn_holds(
    alloc: Global,
    case: &Case<'_>,
    whole: &[u8],
    ends: &mut [u64],
    buffer: usize,
    (from, to): (u64, u64),
) -> Result<bool> {
    let mut is_so = true;
    for at in from..to {
        put_end(ends, buffer, at);
        is_so &= recovers(alloc, case, whole, ends)?;
    }
    put_end(ends, buffer, from);
    Ok(is_so)
}

// A buffer is written up to this place.
fn put_end(ends: &mut [u64], buffer: usize, at: u64) {
    if let Some(end) = ends.get_mut(buffer) {
        *end = at;
    }
}

// Whether a recovery finds what it has to where the buffers are written up to these places.
fn recovers(alloc: Global, case: &Case<'_>, whole: &[u8], ends: &[u64]) -> Result<bool> {
    let wanted = wanted_of(alloc, case, ends)?;
    let bytes = written(alloc, case, whole, ends)?;
    finds(&mut device_with(alloc, &bytes)?, &wanted)
}

// Whether it does, and another one behind it, and one of a file that was recovered before the buffers were written, so that
// there is a snapshot.
fn recovers_again(alloc: Global, case: &Case<'_>, whole: &[u8], ends: &[u64]) -> Result<bool> {
    let wanted = wanted_of(alloc, case, ends)?;
    let bytes = written(alloc, case, whole, ends)?;
    let mut config = device_with(alloc, &bytes)?;
    let is_found = finds_twice(&mut config, &wanted)?;
    let durable = written(alloc, case, whole, &ends_of(alloc, case, 0)?)?;
    let mut config = device_with(alloc, &durable)?;
    let is_before = finds(&mut config, &table(alloc, 160, Some(0), &BEFORE)?)?;
    config.device.write_at(0, &bytes)?;
    config.device.sync()?;
    Ok(is_found && is_before && finds(&mut config, &wanted)?)
}

// What a recovery has to find then.
fn wanted_of(alloc: Global, case: &Case<'_>, ends: &[u64]) -> Result<Snapshot> {
    let Some((cut, active, count)) = found_of(case, ends) else {
        return Err(Error::Corruption { at: None });
    };
    let mut places = Vec::new(alloc);
    places.extend_from_slice(case.messages.get(..count).unwrap_or(&[]))?;
    places.extend_from_slice(BEFORE.get(count..).unwrap_or(&[]))?;
    table(alloc, cut, active, &places)
}

// The cut, the active segment and how many of the messages it finds.
fn found_of(case: &Case<'_>, ends: &[u64]) -> Option<(Lsn, Option<u64>, usize)> {
    case.found.get(standing(case.parts, ends)).copied()
}

// How many of the parts stand one behind another.
fn standing(parts: &[(usize, u64, Part, u64)], ends: &[u64]) -> usize {
    for (n, (buffer, _, _, whole)) in parts.iter().enumerate() {
        match ends.get(*buffer) {
            Some(end) if *whole <= *end => {}
            _ => return n,
        }
    }
    parts.len()
}

// The bytes of the file, with zeros for what isn't written.
fn written(alloc: Global, case: &Case<'_>, whole: &[u8], ends: &[u64]) -> Result<Vec<u8>> {
    let mut bytes = whole.to_vec(alloc)?;
    for ((_, to), end) in case.buffers.iter().zip(ends) {
        clear(&mut bytes, *end, *to);
    }
    Ok(bytes)
}

// Puts zeros from one offset up to another.
fn clear(bytes: &mut [u8], from: u64, to: u64) {
    for at in from..to {
        if let Some(byte) = bytes.get_mut(at as usize) {
            *byte = 0;
        }
    }
}

// The table with this cut, where each page has one record of twenty bytes at its place.
fn table(alloc: Global, cut: Lsn, active: Option<u64>, places: &[u64]) -> Result<Snapshot> {
    table_of(alloc, cut, active, places, 20)
}

// The same with records of another length.
fn table_of(
    alloc: Global,
    cut: Lsn,
    active: Option<u64>,
    places: &[u64],
    len: u64,
) -> Result<Snapshot> {
    let mut pt = Vec::new(alloc);
    for place in places {
        pt.push(PageState::Present {
            base: (place.cast_signed(), DiskPtr::Inline(*place), len),
            frags: Vec::new(alloc),
        })?;
    }
    Ok(Snapshot {
        stable_lsn: Some(cut),
        active_segment: active,
        pt,
    })
}

// Whether a recovery finds this table.
fn finds(config: &mut RunningConfig<MemDevice, PlaceSum>, wanted: &Snapshot) -> Result<bool> {
    Ok(read_snapshot_or_default(config)? == *wanted)
}

// Whether a second recovery finds it too.
fn finds_twice(config: &mut RunningConfig<MemDevice, PlaceSum>, wanted: &Snapshot) -> Result<bool> {
    Ok(finds(config, wanted)? && finds(config, wanted)?)
}

// A device in memory with these bytes as its log file, and segments of 256 bytes.
fn device_with(alloc: Global, bytes: &[u8]) -> Result<RunningConfig<MemDevice, PlaceSum>> {
    let Some(size) = Config::new(256) else {
        return Err(Error::Corruption { at: None });
    };
    let mut device = MemDevice::new(alloc);
    device.write_at(0, bytes)?;
    device.sync()?;
    Ok(RunningConfig::new(alloc, size, device, PlaceSum))
}

// The bytes of the file where all is written.
fn file_of(alloc: Global, case: &Case<'_>) -> Result<Vec<u8>> {
    let mut device = MemDevice::new(alloc);
    device.write_at(0, &vec![in alloc; 0u8; case.len]?)?;
    device.write_at(0, &text_of(alloc, 0, Part::Header)?)?;
    for (n, place) in DURABLE.iter().enumerate() {
        let part = Part::Page(n as u64 % 3);
        device.write_at(*place, &text_of(alloc, *place, part)?)?;
    }
    for (_, place, part, _) in case.parts {
        device.write_at(*place, &text_of(alloc, *place, *part)?)?;
    }
    Ok(log_of(alloc, &mut device)?)
}
