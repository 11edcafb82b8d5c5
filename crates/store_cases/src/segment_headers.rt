//! The headers of segments: `write PLACE MARK -> HEX`, and `read HEX -> lsn=PLACE mark=MARK ok=BOOL`.

use case_lines::lines::Words;
use case_lines::texts::Text;
use sled_codec::serialization::{PlaceSum, SegmentHeader};
use std::alloc::Global;

/// Writes what came of a line.
pub fn answer(alloc: Global, words: &mut Words<'_>, out: &mut Text) {
    match words.word() {
        "write" => written(words.signed(), words.signed(), out),
        "read" => match words.bytes(alloc).first_chunk::<20>() {
            Some(bytes) => read(bytes, out),
            None => words.bad("a header has 20 bytes"),
        },
        _ => words.bad("no such line"),
    }
}

// The bytes of a header.
fn written(lsn: i64, max_stable_lsn: i64, out: &mut Text) {
    let header = SegmentHeader {
        lsn,
        max_stable_lsn,
        ok: true,
    };
    out.hex(&header.to_bytes(&PlaceSum));
}

// What the header of these bytes says.
fn read(bytes: &[u8; 20], out: &mut Text) {
    let header = SegmentHeader::from_bytes(bytes, &PlaceSum);
    out.push("lsn=");
    out.signed(header.lsn);
    out.push(" mark=");
    out.signed(header.max_stable_lsn);
    out.push(" ok=");
    out.truth(header.ok);
}
