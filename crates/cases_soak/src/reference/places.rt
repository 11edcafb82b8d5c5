//! Where records may lie, and how long they are.

/// How long the header of a segment is.
pub const HEADER_LEN: u64 = 20;

/// How many bytes of a segment have to be left for a record to begin.
pub const LEAST_ROOM: u64 = 32;

/// How long the body of a message is whose item lies in a blob, and that of a manifest.
pub const PLACE_LEN: u64 = 8;

/// Returns the number of the segment of a place.
pub fn number_of(place: u64, size: u64) -> u64 {
    place.checked_div(size).unwrap_or(0)
}

/// Returns the offset of a place in its segment.
pub fn offset_of(place: u64, size: u64) -> u64 {
    place.checked_rem(size).unwrap_or(0)
}

/// Returns where the segment of a place ends.
pub fn end_of(place: u64, size: u64) -> u64 {
    place
        .wrapping_sub(offset_of(place, size))
        .wrapping_add(size)
}

/// Returns how many bytes a number takes in a header.
pub fn number_len(n: u64) -> u64 {
    match n {
        0..=240 => 1,
        241..=2287 => 2,
        2288..=67823 => 3,
        67824..=0xff_ffff => 4,
        0x100_0000..=0xffff_ffff => 5,
        0x1_0000_0000..=0xff_ffff_ffff => 6,
        0x100_0000_0000..=0xffff_ffff_ffff => 7,
        0x1_0000_0000_0000..=0xff_ffff_ffff_ffff => 8,
        _ => 9,
    }
}

/// Returns how long the record of a page's message with a body of this length is, in the segment of this number: a
/// checksum of four bytes, the kind, and three numbers stand in front of the body.
pub fn record_len(number: u64, page: u64, body: u64) -> u64 {
    let numbers = number_len(body)
        .wrapping_add(number_len(number))
        .wrapping_add(number_len(page));
    numbers.wrapping_add(5).wrapping_add(body)
}

/// Returns whether an item whose encoding has so many bytes goes to a blob.
pub fn is_in_blob(encoded: u64, size: u64) -> bool {
    encoded.wrapping_add(52) > size / 4
}
