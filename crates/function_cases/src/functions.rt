//! What a line of a file can't say: functions over a format that answer no value of their own, and all other cases of this
//! crate.

use crate::{
    batches, copies, errors, folders, formats, identifiers, laws, orders, sessions, sorted, torn,
};
use case_lines::tally::Tally;
use sled_codec::serialization::bytes::copy_in;
use sled_log::config::{Config, RunningConfig};
use sled_log::device::{Device, MemDevice, PlaceSum};
use sled_log::logger::{DiskPtr, LogKind, MessageKind, PageId, SegmentNumber};
use sled_log::result::{Error, Result};
use sled_log::serialization::{MessageHeader, Serialize};
use sled_oracle::history::{Message, entries_of_page};
use sled_oracle::record::{is_record, sum_in_place};
use sled_store::blob_io::{gc_blobs, read_blob, remove_blob, write_blob};
use sled_store::header::{bump_offset, incr_writers, n_writers, offset};
use sled_store::segment::accountant::{CacheInfo, SegmentAccountant};
use sled_store::snapshot_file::{decode_file, encode_file};
use slog_lines::run_lines;
use std::alloc::Global;
use std::io::{self, BufRead, ErrorKind, Read, Write};

/// Runs all of them. Some make folders where the program runs, and remove them.
pub fn run(rt: &HostRuntime, tally: &mut Tally<'_>) {
    let alloc = rt.alloc();
    laws::cite_all();
    holds(tally, 1, "constants", errors::has_constants());
    holds(
        tally,
        2,
        "errors are equal",
        known(errors::are_equal(alloc)),
    );
    holds(tally, 3, "errors from std", errors::are_from_std());
    holds(
        tally,
        4,
        "errors for std",
        known(errors::are_for_std(alloc)),
    );
    holds(tally, 5, "records", known(tells_records(alloc)));
    holds(tally, 6, "entries of pages", known(lists_entries(alloc)));
    holds(tally, 7, "the sum of a record", sums_in_place());
    holds(tally, 8, "bytes over others", copies());
    holds(tally, 9, "the tail of a header", known(writes_tail(alloc)));
    holds(tally, 10, "bytes behind a word's", bumps());
    holds(tally, 11, "a blob", known(keeps_blob(alloc)));
    holds(tally, 12, "later blobs", known(collects_blobs(alloc)));
    holds(tally, 13, "damaged blobs", known(tells_damage(alloc)));
    holds(tally, 14, "a place of no memory", refuses_place(alloc));
    holds(tally, 15, "a reader that fails", ends_with_reader(alloc));
    holds(tally, 16, "a writer that fails", ends_with_writer(alloc));
    holds(tally, 17, "replies are flushed", flushes_replies(alloc));
    holds(tally, 18, "slots are handed out", known(hands_out(alloc)));
    holds(
        tally,
        28,
        "the file of a snapshot",
        known(spells_snapshot(alloc)),
    );
    hold_keys(alloc, tally);
    hold_sessions(alloc, tally);
    hold_orders(alloc, tally);
    hold_identifiers(alloc, tally);
    hold_folders(rt, tally);
    hold_formats(rt, tally);
}

// Keys in sorted vectors.
fn hold_keys(alloc: Global, tally: &mut Tally<'_>) {
    holds(tally, 29, "keys are found", known(sorted::find_all(alloc)));
    holds(
        tally,
        30,
        "keys come and go",
        known(sorted::move_keys(alloc)),
    );
}

// What sessions and logs tell.
fn hold_sessions(alloc: Global, tally: &mut Tally<'_>) {
    holds(tally, 19, "links", known(sessions::links_pages(alloc)));
    holds(tally, 20, "faults", known(sessions::keeps_failure(alloc)));
    holds(
        tally,
        27,
        "the header of a blob",
        known(sessions::heads_blob(alloc)),
    );
    holds(
        tally,
        37,
        "one command at a time",
        known(sessions::carries_out(alloc)),
    );
    holds(
        tally,
        45,
        "damage is left",
        known(sessions::leaves_damage(alloc)),
    );
    holds(
        tally,
        46,
        "the numbers of tickets",
        known(sessions::numbers_tickets(alloc)),
    );
}

// Buffers that are written in every order.
fn hold_orders(alloc: Global, tally: &mut Tally<'_>) {
    holds(tally, 21, "orders of writes", known(orders::hold(alloc)));
    holds(tally, 26, "whole batches", known(batches::hold(alloc)));
}

// Identifiers of a generator over the log.
fn hold_identifiers(alloc: Global, tally: &mut Tally<'_>) {
    holds(
        tally,
        22,
        "identifiers over flushes",
        known(identifiers::ascend_over_flushes(alloc)),
    );
    holds(
        tally,
        23,
        "identifiers over openings",
        known(identifiers::ascend_over_openings(alloc)),
    );
    holds(
        tally,
        24,
        "identifiers over segments",
        known(identifiers::fill_segments(alloc)),
    );
    holds(
        tally,
        25,
        "identifiers used up",
        known(identifiers::are_used_up(alloc)),
    );
}

// Folders of files, and copies of what they hold.
fn hold_folders(rt: &HostRuntime, tally: &mut Tally<'_>) {
    holds(tally, 31, "files are kept", folders::keeps_files(rt));
    holds(tally, 32, "files are found again", folders::finds_files(rt));
    holds(tally, 33, "files are read", folders::reads_files(rt));
    holds(
        tally,
        34,
        "files fail for good",
        folders::fails_for_good(rt),
    );
    holds(tally, 35, "the sum of files", folders::sums_as_others());
    holds(
        tally,
        36,
        "copies slot by slot",
        known(copies::are_own(rt.alloc())),
    );
}

// What folders tell of how they are kept.
fn hold_formats(rt: &HostRuntime, tally: &mut Tally<'_>) {
    holds(tally, 38, "formats are kept", formats::keep(rt));
    holds(tally, 39, "formats are refused", formats::refuse(rt));
    holds(tally, 40, "the first version", formats::take_first(rt));
    holds(tally, 41, "folders without one", formats::begin_old(rt));
    holds(tally, 42, "the sum of logs", formats::sum_as_others());
    holds(
        tally,
        43,
        "a header over zeros",
        known(torn::hold(rt.alloc())),
    );
    holds(tally, 44, "a checksum of one's own", formats::take_own(rt));
}

// Counts a case.
fn holds(tally: &mut Tally<'_>, number: usize, name: &str, is_so: bool) {
    let came = if is_so { name } else { "not so" };
    tally.case(number, name, came);
}

// An answer that is no error.
fn known(answer: Result<bool>) -> bool {
    match answer {
        Ok(is_so) => is_so,
        Err(_) => false,
    }
}

// Page 0 replaced by three sevens, in the first segment: the sum is 66 over the body and 54 over the header, and is
// stored flipped.
const RECORD: [u8; 12] = [135, 255, 255, 255, 6, 4, 0, 0, 3, 7, 7, 7];

// The record is one of its own message alone.
fn tells_records(alloc: Global) -> Result<bool> {
    let body = [3, 7, 7, 7];
    let is = |text: &[u8], page: PageId, number: u64, body: &[u8]| {
        let (kind, number) = (MessageKind::InlineMeta, SegmentNumber(number));
        is_record(alloc, &PlaceSum, text, kind, page, number, body)
    };
    let torn = [135, 255, 255, 255, 6, 4, 0, 0, 3, 7, 7, 6];
    let short = [135, 255, 255, 255, 6, 4, 0, 0, 3, 7, 7];
    Ok(
        is(&RECORD, 0, 0, &body)?
            && !is(&RECORD, 1, 0, &body)?
            && !is(&RECORD, 0, 1, &body)?
            && !is(&short, 0, 0, &body)?
            && !is(&torn, 0, 0, &[3, 7, 7, 6])?,
    )
}

// A message of a page at a place.
fn message(kind: LogKind, page: PageId, place: u64) -> Message<'static> {
    Message {
        kind,
        page,
        place,
        pointer: DiskPtr::Inline(place),
        size: 10,
        bytes: &[],
    }
}

// The messages that make a page up to a cut: how many they are, and the last one.
fn lists_entries(alloc: Global) -> Result<bool> {
    let messages = [
        message(LogKind::Replace, 5, 20),
        message(LogKind::Link, 5, 30),
        message(LogKind::Replace, 6, 40),
        message(LogKind::Free, 5, 50),
        message(LogKind::Replace, 5, 60),
    ];
    let rows = [
        (20, 5, 0, None),
        (30, 5, 1, Some(0)),
        (50, 5, 2, Some(1)),
        (60, 5, 1, Some(3)),
        (61, 5, 1, Some(4)),
        (61, 6, 1, Some(2)),
        (61, 7, 0, None),
    ];
    for (cut, page, count, last) in rows {
        let entries = entries_of_page(alloc, &messages, cut, page)?;
        let wanted = match last {
            Some(i) => messages.get(i),
            None => None,
        };
        if entries.len() != count || entries.last() != wanted {
            return Ok(false);
        }
    }
    Ok(true)
}

// Of a record whose sum is not written yet.
fn sums_in_place() -> bool {
    let mut bytes = [0, 0, 0, 0, 6, 4, 0, 0, 3, 7, 7, 7];
    sum_in_place(&PlaceSum, &mut bytes, 8) == u32::MAX - 120
        && bytes == [0, 0, 0, 0, 6, 4, 0, 0, 3, 7, 7, 7]
}

fn copies() -> bool {
    let mut bytes = [1, 2, 3, 4, 5];
    let one = copy_in(&[7, 8], &mut bytes, 2);
    let none = copy_in(&[], &mut bytes, 5);
    one == 4 && none == 5 && bytes == [1, 2, 7, 8, 5]
}

#[tactic(auto, using(sled_codec::specs::HeaderLaws::header_lengths))]
fn writes_tail(alloc: Global) -> Result<bool> {
    let header = MessageHeader {
        crc32: 0,
        kind: MessageKind::InlineMeta,
        len: 4,
        segment_number: SegmentNumber(0),
        pid: 0,
    };
    let mut bytes = Vec::new(alloc);
    bytes.resize(header.serialized_size() as usize, 9)?;
    let end = header.serialize_tail(&mut bytes, 4);
    Ok(end == 8 && bytes.as_slice() == [9, 9, 9, 9, 6, 4, 0, 0].as_slice())
}

// Twenty bytes, and then a writer.
fn bumps() -> bool {
    let word = bump_offset(0, 20);
    offset(word) == 20 && n_writers(word) == 0 && incr_writers(word) == 16777236
}

// A device in memory with segments of 256 bytes.
fn empty(alloc: Global) -> Result<RunningConfig<MemDevice, PlaceSum>> {
    match Config::new(256) {
        Some(config) => Ok(RunningConfig::new(alloc, config, MemDevice::new(alloc), PlaceSum)),
        None => Err(Error::Corruption { at: None }),
    }
}

// Twelve ones as a blob: the checksum is 7 and twice 12, and then 3 to 14.
const BLOB: [u8; 18] = [133, 0, 0, 0, 7, 12, 1, 1, 1, 1, 1, 1, 1, 1, 1, 1, 1, 1];

// A blob is made once, read, and removed.
fn keeps_blob(alloc: Global) -> Result<bool> {
    let mut config = empty(alloc)?;
    let item = vec![in alloc; 1u8; 12]?;
    write_blob(&mut config, MessageKind::BlobMeta, 20, &item)?;
    let is_there = config.device.blob_read(20)?.as_slice() == BLOB.as_slice();
    let (kind, bytes) = read_blob(&mut config, 20)?;
    let is_read = kind == MessageKind::BlobMeta && bytes.as_slice() == &BLOB[5..];
    let again = write_blob(&mut config, kind, 20, &item);
    Ok(is_there && is_read && is_io(&again, ErrorKind::AlreadyExists) && is_removed(&mut config)?)
}

// Blob 20 is removed, and it may be removed again.
fn is_removed(config: &mut RunningConfig<MemDevice, PlaceSum>) -> Result<bool> {
    remove_blob(config, 20)?;
    remove_blob(config, 20)?;
    Ok(is_io(&read_blob(config, 20), ErrorKind::NotFound))
}

// Blobs that lack bytes are damage.
fn tells_damage(alloc: Global) -> Result<bool> {
    let mut config = empty(alloc)?;
    config.device.blob_create(36, &BLOB[..4])?;
    config.device.blob_create(52, &BLOB[..17])?;
    let is_short = is_damage(&read_blob(&mut config, 36), None);
    let is_torn = is_damage(&read_blob(&mut config, 52), Some(DiskPtr::Blob(0, 52)));
    Ok(is_short && is_torn)
}

// Blobs 20, 36 and 300 from 36 on.
fn collects_blobs(alloc: Global) -> Result<bool> {
    let mut config = empty(alloc)?;
    for place in [20, 36, 300] {
        write_blob(&mut config, MessageKind::BlobNode, place, &())?;
    }
    gc_blobs(&mut config, 36)?;
    Ok(config.device.blobs()?.as_slice() == [20].as_slice())
}

// Segments 0 and 256 get slots 0 and 1. A message of segment 0 may be marked, and one of segment 1 may not be in slot 0.
fn hands_out(alloc: Global) -> Result<bool> {
    let mut config = empty(alloc)?;
    let mut accountant = SegmentAccountant::fresh(&config);
    let slots = (
        accountant.next(&mut config, 0)?,
        accountant.next(&mut config, 256)?,
    );
    let (here, elsewhere) = (record_at(20, 20), record_at(20, 276));
    let is_marked = accountant.can_mark(here, &[]) && !accountant.can_mark(elsewhere, &[]);
    if is_marked {
        accountant.mark_link(&mut config, 0, here)?;
    }
    Ok(is_marked && slots == (0, 256))
}

// A record of 10 bytes, as the accountant knows it.
fn record_at(lsn: i64, lid: u64) -> CacheInfo {
    CacheInfo {
        lsn,
        pointer: DiskPtr::Inline(lid),
        log_size: 10,
    }
}

// The file of the snapshot with the stable place 32, the active segment at 0, and one page, whose base is a record of 12
// bytes at 20: its 21 bytes, their number, and their sum, 33 + 9 + 10 + 11 * 20 + 20 * 20 + 21 * 12 = 924.
const SNAPSHOT_FILE: [u8; 33] = [
    33, 0, 0, 0, 0, 0, 0, 0, 1, 1, 20, 0, 0, 0, 0, 0, 0, 0, 0, 20, 12, 21, 0, 0, 0, 0, 0, 0, 0,
    156, 3, 0, 0,
];

// It is read, and written again as it is. With another length, another sum, or too short for them it is damage.
fn spells_snapshot(alloc: Global) -> Result<bool> {
    let snapshot = decode_file(alloc, &PlaceSum, &SNAPSHOT_FILE)?;
    if !snapshot.can_serialize() || snapshot.serialized_size() >= 1 << 20 {
        return Ok(false);
    }
    let is_written = encode_file(alloc, &PlaceSum, &snapshot)?.as_slice()
        == SNAPSHOT_FILE.as_slice();
    let (mut long, mut torn) = (SNAPSHOT_FILE, SNAPSHOT_FILE);
    long[21] = 22;
    torn[29] = 157;
    let are_damage = is_damage(&decode_file(alloc, &PlaceSum, &long), None)
        && is_damage(&decode_file(alloc, &PlaceSum, &torn), None)
        && is_damage(&decode_file(alloc, &PlaceSum, &SNAPSHOT_FILE[..11]), None);
    Ok(snapshot.stable_lsn == Some(32) && is_written && are_damage)
}

// A write that no memory holds.
fn refuses_place(alloc: Global) -> bool {
    let mut device = MemDevice::new(alloc);
    match device.write_at(u64::MAX, &[1]) {
        Ok(()) => false,
        Err(e) => e.kind() == ErrorKind::OutOfMemory && device.failures() == 0,
    }
}

// The answer is an error of the device, of this kind.
fn is_io<T>(answer: &Result<T>, kind: ErrorKind) -> bool {
    match answer {
        Err(Error::Io(e)) => e.kind() == kind,
        _ => false,
    }
}

// The answer is damage, of this blob or of none.
fn is_damage<T>(answer: &Result<T>, blob: Option<DiskPtr>) -> bool {
    match answer {
        Err(Error::Corruption { at }) => *at == blob,
        _ => false,
    }
}

// A reader that gives these bytes, and then fails.
#[derive(Drop)]
struct Failing<'a>(&'a [u8]);

impl Read for Failing<'_> {
    fn read(&mut self, buf: &mut [u8]) -> io::Result<usize> {
        if self.0.is_empty() {
            return Err(io::Error::other("no more"));
        }
        self.0.read(buf)
    }
}

impl BufRead for Failing<'_> {
    fn fill_buf(&mut self) -> io::Result<&[u8]> {
        if self.0.is_empty() {
            return Err(io::Error::other("no more"));
        }
        Ok(self.0)
    }

    fn consume(&mut self, amount: usize) {
        self.0.consume(amount);
    }
}

// `slog` ends where the reader fails, behind what it has printed.
fn ends_with_reader(alloc: Global) -> bool {
    let mut printed = Vec::new(alloc);
    let status = run_lines(alloc, Failing(b"size 256\nopen\nfl"), &mut printed);
    status == 1 && printed.as_slice() == b"opened - - 0\n".as_slice()
}

// A writer that takes no bytes.
#[derive(Drop)]
struct Full;

impl Write for Full {
    fn write(&mut self, _buf: &[u8]) -> io::Result<usize> {
        Err(io::Error::other("no room"))
    }

    fn flush(&mut self) -> io::Result<()> {
        Ok(())
    }
}

// `slog` ends where the writer fails.
fn ends_with_writer(alloc: Global) -> bool {
    let lines: &[u8] = b"size 256\nopen\nflush\n";
    let bad: &[u8] = b"open\n";
    run_lines(alloc, lines, Full) == 1 && run_lines(alloc, bad, Full) == 1
}

// A writer that fails where a line is begun before the one in front of it was flushed.
#[derive(Drop)]
struct Prompt {
    is_due: bool,
}

impl Write for Prompt {
    fn write(&mut self, buf: &[u8]) -> io::Result<usize> {
        if self.is_due {
            return Err(io::Error::other("the last line was not flushed"));
        }
        self.is_due = buf.ends_with(b"\n");
        Ok(buf.len())
    }

    fn flush(&mut self) -> io::Result<()> {
        self.is_due = false;
        Ok(())
    }
}

// `slog` flushes each reply before it begins the next one.
fn flushes_replies(alloc: Global) -> bool {
    let lines: &[u8] = b"size 256\nopen\nopen\nreplace 0 07\nflush\ncomplete 0\nread 0\nhalt\n";
    run_lines(alloc, lines, Prompt { is_due: false }) == 0
}
