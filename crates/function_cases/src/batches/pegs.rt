//! Where a batch may end: in any record from its manifest on, which may be the manifest's own or one that was aborted, or in the
//! header of a segment; but in nothing that fills a segment, whatever of that is on the device.
//!
//! All places are worked out by hand. The header of a segment has 20 bytes and a manifest 24; a message has 9 bytes and its item.
//! A record begins where at least 32 bytes of its segment are left. A place is also the offset in the file.

use crate::batches::logged::{Writer, begun};
use crate::batches::parts::Part;
use crate::batches::{Case, finds_twice, holds_of_both, table, table_of};
use sled_log::logger::{DiskPtr, LogKind, Lsn};
use sled_log::result::{Error, Result};
use sled_log::snapshot::Snapshot;
use std::alloc::Global;

/// Whether the log and each recovery do what they have to.
pub fn hold(alloc: Global) -> Result<bool> {
    Ok(
        of_no_messages(alloc)?
            && over_one_given_up(alloc)?
            && torn_without_messages(alloc)?
            && up_to_an_aborted_one(alloc)?
            && torn_with_an_aborted_one(alloc)?
            && in_front_of_zeros(alloc)?
            && in_front_of_caps(alloc)?,
    )
}

// The manifest, up to 43, is all that the batch has.
fn of_no_messages(alloc: Global) -> Result<bool> {
    let mut writer = Writer::new(alloc, begun(alloc, 256)?);
    let came = ends_in_its_own_record(alloc, &mut writer);
    leaves(writer, came, table(alloc, 44, Some(0), &[]))
}

fn ends_in_its_own_record(alloc: Global, writer: &mut Writer) -> Result<bool> {
    writer.make(alloc, Part::Manifest(43))?;
    let is_told = tells(writer, &[(19, false), (20, true), (43, true), (44, false)]);
    Ok(is_told && is_ended(writer, 20, 43)? && is_flushed(writer, 44)?)
}

// Two manifests, of which the second one gets its own place, 44, as the peg. So it begins no batch, and that of the first one
// may end behind it.
fn over_one_given_up(alloc: Global) -> Result<bool> {
    let mut writer = Writer::new(alloc, begun(alloc, 256)?);
    let came = ends_over_one_given_up(alloc, &mut writer);
    leaves(writer, came, table(alloc, 68, Some(0), &[]))
}

fn ends_over_one_given_up(alloc: Global, writer: &mut Writer) -> Result<bool> {
    writer.make(alloc, Part::Manifest(67))?;
    writer.make(alloc, Part::Manifest(44))?;
    let is_given_up = is_ended(writer, 44, 44)?;
    let is_told = tells(writer, &[(43, true), (44, true), (67, true), (68, false)]);
    Ok(is_given_up && is_told && is_ended(writer, 20, 67)? && is_flushed(writer, 68)?)
}

// A message that is in no batch follows in the second buffer. The peg, 183, has seven bytes of zeros, so the manifest is there
// before its record ends, and the batch with it.
fn torn_without_messages(alloc: Global) -> Result<bool> {
    let case = Case {
        len: 256,
        parts: &[
            (0, 160, Part::Manifest(183), 177),
            (1, 184, Part::Page(0), 204),
        ],
        buffers: &[(160, 184), (184, 204)],
        messages: &[184],
        found: &[(160, Some(0), 0), (184, Some(0), 0), (204, Some(0), 1)],
    };
    holds_of_both(alloc, &case)
}

// The last record of the batch, up to 83, was aborted and is written before the manifest ends.
fn up_to_an_aborted_one(alloc: Global) -> Result<bool> {
    let mut writer = Writer::new(alloc, begun(alloc, 256)?);
    let came = ends_in_an_aborted_one(alloc, &mut writer);
    leaves(writer, came, table(alloc, 84, Some(0), &[44]))
}

fn ends_in_an_aborted_one(alloc: Global, writer: &mut Writer) -> Result<bool> {
    writer.make(alloc, Part::Manifest(83))?;
    let is_sealed = writer.log.roll_iobuf()? == 44;
    writer.make(alloc, Part::Page(0))?;
    let is_message = ends_last(writer, 44)?;
    writer.make(alloc, Part::Canceled)?;
    let is_aborted = ends_last(writer, 64)?;
    let is_ready = writer.log.roll_iobuf()? == 40 && writer.log.pending() == 1;
    write(writer, 0)?;
    let is_told = tells(writer, &[(63, true), (64, true), (83, true), (84, false)]);
    Ok(
        is_sealed
            && is_message
            && is_aborted
            && is_ready
            && is_told
            && is_ended(writer, 20, 83)?
            && is_flushed(writer, 84)?,
    )
}

// The peg, 223, is the last place of the record that was aborted, in a buffer of its own. The last buffer has a message that is
// in no batch and leaves 12 bytes, so the segment is full behind it.
fn torn_with_an_aborted_one(alloc: Global) -> Result<bool> {
    let case = Case {
        len: 256,
        parts: &[
            (0, 160, Part::Manifest(223), 177),
            (0, 184, Part::Page(0), 204),
            (1, 204, Part::Canceled, 224),
            (2, 224, Part::Page(1), 244),
        ],
        buffers: &[(160, 204), (204, 224), (224, 244)],
        messages: &[184, 224],
        found: &[
            (160, Some(0), 0),
            (160, Some(0), 0),
            (160, Some(0), 0),
            (224, Some(0), 1),
            (256, None, 2),
        ],
    };
    holds_of_both(alloc, &case)
}

// Messages of 20 bytes, of which the first segment has ten behind the manifest, up to 243, and the second one eleven, up to
// 495. So 12 and 16 bytes are left, and those are zeros.
fn in_front_of_zeros(alloc: Global) -> Result<bool> {
    let filling = Filling {
        size: 256,
        item: 11,
        messages: &[
            44, 64, 84, 104, 124, 144, 164, 184, 204, 224, 276, 296, 316, 336, 356, 376, 396, 416,
            436, 456, 476, 532,
        ],
        told: &[
            (19, false),
            (20, true),
            (43, true),
            (44, true),
            (243, true),
            (244, false),
            (255, false),
            (256, true),
            (275, true),
            (276, true),
            (495, true),
            (496, false),
            (511, false),
            (512, true),
            (531, true),
            (532, true),
            (551, true),
            (552, false),
        ],
        end: 552,
    };
    is_kept_clear(alloc, &filling)
}

// Messages of 84 bytes, of which the first segment has five behind the manifest, up to 463, and the second one five, up to 951.
// So 48 and 72 bytes are left, too few for one more, and they begin with a cap.
fn in_front_of_caps(alloc: Global) -> Result<bool> {
    let filling = Filling {
        size: 512,
        item: 75,
        messages: &[44, 128, 212, 296, 380, 532, 616, 700, 784, 868, 1044],
        told: &[
            (19, false),
            (20, true),
            (43, true),
            (44, true),
            (463, true),
            (464, false),
            (511, false),
            (512, true),
            (531, true),
            (532, true),
            (951, true),
            (952, false),
            (1023, false),
            (1024, true),
            (1043, true),
            (1044, true),
            (1127, true),
            (1128, false),
        ],
        end: 1128,
    };
    is_kept_clear(alloc, &filling)
}

// Two segments that are full, and a third one that is begun.
#[derive(Clone, Copy)]
struct Filling<'a> {
    // The length of a segment.
    size: u64,
    // The length of each item.
    item: u64,
    // Where the message of each page lies, from page 0 on.
    messages: &'a [u64],
    // Whether the batch may end there.
    told: &'a [(Lsn, bool)],
    // Where the last message ends.
    end: u64,
}

// Whether a batch ends at each place where it may.
fn is_kept_clear(alloc: Global, filling: &Filling<'_>) -> Result<bool> {
    let mut is_so = true;
    for (peg, may) in filling.told {
        if *may {
            is_so &= ends_there(alloc, filling, *peg)?;
        }
    }
    Ok(is_so)
}

// Whether a recovery finds all behind a batch with this peg.
fn ends_there(alloc: Global, filling: &Filling<'_>, peg: Lsn) -> Result<bool> {
    let mut writer = Writer::new(alloc, begun(alloc, filling.size)?);
    let came = is_told_throughout(alloc, &mut writer, filling, peg);
    let active = filling.size.checked_mul(2);
    let len = filling.item.saturating_add(9);
    let cut = filling.end.cast_signed();
    leaves(
        writer,
        came,
        table_of(alloc, cut, active, filling.messages, len),
    )
}

// The manifest's buffer holds nothing else, and waits for it. The second segment is written first, so that the log keeps none of
// its records when it is asked where the batch may end; and then the rest of the first one.
fn is_told_throughout(
    alloc: Global,
    writer: &mut Writer,
    filling: &Filling<'_>,
    peg: Lsn,
) -> Result<bool> {
    writer.make(alloc, Part::Manifest(peg))?;
    let is_sealed = writer.log.roll_iobuf()? == 44;
    let is_filled = fills(alloc, writer, filling)? && writer.log.pending() == 2;
    let is_told = tells(writer, filling.told);
    write(writer, 1)?;
    let is_told_behind = tells(writer, filling.told);
    write(writer, 0)?;
    Ok(
        is_sealed
            && is_filled
            && is_told
            && is_told_behind
            && tells(writer, filling.told)
            && is_ended(writer, 20, peg)?
            && is_flushed(writer, filling.end)?,
    )
}

// Whether each message lies where it has to. They are completed at once.
fn fills(alloc: Global, writer: &mut Writer, filling: &Filling<'_>) -> Result<bool> {
    let item = vec![in alloc; 7u8; filling.item as usize]?;
    let mut is_so = true;
    for (n, place) in filling.messages.iter().enumerate() {
        let page = n as u64;
        writer.reserve(LogKind::Replace, page, &item, Part::Page(page))?;
        is_so &= ends_last(writer, *place)?;
    }
    Ok(is_so)
}

// Ends what was reserved last, and says whether it lies at this place.
fn ends_last(writer: &mut Writer, place: u64) -> Result<bool> {
    let Some((part, ticket)) = writer.tickets.pop() else {
        return Ok(false);
    };
    let is_there = ticket.lsn() == place.cast_signed();
    writer.end_one(part, ticket)?;
    Ok(is_there)
}

// Whether the log says of each place whether the batch of the manifest, which is reserved first, may end there.
fn tells(writer: &Writer, told: &[(Lsn, bool)]) -> bool {
    let Some((_, ticket)) = writer.tickets.first() else {
        return false;
    };
    let mut is_so = true;
    for (peg, may) in told {
        is_so &= writer.log.may_end_at(ticket, *peg) == *may;
    }
    is_so
}

// Gives the log up, and says whether all came as it has to and two recoveries find this table.
fn leaves(writer: Writer, came: Result<bool>, wanted: Result<Snapshot>) -> Result<bool> {
    let mut config = writer.end();
    Ok(came? && finds_twice(&mut config, &wanted?)?)
}

// Ends the manifest that was reserved last, and says whether the log answers with this place.
fn is_ended(writer: &mut Writer, at: u64, peg: Lsn) -> Result<bool> {
    let Some((_, ticket)) = writer.tickets.pop() else {
        return Ok(false);
    };
    if !writer.log.is_open(&ticket)
        || !ticket.is_manifest()
        || !writer.log.may_end_at(&ticket, peg)
    {
        ticket.abandon();
        return Ok(false);
    }
    let (place, pointer) = writer.log.mark_writebatch(ticket, peg)?;
    Ok(place == at.cast_signed() && pointer == DiskPtr::Inline(at))
}

// Whether nothing is stable in front of the flush, and all up to this place behind it.
fn is_flushed(writer: &mut Writer, end: u64) -> Result<bool> {
    let is_before = writer.log.stable_offset() == -1;
    let count = writer.log.flush()? as u64;
    let stable = writer.log.stable_offset();
    Ok(is_before && count == end && stable.checked_add(1) == Some(end.cast_signed()))
}

// Writes one of the buffers that can be written.
fn write(writer: &mut Writer, index: usize) -> Result<()> {
    if index >= writer.log.pending() {
        return Err(Error::Corruption { at: None });
    }
    writer.log.write_to_log(index)
}
