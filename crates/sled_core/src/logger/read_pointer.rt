//! Reading what a pointer names: a record with the item of its message, or a blob alone.
//!
//! `specs/ReadPointer.antt` says what is read.
ghost use Rattle.std.specs.Prelude.{IfErr, IfOk, ◌≡◌};
ghost use Rattle.sled_codec.specs.Places.{MayBegin};
ghost use Rattle.sled_codec.specs.Pointers.{lid_of};
ghost use Rattle.sled_store.specs.Blobs.{BlobAnswers};
ghost use Rattle.sled_store.specs.Device.{state_of};
ghost use Rattle.sled_core.specs.Keeps.{OnlyReads};
ghost use Rattle.sled_core.specs.ReadPointer.{IsBlobRead, IsReadOf, place_read};
ghost use Rattle.sled_core.specs.inside.ReadPointer.{IsDamageOf, PointerAnswers};

use crate::logger::read_message::{LogRead, read_message};
use sled_codec::result::{BlobPointer, DiskPtr, Lsn, PageId, Result};
use sled_codec::serialization::{Checksum, MessageHeader, SegmentNumber};
use sled_store::blob_io::read_blob;
use sled_store::{Device, RunningConfig};

/// The place whose buffer a read brings to the device: that of the message, or for one whose item is a blob that of the blob.
pub(crate) fn place_read(lsn: Lsn, ptr: &DiskPtr) -> Lsn
    ensures { result ≡ place_read lsn ptr.now }
{
    match *ptr {
        DiskPtr::Inline(_) => lsn,
        DiskPtr::Blob(_, place) => place,
    }
}

/// Reads what a pointer names, for a page and a segment of this number.
pub(crate) fn read_pointer<D: Device, C: Checksum>(
    config: &mut RunningConfig<D, C>,
    page: PageId,
    number: SegmentNumber,
    ptr: DiskPtr,
) -> Result<LogRead>
    requires { MayBegin config.old.config.segment_size (lid_of ptr) }
    ensures reading { IfOk result (IsReadOf C.sum_of config.old.config.segment_size (state_of (D.trace config.old.device)) page number.0 ptr) }
    ensures damage { IfErr result (IsDamageOf C.sum_of config.old.config.segment_size (state_of (D.trace config.old.device)) number.0 ptr) }
    ensures answers { let blobs = (state_of (D.trace config.old.device)).blobs.file in
        PointerAnswers C.sum_of blobs ptr result (D.faults config.old.device) (D.faults config.new.device) }
    ensures reads { OnlyReads D.trace config.old config.new }
{
    match ptr {
        DiskPtr::Inline(lid) => read_message(config, None, lid, number),
        DiskPtr::Blob(_, place) => read_blob_at(config, page, number, place),
    }
}

/// Reads the blob at a place, and answers it under a header of this page and this number.
fn read_blob_at<D: Device, C: Checksum>(
    config: &mut RunningConfig<D, C>,
    page: PageId,
    number: SegmentNumber,
    place: BlobPointer,
) -> Result<LogRead>
    ensures reading { let blobs = (state_of (D.trace config.old.device)).blobs.file in IfOk result (IsBlobRead C.sum_of blobs page number.0 place) }
    ensures answers { let file = (state_of (D.trace config.old.device)).blobs.file place in
        BlobAnswers C.sum_of place result file (D.faults config.old.device) (D.faults config.new.device) }
    ensures reads { OnlyReads D.trace config.old config.new }
{
    let (kind, item) = read_blob(config, place)?;
    let header = MessageHeader {
        crc32: 0,
        kind,
        segment_number: number,
        pid: page,
        len: 0,
    };
    Ok(LogRead::Blob(header, item, place, 0))
}
