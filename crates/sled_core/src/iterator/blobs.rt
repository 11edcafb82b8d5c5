//! The blob that a record of a log file names: the record is a message where its blob is there, and else it was given up
//! (`specs/Replayed.antt`).
ghost use Rattle.std.specs.Prelude.{◌≡◌, OnErr, OnOk};
ghost use Rattle.sled_codec.specs.Errors.{IsCorruption};
ghost use Rattle.sled_store.specs.Device.{state_of};
ghost use Rattle.sled_store.specs.Blobs.{OnDamage};
ghost use Rattle.sled_core.specs.Causes.{ItemAnswersOver};
ghost use Rattle.sled_core.specs.Keeps.{OnlyReads};
ghost use Rattle.sled_core.specs.Replayed.{NamesKind, HasBadBlob, NamesBlobOf, resolved};

use crate::iterator::scan::{RecordContent, ScannedRecord};
use sled_codec::result::{DiskPtr, Result};
use sled_codec::serialization::{Checksum, LogKind};
use sled_store::blob_io::read_item;
use sled_store::{Device, RunningConfig};

/// Looks for the blob that a record names, if any, and makes the record what it is with that. After an error it is as it was.
///
/// # Errors
///
/// `Corruption` where the blob doesn't pass for its record (named where its checksum fails); `Io` where the device failed, and
/// `OutOfMemory`.
#[inline(always)]
pub fn find_blob<D: Device, C: Checksum>(
    config: &mut RunningConfig<D, C>,
    met: &mut ScannedRecord,
) -> Result<()>
    requires { NamesKind met.old.what }
    ensures met { let blobs = (state_of (D.trace config.old.device)).blobs.file in OnOk result (met.new ≡ resolved blobs met.old) }
    ensures good { let blobs = (state_of (D.trace config.old.device)).blobs.file in OnOk result (HasBadBlob C.sum_of blobs met.old.what → ⊥) }
    ensures bad { let blobs = (state_of (D.trace config.old.device)).blobs.file in IsCorruption result → HasBadBlob C.sum_of blobs met.old.what }
    ensures named { let blobs = (state_of (D.trace config.old.device)).blobs.file in OnDamage result (NamesBlobOf C.sum_of blobs met.old.what) }
    ensures err { OnErr result (met.new ≡ met.old) }
    ensures answers { ItemAnswersOver D.trace D.faults C.sum_of result config.old config.new }
    ensures reads { OnlyReads D.trace config.old config.new }
{
    let RecordContent::NamesBlob(kind, page, lid, place) = met.what else {
        return Ok(());
    };
    met.what = match read_item(config, kind, place) {
        Ok(Some(_)) => RecordContent::Gives(LogKind::from(kind), page, DiskPtr::Blob(lid, place)),
        Ok(None) => RecordContent::Skipped,
        Err(e) => return Err(e),
    };
    Ok(())
}
