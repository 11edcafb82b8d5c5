//! The blobs that records of a log file name, record by record (`specs/Recovery.antt`).
ghost use Rattle.std.specs.Prelude.{◌≡◌, ◌<◌, ◌^◌, OnOk};
ghost use Rattle.std.specs.List.{All};
ghost use Rattle.sled_store.specs.Blobs.{OnDamage};
ghost use Rattle.sled_store.specs.Device.{state_of};
ghost use Rattle.sled_core.specs.Causes.{ItemAnswersOver};
ghost use Rattle.sled_core.specs.Keeps.{OnlyReads};
ghost use Rattle.sled_log.specs.Recovery.{NamesKind, MeetsBadBlob, NamesBadBlob, resolved_before, before_open};

use sled_codec::result::Result;
use sled_codec::serialization::Checksum;
use sled_core::iterator::blobs::find_blob;
use sled_core::iterator::records::opens;
use sled_core::iterator::scan::ScannedRecord;
use sled_store::{Device, RunningConfig};

/// Looks for the blob of each record that names one, up to a batch that does not end below `end`. `Corruption` comes
/// where a blob doesn't pass for its record, and names the blob where its checksum fails.
pub(crate) fn resolve<D: Device, C: Checksum>(
    config: &mut RunningConfig<D, C>,
    met: &mut [ScannedRecord],
    end: u64,
) -> Result<()>
    requires end { end < 2 ^ 63 }
    requires kinds { All (λ m. NamesKind m.what) met.old }
    ensures met { let blobs = (state_of (D.trace config.old.device)).blobs.file in OnOk result (met.new ≡ resolved_before blobs end met.old) }
    ensures good { let blobs = (state_of (D.trace config.old.device)).blobs.file in
        OnOk result (MeetsBadBlob C.sum_of blobs (before_open end met.old) → ⊥) }
    ensures bad { let blobs = (state_of (D.trace config.old.device)).blobs.file in
        OnDamage result (NamesBadBlob C.sum_of blobs (before_open end met.old)) }
    ensures answers { ItemAnswersOver D.trace D.faults C.sum_of result config.old config.new }
    ensures reads { OnlyReads D.trace config.old config.new }
{
    for i in 0..met.len() {
        if opens(&met[i].what, end) {
            return Ok(());
        }
        match find_blob(config, &mut met[i]) {
            Ok(()) => {}
            Err(e) => return Err(e),
        }
    }
    Ok(())
}

/// Reads the blob of each record that names one. `Corruption` comes where a blob doesn't pass for its record, and names the
/// blob where its checksum fails.
pub(crate) fn check<D: Device, C: Checksum>(
    config: &mut RunningConfig<D, C>,
    met: &[ScannedRecord],
) -> Result<()>
    requires kinds { All (λ m. NamesKind m.what) met.now }
    ensures good { let blobs = (state_of (D.trace config.old.device)).blobs.file in OnOk result (MeetsBadBlob C.sum_of blobs met.now → ⊥) }
    ensures bad { let blobs = (state_of (D.trace config.old.device)).blobs.file in OnDamage result (NamesBadBlob C.sum_of blobs met.now) }
    ensures answers { ItemAnswersOver D.trace D.faults C.sum_of result config.old config.new }
    ensures reads { OnlyReads D.trace config.old config.new }
{
    for m in met {
        let mut found = *m;
        match find_blob(config, &mut found) {
            Ok(()) => {}
            Err(e) => return Err(e),
        }
    }
    Ok(())
}
