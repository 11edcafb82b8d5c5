//! What is met in one segment of the pass. Its slot is read at once, and then record by record, up to a batch that is open
//! (`IsReplayed`, `specs/Replayed.antt` of `sled_core`).
ghost use Rattle.std.specs.Prelude.{◌≡◌, ◌+◌, ◌^◌, ◌≤◌, ◌<◌, IfOk, is_some};
ghost use Rattle.std.specs.List.{All};
ghost use Rattle.sled_codec.specs.Errors.{IsCorruption};
ghost use Rattle.sled_store.specs.Device.{state_of};
ghost use Rattle.sled_store.specs.Causes.{DeviceAnswers};
ghost use Rattle.sled_core.specs.Keeps.{OnlyReads};
ghost use Rattle.sled_log.specs.Recovery.{IsReplayed, open_at, scanned_of};
ghost use Rattle.sled_log.specs.Passes.{CanBeRead, IsDamagedBefore};

use sled_codec::result::Result;
use sled_codec::serialization::Checksum;
use sled_core::iterator::records::{opens, scan_slot};
use sled_core::iterator::scan::{ScannedRecord, SegmentScan};
use sled_core::iterator::{Segment, read_slot_into};
use sled_core::logger::read_at::BasedBuf;
use sled_store::{Device, RunningConfig};

/// What is met in a segment, whose slot is read into this buffer, up to and with the first batch that does not end below `end`. Where such a batch is met,
/// why the reading ends says nothing. `Corruption` comes where a damaged record is met before.
pub(crate) fn scan_up_to<D: Device, C: Checksum>(
    config: &mut RunningConfig<D, C>,
    segment: &Segment,
    end: u64,
    buf: &mut BasedBuf,
) -> Result<SegmentScan>
    requires ready { CanBeRead config.old.config.segment_size (state_of (D.trace config.old.device)).log.bytes segment.now }
    requires end { end < 2 ^ 63 }
    ensures passed { IfOk result (λ s. IsReplayed C.sum_of config.old.config.segment_size (state_of (D.trace config.old.device)).log.bytes end
        (scanned_of segment.now s)) }
    ensures stop { IfOk result (λ s. s.stop ≤ config.old.config.segment_size) }
    ensures places { IfOk result (λ s. All (λ m. m.place < segment.now.place + config.old.config.segment_size) s.met.items) }
    ensures damaged { IsCorruption result → IsDamagedBefore C.sum_of config.old.config.segment_size
        (state_of (D.trace config.old.device)).log.bytes end segment.now }
    ensures answers { DeviceAnswers result (D.faults config.old.device) (D.faults config.new.device) }
    ensures reads { OnlyReads D.trace config.old config.new }
{
    match read_slot_into(config, segment.slot, buf) {
        Ok(()) => scan_slot(config, buf, segment, end),
        Err(e) => Err(e),
    }
}

/// Whether a batch that does not end below a place begins among these.
pub(crate) fn is_open(met: &[ScannedRecord], end: u64) -> bool
    requires { end < 2 ^ 63 }
    ensures { result ≡ is_some (open_at end met.now) }
{
    for record in met {
        if opens(&record.what, end) {
            return true;
        }
    }
    false
}
