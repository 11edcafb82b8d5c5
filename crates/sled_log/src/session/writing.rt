//! Writing what was reserved.
ghost use Rattle.std.specs.Prelude.{Bool, ◌≡◌, None};
ghost use Rattle.sled_core.specs.Fits.{config_of};
ghost use Rattle.sled_log.specs.declared.session.command.Command.TheVariants as told;
ghost use Rattle.sled_log.specs.LogActs.{ActsOver};
ghost use Rattle.sled_log.specs.RunPhases.{CarriesHere, RunsOn, view_by};

use crate::session::Phase;
use crate::session::command::{Refusal, Reply};
use crate::session::opened::Opened;
use sled_codec::result::Lsn;
use sled_codec::serialization::Checksum;
use sled_store::Device;

/// Writes one of the sealed buffers that can be written, and syncs it.
pub(crate) fn write<D: Device, C: Checksum>(opened: &mut Opened<D, C>, i: usize) -> Reply
    ensures step { (stopped : D → Bool) → opened.old.due ≡ None → CarriesHere (view_by D.trace D.faults stopped) C.sum_of
        (Phase.Open opened.old) (told.Write i) (Phase.Open opened.new, result) }
    ensures device { (stopped : D → Bool) → ActsOver (view_by D.trace D.faults stopped) C.sum_of opened.old.log (told.Write i) result opened.new.log }
    ensures on { RunsOn D.trace (config_of opened.old.log) (config_of opened.new.log) }
{
    if i >= opened.log.pending() {
        return Reply::Refused(Refusal::Index);
    }
    match opened.log.write_to_log(i) {
        Ok(()) => Reply::Written,
        Err(e) => Reply::Failed(e),
    }
}

/// Writes all that was reserved, and syncs it.
pub(crate) fn flush<D: Device, C: Checksum>(opened: &mut Opened<D, C>) -> Reply
    ensures step { (stopped : D → Bool) → opened.old.due ≡ None → CarriesHere (view_by D.trace D.faults stopped) C.sum_of
        (Phase.Open opened.old) told.Flush (Phase.Open opened.new, result) }
    ensures device { (stopped : D → Bool) → ActsOver (view_by D.trace D.faults stopped) C.sum_of opened.old.log told.Flush result opened.new.log }
    ensures on { RunsOn D.trace (config_of opened.old.log) (config_of opened.new.log) }
{
    match opened.log.flush() {
        Ok(grown) => Reply::Flushed(grown),
        Err(e) => Reply::Failed(e),
    }
}

/// Makes the message at a place durable, and all before it.
pub(crate) fn stabilize<D: Device, C: Checksum>(opened: &mut Opened<D, C>, place: Lsn) -> Reply
    ensures step { (stopped : D → Bool) → opened.old.due ≡ None → CarriesHere (view_by D.trace D.faults stopped) C.sum_of
        (Phase.Open opened.old) (told.Stable place) (Phase.Open opened.new, result) }
    ensures device { (stopped : D → Bool) → ActsOver (view_by D.trace D.faults stopped) C.sum_of opened.old.log (told.Stable place) result opened.new.log }
    ensures on { RunsOn D.trace (config_of opened.old.log) (config_of opened.new.log) }
{
    match opened.log.make_stable(place) {
        Ok(more) => Reply::Flushed(more),
        Err(e) => Reply::Failed(e),
    }
}
