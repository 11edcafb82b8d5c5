//! Opening a log on what a recovery gives.
ghost use Rattle.std.specs.Prelude.{Bool, ◌≡◌, false};
ghost use Rattle.sled_codec.specs.Snapshots.{model_of};
ghost use Rattle.sled_log.specs.declared.session.command.Command.TheVariants as told;
ghost use Rattle.sled_log.specs.Devices.{TouchesIn, is_open, opens_after};
ghost use Rattle.sled_log.specs.RunPhases.{CarriesOut, RunsOn, device_in, running, view_by};
ghost use Rattle.sled_log.specs.OpenSteps.{HasStarted};
ghost use Rattle.sled_log.specs.Openings.{Starts};

use crate::session::Phase;
use crate::session::command::Reply;
use crate::session::opened::{Opened, Origin};
use crate::session::tickets::Tickets;
use crate::snapshot::{Snapshot, read_startable_snapshot};
use sled_codec::serialization::Checksum;
use sled_core::logger::Log;
use sled_store::{Device, RunningConfig};

/// Recovers what the device has, and opens a log on it.
pub(crate) fn open<D: Device, C: Checksum>(config: RunningConfig<D, C>) -> (Phase<D, C>, Reply)
    ensures step { (stopped : D → Bool) → CarriesOut (view_by D.trace D.faults stopped) C.sum_of (Phase.Closed config) told.Open result }
    ensures device { (stopped : D → Bool) → TouchesIn (view_by D.trace D.faults stopped) C.sum_of (Phase.Closed config) told.Open result.0 result.1 }
    ensures on { RunsOn D.trace config (running result.0) }
{
    let mut config = config;
    match read_startable_snapshot(&mut config) {
        Ok(snapshot) => start(config, snapshot),
        Err(e) => (Phase::Closed(config), Reply::Failed(e)),
    }
}

/// Opens a log on what was recovered.
fn start<D: Device, C: Checksum>(
    config: RunningConfig<D, C>,
    snapshot: Snapshot,
) -> (Phase<D, C>, Reply)
    ensures acts { (stopped : D → Bool) → let view = view_by D.trace D.faults stopped in
        HasStarted config.config.segment_size result.1 (view config.device) (model_of snapshot) (device_in view result.0) }
    ensures starts { (stopped : D → Bool) → Starts (view_by D.trace D.faults stopped) C.sum_of config (model_of snapshot) result }
    ensures opens { is_open result.0 ≡ opens_after false told.Open result.1 }
    ensures on { RunsOn D.trace config (running result.0) }
{
    let alloc = config.alloc();
    let origin = Origin {
        size: config.config.segment_size,
        floor: snapshot.stable_place(),
    };
    match Log::start(config, &snapshot) {
        Ok(log) => {
            let pages = snapshot.pt.len();
            let reply = Reply::Opened {
                stable: snapshot.stable_lsn,
                active: snapshot.active_segment,
                pages,
            };
            let opened = Opened {
                alloc,
                log,
                origin,
                pages: snapshot.pt,
                busy: Vec::new(alloc),
                batch: None,
                tickets: Tickets::new(alloc),
                due: None,
            };
            (Phase::Open(opened), reply)
        }
        Err((e, config)) => (Phase::Closed(config), Reply::Failed(e)),
    }
}
