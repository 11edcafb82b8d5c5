//! Whole runs of a generator, with restarts and crashes (`specs/IdRuns.antt`).
ghost use Rattle.std.specs.Prelude.{◌≡◌, ℕ, IfOk, None, OnErr};
ghost use Rattle.sled_core.specs.Keeps.{ConfigKept};
ghost use Rattle.sled_store.specs.Device.{state_of};
ghost use Rattle.ids.specs.Bounds.{GivesFrom};
ghost use Rattle.sled_log.specs.RunPhases.{view_by};
ghost use Rattle.ids.specs.IdDevices.{Devices};
ghost use Rattle.ids.specs.IdRuns.{IdRuns, begins_at};
ghost use Rattle.ids.specs.IdPhases.{EndsAt, SomeStands, SomeUsedUp};

pub(crate) mod step;

use crate::run::step::{Phase, close, step};
use sled_log::config::RunningConfig;
use sled_log::device::{Checksum, Choice, CrashDevice};
use sled_log::result::Error;
use std::alloc::AllocError;
use std::num::NonZeroU64;

/// What is done with a generator.
#[derive(Drop)]
pub enum Command {
    /// Opens one, where none is open.
    Open,
    /// Has one that is open give an identifier out.
    Next,
    /// Has one that is open take blocks of so many identifiers from the next one on.
    SetBlock(NonZeroU64),
    /// Closes one that is open.
    Close,
    /// Has the device stop within a call, after so many more calls that change or sync.
    Stop(u64),
    /// Closes the generator, if one is open, and has the device crash and leave this, where it may, and else what was durable.
    Crash(Choice),
}

/// What came of it.
#[derive(Drop)]
pub enum Reply {
    /// A generator is open.
    Opened,
    /// This identifier was given out.
    Given(u64),
    /// A further block has as many identifiers as were asked for.
    Set,
    /// The generator is closed.
    Closed,
    /// The device will stop.
    Armed,
    /// The device crashed. It left what was chosen (`true`), or what was durable.
    Crashed(bool),
    /// The command failed with this error.
    Failed(Error),
    /// Nothing was done: a generator is open that was to be opened, or none is that was to be used.
    Refused,
}

/// Carries these commands out in order, and returns what the generator ran on, with what came of each. At last it closes a generator that is open.
///
/// For every list of commands, restarts and crashes among them, within a call of the device and within a recovery too: the identifiers
/// that are given out strictly ascend, so that none comes twice, and a generator fails to open only for a failure of the device, lack of memory, or
/// where places are used up. Each command makes the calls that it is for, and no others: within a block none, for a further block those of a log's flush,
/// those of a recovery and of a start where a generator is opened. So it is whatever the device has: where a recovery meets damage, it syncs the device and
/// writes nothing, and what the commands behind that do to the device is said all the same, up to what comes back. There is one reply for each command.
/// The configuration comes back with the size of segments and the checksum that it had.
///
/// # Errors
///
/// `AllocError` where memory for the replies was refused; nothing was done then.
pub fn run<D: CrashDevice, C: Checksum>(
    config: RunningConfig<D, C>,
    commands: &[Command],
) -> (RunningConfig<D, C>, Result<Vec<Reply>, AllocError>)
    ensures ascends { let size = config.config.segment_size in let view = view_by D.trace D.faults D.is_stopped in
        (n most : ℕ) → GivesFrom C.sum_of size n most (state_of (D.trace config.device)) → IfOk result.1 (λ replies.
        IdRuns C.sum_of size (SomeStands D C view C.sum_of size) (SomeUsedUp D C view C.sum_of size)
        (begins_at (view config.device) n most) commands.now replies.items (EndsAt C.sum_of size (view result.0.device))) }
    ensures devices { let view = view_by D.trace D.faults D.is_stopped in IfOk result.1 (λ replies.
        Devices C.sum_of config.config.segment_size None (view config.device) commands.now replies.items (λ g device. device ≡ view result.0.device)) }
    ensures config { ConfigKept config result.0 }
    ensures refused { OnErr result.1 (result.0 ≡ config) }
{
    let alloc = config.alloc();
    let mut replies = match Vec::with_capacity(alloc, commands.len()) {
        Ok(replies) => replies,
        Err(e) => return (config, Err(e)),
    };
    let mut phase = Phase::Closed(config);
    for command in commands {
        let (next, reply) = step(phase, command);
        phase = next;
        replies.push_reserved(reply);
    }
    let config = close(phase);
    (config, Ok(replies))
}
