//! One command of a session over a device that can be stopped and made to crash (`specs/RunPhases.antt`).
ghost use Rattle.std.specs.Prelude.{Bool, ◌≡◌, false};
ghost use Rattle.sled_store.specs.Stops.{KeepsToStop};
ghost use Rattle.sled_core.specs.Fits.{config_of};
ghost use Rattle.sled_log.specs.declared.session.command.Command.TheVariants as command;
ghost use Rattle.sled_log.specs.Devices.{ToldIn, TouchesIn, is_barred};
ghost use Rattle.sled_log.specs.Refusals.{is_crash};
ghost use Rattle.sled_log.specs.Runs.{told};
ghost use Rattle.sled_log.specs.RunPhases.{AnswersFrom, AnswersIn, CarriesHere, CarriesOut, RunsOn, device_in, running, view_by};

use crate::session::Phase;
use crate::session::carrying::{carry_out, close};
use crate::session::command::{Command, Refusal, Reply};
use crate::session::opened::Opened;
use sled_codec::result::Error;
use sled_codec::serialization::Checksum;
use sled_store::{Choice, CrashDevice, RunningConfig};

/// Carries out a command, unless it is refused.
pub(crate) fn step<D: CrashDevice, C: Checksum>(
    phase: Phase<D, C>,
    command: &Command,
) -> (Phase<D, C>, Reply)
    ensures step { AnswersIn (view_by D.trace D.faults D.is_stopped) C.sum_of phase command.now result }
    ensures device { ToldIn (view_by D.trace D.faults D.is_stopped) C.sum_of phase command.now result.0 result.1 }
    ensures on { RunsOn D.trace (running phase) (running result.0) }
{
    if is_barred(&phase, command) {
        return (phase, Reply::Refused(Refusal::Stopped));
    }
    let (next, reply) = answer(phase, command);
    let told = tell(&next, reply);
    (next, told)
}

/// Whether the device is stopped, and a command is no `Crash`.
fn is_barred<D: CrashDevice, C: Checksum>(phase: &Phase<D, C>, command: &Command) -> bool
    ensures barred { result ≡ is_barred (device_in (view_by D.trace D.faults D.is_stopped) phase.now) command.now }
    ensures asked { KeepsToStop (D.trace (running phase.now).device) (D.is_stopped (running phase.now).device) }
{
    is_stopped(phase) && !is_crash(command)
}

/// Whether a command is a `Crash`.
fn is_crash(command: &Command) -> bool
    ensures { result ≡ is_crash command.now }
{
    matches!(command, Command::Crash(_))
}

/// Whether the device is stopped, which it is only where that was asked.
fn is_stopped<D: CrashDevice, C: Checksum>(phase: &Phase<D, C>) -> bool
    ensures stopped { result ≡ D.is_stopped (running phase.now).device }
    ensures asked { KeepsToStop (D.trace (running phase.now).device) (D.is_stopped (running phase.now).device) }
{
    match phase {
        Phase::Closed(config) => config.device.stopped(),
        Phase::Open(opened) => opened.log.is_stopped(),
    }
}

/// What is told of a reply: a failure of a device that is stopped is that.
fn tell<D: CrashDevice, C: Checksum>(phase: &Phase<D, C>, reply: Reply) -> Reply
    ensures told { result ≡ told (D.is_stopped (running phase.now).device) reply }
    ensures asked { KeepsToStop (D.trace (running phase.now).device) (D.is_stopped (running phase.now).device) }
{
    let is_stopped = is_stopped(phase);
    match reply {
        Reply::Failed(Error::Io(e)) => {
            if is_stopped {
                Reply::Stopped
            } else {
                Reply::Failed(Error::Io(e))
            }
        }
        other => other,
    }
}

/// Carries out a command that the device's stop doesn't bar, unless it is refused.
fn answer<D: CrashDevice, C: Checksum>(
    phase: Phase<D, C>,
    command: &Command,
) -> (Phase<D, C>, Reply)
    ensures step { let view = view_by D.trace D.faults D.is_stopped in
        is_barred (device_in view phase) command.now ≡ false → AnswersFrom view C.sum_of phase command.now result }
    ensures device { TouchesIn (view_by D.trace D.faults D.is_stopped) C.sum_of phase command.now result.0 result.1 }
    ensures on { RunsOn D.trace (running phase) (running result.0) }
{
    match command {
        Command::Stop(n) => stop(phase, *n),
        Command::Crash(choice) => crash(phase, choice),
        _ => carry_out(phase, command),
    }
}

/// Has the device stop.
fn stop<D: CrashDevice, C: Checksum>(phase: Phase<D, C>, n: u64) -> (Phase<D, C>, Reply)
    ensures step { CarriesOut (view_by D.trace D.faults D.is_stopped) C.sum_of phase (command.Stop n) result }
    ensures device { TouchesIn (view_by D.trace D.faults D.is_stopped) C.sum_of phase (command.Stop n) result.0 result.1 }
    ensures on { RunsOn D.trace (running phase) (running result.0) }
{
    match phase {
        Phase::Closed(config) => stop_closed(config, n),
        Phase::Open(opened) => {
            let mut opened = opened;
            let reply = stop_open(&mut opened, n);
            (Phase::Open(opened), reply)
        }
    }
}

/// Has the device stop while no log is open.
fn stop_closed<D: CrashDevice, C: Checksum>(
    config: RunningConfig<D, C>,
    n: u64,
) -> (Phase<D, C>, Reply)
    ensures step { CarriesOut (view_by D.trace D.faults D.is_stopped) C.sum_of (Phase.Closed config) (command.Stop n) result }
    ensures device { TouchesIn (view_by D.trace D.faults D.is_stopped) C.sum_of (Phase.Closed config) (command.Stop n) result.0 result.1 }
    ensures on { RunsOn D.trace config (running result.0) }
{
    let mut config = config;
    config.device.stop_after(n);
    (Phase::Closed(config), Reply::Armed)
}

/// Has the device of a log stop.
fn stop_open<D: CrashDevice, C: Checksum>(opened: &mut Opened<D, C>, n: u64) -> Reply
    ensures step { CarriesHere (view_by D.trace D.faults D.is_stopped) C.sum_of
        (Phase.Open opened.old) (command.Stop n) (Phase.Open opened.new, result) }
    ensures device { TouchesIn (view_by D.trace D.faults D.is_stopped) C.sum_of
        (Phase.Open opened.old) (command.Stop n) (Phase.Open opened.new) result }
    ensures on { RunsOn D.trace (config_of opened.old.log) (config_of opened.new.log) }
{
    opened.log.stop_after(n);
    Reply::Armed
}

/// Closes the log, if one is open, and has the device crash, where memory for a copy of the choice is found.
fn crash<D: CrashDevice, C: Checksum>(phase: Phase<D, C>, choice: &Choice) -> (Phase<D, C>, Reply)
    ensures step { CarriesOut (view_by D.trace D.faults D.is_stopped) C.sum_of phase (command.Crash choice.now) result }
    ensures device { TouchesIn (view_by D.trace D.faults D.is_stopped) C.sum_of phase (command.Crash choice.now) result.0 result.1 }
    ensures on { RunsOn D.trace (running phase) (running result.0) }
{
    match choice.try_clone() {
        Ok(choice) => crash_now(close(phase), choice),
        Err(_) => (phase, Reply::Failed(Error::OutOfMemory)),
    }
}

/// Has the device crash.
fn crash_now<D: CrashDevice, C: Checksum>(
    config: RunningConfig<D, C>,
    choice: Choice,
) -> (Phase<D, C>, Reply)
    ensures crashed { (taken : Bool) × (result.1 ≡ Reply.Crashed taken) }
    ensures step { CarriesOut (view_by D.trace D.faults D.is_stopped) C.sum_of (Phase.Closed config) (command.Crash choice) result }
    ensures device { TouchesIn (view_by D.trace D.faults D.is_stopped) C.sum_of (Phase.Closed config) (command.Crash choice) result.0 result.1 }
    ensures on { RunsOn D.trace config (running result.0) }
{
    let mut config = config;
    let taken = config.device.crash(choice);
    (Phase::Closed(config), Reply::Crashed(taken))
}
