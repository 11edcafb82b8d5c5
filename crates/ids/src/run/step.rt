//! One command of a run, carried out in its phase (`specs/IdPhases.antt`).
ghost use Rattle.std.specs.Prelude.{◌≡◌, Bool};
ghost use Rattle.ids.specs.declared.run.Command.TheVariants as told;
ghost use Rattle.sled_log.specs.RunPhases.{view_by};
ghost use Rattle.ids.specs.IdPhases.{CarriesOut, running_in};

use crate::generator::IdGenerator;
use crate::run::{Command, Reply};
use sled_log::config::RunningConfig;
use sled_log::device::{Checksum, Choice, CrashDevice};
use sled_log::result::Error;

/// What a run is at.
pub(crate) enum Phase<D, C> {
    Closed(RunningConfig<D, C>),
    Open(IdGenerator<D, C>),
}

/// Carries a command out, unless it is refused.
pub(crate) fn step<D: CrashDevice, C: Checksum>(
    phase: Phase<D, C>,
    command: &Command,
) -> (Phase<D, C>, Reply)
    ensures { CarriesOut (view_by D.trace D.faults D.is_stopped) C.sum_of phase command.now result }
{
    match phase {
        Phase::Closed(config) => step_closed(config, command),
        Phase::Open(generator) => step_open(generator, command),
    }
}

/// Does that while no generator is open.
fn step_closed<D: CrashDevice, C: Checksum>(
    config: RunningConfig<D, C>,
    command: &Command,
) -> (Phase<D, C>, Reply)
    ensures { CarriesOut (view_by D.trace D.faults D.is_stopped) C.sum_of (Phase.Closed config) command.now result }
{
    match command {
        Command::Open => open(config),
        Command::Next | Command::Close | Command::SetBlock(_) => {
            (Phase::Closed(config), Reply::Refused)
        }
        Command::Stop(n) => {
            let mut config = config;
            config.device.stop_after(*n);
            (Phase::Closed(config), Reply::Armed)
        }
        Command::Crash(choice) => crash(config, choice),
    }
}

/// Does that while one is open.
fn step_open<D: CrashDevice, C: Checksum>(
    generator: IdGenerator<D, C>,
    command: &Command,
) -> (Phase<D, C>, Reply)
    ensures { CarriesOut (view_by D.trace D.faults D.is_stopped) C.sum_of (Phase.Open generator) command.now result }
{
    match command {
        Command::Open => (Phase::Open(generator), Reply::Refused),
        Command::Next => next(generator),
        Command::SetBlock(block) => {
            let mut generator = generator;
            generator.set_block(*block);
            (Phase::Open(generator), Reply::Set)
        }
        Command::Close => (Phase::Closed(generator.close()), Reply::Closed),
        Command::Stop(n) => {
            let mut generator = generator;
            generator.stop_after(*n);
            (Phase::Open(generator), Reply::Armed)
        }
        Command::Crash(choice) => crash_open(generator, choice),
    }
}

/// Opens a generator.
fn open<D: CrashDevice, C: Checksum>(config: RunningConfig<D, C>) -> (Phase<D, C>, Reply)
    ensures { CarriesOut (view_by D.trace D.faults D.is_stopped) C.sum_of (Phase.Closed config) told.Open result }
{
    match IdGenerator::open(config) {
        Ok(generator) => (Phase::Open(generator), Reply::Opened),
        Err((e, config)) => (Phase::Closed(config), Reply::Failed(e)),
    }
}

/// Has a generator give an identifier out.
fn next<D: CrashDevice, C: Checksum>(generator: IdGenerator<D, C>) -> (Phase<D, C>, Reply)
    ensures { CarriesOut (view_by D.trace D.faults D.is_stopped) C.sum_of (Phase.Open generator) told.Next result }
{
    let mut generator = generator;
    match generator.next() {
        Ok(id) => (Phase::Open(generator), Reply::Given(id)),
        Err(e) => (Phase::Open(generator), Reply::Failed(e)),
    }
}

/// Closes a generator, and has its device crash, where memory for a copy of the choice is found.
fn crash_open<D: CrashDevice, C: Checksum>(
    generator: IdGenerator<D, C>,
    choice: &Choice,
) -> (Phase<D, C>, Reply)
    ensures { CarriesOut (view_by D.trace D.faults D.is_stopped) C.sum_of (Phase.Open generator) (told.Crash choice.now) result }
{
    match choice.try_clone() {
        Ok(choice) => crash_now(generator.close(), choice),
        Err(_) => (Phase::Open(generator), Reply::Failed(Error::OutOfMemory)),
    }
}

/// Has the device crash, where memory for a copy of the choice is found.
fn crash<D: CrashDevice, C: Checksum>(
    config: RunningConfig<D, C>,
    choice: &Choice,
) -> (Phase<D, C>, Reply)
    ensures { CarriesOut (view_by D.trace D.faults D.is_stopped) C.sum_of (Phase.Closed config) (told.Crash choice.now) result }
{
    match choice.try_clone() {
        Ok(choice) => crash_now(config, choice),
        Err(_) => (Phase::Closed(config), Reply::Failed(Error::OutOfMemory)),
    }
}

/// Has the device crash.
fn crash_now<D: CrashDevice, C: Checksum>(
    config: RunningConfig<D, C>,
    choice: Choice,
) -> (Phase<D, C>, Reply)
    ensures crashed { (taken : Bool) × (result.1 ≡ Reply.Crashed taken) }
    ensures step { CarriesOut (view_by D.trace D.faults D.is_stopped) C.sum_of (Phase.Closed config) (told.Crash choice) result }
{
    let mut config = config;
    let taken = config.device.crash(choice);
    (Phase::Closed(config), Reply::Crashed(taken))
}

/// Closes the generator that is open, if one is, and returns what it ran on.
pub(crate) fn close<D: CrashDevice, C: Checksum>(phase: Phase<D, C>) -> RunningConfig<D, C>
    ensures { result ≡ running_in phase }
{
    match phase {
        Phase::Closed(config) => config,
        Phase::Open(generator) => generator.close(),
    }
}
