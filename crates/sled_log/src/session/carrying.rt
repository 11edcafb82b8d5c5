//! One command of a session, carried out in its phase over any device (`specs/RunPhases.antt`). A command that asks the
//! device for a stop or a crash is carried out in `step`.
ghost use Rattle.std.specs.Prelude.{Bool, ◌≡◌, true, false, None};
ghost use Rattle.sled_core.specs.Fits.{config_of};
ghost use Rattle.sled_log.specs.Devices.{RefusedIn, TouchesIn, is_open};
ghost use Rattle.sled_log.specs.Refusals.{is_for_log, refused_by_log, refused_closed};
ghost use Rattle.sled_log.specs.Runs.{calls_log};
ghost use Rattle.sled_log.specs.RunPhases.{AnswersFrom, CarriesHere, CarriesOut, IsAt, RunsOn, Unstored, log_in, running, view_by};

use crate::session::Phase;
use crate::session::command::{Command, Refusal, Reply};
use crate::session::ending::{abort, complete, end};
use crate::session::marking::make_due;
use crate::session::opened::Opened;
use crate::session::opening::open;
use crate::session::reading::read;
use crate::session::reserving::{begin, reserve, rewrite};
use crate::session::writing::{flush, stabilize, write};
use sled_codec::serialization::{Checksum, LogKind};
use sled_store::{Device, RunningConfig};

/// Carries out a command on a device that isn't stopped, unless the command is refused.
pub(crate) fn carry_out<D: Device, C: Checksum>(
    phase: Phase<D, C>,
    command: &Command,
) -> (Phase<D, C>, Reply)
    requires { is_for_log command.now ≡ true }
    ensures step { (stopped : D → Bool) → stopped (running phase).device ≡ false
        → AnswersFrom (view_by D.trace D.faults stopped) C.sum_of phase command.now result }
    ensures device { (stopped : D → Bool) → TouchesIn (view_by D.trace D.faults stopped) C.sum_of phase command.now result.0 result.1 }
    ensures on { RunsOn D.trace (running phase) (running result.0) }
{
    if let Some(why) = refusal(&phase, command) {
        return (phase, Reply::Refused(why));
    }
    match phase {
        Phase::Closed(config) => carry_out_closed(config, command),
        Phase::Open(opened) => carry_out_open(opened, command),
    }
}

/// Why a command is refused on a device that isn't stopped, if it is.
fn refusal<D: Device, C: Checksum>(phase: &Phase<D, C>, command: &Command) -> Option<Refusal>
    ensures why { (k : Unstored) → IsAt D.trace C.sum_of phase.now k
        → result ≡ refused_by_log k.history (log_in phase.now k.tickets k.given_up k.heads) command.now }
    ensures alone { RefusedIn (is_open phase.now) command.now result }
{
    match phase {
        Phase::Closed(_) => refuse_closed(command),
        Phase::Open(opened) => opened.refusal(command),
    }
}

/// Why a command is refused while no log is open.
fn refuse_closed(command: &Command) -> Option<Refusal>
    ensures { result ≡ refused_closed command.now }
{
    match command {
        Command::Open | Command::Stop(_) | Command::Crash(_) => None,
        Command::Replace(_, _)
        | Command::Link(_, _)
        | Command::Free(_)
        | Command::Rewrite(_)
        | Command::BeginBatch
        | Command::EndBatch
        | Command::Complete(_)
        | Command::Abort(_)
        | Command::Write(_)
        | Command::Flush
        | Command::Stable(_)
        | Command::Read(_)
        | Command::Halt => Some(Refusal::Closed),
    }
}

/// Carries out a command that isn't refused, while no log is open. That is an opening: each other command is refused, and
/// the answer says so again.
fn carry_out_closed<D: Device, C: Checksum>(
    config: RunningConfig<D, C>,
    command: &Command,
) -> (Phase<D, C>, Reply)
    requires { is_for_log command.now ≡ true }
    ensures step { (stopped : D → Bool) → CarriesOut (view_by D.trace D.faults stopped) C.sum_of (Phase.Closed config) command.now result }
    ensures device { (stopped : D → Bool) → TouchesIn (view_by D.trace D.faults stopped) C.sum_of (Phase.Closed config) command.now result.0 result.1 }
    ensures on { RunsOn D.trace config (running result.0) }
{
    match command {
        Command::Open => open(config),
        _ => (Phase::Closed(config), Reply::Refused(Refusal::Closed)),
    }
}

/// Carries out a command that isn't refused, while a log is open. What calls the log makes the mark first that is due.
fn carry_out_open<D: Device, C: Checksum>(
    opened: Opened<D, C>,
    command: &Command,
) -> (Phase<D, C>, Reply)
    requires { is_for_log command.now ≡ true }
    ensures step { (stopped : D → Bool) → CarriesOut (view_by D.trace D.faults stopped) C.sum_of (Phase.Open opened) command.now result }
    ensures device { (stopped : D → Bool) → TouchesIn (view_by D.trace D.faults stopped) C.sum_of (Phase.Open opened) command.now result.0 result.1 }
    ensures on { RunsOn D.trace (config_of opened.log) (running result.0) }
{
    if !calls_log(command) {
        return carry_out_marked(opened, command);
    }
    let mut opened = opened;
    match make_due(&mut opened) {
        Ok(()) => carry_out_marked(opened, command),
        Err(e) => (Phase::Open(opened), Reply::Failed(e)),
    }
}

/// Whether a command calls the log that is open.
fn calls_log(command: &Command) -> bool
    ensures { result ≡ calls_log command.now }
{
    !matches!(
        command,
        Command::Open | Command::Halt | Command::Stop(_) | Command::Crash(_)
    )
}

/// Does that once no mark is due, where it calls the log.
fn carry_out_marked<D: Device, C: Checksum>(
    opened: Opened<D, C>,
    command: &Command,
) -> (Phase<D, C>, Reply)
    requires { is_for_log command.now ≡ true }
    ensures step { (stopped : D → Bool) → (calls_log command.now ≡ true → opened.due ≡ None)
        → CarriesHere (view_by D.trace D.faults stopped) C.sum_of (Phase.Open opened) command.now result }
    ensures device { (stopped : D → Bool) → TouchesIn (view_by D.trace D.faults stopped) C.sum_of (Phase.Open opened) command.now result.0 result.1 }
    ensures on { RunsOn D.trace (config_of opened.log) (running result.0) }
{
    let mut opened = opened;
    let reply = match command {
        Command::Replace(page, item) => reserve(&mut opened, LogKind::Replace, *page, item),
        Command::Link(page, item) => reserve(&mut opened, LogKind::Link, *page, item),
        Command::Free(page) => reserve(&mut opened, LogKind::Free, *page, &()),
        Command::Rewrite(page) => rewrite(&mut opened, *page),
        Command::BeginBatch => begin(&mut opened),
        Command::EndBatch => end(&mut opened),
        Command::Complete(number) => complete(&mut opened, *number),
        Command::Abort(number) => abort(&mut opened, *number),
        Command::Write(i) => write(&mut opened, *i),
        Command::Flush => flush(&mut opened),
        Command::Stable(place) => stabilize(&mut opened, *place),
        Command::Read(page) => read(&mut opened, *page),
        Command::Halt => return (Phase::Closed(opened.halt()), Reply::Halted),
        Command::Open => Reply::Refused(Refusal::Open),
        Command::Stop(_) | Command::Crash(_) => unreachable!(),
    };
    (Phase::Open(opened), reply)
}

/// Closes the log that is open, and returns what it ran on.
pub(crate) fn close<D: Device, C: Checksum>(phase: Phase<D, C>) -> RunningConfig<D, C>
    ensures { result ≡ running phase }
{
    match phase {
        Phase::Closed(config) => config,
        Phase::Open(opened) => opened.halt(),
    }
}
