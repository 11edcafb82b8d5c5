//! Sessions: runs of commands over a log, with crashes. What a log's users rely on is said of them
//! (`specs/Runs.antt`).
//!
//! A session begins with no log open. A command that can't be carried out is refused (`specs/Refusals.antt`).
ghost use Rattle.std.specs.Prelude.{IsSome};

mod carrying;
pub mod command;
mod ending;
mod known;
mod marking;
mod opened;
mod opening;
mod reading;
mod reserving;
mod step;
mod tickets;
mod writing;

use crate::session::carrying::{carry_out, close};
pub use crate::session::command::{Command, Refusal, Reply};
use crate::session::opened::Opened;
use crate::session::step::step;
use sled_codec::result::{Error, Result};
use sled_codec::serialization::Checksum;
use sled_codec::serialization::snapshot::PageState;
use sled_store::{Config, CrashDevice, Device, RunningConfig};
use std::alloc::Global;

/// What a session is at: the device while no log is open, or a log that is open.
pub(crate) enum Phase<D, C> {
    Closed(RunningConfig<D, C>),
    Open(Opened<D, C>),
}

/// A log that is told what to do by commands, with its device. It is given up by `end`.
pub struct Session<D, C> {
    alloc: Global,
    // What it is at. It is missing only while a command is carried out.
    phase: Option<Phase<D, C>>,
    ghost present: { IsSome phase },
}

impl<D: Device, C: Checksum> Session<D, C> {
    ghost use Rattle.std.specs.Prelude.{◌≡◌, map, Bool, true, false, None, IsSome, MatchOption};
    ghost use Rattle.sled_codec.specs.PageTables.{IsTable};
    ghost use Rattle.sled_codec.specs.Snapshots.{page_of};
    ghost use Rattle.sled_store.specs.Device.{state_of, fresh};
    ghost use Rattle.sled_log.specs.Devices.{LeavesOn, StandsOver};
    ghost use Rattle.sled_log.specs.Refusals.{is_for_log};
    ghost use Rattle.sled_log.specs.RunStates.{DeviceView, RunState, begins_on, top};
    ghost use Rattle.sled_log.specs.Runs.{CanGoOn, CarriesOn};
    ghost use Rattle.sled_log.specs.RunPhases.{StandsAt, segment_size_in, view_by};

    /// Returns a session over a device, with no log open. Either no log was written to the device, or it was left by a
    /// session with this configuration and this checksum, at its end or by a crash: then the session goes on from there.
    pub fn new(alloc: Global, config: Config, device: D, checksum: C) -> Session<D, C>
        ensures size { segment_size_in result ≡ config.segment_size }
        ensures begins { (stopped : D → Bool) → let view = view_by D.trace D.faults stopped in
            state_of (D.trace device) ≡ fresh → StandsAt view C.sum_of result (begins_on (view device)) }
        ensures resumes { (stopped : D → Bool) → let view = view_by D.trace D.faults stopped in
            (a : RunState) → CanGoOn C.sum_of config.segment_size a → a.device ≡ view device → StandsAt view C.sum_of result a }
        ensures over { (stopped : D → Bool) → let view = view_by D.trace D.faults stopped in StandsOver view result false (view device) }
    {
        let config = RunningConfig::new(alloc, config, device, checksum);
        Session {
            alloc,
            phase: Some(Phase::Closed(config)),
        }
    }

    /// Carries out a command, unless it is refused, and returns what came of it. The command is no `Stop` and no `Crash`,
    /// which `run` has the device do.
    ///
    /// What `run` says of a command is said of this one, as of a device that never stops. An error of the command is its reply.
    pub fn carry_out(&mut self, command: &Command) -> Reply
        requires { is_for_log command.now ≡ true }
        ensures carries { let view = view_by D.trace D.faults (λ device. false) in (a : RunState) → StandsAt view C.sum_of self.old a
            → CarriesOn C.sum_of (segment_size_in self.old) a command.now result (StandsAt view C.sum_of self.new) }
        ensures device { (stopped : D → Bool) → let view = view_by D.trace D.faults stopped in
            (on : Bool) (device : DeviceView) → StandsOver view self.old on device
            → LeavesOn C.sum_of (segment_size_in self.old) on device command.now result (StandsOver view self.new) }
        ensures size { segment_size_in self.new ≡ segment_size_in self.old }
    {
        let phase = self.phase.take().unwrap();
        let (next, reply) = carry_out(phase, command);
        match self.phase.replace(next) {
            None => reply,
            Some(_) => unreachable!(),
        }
    }

    /// Returns what each page is of which a message is completed, by number, where a log is open.
    pub fn pages(&self) -> Option<&[PageState]>
        ensures table { (stopped : D → Bool) → let view = view_by D.trace D.faults stopped in (a : RunState) → StandsAt view C.sum_of self.now a
            → MatchOption result (a.log ≡ None) (λ pages. IsSome a.log × IsTable (map page_of pages.now) a.history top) }
    {
        match self.phase.as_ref()? {
            Phase::Open(opened) => Some(&opened.pages),
            Phase::Closed(_) => None,
        }
    }
}

impl<D: Device, C: Checksum + Drop> Session<D, C> {
    ghost use Rattle.std.specs.Prelude.{◌≡◌, Bool};
    ghost use Rattle.sled_log.specs.Devices.{StandsOver};
    ghost use Rattle.sled_log.specs.RunStates.{DeviceView, RunState, closed};
    ghost use Rattle.sled_log.specs.Runs.{CanGoOn};
    ghost use Rattle.sled_log.specs.RunPhases.{StandsAt, segment_size_in, view_by};

    /// Closes the log that is open, if one is, and returns the device. What isn't durable is lost. It takes no memory.
    pub fn end(self) -> D
        ensures device { (stopped : D → Bool) → let view = view_by D.trace D.faults stopped in
            (a : RunState) → StandsAt view C.sum_of self a → a.device ≡ view result }
        ensures left { (stopped : D → Bool) → let view = view_by D.trace D.faults stopped in
            (a : RunState) → StandsAt view C.sum_of self a → CanGoOn C.sum_of (segment_size_in self) (closed a (view result)) }
        ensures over { (stopped : D → Bool) → let view = view_by D.trace D.faults stopped in
            (on : Bool) (device : DeviceView) → StandsOver view self on device → device ≡ view result }
    {
        let Session { alloc: _, phase } = self;
        let phase = phase.unwrap();
        close(phase).into_device()
    }
}

impl<D: CrashDevice, C: Checksum> Session<D, C> {
    ghost use Rattle.std.specs.Prelude.{◌≡◌, Bool, IfOk, IsOkUnless, OnErr};
    ghost use Rattle.sled_log.specs.Devices.{Devices, Leaves, SomeStandsOver, StandsOver};
    ghost use Rattle.sled_log.specs.RunStates.{DeviceView, RunState};
    ghost use Rattle.sled_log.specs.Headline.{Outcomes};
    ghost use Rattle.sled_log.specs.Runs.{Carries, Runs};
    ghost use Rattle.sled_log.specs.RunPhases.{SomeStands, StandsAt, segment_size_in, view_by};

    /// Runs these commands in order, and returns what came of each.
    ///
    /// For every list of calls, restarts and crashes, also inside a device call or recovery, a recovery fails only for a device
    /// fault or want of memory; where it succeeds, its page table is that of the completed messages below one cut, which passes
    /// every acknowledged message, isn't below an earlier cut and splits no batch; every pointer reads its own bytes; what lies
    /// past the cut is forgotten.
    ///
    /// # Errors
    ///
    /// `OutOfMemory` where memory for the replies was refused; nothing was done then. An error of a command is its reply.
    pub fn run(&mut self, commands: &[Command]) -> Result<Vec<Reply>>
        ensures headline { let view = view_by D.trace D.faults D.is_stopped in
            let size = segment_size_in self.old in (a : RunState) → StandsAt view C.sum_of self.old a → IfOk result (λ replies.
            Runs C.sum_of size (SomeStands D C view C.sum_of size) a commands.now replies.items (StandsAt view C.sum_of self.new)) }
        ensures recovers { let view = view_by D.trace D.faults D.is_stopped in
            let size = segment_size_in self.old in (a : RunState) → StandsAt view C.sum_of self.old a → IfOk result (λ replies.
            Outcomes C.sum_of size (SomeStandsOver D C view) a commands.now replies.items (StandsAt view C.sum_of self.new)) }
        ensures devices { let view = view_by D.trace D.faults D.is_stopped in
            (on : Bool) (device : DeviceView) → StandsOver view self.old on device → IfOk result (λ replies.
            Devices C.sum_of (segment_size_in self.old) on device commands.now replies.items (StandsOver view self.new)) }
        ensures size { segment_size_in self.new ≡ segment_size_in self.old }
        ensures refused { OnErr result (self.new ≡ self.old) }
        ensures memory { IsOkUnless result Error.OutOfMemory }
    {
        let mut replies = Vec::with_capacity(self.alloc, commands.len())?;
        for command in commands {
            replies.push_reserved(self.step(command));
        }
        Ok(replies)
    }

    /// Carries out a command, unless it is refused.
    fn step(&mut self, command: &Command) -> Reply
        ensures step { let view = view_by D.trace D.faults D.is_stopped in (a : RunState) → StandsAt view C.sum_of self.old a
            → Carries C.sum_of (segment_size_in self.old) a command.now result (StandsAt view C.sum_of self.new) }
        ensures device { let view = view_by D.trace D.faults D.is_stopped in (on : Bool) (device : DeviceView) → StandsOver view self.old on device
            → Leaves C.sum_of (segment_size_in self.old) on device command.now result (StandsOver view self.new) }
        ensures size { segment_size_in self.new ≡ segment_size_in self.old }
    {
        let phase = self.phase.take().unwrap();
        let (next, reply) = step(phase, command);
        match self.phase.replace(next) {
            None => reply,
            Some(_) => unreachable!(),
        }
    }
}
