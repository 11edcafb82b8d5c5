//! A generator of identifiers over a log (`specs/Bounds.antt`).
ghost use Rattle.std.specs.Prelude.{◌≡◌, ◌≤◌, ◌<◌, ◌+◌, ◌^◌, ◌-◌, [], ◌∷◌, ℕ, nat_lt, if◌then◌else◌, max, None, Some, IsSome, IfOk, IfErr, OnErr, OnOk};
ghost use Rattle.std.specs.Int.NonZero.{non_zero_u64_get};
ghost use Rattle.sled_core.specs.Fits.{open_places, pins_of, position_of};
ghost use Rattle.sled_core.specs.Keeps.{ConfigKept};
ghost use Rattle.sled_store.specs.Device.{StopAsked, state_of};
ghost use Rattle.sled_store.specs.Moments.{IsLater, Throughout};
ghost use Rattle.ids.specs.Bounds.{GivesFrom};

use crate::reading::read_bound;
use sled_log::config::RunningConfig;
use sled_log::device::{Checksum, CrashDevice, Device};
use sled_log::logger::{Log, LogKind, PageId};
use sled_log::reservation::Guard;
use sled_log::result::{Error, Result};
use sled_log::snapshot::read_snapshot_or_default;
use std::num::NonZeroU64;

/// The page that has the bound.
pub(crate) const BOUND_PAGE: PageId = 0;

/// How many identifiers a block has, unless another number is asked for.
const BLOCK: u64 = 100;

/// Gives identifiers out, each above all that were given out before on its device. It is given up by `close`.
pub struct IdGenerator<D, C> {
    log: Log<D, C>,
    /// Of a pin that is out all along, since a generator marks no message.
    guard: Guard,
    /// The next identifier.
    next: u64,
    /// The end of the block that it is of. The identifiers below it may be given out: it is durable.
    bound: u64,
    /// The greatest bound that is in the log's history. It may not be durable yet.
    asked: u64,
    /// How many identifiers a block has.
    block: u64,
    ghost ordered: { next ≤ bound },
    ghost ahead: { bound ≤ asked },
    ghost small: { asked < 2 ^ 64 },
    ghost some: { 0 < block },
    ghost pinned: { 0 < pins_of log },
    ghost ended: { open_places log ≡ [] },
}

impl<D: Device, C: Checksum> IdGenerator<D, C> {
    ghost use Rattle.ids.specs.Openings.{OpenActs};
    ghost use Rattle.ids.specs.Readings.{IsOpenError};
    ghost use Rattle.ids.specs.Generators.{CanOpen, CountsFault, Generates, GivesOn, HasAsked, HasRoom, MayHaveAsked, NextAnswers, SameBlock, SameNext, WritesBuffers, asked_of, block_of, bound_of, further_bound, kept_fault, log_of, next_bound, next_of, next_position, running, running_after, size_of};

    /// Recovers what the device has, begins a log on it, and returns a generator that goes on from the greatest bound that is found; from 0
    /// on a device that was never written to. Its blocks have 100 identifiers. Whatever the device has, it begins with the number that stands for the bound
    /// of page 0 of the table that was recovered, and with 0 where that has no page. Nothing is put into its log yet.
    ///
    /// # Errors
    ///
    /// `Io` where the device failed, `OutOfMemory`, and `PlacesUsedUp` where no further segment ends below 2^63. `Corruption` where the device has what
    /// no generator and no crash can have left: a recovery meets damage, no log can begin on what it gives, or what stands there for the bound is no number.
    /// The configuration comes back with each of them, and no identifier is given twice after it.
    pub fn open(
        config: RunningConfig<D, C>,
    ) -> std::result::Result<IdGenerator<D, C>, (Error, RunningConfig<D, C>)>
        ensures opens { let old = state_of (D.trace config.device) in (n most : ℕ) → CanOpen C.sum_of config.config.segment_size n most old
            → IfOk result (λ g. Generates D.trace C.sum_of g × (n ≤ next_of g) × (next_of g ≤ most)) }
        ensures begins { IfOk result (λ g. (bound_of g ≡ next_of g) × (asked_of g ≡ next_of g) × (block_of g ≡ 100) × (kept_fault g ≡ None)) }
        ensures keeps { let old = D.trace config.device in (n most : ℕ) → CanOpen C.sum_of config.config.segment_size n most (state_of old)
            → Throughout (GivesFrom C.sum_of config.config.segment_size n most) old (D.trace (running_after result).device) }
        ensures fails { let old = state_of (D.trace config.device) in (n most : ℕ) → CanOpen C.sum_of config.config.segment_size n most old
            → IfErr result (λ e. IsOpenError e.0) }
        ensures answers { CountsFault result (D.faults config.device) (D.faults (running_after result).device) }
        ensures acts { OpenActs C.sum_of config.config.segment_size result (D.trace config.device) (D.trace (running_after result).device)
            (D.faults config.device) (D.faults (running_after result).device) }
        ensures later { IsLater (D.trace config.device) (D.trace (running_after result).device) }
        ensures config { ConfigKept config (running_after result) }
    {
        let mut config = config;
        let alloc = config.alloc();
        let snapshot = match read_snapshot_or_default(&mut config) {
            Ok(snapshot) => snapshot,
            Err(e) => return Err((e, config)),
        };
        let mut log = match Log::start(config, &snapshot) {
            Ok(log) => log,
            Err(refused) => return Err(refused),
        };
        match read_bound(alloc, &mut log, &snapshot) {
            Ok(bound) => {
                let guard = log.pin();
                Ok(IdGenerator {
                    log,
                    guard,
                    next: bound,
                    bound,
                    asked: bound,
                    block: BLOCK,
                })
            }
            Err(e) => Err((e, log.halt())),
        }
    }

    /// Has blocks of so many identifiers taken from the next block on.
    pub fn set_block(&mut self, block: NonZeroU64)
        ensures block { block_of self.new ≡ non_zero_u64_get block }
        ensures rest { SameNext self.old self.new }
        ensures generates { Generates D.trace C.sum_of self.old → Generates D.trace C.sum_of self.new }
    {
        self.block = block.get();
    }

    /// Gives an identifier out. Where the block is used up, a further one is made durable first: one message, and a flush.
    ///
    /// # Errors
    ///
    /// `Io` where the log keeps a failure of its device, or where the device failed in this call; `OutOfMemory`; `PlacesUsedUp` where no identifier is left
    /// below 2^64 - 1, or the log has no further segment that ends below 2^63. No identifier is lost: after `OutOfMemory` the call can be tried again, and what
    /// was asked for then isn't asked for again: however often it is tried, the log gets one message for a block.
    pub fn next(&mut self) -> Result<u64>
        ensures given { IfOk result (λ id. (id ≡ next_of self.old) × (next_of self.new ≡ id + 1)) }
        ensures takes { OnOk result (bound_of self.new ≡ next_bound self.old) }
        ensures kept { OnErr result ((next_of self.new ≡ next_of self.old) × (bound_of self.new ≡ bound_of self.old)) }
        ensures once { OnErr result (MayHaveAsked self.old self.new) }
        ensures within { next_of self.old < bound_of self.old → (OnErr result ⊥) × (log_of self.new ≡ log_of self.old) }
        ensures asks { OnOk result (asked_of self.new ≡ max (asked_of self.old) (next_bound self.old)) }
        ensures room { OnOk result (HasRoom self.old) }
        ensures position { OnOk result (position_of (log_of self.new) ≡ next_position self.old) }
        ensures goes_on { GivesOn D.trace C.sum_of self.old self.new }
        ensures writes { WritesBuffers result (D.trace (running self.old).device) (D.trace (running self.new).device) }
        ensures faulty { IsSome (kept_fault self.old) → OnErr result (running self.new ≡ running self.old) }
        ensures answers { NextAnswers D.faults result self.old self.new }
    {
        match self.take_block() {
            Ok(()) => {}
            Err(e) => return Err(e),
        }
        let id = self.next;
        self.next += 1;
        Ok(id)
    }

    /// Makes a further block durable, where this one is used up.
    fn take_block(&mut self) -> Result<()>
        ensures some { OnOk result (next_of self.new < bound_of self.new) }
        ensures end { OnOk result (bound_of self.new ≡ next_bound self.old) }
        ensures whole { next_of self.old < bound_of self.old → (OnErr result ⊥) × (self.new ≡ self.old) }
        ensures same { next_of self.new ≡ next_of self.old }
        ensures refused { OnErr result ((bound_of self.new ≡ bound_of self.old) × MayHaveAsked self.old self.new) }
        ensures asked { OnOk result (asked_of self.new ≡ max (asked_of self.old) (next_bound self.old)) }
        ensures room { OnOk result (HasRoom self.old) }
        ensures position { OnOk result (position_of (log_of self.new) ≡ next_position self.old) }
        ensures keeps { GivesOn D.trace C.sum_of self.old self.new }
        ensures writes { WritesBuffers result (D.trace (running self.old).device) (D.trace (running self.new).device) }
        ensures faulty { IsSome (kept_fault self.old) → OnErr result (running self.new ≡ running self.old) }
        ensures causes { NextAnswers D.faults result self.old self.new }
    {
        if self.next < self.bound {
            return Ok(());
        }
        match self.ask() {
            Ok(()) => {}
            Err(e) => return Err(e),
        }
        match self.log.flush() {
            Ok(_) => {
                self.bound = self.asked;
                Ok(())
            }
            Err(failed) => Err(failed),
        }
    }

    /// Puts the bound of a further block into the log's history, unless it is there.
    fn ask(&mut self) -> Result<()>
        ensures end { OnOk result (asked_of self.new ≡ (if nat_lt (bound_of self.old) (asked_of self.old) then asked_of self.old
            else further_bound self.old)) }
        ensures still { bound_of self.old < asked_of self.old → self.new ≡ self.old }
        ensures left { OnOk result (bound_of self.old < 2 ^ 64 - 1) }
        ensures asked { OnOk result (asked_of self.old ≡ bound_of self.old → HasAsked self.old self.new) }
        ensures refused { OnErr result ((asked_of self.new ≡ asked_of self.old) × (position_of (log_of self.new) ≡ position_of (log_of self.old))) }
        ensures unwritten { running self.new ≡ running self.old }
        ensures further { OnOk result (bound_of self.new < asked_of self.new) }
        ensures rest { SameBlock self.old self.new }
        ensures gives_on { GivesOn D.trace C.sum_of self.old self.new }
        ensures answers { NextAnswers D.faults result self.old self.new }
    {
        if self.bound < self.asked {
            return Ok(());
        }
        if self.bound == u64::MAX {
            return Err(Error::PlacesUsedUp);
        }
        let asked = self.bound.saturating_add(self.block);
        let ticket = match self
            .log
            .reserve(LogKind::Replace, BOUND_PAGE, &asked, &self.guard)
        {
            Ok(ticket) => ticket,
            Err(e) => return Err(e),
        };
        match self.log.complete(ticket) {
            Ok(_) => {
                self.asked = asked;
                Ok(())
            }
            Err(e) => Err(e),
        }
    }

    /// Gives the generator up, and returns what it ran on. What is left of its block is lost. It writes nothing.
    pub fn close(self) -> RunningConfig<D, C>
        ensures config { result ≡ running self }
        ensures gives { Generates D.trace C.sum_of self → GivesFrom C.sum_of (size_of self) (bound_of self) (asked_of self) (state_of (D.trace result.device)) }
    {
        let IdGenerator {
            log,
            guard,
            next: _,
            bound: _,
            asked: _,
            block: _,
        } = self;
        guard.abandon();
        log.halt()
    }
}

impl<D: CrashDevice, C: Checksum> IdGenerator<D, C> {
    ghost use Rattle.ids.specs.Generators.{Generates, SameBlock, asked_of, kept_fault, log_of, running};

    /// Has the device stop within a call, as `CrashDevice::stop_after`. Nothing else of the generator is another.
    pub fn stop_after(&mut self, n: u64)
        ensures trace { D.trace (running self.new).device
            ≡ (if D.is_stopped (running self.old).device then D.trace (running self.old).device else StopAsked n ∷ D.trace (running self.old).device) }
        ensures faults { D.faults (running self.new).device ≡ D.faults (running self.old).device }
        ensures stopped { D.is_stopped (running self.new).device ≡ D.is_stopped (running self.old).device }
        ensures same { SameBlock self.old self.new }
        ensures asked { (asked_of self.new ≡ asked_of self.old) × (kept_fault self.new ≡ kept_fault self.old) }
        ensures position { position_of (log_of self.new) ≡ position_of (log_of self.old) }
        ensures generates { Generates D.trace C.sum_of self.old → Generates D.trace C.sum_of self.new }
        ensures config { ConfigKept (running self.old) (running self.new) }
    {
        self.log.stop_after(n);
    }
}
