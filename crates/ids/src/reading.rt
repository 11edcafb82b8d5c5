//! Reading the bound of a log that begins (`specs/Readings.antt`).
ghost use Rattle.std.specs.Prelude.{◌≡◌, ◌↔◌, ◌<ℤ◌, ℕ, pos, [], None, IsTrue, IfOk, IfErr, OnErr, OnOk};
ghost use Rattle.sled_codec.specs.declared.result.Error.TheVariants.{Corruption};
ghost use Rattle.sled_codec.specs.History.{History, Message};
ghost use Rattle.sled_codec.specs.PageTables.{entry_of};
ghost use Rattle.sled_codec.specs.Snapshots.{Present, model_of, page_of};
ghost use Rattle.sled_core.specs.Fits.{device_of, fault_of, segment_size_of, synced_end};
ghost use Rattle.sled_core.specs.Keeps.{KeepsLog, KeepsWriting};
ghost use Rattle.sled_core.specs.Reading.{GivesMessage, IsInline};
ghost use Rattle.ids.specs.Bounds.{HasBound, IsLastBound};
ghost use Rattle.ids.specs.Readings.{AnswersBound, CountsFailure, FirstBelow, HasTable, HoldsAt, IsBoundBy, IsBoundIn, IsBoundRead, IsIdle, IsNumberIn, IsOpenError, IsReadErrorUnless, LiesBelow, file_of};

use crate::generator::BOUND_PAGE;
use sled_log::device::{Checksum, Device};
use sled_log::logger::{DiskPtr, Log, LogRead, Lsn};
use sled_log::result::{Error, Result};
use sled_log::serialization::Serialize;
use sled_log::snapshot::{PageState, Snapshot};
use std::alloc::Global;

/// Reads the bound from its page; 0 where that was never begun.
pub(crate) fn read_bound<D: Device, C: Checksum>(
    alloc: Global,
    log: &mut Log<D, C>,
    snapshot: &Snapshot,
) -> Result<u64>
    ensures found { (H : History) (cut : ℕ) → HasTable D.trace C.sum_of log.old (model_of snapshot.now).pages H cut → IfOk result (λ n. IsLastBound H cut n) }
    ensures errors { (H : History) (cut : ℕ) → HasTable D.trace C.sum_of log.old (model_of snapshot.now).pages H cut → IfErr result IsOpenError }
    ensures only { KeepsWriting D.trace C.sum_of log.old log.new }
    ensures fault { OnOk result (fault_of log.old ≡ None → fault_of log.new ≡ None) }
    ensures unwritten { IsIdle log.old → D.trace (device_of log.new) ≡ D.trace (device_of log.old) }
    ensures kept { IsIdle log.old → KeepsLog D.trace C.sum_of log.old log.new }
    ensures known { IsIdle log.old → IfErr result (IsReadErrorUnless (FirstBelow (synced_end log.old) (model_of snapshot.now).pages)) }
    ensures answers { fault_of log.old ≡ None → CountsFailure result (D.faults (device_of log.old)) (D.faults (device_of log.new)) }
    ensures bound { AnswersBound result (IsBoundRead C.sum_of (segment_size_of log.old) (file_of D.trace log.new) (model_of snapshot.now).pages) }
{
    match snapshot.pt.first() {
        None => Ok(0),
        Some(page) => read_page(alloc, log, page),
    }
}

/// Reads the bound where a page is the last message of it.
fn read_page<D: Device, C: Checksum>(
    alloc: Global,
    log: &mut Log<D, C>,
    page: &PageState,
) -> Result<u64>
    ensures number { (H : History) (m : Message) (cut n : ℕ) → HoldsAt D.trace C.sum_of log.old H m cut n → page_of page.now ≡ Present (entry_of m) []
        → IfOk result (λ v. v ≡ n) }
    ensures errors { (H : History) (m : Message) (cut n : ℕ) → HoldsAt D.trace C.sum_of log.old H m cut n → page_of page.now ≡ Present (entry_of m) []
        → IfErr result IsOpenError }
    ensures only { KeepsWriting D.trace C.sum_of log.old log.new }
    ensures fault { OnOk result (fault_of log.old ≡ None → fault_of log.new ≡ None) }
    ensures unwritten { IsIdle log.old → D.trace (device_of log.new) ≡ D.trace (device_of log.old) }
    ensures kept { IsIdle log.old → KeepsLog D.trace C.sum_of log.old log.new }
    ensures known { IsIdle log.old → IfErr result (IsReadErrorUnless (LiesBelow (synced_end log.old) (page_of page.now))) }
    ensures answers { fault_of log.old ≡ None → CountsFailure result (D.faults (device_of log.old)) (D.faults (device_of log.new)) }
    ensures bound { AnswersBound result (IsBoundIn C.sum_of (segment_size_of log.old) (file_of D.trace log.new) (page_of page.now)) }
{
    match page {
        PageState::Present { base, frags: _ } => read_number(alloc, log, base.0, base.1),
        PageState::Free(_, _) | PageState::Uninitialized => Err(Error::Corruption { at: None }),
    }
}

/// Reads the number that the message at a place of the page is.
fn read_number<D: Device, C: Checksum>(
    alloc: Global,
    log: &mut Log<D, C>,
    place: Lsn,
    pointer: DiskPtr,
) -> Result<u64>
    ensures number { (H : History) (m : Message) (cut n : ℕ) → HoldsAt D.trace C.sum_of log.old H m cut n → pos m.place ≡ place → m.pointer ≡ pointer
        → IfOk result (λ v. v ≡ n) }
    ensures errors { (H : History) (m : Message) (cut n : ℕ) → HoldsAt D.trace C.sum_of log.old H m cut n → pos m.place ≡ place → m.pointer ≡ pointer
        → IfErr result IsOpenError }
    ensures only { KeepsWriting D.trace C.sum_of log.old log.new }
    ensures fault { OnOk result (fault_of log.old ≡ None → fault_of log.new ≡ None) }
    ensures unwritten { IsIdle log.old → D.trace (device_of log.new) ≡ D.trace (device_of log.old) }
    ensures kept { IsIdle log.old → KeepsLog D.trace C.sum_of log.old log.new }
    ensures known { IsIdle log.old → IfErr result (IsReadErrorUnless (place <ℤ pos (synced_end log.old))) }
    ensures answers { fault_of log.old ≡ None → CountsFailure result (D.faults (device_of log.old)) (D.faults (device_of log.new)) }
    ensures bound { AnswersBound result (IsBoundBy C.sum_of (segment_size_of log.old) (file_of D.trace log.new) place pointer) }
{
    let DiskPtr::Inline(lid) = pointer else {
        return Err(Error::Corruption { at: None });
    };
    match log.read(BOUND_PAGE, place, DiskPtr::Inline(lid)) {
        Ok(read) => number_in(alloc, read),
        Err(e) => Err(e),
    }
}

/// The number that the item of a message is, which has to stand in its record.
fn number_in(alloc: Global, read: LogRead) -> Result<u64>
    ensures number { (m : Message) (n : ℕ) → GivesMessage m read → HasBound m n → IfOk result (λ v. v ≡ n) × OnErr result (IsInline m.pointer → ⊥) }
    ensures damage { IfErr result (λ e. e ≡ Corruption None) }
    ensures spelled { IfOk result (IsNumberIn read) }
    ensures none { OnErr result ((n : ℕ) → IsNumberIn read n → ⊥) }
{
    let LogRead::Inline(_, item, _) = read else {
        return Err(Error::Corruption { at: None });
    };
    u64::deserialize(alloc, &mut item.as_slice())
}
