//! Reading pages.
ghost use Rattle.std.specs.Prelude.{Bool, ◌≡◌, ◌∷◌, length, map, None};
ghost use Rattle.sled_core.specs.Fits.{config_of};
ghost use Rattle.sled_log.specs.declared.session.command.Command.TheVariants as told;
ghost use Rattle.sled_log.specs.LogActs.{ActsOver, ReadsEntriesOver, ReadsItemOver};
ghost use Rattle.sled_log.specs.Readings.{ReadsEntries, ReadsItem};
ghost use Rattle.sled_log.specs.RunPhases.{CarriesHere, RunsOn, view_by};

use crate::session::Phase;
use crate::session::command::{Refusal, Reply};
use crate::session::opened::Opened;
use sled_codec::result::{DiskPtr, Error, Lsn, PageId, Result};
use sled_codec::serialization::Checksum;
use sled_codec::serialization::snapshot::{Entry, PageState};
use sled_core::logger::Log;
use sled_core::logger::read_message::LogRead;
use sled_store::Device;
use std::alloc::Global;

/// Reads what a page is.
pub(crate) fn read<D: Device, C: Checksum>(opened: &mut Opened<D, C>, page: PageId) -> Reply
    ensures step { (stopped : D → Bool) → opened.old.due ≡ None → CarriesHere (view_by D.trace D.faults stopped) C.sum_of
        (Phase.Open opened.old) (told.Read page) (Phase.Open opened.new, result) }
    ensures device { (stopped : D → Bool) → ActsOver (view_by D.trace D.faults stopped) C.sum_of opened.old.log (told.Read page) result opened.new.log }
    ensures on { RunsOn D.trace (config_of opened.old.log) (config_of opened.new.log) }
{
    let Some(state) = opened.pages.get(page as usize) else {
        return Reply::Refused(Refusal::Page);
    };
    match state {
        PageState::Present { base, frags } => {
            match read_entries(opened.alloc, &mut opened.log, page, base, frags) {
                Ok(items) => Reply::Page(items),
                Err(e) => Reply::Failed(e),
            }
        }
        PageState::Free(_, _) => Reply::FreePage,
        PageState::Uninitialized => Reply::Refused(Refusal::Page),
    }
}

/// Reads the messages of a page, its Replace first. A failure that the log keeps comes before all.
fn read_entries<D: Device, C: Checksum>(
    alloc: Global,
    log: &mut Log<D, C>,
    page: PageId,
    base: &Entry,
    frags: &[Entry],
) -> Result<Vec<Vec<u8>>>
    ensures reads { (stopped : D → Bool) → ReadsEntries (view_by D.trace D.faults stopped) C.sum_of log.old page (base.now ∷ frags.now) log.new result }
    ensures device { (stopped : D → Bool) → ReadsEntriesOver (view_by D.trace D.faults stopped) C.sum_of log.old page log.new result }
    ensures on { RunsOn D.trace (config_of log.old) (config_of log.new) }
{
    if let Some(e) = log.failure() {
        return Err(Error::Io(e));
    }
    let mut items = Vec::with_capacity(alloc, frags.len() + 1)?;
    items.push_reserved(read_item(log, page, base.0, base.1)?);
    for frag in frags {
        items.push_reserved(read_item(log, page, frag.0, frag.1)?);
    }
    Ok(items)
}

/// Reads the item of a message, from its record or from its blob.
fn read_item<D: Device, C: Checksum>(
    log: &mut Log<D, C>,
    page: PageId,
    place: Lsn,
    pointer: DiskPtr,
) -> Result<Vec<u8>>
    ensures reads { (stopped : D → Bool) → ReadsItem (view_by D.trace D.faults stopped) C.sum_of log.old page place pointer log.new result }
    ensures device { (stopped : D → Bool) → ReadsItemOver (view_by D.trace D.faults stopped) C.sum_of log.old page log.new result }
    ensures on { RunsOn D.trace (config_of log.old) (config_of log.new) }
{
    match log.read(page, place, pointer)? {
        LogRead::Inline(_, item, _) | LogRead::Blob(_, item, _, _) => Ok(item),
        LogRead::Canceled(_)
        | LogRead::Cap(_)
        | LogRead::Corrupted
        | LogRead::DanglingBlob(_, _, _)
        | LogRead::BatchManifest(_, _) => Err(Error::Corruption { at: None }),
    }
}
