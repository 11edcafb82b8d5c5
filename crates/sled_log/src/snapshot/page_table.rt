//! The table of pages that a recovery makes, message by message (`specs/Recovery.antt`).
ghost use Rattle.std.specs.Prelude.{◌≡◌, ◌+◌, ◌-◌, ◌^◌, ◌≤◌, ◌<◌, ◌++◌, ℕ, List, [], ◌∷◌, length, map, set, get_or, take, drop, Some, None, pos, true, false, IfOk, IfErr, OnOk, IsTrue, IsOkUnless};
ghost use Rattle.std.specs.List.{All};
ghost use Rattle.sled_codec.specs.Errors.{IsCorruption, IsDecodeError};
ghost use Rattle.sled_codec.specs.Snapshots.{Entry, Page, Uninitialized, page_of};
ghost use Rattle.sled_log.specs.Recovery.{table_with, table_of, applied_of, grown, with_fragment, last_entry, given, before_open, open_at, has_no_table, are_whole, is_whole_page};

use sled_codec::result::{Error, PageId, Result};
use sled_codec::serialization::LogKind;
use sled_codec::serialization::snapshot::{Entry, PageState};
use sled_core::iterator::records::opens;
use sled_core::iterator::scan::{RecordContent, ScannedRecord};
use std::alloc::Global;

/// Applies what is met in a segment, up to a batch that does not end below `end`. Messages below `least`
/// are passed over. Answers where that batch begins. `Corruption` comes for a page that no table has.
pub(crate) fn apply_all(
    alloc: Global,
    pages: &mut Vec<PageState>,
    met: &[ScannedRecord],
    least: u64,
    end: u64,
) -> Result<Option<u64>>
    requires places { All (λ m. m.place < 2 ^ 63) met.now }
    requires end { end < 2 ^ 63 }
    ensures pages { OnOk result (map page_of pages.new.items ≡ table_of (map page_of pages.old.items) (given least (before_open end met.now))) }
    ensures fine { OnOk result (has_no_table (given least (before_open end met.now)) ≡ false) }
    ensures stop { IfOk result (λ stop. stop ≡ open_at end met.now) }
    ensures corrupt { IsCorruption result → has_no_table (given least (before_open end met.now)) ≡ true }
    ensures errors { IfErr result IsDecodeError }
{
    for m in met {
        if opens(&m.what, end) {
            return Ok(Some(m.place));
        }
        if m.place >= least {
            apply(alloc, pages, m)?;
        }
    }
    Ok(None)
}

/// Applies one record.
#[inline(always)]
fn apply(alloc: Global, pages: &mut Vec<PageState>, m: &ScannedRecord) -> Result<()>
    requires { m.now.place < 2 ^ 63 }
    ensures pages { OnOk result (map page_of pages.new.items ≡ table_of (map page_of pages.old.items) (applied_of m.now m.now.what)) }
    ensures fine { OnOk result (has_no_table (applied_of m.now m.now.what) ≡ false) }
    ensures corrupt { IsCorruption result → has_no_table (applied_of m.now m.now.what) ≡ true }
    ensures errors { IfErr result IsDecodeError }
{
    match m.what {
        RecordContent::Gives(kind, page, pointer) => {
            if page == u64::MAX {
                return Err(Error::Corruption { at: None });
            }
            change(alloc, pages, kind, page, (m.place as i64, pointer, m.len))
        }
        RecordContent::NamesBlob(_, _, _, _)
        | RecordContent::BatchStart(_)
        | RecordContent::Skipped => Ok(()),
    }
}

/// Changes a table by a message.
#[inline(always)]
fn change(
    alloc: Global,
    pages: &mut Vec<PageState>,
    kind: LogKind,
    page: PageId,
    entry: Entry,
) -> Result<()>
    requires { page + 1 < 2 ^ 64 }
    ensures table { OnOk result (map page_of pages.new.items ≡ table_with (map page_of pages.old.items) kind page entry) }
    ensures err { IsOkUnless result Error.OutOfMemory }
{
    match kind {
        LogKind::Replace => {
            let frags = Vec::new(alloc);
            put(pages, page, PageState::Present { base: entry, frags })
        }
        LogKind::Free => put(pages, page, PageState::Free(entry.0, entry.1)),
        LogKind::Link => link(pages, page, entry),
        LogKind::Skip | LogKind::Corrupted => Ok(()),
    }
}

/// Sets a page, in a table that grows where it has to.
#[inline(always)]
fn put(pages: &mut Vec<PageState>, page: PageId, state: PageState) -> Result<()>
    requires { page + 1 < 2 ^ 64 }
    ensures table { OnOk result (map page_of pages.new.items ≡ set (grown (map page_of pages.old.items) (page + 1)) page (page_of state)) }
    ensures err { IsOkUnless result Error.OutOfMemory }
{
    grow(pages, page as usize + 1)?;
    pages[page as usize] = state;
    Ok(())
}

/// Lets a table have so many pages at least.
fn grow(pages: &mut Vec<PageState>, len: usize) -> Result<()>
    ensures pages { OnOk result (map page_of pages.new.items ≡ grown (map page_of pages.old.items) len) }
    ensures long { OnOk result (len ≤ length pages.new.items) }
    ensures err { IsOkUnless result Error.OutOfMemory }
{
    pages.reserve(len.saturating_sub(pages.len()))?;
    while pages.len() < len {
        pages.push(PageState::Uninitialized)?;
    }
    Ok(())
}

/// Puts a Link on a page, where it has one.
fn link(pages: &mut Vec<PageState>, page: PageId, entry: Entry) -> Result<()>
    ensures table { OnOk result (map page_of pages.new.items ≡ grown
        (set (map page_of pages.old.items) page (with_fragment (get_or (map page_of pages.old.items) page Uninitialized) entry)) page) }
    ensures err { IsOkUnless result Error.OutOfMemory }
{
    match pages.get_mut(page as usize) {
        Some(state) => link_to(state, entry),
        None => grow(pages, page as usize),
    }
}

/// Puts a Link on a page, where it lies behind all that the page has.
fn link_to(state: &mut PageState, entry: Entry) -> Result<()>
    ensures table { OnOk result (page_of state.new ≡ with_fragment (page_of state.old) entry) }
    ensures err { IsOkUnless result Error.OutOfMemory }
{
    match state {
        PageState::Present { base, frags } => {
            if last_of(base, frags).0 < entry.0 {
                frags.push(entry)?;
            }
            Ok(())
        }
        PageState::Free(_, _) | PageState::Uninitialized => Ok(()),
    }
}

/// The last entry of a page.
fn last_of(base: &Entry, frags: &[Entry]) -> Entry
    ensures { result ≡ last_entry base.now frags.now }
{
    match frags.last() {
        Some(entry) => *entry,
        None => *base,
    }
}

/// Whether a snapshot can say each page: it is there, and has 254 Links at most.
pub(crate) fn are_whole(pages: &[PageState]) -> bool
    ensures { result ≡ are_whole (map page_of pages.now) }
{
    for page in pages {
        if !is_whole(page) {
            return false;
        }
    }
    true
}

/// Whether a snapshot can say a page.
fn is_whole(page: &PageState) -> bool
    ensures { result ≡ is_whole_page (page_of page.now) }
{
    match page {
        PageState::Present { base: _, frags } => frags.len() < 255,
        PageState::Free(_, _) => true,
        PageState::Uninitialized => false,
    }
}
