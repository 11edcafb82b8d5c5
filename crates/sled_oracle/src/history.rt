//! Completed messages, and the table of pages that they make. A plain, slow reading of the definitions
//! of `specs/History.antt` of `sled_codec`, for tests.
ghost use Rattle.std.specs.Prelude.{◌≡◌, ◌++◌, ◌&&◌, IfOk, OnOk, IsOkUnless, map, filter, nat_lt, option_map, Some};
ghost use Rattle.sled_codec.specs.History.{of_page, page_state, last_beginning, entries_from, begins_page, is_replace, is_link};
ghost use Rattle.sled_oracle.specs.Seen.{seen};

use sled_codec::result::{DiskPtr, Error, PageId, Result};
use sled_codec::serialization::LogKind;
use std::alloc::Global;

/// A completed message (`docs/DEFINITIONS.md`, "History").
#[derive(Debug, Clone, Copy, PartialEq)]
pub struct Message<'a> {
    /// What it does to its page.
    pub kind: LogKind,
    /// Its page.
    pub page: PageId,
    /// Where its record begins in the log.
    pub place: u64,
    /// Where its record lies.
    pub pointer: DiskPtr,
    /// How long the record is.
    pub size: u64,
    /// The item's spelling.
    pub bytes: &'a [u8],
}

/// Returns the entries of a page in the table of these messages below a cut: none where the page was not
/// begun, one Free where it was given back, else its Replace and the Links on it. The messages stand by
/// place, the lowest first.
///
/// # Errors
///
/// `OutOfMemory` alone.
#[tactic(auto, unfolding(sled_codec::specs::History::of_page))]
pub fn entries_of_page<'a>(
    alloc: Global,
    messages: &[Message<'a>],
    cut: u64,
    page: PageId,
) -> Result<Vec<Message<'a>>>
    ensures entries { IfOk result (λ entries. map seen entries.items ≡ page_state (of_page (map seen messages.now) cut page)) }
    ensures memory { IsOkUnless result Error.OutOfMemory }
{
    let mut of_page = Vec::new(alloc);
    for m in messages {
        if m.page == page && m.place < cut {
            of_page.push(*m)?;
        }
    }
    page_state(alloc, &of_page)
}

// The entries of one page, whose messages these are.
#[tactic(auto, unfolding(sled_codec::specs::History::page_state))]
fn page_state<'a>(alloc: Global, of_page: &[Message<'a>]) -> Result<Vec<Message<'a>>>
    ensures entries { IfOk result (λ entries. map seen entries.items ≡ page_state (map seen of_page.now)) }
    ensures memory { IsOkUnless result Error.OutOfMemory }
{
    match last_beginning(of_page) {
        None => Ok(Vec::new(alloc)),
        Some(base) => behind(alloc, base, of_page),
    }
}

// The last message that gives its page a new beginning.
fn last_beginning<'a>(of_page: &[Message<'a>]) -> Option<Message<'a>>
    ensures { option_map seen result ≡ last_beginning (map seen of_page.now) }
{
    let mut last = None;
    for m in of_page {
        if begins_page(m.kind) {
            last = Some(*m);
        }
    }
    last
}

// A beginning, and what stands on it.
fn behind<'a>(alloc: Global, base: Message<'a>, of_page: &[Message<'a>]) -> Result<Vec<Message<'a>>>
    ensures entries { IfOk result (λ entries. map seen entries.items ≡ entries_from (Some (seen base.entry)) (map seen of_page.now)) }
    ensures memory { IsOkUnless result Error.OutOfMemory }
{
    let mut entries = Vec::new(alloc);
    entries.push(base)?;
    if is_replace(base.kind) {
        push_links(&mut entries, base.place, of_page)?;
    }
    Ok(entries)
}

// Puts the Links above a place behind the entries.
fn push_links<'a>(entries: &mut Vec<Message<'a>>, place: u64, of_page: &[Message<'a>]) -> Result<()>
    ensures links { OnOk result (map seen entries.new.items ≡ map seen entries.old.items
        ++ filter (λ m. is_link m.kind && nat_lt place m.place) (map seen of_page.now)) }
    ensures memory { IsOkUnless result Error.OutOfMemory }
{
    for m in of_page {
        if is_link(m.kind) && m.place > place {
            entries.push(*m)?;
        }
    }
    Ok(())
}

// Whether a message gives its page a new beginning.
fn begins_page(kind: LogKind) -> bool
    ensures { result ≡ begins_page kind }
{
    match kind {
        LogKind::Replace | LogKind::Free => true,
        LogKind::Link | LogKind::Skip | LogKind::Corrupted => false,
    }
}

// Whether it is a Replace.
fn is_replace(kind: LogKind) -> bool
    ensures { result ≡ is_replace kind }
{
    match kind {
        LogKind::Replace => true,
        LogKind::Link | LogKind::Free | LogKind::Skip | LogKind::Corrupted => false,
    }
}

// Whether it is a Link.
fn is_link(kind: LogKind) -> bool
    ensures { result ≡ is_link kind }
{
    match kind {
        LogKind::Link => true,
        LogKind::Replace | LogKind::Free | LogKind::Skip | LogKind::Corrupted => false,
    }
}
