//! The table of what is completed, as a session keeps it.
ghost use Rattle.std.specs.Prelude.{◌≡◌, ◌<◌, get_or, length, map, set, vec_capacity, vec_len, OnOk, IsOkUnless};
ghost use Rattle.sled_codec.specs.Snapshots.{Uninitialized, page_of};
ghost use Rattle.sled_log.specs.Endings.{HasRoomOn, HasRoomToApply, applied_to, put_at, put_on};

use sled_codec::result::{Error, PageId, Result};
use sled_codec::serialization::LogKind;
use sled_codec::serialization::snapshot::{Entry, PageState};
use std::alloc::Global;

/// Makes room for the entry of one more message of this kind and page.
pub(crate) fn room_to_apply(pages: &mut Vec<PageState>, kind: LogKind, page: PageId) -> Result<()>
    ensures kept { map page_of pages.new.items ≡ map page_of pages.old.items }
    ensures room { OnOk result (HasRoomToApply pages.new kind page) }
    ensures err { IsOkUnless result Error.OutOfMemory }
{
    match kind {
        LogKind::Link => room_to_link(pages, page),
        LogKind::Replace | LogKind::Free => room_to_set(pages, page),
        LogKind::Skip | LogKind::Corrupted => Ok(()),
    }
}

/// Makes room for one more fragment of a page.
fn room_to_link(pages: &mut Vec<PageState>, page: PageId) -> Result<()>
    ensures kept { map page_of pages.new.items ≡ map page_of pages.old.items }
    ensures room { OnOk result (HasRoomToApply pages.new LogKind.Link page) }
    ensures err { IsOkUnless result Error.OutOfMemory }
{
    match pages.get_mut(page as usize) {
        Some(state) => room_on(state),
        None => Ok(()),
    }
}

/// Makes room for one more fragment, where the page is present.
fn room_on(state: &mut PageState) -> Result<()>
    ensures kept { page_of state.new ≡ page_of state.old }
    ensures room { OnOk result (HasRoomOn state.new) }
    ensures err { IsOkUnless result Error.OutOfMemory }
{
    match state {
        PageState::Present { base: _, frags } => Ok(frags.reserve(1)?),
        PageState::Free(_, _) | PageState::Uninitialized => Ok(()),
    }
}

/// Makes room for one more page, where it is the next one.
fn room_to_set(pages: &mut Vec<PageState>, page: PageId) -> Result<()>
    ensures kept { pages.new.items ≡ pages.old.items }
    ensures room { OnOk result (page ≡ length pages.new.items → vec_len pages.new < vec_capacity pages.new) }
    ensures err { IsOkUnless result Error.OutOfMemory }
{
    if page == pages.len() as u64 {
        pages.reserve(1)?;
    }
    Ok(())
}

/// Puts the entry of a message in the table, where there is room for it.
pub(crate) fn apply(
    alloc: Global,
    pages: &mut Vec<PageState>,
    kind: LogKind,
    page: PageId,
    entry: Entry,
)
    requires { HasRoomToApply pages.old kind page }
    ensures { map page_of pages.new.items ≡ applied_to (map page_of pages.old.items) kind page entry }
{
    match kind {
        LogKind::Replace => put(
            pages,
            page,
            PageState::Present {
                base: entry,
                frags: Vec::new(alloc),
            },
        ),
        LogKind::Free => put(pages, page, PageState::Free(entry.0, entry.1)),
        LogKind::Link => link(pages, page, entry),
        LogKind::Skip | LogKind::Corrupted => {}
    }
}

/// Sets a page that is known, or the next one.
fn put(pages: &mut Vec<PageState>, page: PageId, state: PageState)
    requires { page ≡ length pages.old.items → vec_len pages.old < vec_capacity pages.old }
    ensures { map page_of pages.new.items ≡ put_at (map page_of pages.old.items) page (page_of state) }
{
    if page == pages.len() as u64 {
        pages.push_reserved(state);
    } else if let Some(known) = pages.get_mut(page as usize) {
        *known = state;
    }
}

/// Puts a fragment on a page that is present.
fn link(pages: &mut Vec<PageState>, page: PageId, entry: Entry)
    requires { HasRoomToApply pages.old LogKind.Link page }
    ensures { map page_of pages.new.items ≡ set (map page_of pages.old.items) page (put_on entry (get_or (map page_of pages.old.items) page Uninitialized)) }
{
    if let Some(state) = pages.get_mut(page as usize) {
        push_on(state, entry);
    }
}

/// Puts a fragment on the page, where it is present.
fn push_on(state: &mut PageState, entry: Entry)
    requires { HasRoomOn state.old }
    ensures { page_of state.new ≡ put_on entry (page_of state.old) }
{
    match state {
        PageState::Present { base: _, frags } => frags.push_reserved(entry),
        PageState::Free(_, _) | PageState::Uninitialized => {}
    }
}
