//! The items of a page.

use crate::content::{Copied, Folder, load_pages};
use crate::entries::read_items;
use crate::output::printed;
use crate::{Ended, damage};
use anyhow::{Error, Result, anyhow};
use sled_log::device::Checksum;
use sled_log::result::PageId;
use sled_log::session::Reply;
use sled_log::snapshot::{PageState, Snapshot};
use slog_lines::text::print;
use std::alloc::Global;
use std::io::{self, BufWriter, Write};

/// Prints a page as `read` of `run` prints it. The folder is only read.
pub(crate) fn show<C: Checksum + Copy + Drop>(
    rt: &HostRuntime,
    folder: &Folder<'_, C>,
    page: PageId,
) -> Result<Ended> {
    let alloc = rt.alloc();
    let (config, snapshot) = load_pages(rt, folder)?;
    let mut config = config;
    let reply = read_page(alloc, folder.path, &mut config, &snapshot, page)?;
    let mut writer = BufWriter::new(alloc, io::writer(rt))?;
    printed(print(alloc, &mut writer, &reply))?;
    printed(writer.flush())?;
    Ok(Ended::Well)
}

// What a page of a table is.
fn read_page<C: Checksum>(
    alloc: Global,
    folder: &str,
    config: &mut Copied<C>,
    snapshot: &Snapshot,
    page: PageId,
) -> Result<Reply> {
    match snapshot.pt.get(page as usize) {
        Some(PageState::Present { base, frags }) => {
            match read_items(config, page, base, frags) {
                Ok(Ok(items)) => Ok(Reply::Page(items)),
                Ok(Err(unread)) => Err(damage::in_file(alloc, folder, &unread.damage())),
                Err(error) => Err(damage::named(alloc, folder, Error::from(error))),
            }
        }
        Some(PageState::Free(_, _)) => Ok(Reply::FreePage),
        Some(PageState::Uninitialized) | None => {
            let count = snapshot.pt.len();
            let error = anyhow!("page {page} isn't begun, and {count} are");
            Err(error.context(folder))
        }
    }
}
