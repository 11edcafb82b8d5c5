//! The items of all pages, a line of JSON for each page.

use crate::content::{Copied, Folder, load_pages};
use crate::entries::{Unread, read_items};
use crate::json::Json;
use crate::output::printed;
use crate::{Ended, damage};
use anyhow::{Error, Result};
use sled_log::device::Checksum;
use sled_log::result::PageId;
use sled_log::snapshot::PageState;
use slog_lines::text::hex;
use std::alloc::Global;
use std::io::{self, BufWriter, Write};

/// Prints all pages. The folder is only read. A page with a message that can't be read is told on standard error.
pub(crate) fn show<C: Checksum + Copy + Drop>(
    rt: &HostRuntime,
    folder: &Folder<'_, C>,
) -> Result<Ended> {
    let (config, snapshot) = load_pages(rt, folder)?;
    let mut config = config;
    let mut writer = BufWriter::new(rt.alloc(), io::writer(rt))?;
    let mut ended = Ended::Well;
    for (number, page) in snapshot.pt.iter().enumerate() {
        let number = number as u64;
        match read(rt.alloc(), folder.path, &mut config, number, page)? {
            Ok(content) => printed(print_page(rt.alloc(), number, &content, &mut writer))?,
            Err(unread) => {
                ended = Ended::Damaged;
                let error = damage::in_file(rt.alloc(), folder.path, &unread.damage());
                let _ = eprintln!(rt; "slog_file: {error:#}");
                printed(print_page(rt.alloc(), number, &Content::Damaged, &mut writer))?;
            }
        }
    }
    printed(writer.flush())?;
    Ok(ended)
}

// What a page has.
#[derive(Drop)]
enum Content {
    // The encodings of its items.
    Items(Vec<Vec<u8>>),
    // It was given back.
    Free,
    // A message of it can't be read.
    Damaged,
}

// Reads a page.
fn read<C: Checksum>(
    alloc: Global,
    folder: &str,
    config: &mut Copied<C>,
    number: PageId,
    page: &PageState,
) -> Result<std::result::Result<Content, Unread>> {
    let PageState::Present { base, frags } = page else {
        return Ok(Ok(Content::Free));
    };
    match read_items(config, number, base, frags) {
        Ok(Ok(items)) => Ok(Ok(Content::Items(items))),
        Ok(Err(unread)) => Ok(Err(unread)),
        Err(error) => Err(damage::named(alloc, folder, Error::from(error))),
    }
}

// Prints the line of a page.
fn print_page<W: Write>(
    alloc: Global,
    number: PageId,
    content: &Content,
    writer: &mut W,
) -> io::Result<()> {
    let mut json = Json::new(writer);
    json.open("{")?;
    json.number("page", number)?;
    match content {
        Content::Items(items) => {
            json.key("items")?;
            json.open("[")?;
            for item in items {
                let digits = hex(alloc, item)?;
                json.item(alloc, digits.as_str())?;
            }
            json.close("]")?;
        }
        Content::Free => json.flag("free")?,
        Content::Damaged => json.flag("damaged")?,
    }
    json.close("}")?;
    json.end_line()
}
