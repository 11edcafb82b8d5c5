//! What a recovery and an opening of the log would do to a folder, and whether each message of its pages can be read.

mod findings;
mod print;

use crate::Ended;
use crate::check::findings::{Findings, find_all};
use crate::check::print::{print_json, print_text};
use crate::content::{Folder, copied, found};
use crate::json::Json;
use crate::noted_device::NotedDevice;
use crate::output::printed;
use crate::progress::{Stage, Told};
use anyhow::{Error, Result, anyhow};
use sled_log::config::RunningConfig;
use sled_log::device::{Checksum, Offer};
use std::alloc::Global;
use std::io::{self, BufWriter, Write};

/// What is checked: a copy of a folder in memory, which notes its changes.
pub(crate) type Noted<C> = RunningConfig<NotedDevice, C>;

/// Recovers a copy in memory, opens a log on it, reads all messages of its pages, and prints what it finds.
pub(crate) fn show<C: Checksum + Copy + Drop>(
    rt: &HostRuntime,
    folder: &Folder<'_, C>,
    is_json: bool,
) -> Result<Ended> {
    let (alloc, path) = (rt.alloc(), folder.path);
    let mut told = Told::begin(rt, path);
    let content = found(rt, path, &mut told)?;
    told.enter(Stage::Copying);
    let config = noted(alloc, folder, &content)?;
    told.enter(Stage::Recovering);
    let mut findings = Findings::new(alloc);
    let outcome = find_all(alloc, path, config, &content.bytes, &mut findings);
    let mut writer = BufWriter::new(alloc, io::writer(rt))?;
    if is_json {
        printed(print_json(alloc, path, &findings, &mut Json::new(&mut writer)))?;
    } else {
        printed(print_text(&findings, &mut writer))?;
    }
    printed(writer.flush())?;
    outcome?;
    ended(path, &findings)
}

// How the program ends that found this.
fn ended(folder: &str, findings: &Findings) -> Result<Ended> {
    match findings.unread.len() {
        0 if findings.dropped > 0 => Ok(Ended::Drops),
        0 => Ok(Ended::Well),
        1 => Err(unread(folder, anyhow!("a message of a page can't be read"))),
        count => Err(unread(folder, anyhow!("{count} messages of pages can't be read"))),
    }
}

fn unread(folder: &str, error: Error) -> Error {
    error.context(folder)
}

// A copy of a folder, of which nothing was changed yet.
fn noted<C: Checksum + Copy + Drop>(
    alloc: Global,
    folder: &Folder<'_, C>,
    content: &Offer,
) -> Result<Noted<C>> {
    let config = folder.config;
    let device = NotedDevice::new(alloc, copied(alloc, folder.path, config, content)?);
    Ok(RunningConfig::new(alloc, config, device, folder.checksum))
}
