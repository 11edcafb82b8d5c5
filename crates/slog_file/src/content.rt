//! What a folder holds, as a device in memory.

use crate::damage;
use crate::progress::{Stage, Told};
use anyhow::{Error, Result, anyhow};
use sled_file::copy::filled;
use sled_file::{OpenError, read};
use sled_log::config::{Config, RunningConfig};
use sled_log::device::{Checksum, MemDevice, Offer};
use sled_log::snapshot::{Snapshot, read_snapshot_or_default};
use std::alloc::Global;

/// A folder that is there, and how its log is written.
#[derive(Debug, Clone, Copy)]
pub(crate) struct Folder<'a, C> {
    pub(crate) path: &'a str,
    pub(crate) config: Config,
    pub(crate) checksum: C,
}

/// What the subcommands look at: a copy of a folder in memory.
pub(crate) type Copied<C> = RunningConfig<MemDevice, C>;

/// Reads a folder, which is locked meanwhile, and is changed in nothing.
pub(crate) fn load<C: Checksum + Copy + Drop>(
    rt: &HostRuntime,
    folder: &Folder<'_, C>,
) -> Result<Copied<C>> {
    load_told(rt, folder, &mut Told::begin(rt, folder.path))
}

fn load_told<C: Checksum + Copy + Drop>(
    rt: &HostRuntime,
    folder: &Folder<'_, C>,
    told: &mut Told<'_>,
) -> Result<Copied<C>> {
    let alloc = rt.alloc();
    let found = found(rt, folder.path, told)?;
    told.enter(Stage::Copying);
    let device = copied(alloc, folder.path, folder.config, &found)?;
    Ok(RunningConfig::new(alloc, folder.config, device, folder.checksum))
}

/// Reads a folder in the same way, and recovers its pages from the copy.
pub(crate) fn load_pages<C: Checksum + Copy + Drop>(
    rt: &HostRuntime,
    folder: &Folder<'_, C>,
) -> Result<(Copied<C>, Snapshot)> {
    let mut told = Told::begin(rt, folder.path);
    let mut config = load_told(rt, folder, &mut told)?;
    told.enter(Stage::Recovering);
    let snapshot = recovered(rt.alloc(), folder.path, &mut config)?;
    Ok((config, snapshot))
}

/// What a recovery of the copy in memory gives.
pub(crate) fn recovered<C: Checksum>(
    alloc: Global,
    folder: &str,
    config: &mut Copied<C>,
) -> Result<Snapshot> {
    match read_snapshot_or_default(config) {
        Ok(snapshot) => Ok(snapshot),
        Err(error) => Err(damage::explained(alloc, folder, config, error)),
    }
}

/// A device in memory with what a folder holds.
pub(crate) fn copied(
    alloc: Global,
    folder: &str,
    config: Config,
    found: &Offer,
) -> Result<MemDevice> {
    match filled(alloc, config, found) {
        Ok(device) => Ok(device),
        Err(error) => Err(
            Error::from(error)
                .context("the copy in memory can't be made")
                .context(folder),
        ),
    }
}

/// All that the files of a folder hold.
pub(crate) fn found(rt: &HostRuntime, folder: &str, told: &mut Told<'_>) -> Result<Offer> {
    match read(rt, folder, told) {
        Ok(found) => Ok(found),
        Err(error) => Err(opening_error(error)),
    }
}

/// The error of an opening, with the path in front.
pub(crate) fn opening_error(error: OpenError) -> Error {
    match error {
        OpenError::Locked { path } => anyhow!("the folder is open elsewhere").context(path),
        OpenError::Io { path, doing, error } => anyhow!("{doing}: {error}").context(path),
        OpenError::OtherSize { path, kept, asked } => {
            anyhow!("the segments have {kept} bytes here, and not {asked}").context(path)
        }
        OpenError::OtherChecksum { path, kept, asked } => {
            anyhow!("the checksum is {kept} here, and not {asked}").context(path)
        }
        OpenError::OtherVersion { path, version } => {
            anyhow!("the folder is of version {version}, and 2 is the one that is known").context(
                path,
            )
        }
        OpenError::BadConfig { path } => anyhow!(
            "it has to be the lines 'sled_file 2', 'size S', 'checksum NAME', S a power of two from 256 to 8388608"
        ).context(path),
        OpenError::NoConfig { path, len } => anyhow!(
            "the file is missing, and the log has {len} bytes: write what it said, or 'size S' if there never was one"
        ).context(path),
        OpenError::OutOfMemory => anyhow!("out of memory"),
    }
}
