//! How a folder is opened: it is locked, its file `config` is compared, what is missing is made, all that is there is synced,
//! and then read.
//!
//! All in the folder is named below the handle of the folder that was opened (`place.rt`), so that it stays one folder
//! whatever becomes of the path meanwhile.
ghost use Rattle.std.specs.Prelude.{◌≡◌, ◌∷◌, ℕ, ℤ, List, IfOk, IfErr};
ghost use Rattle.std.specs.List.Sorted.{IsStrictlySortedBy};
ghost use Rattle.std.specs.Map.{keys_of};
ghost use Rattle.std.specs.Ordering.{int_cmp};
ghost use Rattle.sled_store.specs.Device.{Crashed, Given};
ghost use Rattle.sled_file.specs.Formats.{IsRefused, IsOfFiles};

mod agreeing;
mod error;
mod place;
mod reading;
mod settling;

use crate::device::FileDevice;
use crate::format::FolderChecksum;
use crate::host::{Handles, HostFolder, Names};
use crate::opening::agreeing::{Wanted, agree};
use crate::opening::place::{Holding, Place};
use crate::start::Start;
pub use error::OpenError;
use sled_store::{Config, Device, Offer};

/// Who is told how far an opening came.
pub trait Progress {
    /// So many bytes of the log file were read, of so many.
    fn has_read(&mut self, bytes: u64, of: u64);
}

/// Nobody is told.
#[derive(Clone, Copy, Debug)]
pub struct Untold;

impl Progress for Untold {
    fn has_read(&mut self, _bytes: u64, _of: u64) {}
}

/// Opens a folder, which is made where it is missing, as its parent isn't. It is locked until the device is dropped. Its
/// segments have to be of this size, and its log under this checksum; a new folder is begun with both
/// (`docs/FORMATS.md`, "The files of a folder").
///
/// # Errors
///
/// - `Locked` where it is open elsewhere.
/// - `OtherSize`, `OtherChecksum` where the folder was begun with another size or checksum.
/// - `OtherVersion` where its file `config` is of a version that isn't known, `BadConfig` where that is no such file.
/// - `NoConfig` where there is no such file, the log has bytes, and the checksum isn't `Crc32`. Under `Crc32` the size is
///   taken as it is asked for, and kept from then on: earlier versions of this crate made no such file.
/// - `Io` where a call on a file failed, which it names, and `OutOfMemory` where memory was refused.
///
/// Nothing that was there is changed by any of these. An empty `log` may have been made, and before `Io` and `OutOfMemory`
/// all that an opening makes.
pub fn open<S: Start, C: FolderChecksum>(
    rt: &HostRuntime,
    path: &str,
    config: Config,
    checksum: &C,
    start: S,
) -> Result<FileDevice<HostFolder, S>, OpenError>
    ensures trace { IfOk result (λ device. (log : List ℕ) × (blobs : List (ℤ × List ℕ)) × (snapshots : List (ℤ × List ℕ))
        × (⟦<FileDevice<HostFolder, S> as Device>⟧.trace device ≡ Crashed (Given log blobs snapshots) ∷ S.Start.past)) }
    ensures faults { IfOk result (λ device. ⟦<FileDevice<HostFolder, S> as Device>⟧.faults device ≡ 0) }
    ensures refused { IfErr result (IsRefused config.segment_size C.FolderChecksum.named) }
{
    open_told(rt, path, config, checksum, start, &mut Untold)
}

/// Opens a folder as `open`, and tells how far it came.
///
/// # Errors
///
/// As `open`.
pub fn open_told<S: Start, C: FolderChecksum, P: Progress>(
    rt: &HostRuntime,
    path: &str,
    config: Config,
    checksum: &C,
    _start: S,
    progress: &mut P,
) -> Result<FileDevice<HostFolder, S>, OpenError>
    ensures trace { IfOk result (λ device. (log : List ℕ) × (blobs : List (ℤ × List ℕ)) × (snapshots : List (ℤ × List ℕ))
        × (⟦<FileDevice<HostFolder, S> as Device>⟧.trace device ≡ Crashed (Given log blobs snapshots) ∷ S.Start.past)) }
    ensures faults { IfOk result (λ device. ⟦<FileDevice<HostFolder, S> as Device>⟧.faults device ≡ 0) }
    ensures refused { IfErr result (IsRefused config.segment_size C.FolderChecksum.named) }
{
    let alloc = rt.alloc();
    let place = Place::make(rt, path)?;
    let checksum = checksum.name();
    let handles = prepare(&place, Wanted { config, checksum })?;
    let names = Names::new(alloc, &handles)?;
    let found = reading::read_all(&place, &handles, &names, Holding::Alone, progress)?;
    let (folder, found) = HostFolder::new(rt, handles, names, found);
    Ok(FileDevice::new(alloc, folder, found))
}

/// Reads what is in a folder, which is changed in nothing and synced in nothing. Others may read it meanwhile, and nobody
/// has it open. Tells how far it came. Blobs and snapshots are in ascending order, each once.
///
/// # Errors
///
/// `Locked`, `Io` and `OutOfMemory` as `open`; `Io` also where the folder, its log file, or that of blobs or of snapshots is
/// missing. The file `config` isn't looked at: `format_of` tells what it says.
pub fn read<P: Progress>(rt: &HostRuntime, path: &str, progress: &mut P) -> Result<Offer, OpenError>
    ensures blobs { IfOk result (λ found. IsStrictlySortedBy int_cmp (keys_of found.blobs.items)) }
    ensures snapshots { IfOk result (λ found. IsStrictlySortedBy int_cmp (keys_of found.snapshots.items)) }
    ensures refused { IfErr result IsOfFiles }
{
    let alloc = rt.alloc();
    let place = Place::open(rt, path)?;
    let handles = look(&place)?;
    let names = Names::new(alloc, &handles)?;
    let found = reading::read_all(&place, &handles, &names, Holding::Shared, progress)?;
    Ok(Offer {
        bytes: found.log,
        blobs: found.blobs.into_list(alloc)?,
        snapshots: found.snapshots.into_list(alloc)?,
    })
}

// Locks the folder, compares its format, makes what is missing of it, and syncs the log file and what stands in the folder
// by name.
fn prepare(place: &Place<'_>, wanted: Wanted) -> Result<Handles, OpenError>
    ensures { IfErr result (IsRefused wanted.config.segment_size wanted.checksum.now) }
{
    let log = place.log()?;
    place.lock(&log, "log", Holding::Alone)?;
    let lock = place.lock_of_old(Holding::Alone)?;
    agree(place, &log, wanted)?;
    place.sync(&log, "log")?;
    place.settle_log()?;
    place.make_folder("blobs")?;
    place.make_folder("snapshots")?;
    let blobs = place.open_folder("blobs")?;
    place.sync(&blobs, "blobs")?;
    let snapshots = place.open_folder("snapshots")?;
    place.sync(&snapshots, "snapshots")?;
    place.sync_names(&log)?;
    Ok(Handles {
        log,
        blobs,
        snapshots,
        lock,
    })
}

// Locks a folder that is only read.
fn look(place: &Place<'_>) -> Result<Handles, OpenError>
    ensures { IfErr result IsOfFiles }
{
    let log = place.log_to_read()?;
    place.lock(&log, "log", Holding::Shared)?;
    let lock = place.lock_of_old(Holding::Shared)?;
    Ok(Handles {
        log,
        blobs: place.open_folder("blobs")?,
        snapshots: place.open_folder("snapshots")?,
        lock,
    })
}
