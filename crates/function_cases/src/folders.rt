//! A folder of files (`sled_file`): that the calls of its device succeed, that the files are there and hold what was written,
//! that each failure of the files is told, and what the checksum sums.
//!
//! Each case has a folder of its own where the program runs, and removes it.

use sled_file::{
    Crc32, Doing, Failure, FileDevice, HostFolder, LogCrc32, OpenError, Unknown, Untold, open, read,
};
use sled_log::config::Config;
use sled_log::device::{Checksum, Device};
use std::alloc::AllocError;
use std::io::ErrorKind;
use std::{fs, io};

// Why a case ended early: a call failed that has to succeed.
#[derive(Drop)]
pub(crate) struct Ended;

impl From<io::Error> for Ended {
    fn from(_error: io::Error) -> Ended {
        Ended
    }
}

impl From<AllocError> for Ended {
    fn from(_error: AllocError) -> Ended {
        Ended
    }
}

impl From<OpenError> for Ended {
    fn from(_error: OpenError) -> Ended {
        Ended
    }
}

// What came of a case: whether all was as it has to be.
pub(crate) type Came = Result<bool, Ended>;

// Opens a folder with segments of 256 bytes under `LogCrc32`.
fn opened(rt: &HostRuntime, path: &str) -> Result<FileDevice<HostFolder, Unknown>, OpenError> {
    let Some(config) = Config::new(256) else {
        return Err(OpenError::OutOfMemory);
    };
    open(rt, path, config, &LogCrc32, Unknown)
}

// Makes one call of each kind that changes or syncs.
fn fill<D: Device>(device: &mut D) -> io::Result<()> {
    device.write_at(2, b"abc".as_slice())?;
    device.cut(4)?;
    device.cut(9)?;
    device.sync()?;
    device.blob_create(-3, b"old".as_slice())?;
    device.blob_create(7, b"blob".as_slice())?;
    device.blob_sync(7)?;
    device.blob_remove(-3)?;
    device.blob_remove(99)?;
    device.snapshot_write(b"first".as_slice())?;
    device.snapshot_publish(1)?;
    device.snapshot_write(b"second".as_slice())?;
    device.snapshot_publish(2)?;
    device.snapshot_remove(1)?;
    device.sync_names()
}

/// The files hold what was written, a second opener is refused meanwhile, and a blob is made once.
pub fn keeps_files(rt: &HostRuntime) -> bool {
    matches!(keeps(rt, "folder_kept"), Ok(true))
}

fn keeps(rt: &HostRuntime, path: &str) -> Came {
    let _ = fs::remove_dir_all(rt, path);
    let mut device = opened(rt, path)?;
    fill(&mut device)?;
    let is_locked = matches!(opened(rt, path), Err(OpenError::Locked { path: _ }));
    let again = device.blob_create(7, b"x".as_slice());
    let is_refused = is_of(&again, ErrorKind::AlreadyExists)
        && is_of(&device.blob_sync(5), ErrorKind::NotFound)
        && is_of(&device.blob_read(5), ErrorKind::NotFound);
    let is_well = device.failures() == 0;
    drop(device);
    let is_there = fs::read(rt, "folder_kept/log")?.as_slice() == b"\0\0ab".as_slice()
        && fs::read(rt, "folder_kept/blobs/7")?.as_slice() == b"blob".as_slice()
        && fs::read(rt, "folder_kept/snapshots/2")?.as_slice() == b"second".as_slice();
    fs::remove_dir_all(rt, path)?;
    Ok(is_locked && is_refused && is_well && is_there)
}

/// A folder that is opened again has what was written, and passes over a file with a strange name.
pub fn finds_files(rt: &HostRuntime) -> bool {
    matches!(finds(rt, "folder_found"), Ok(true))
}

fn finds(rt: &HostRuntime, path: &str) -> Came {
    let _ = fs::remove_dir_all(rt, path);
    let mut device = opened(rt, path)?;
    fill(&mut device)?;
    drop(device);
    fs::write(rt, "folder_found/blobs/007", b"strange".as_slice())?;
    let mut device = opened(rt, path)?;
    let is_found = has_all(&mut device)?;
    drop(device);
    fs::remove_dir_all(rt, path)?;
    Ok(is_found)
}

// A device that was opened anew has what `fill` made.
fn has_all<D: Device>(device: &mut D) -> io::Result<bool> {
    let is_long = device.len()? == 4;
    let mut buf = [9; 3];
    let is_read = device.read_at(2, &mut buf)? == 2 && buf == [97, 98, 9];
    let are_listed = device.blobs()?.as_slice() == [7].as_slice()
        && device.snapshots()?.as_slice() == [2].as_slice();
    let are_read = device.blob_read(7)?.as_slice() == b"blob".as_slice()
        && device.snapshot_read(2)?.as_slice() == b"second".as_slice();
    Ok(is_long && is_read && are_listed && are_read)
}

/// `read` gives what is in a folder, and an error of the files where there is none.
pub fn reads_files(rt: &HostRuntime) -> bool {
    matches!(reads(rt, "folder_read"), Ok(true))
}

fn reads(rt: &HostRuntime, path: &str) -> Came {
    let _ = fs::remove_dir_all(rt, path);
    let mut device = opened(rt, path)?;
    fill(&mut device)?;
    drop(device);
    let found = read(rt, path, &mut Untold)?;
    let is_found = found.bytes.as_slice() == b"\0\0ab".as_slice()
        && found.blobs.len() == 1
        && found.snapshots.len() == 1;
    fs::remove_dir_all(rt, path)?;
    let is_missed = matches!(
        read(rt, path, &mut Untold),
        Err(OpenError::Io {
            path: _,
            doing: _,
            error: _
        })
    );
    Ok(is_found && is_missed)
}

// Whether the making of this blob is what failed first.
fn is_blob(failure: Option<Failure>, place: i64) -> bool {
    match failure {
        Some(failure) => {
            failure.doing == Doing::MakeBlob(place) && failure.error.kind() == ErrorKind::Other
        }
        None => false,
    }
}

/// After a call on the files that failed each later one of the device fails, until the folder is opened anew, and the first
/// one is told; after one that was refused before it reached a file none does, and none is told.
pub fn fails_for_good(rt: &HostRuntime) -> bool {
    matches!(fails(rt, "folder_failed"), Ok(true))
}

fn fails(rt: &HostRuntime, path: &str) -> Came {
    let _ = fs::remove_dir_all(rt, path);
    let mut device = opened(rt, path)?;
    let is_refused = is_of(&device.snapshot_publish(1), ErrorKind::Other)
        && device.failure().is_none();
    device.write_at(0, b"a".as_slice())?;
    fs::remove_dir_all(rt, "folder_failed/blobs")?;
    let is_failed = is_of(&device.blob_create(1, b"b".as_slice()), ErrorKind::Other)
        && is_of(&device.write_at(1, b"c".as_slice()), ErrorKind::Other)
        && device.len().is_err();
    let is_counted = device.failures() == 4 && is_blob(device.failure(), 1);
    drop(device);
    let mut device = opened(rt, path)?;
    let is_kept = device.len()? == 1;
    drop(device);
    fs::remove_dir_all(rt, path)?;
    Ok(is_refused && is_failed && is_counted && is_kept)
}

// The answer is an error of this kind.
fn is_of<T>(answer: &io::Result<T>, kind: ErrorKind) -> bool {
    match answer {
        Ok(_) => false,
        Err(e) => e.kind() == kind,
    }
}

/// The checksum sums as others do: the expected values are those of Python's `zlib.crc32`.
pub fn sums_as_others() -> bool {
    let text = b"The quick brown fox jumps over the lazy dog";
    Crc32.sum(b"".as_slice()) == 0
        && Crc32.sum(b"a".as_slice()) == 0xe8b7be43
        && Crc32.sum(b"123456789".as_slice()) == 0xcbf43926
        && Crc32.sum(text.as_slice()) == 0x414fa339
        && Crc32.sum([255u8; 32].as_slice()) == 0xff6cab0b
        && Crc32.sum([0u8; 100].as_slice()) == 0x9988c6ca
}
