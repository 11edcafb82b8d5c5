//! The names of the files of a folder, below the handles of its two folders.
//!
//! `/proc/self/fd/N` is the folder that is open as N, also where it was renamed, or another one has its path since.

use crate::host::Handles;
use std::alloc::{AllocError, Global};
use std::fs::File;
use std::os::fd::AsRawFd;

// Names, made in room that is kept for them, so that a call on a file takes no memory for its name.
#[derive(Drop)]
pub(crate) struct Names {
    // The folder of blobs, and that of snapshots.
    pub(crate) blobs: String,
    pub(crate) snapshots: String,
    // The temporary snapshot.
    pub(crate) temporary: String,
    // The file that was named last.
    pub(crate) path: String,
}

// How many bytes stand behind a folder in a name, at most: a slash, and a number with its sign.
const LONGEST_NAME: usize = 1 + 20;

impl Names {
    // The names below these handles, as long as they are open.
    pub(crate) fn new(alloc: Global, handles: &Handles) -> Result<Names, AllocError> {
        let blobs = name_of(alloc, &handles.blobs)?;
        let snapshots = name_of(alloc, &handles.snapshots)?;
        let room = blobs
            .len()
            .max(snapshots.len())
            .saturating_add(LONGEST_NAME);
        let folder = snapshots.as_str();
        Ok(Names {
            temporary: format!(in alloc; "{folder}/temporary")?,
            path: String::with_capacity(alloc, room)?,
            blobs,
            snapshots,
        })
    }

    // Names the file of a blob.
    pub(crate) fn name_blob(&mut self, place: i64) -> Result<(), AllocError> {
        self.path.clear();
        self.path.push_str(self.blobs.as_str())?;
        write!(self.path, "/{place}")
    }

    // Names the file of a snapshot.
    pub(crate) fn name_snapshot(&mut self, number: i64) -> Result<(), AllocError> {
        self.path.clear();
        self.path.push_str(self.snapshots.as_str())?;
        write!(self.path, "/{number}")
    }
}

// What names a folder that is open.
pub(crate) fn name_of(alloc: Global, folder: &File) -> Result<String, AllocError> {
    let number = folder.as_raw_fd();
    format!(in alloc; "/proc/self/fd/{number}")
}
