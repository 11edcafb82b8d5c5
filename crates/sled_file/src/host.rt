//! The files of a folder of the operating system. Each method makes one call, or the few that it says, and then
//! notes it with its answer.
//!
//! That a note is true is what a reader has to see here, since a body that notes a sync and makes none would be proved
//! as well.
ghost use Rattle.std.specs.Prelude.{◌≡◌, ◌∷◌};

mod names;

use crate::calls::{Asked, GhostCalls, Note};
use crate::folder::Folder;
use crate::mirror::Mirror;
pub(crate) use names::{Names, name_of};
use std::fs::{self, File};
use std::io::{self, ErrorKind, Write};
use std::os::fd::AsRawFd;
use std::os::unix::fs::FileExt;

/// The open files of a folder, which is locked as long as this lives.
#[derive(Drop)]
pub struct HostFolder {
    rt: HostRuntime,
    handles: Handles,
    names: Names,
    // Whether the names of blobs, or those of snapshots, changed since their folder was synced last.
    has_changed_blobs: bool,
    has_changed_snapshots: bool,
    pub(crate) ghost_calls: GhostCalls,
}

// What is open of a folder: the log file, whose lock is held, the folders of blobs and of snapshots, and the file that
// older programs lock, where it is there.
#[derive(Drop)]
pub(crate) struct Handles {
    pub(crate) log: File,
    pub(crate) blobs: File,
    pub(crate) snapshots: File,
    pub(crate) lock: Option<File>,
}

impl HostFolder {
    ghost use Rattle.sled_file.specs.Calls.{opened, called, event_of};

    // A folder that was opened and synced, and what was found in it, which is given back as it was noted.
    pub(crate) fn new(
        rt: &HostRuntime,
        handles: Handles,
        names: Names,
        found: Mirror,
    ) -> (HostFolder, Mirror)
        ensures noted { result.0.ghost_calls.made ≡ opened result.1 }
        ensures found { result.1 ≡ found }
    {
        let ghost_calls = GhostCalls::new().then(&Note {
            asked: Asked::Opened { found: &found },
            succeeded: true,
        });
        let folder = HostFolder {
            rt: *rt,
            handles,
            names,
            has_changed_blobs: false,
            has_changed_snapshots: false,
            ghost_calls,
        };
        (folder, found)
    }

    // Notes a call with its answer.
    fn note(&mut self, asked: Asked<'_>, answer: &io::Result<()>)
        ensures { self.new.ghost_calls.made ≡ called (event_of asked.entry) answer.now ∷ self.old.ghost_calls.made }
    {
        self.ghost_calls = self.ghost_calls.then(&Note {
            asked,
            succeeded: answer.is_ok(),
        });
    }

    // Cuts the log file, where it is longer.
    fn shorten(&self, len: u64) -> io::Result<()> {
        if len < self.handles.log.metadata()?.len() {
            self.handles.log.set_len(len)?;
        }
        Ok(())
    }

    // Makes the file of a blob, which isn't there, and writes it.
    fn create(&mut self, place: i64, bytes: &[u8]) -> io::Result<()>
        ensures { self.new.ghost_calls ≡ self.old.ghost_calls }
    {
        self.names.name_blob(place)?;
        self.has_changed_blobs = true;
        made(&self.rt, self.names.path.as_str())?.write_all(bytes)
    }

    // Syncs the file of a blob.
    fn sync_file(&mut self, place: i64) -> io::Result<()>
        ensures { self.new.ghost_calls ≡ self.old.ghost_calls }
    {
        self.names.name_blob(place)?;
        apart(File::open(&self.rt, self.names.path.as_str())?)?.sync_all()
    }

    // Removes the file of a blob.
    fn delete_blob(&mut self, place: i64) -> io::Result<()>
        ensures { self.new.ghost_calls ≡ self.old.ghost_calls }
    {
        self.names.name_blob(place)?;
        self.has_changed_blobs = true;
        remove(&self.rt, self.names.path.as_str())
    }

    // Removes the file of a snapshot.
    fn delete_snapshot(&mut self, number: i64) -> io::Result<()>
        ensures { self.new.ghost_calls ≡ self.old.ghost_calls }
    {
        self.names.name_snapshot(number)?;
        self.has_changed_snapshots = true;
        remove(&self.rt, self.names.path.as_str())
    }

    // Makes the temporary snapshot anew, writes it and syncs it. What had its name goes first, so that a link isn't followed.
    fn fill(&self, bytes: &[u8]) -> io::Result<()> {
        remove(&self.rt, self.names.temporary.as_str())?;
        let mut file = made(&self.rt, self.names.temporary.as_str())?;
        file.write_all(bytes)?;
        file.sync_all()
    }

    // Gives the temporary snapshot a number.
    fn rename(&mut self, number: i64) -> io::Result<()>
        ensures { self.new.ghost_calls ≡ self.old.ghost_calls }
    {
        self.names.name_snapshot(number)?;
        self.has_changed_snapshots = true;
        fs::rename(
            &self.rt,
            self.names.temporary.as_str(),
            self.names.path.as_str(),
        )
    }

    // Syncs both folders, but not one whose names are as they were when it was synced last.
    fn sync_folders(&mut self) -> io::Result<()>
        ensures { self.new.ghost_calls ≡ self.old.ghost_calls }
    {
        if self.has_changed_blobs {
            self.handles.blobs.sync_all()?;
            self.has_changed_blobs = false;
        }
        if self.has_changed_snapshots {
            self.handles.snapshots.sync_all()?;
            self.has_changed_snapshots = false;
        }
        Ok(())
    }
}

// A file that isn't there is made. No link is followed.
fn made(rt: &HostRuntime, path: &str) -> io::Result<File> {
    apart(File::create_new(rt, path)?)
}

// A file under a descriptor above 2. Those up to 2 are the standard streams: where one of these is closed, the next file
// that is opened gets its descriptor, and all would be written into it that is meant for the stream.
pub(crate) fn apart(file: File) -> io::Result<File> {
    if file.as_raw_fd() > 2 {
        return Ok(file);
    }
    file.try_clone()
}

// Removes a file, where there is one.
fn remove(rt: &HostRuntime, path: &str) -> io::Result<()> {
    match fs::remove_file(rt, path) {
        Err(error) if error.kind() == ErrorKind::NotFound => Ok(()),
        answer => answer,
    }
}

impl Folder for HostFolder {
    ghost made = { λ folder. folder.ghost_calls.made };

    fn write_log(&mut self, at: u64, bytes: &[u8]) -> io::Result<()> {
        let answer = self.handles.log.write_all_at(bytes, at);
        self.note(Asked::Wrote { at, bytes }, &answer);
        answer
    }

    fn cut_log(&mut self, len: u64) -> io::Result<()> {
        let answer = self.shorten(len);
        self.note(Asked::Cut { len }, &answer);
        answer
    }

    fn sync_log(&mut self) -> io::Result<()> {
        let answer = self.handles.log.sync_data();
        self.note(Asked::Synced, &answer);
        answer
    }

    fn make_blob(&mut self, place: i64, bytes: &[u8]) -> io::Result<()> {
        let answer = self.create(place, bytes);
        self.note(Asked::BlobMade { place, bytes }, &answer);
        answer
    }

    fn sync_blob(&mut self, place: i64) -> io::Result<()> {
        let answer = self.sync_file(place);
        self.note(Asked::BlobSynced { place }, &answer);
        answer
    }

    fn remove_blob(&mut self, place: i64) -> io::Result<()> {
        let answer = self.delete_blob(place);
        self.note(Asked::BlobRemoved { place }, &answer);
        answer
    }

    fn write_snapshot(&mut self, bytes: &[u8]) -> io::Result<()> {
        let answer = self.fill(bytes);
        self.note(Asked::SnapshotFilled { bytes }, &answer);
        answer
    }

    fn publish_snapshot(&mut self, number: i64) -> io::Result<()> {
        let answer = self.rename(number);
        self.note(Asked::SnapshotPublished { number }, &answer);
        answer
    }

    fn remove_snapshot(&mut self, number: i64) -> io::Result<()> {
        let answer = self.delete_snapshot(number);
        self.note(Asked::SnapshotRemoved { number }, &answer);
        answer
    }

    fn sync_names(&mut self) -> io::Result<()> {
        let answer = self.sync_folders();
        self.note(Asked::NamesSynced, &answer);
        answer
    }
}
