//! A folder that is opened: its files are named below the handle of the folder itself.
ghost use Rattle.std.specs.Prelude.{IfErr};
ghost use Rattle.sled_file.specs.Formats.{IsOfFiles};

use crate::host::{apart, name_of};
use crate::opening::OpenError;
use crate::opening::settling::settle;
use std::alloc::AllocError;
use std::fs::{self, File, OpenOptions, TryLockError};
use std::io::{self, ErrorKind, Write};

// A folder by its handle. Its path is only told in errors: what has that path later doesn't matter.
#[derive(Drop)]
pub(crate) struct Place<'a> {
    pub(crate) rt: &'a HostRuntime,
    path: &'a str,
    handle: File,
    // What names the handle.
    name: String,
}

// How a folder is held: by one that changes it alone, or by any number that read it.
#[derive(Clone, Copy)]
pub(crate) enum Holding {
    Alone,
    Shared,
}

impl Place<'_> {
    // The folder at a path, which is made where it is missing.
    pub(crate) fn make<'a>(rt: &'a HostRuntime, path: &'a str) -> Result<Place<'a>, OpenError>
        ensures { IfErr result IsOfFiles }
    {
        match fs::create_dir(rt, path) {
            Err(error) if error.kind() != ErrorKind::AlreadyExists => {
                Err(told(rt, path, "the folder can't be made", error))
            }
            _ => Place::open(rt, path),
        }
    }

    // The folder at a path.
    pub(crate) fn open<'a>(rt: &'a HostRuntime, path: &'a str) -> Result<Place<'a>, OpenError>
        ensures { IfErr result IsOfFiles }
    {
        let handle = match opened(rt, &reading_only(), path) {
            Ok(handle) => handle,
            Err(error) => return Err(told(rt, path, "the folder can't be opened", error)),
        };
        let name = name_of(rt.alloc(), &handle)?;
        match fs::metadata(rt, name.as_str()) {
            Ok(_) => Ok(Place {
                rt,
                path,
                handle,
                name,
            }),
            Err(error) => Err(told(
                rt,
                name.as_str(),
                "the open folder can't be named, for which /proc is wanted",
                error,
            )),
        }
    }

    // The log file, which is made where it is missing. It isn't made where a link leads.
    pub(crate) fn log(&self) -> Result<File, OpenError>
        ensures { IfErr result IsOfFiles }
    {
        let name = self.name_in("log")?;
        match opened(self.rt, &changing(), name.as_str()) {
            Ok(file) => Ok(file),
            Err(error) if error.kind() == ErrorKind::NotFound => self.made(name.as_str()),
            Err(error) => Err(self.failed("log", "the file can't be opened", error)),
        }
    }

    fn made(&self, name: &str) -> Result<File, OpenError>
        ensures { IfErr result IsOfFiles }
    {
        match opened(self.rt, changing().create_new(true), name) {
            Ok(file) => Ok(file),
            Err(error) => Err(self.failed("log", "the file can't be made", error)),
        }
    }

    // The log file, to be read alone.
    pub(crate) fn log_to_read(&self) -> Result<File, OpenError>
        ensures { IfErr result IsOfFiles }
    {
        let name = self.name_in("log")?;
        match opened(self.rt, &reading_only(), name.as_str()) {
            Ok(file) => Ok(file),
            Err(error) => Err(self.failed("log", "the file can't be opened", error)),
        }
    }

    // Syncs the log file, and drops what the kernel keeps of it.
    pub(crate) fn settle_log(&self) -> Result<(), OpenError>
        ensures { IfErr result IsOfFiles }
    {
        let name = self.name_in("log")?;
        match settle(self.rt, name.as_str()) {
            Ok(()) => Ok(()),
            Err(error) => Err(self.failed("log", "it can't be synced to be read anew", error)),
        }
    }

    // Locks a file of the folder, as long as it is open.
    pub(crate) fn lock(&self, file: &File, name: &str, holding: Holding) -> Result<(), OpenError>
        ensures { IfErr result IsOfFiles }
    {
        let answer = match holding {
            Holding::Alone => file.try_lock(),
            Holding::Shared => file.try_lock_shared(),
        };
        match answer {
            Ok(()) => Ok(()),
            Err(TryLockError::WouldBlock) => {
                Err(OpenError::Locked {
                    path: self.path_of(name)?,
                })
            }
            Err(TryLockError::Error(error)) => {
                Err(self.failed(name, "the file can't be locked", error))
            }
        }
    }

    // The file `lock` with its lock, where it is there: older programs lock that one alone.
    pub(crate) fn lock_of_old(&self, holding: Holding) -> Result<Option<File>, OpenError>
        ensures { IfErr result IsOfFiles }
    {
        let name = self.name_in("lock")?;
        match opened(self.rt, &reading_only(), name.as_str()) {
            Ok(file) => {
                self.lock(&file, "lock", holding)?;
                Ok(Some(file))
            }
            Err(error) if error.kind() == ErrorKind::NotFound => Ok(None),
            Err(error) => Err(self.failed("lock", "the file can't be opened", error)),
        }
    }

    // Makes a folder in it, unless it is there.
    pub(crate) fn make_folder(&self, name: &str) -> Result<(), OpenError>
        ensures { IfErr result IsOfFiles }
    {
        let at = self.name_in(name)?;
        match fs::create_dir(self.rt, at.as_str()) {
            Err(error) if error.kind() != ErrorKind::AlreadyExists => {
                Err(self.failed(name, "the folder can't be made", error))
            }
            _ => Ok(()),
        }
    }

    // A folder in it.
    pub(crate) fn open_folder(&self, name: &str) -> Result<File, OpenError>
        ensures { IfErr result IsOfFiles }
    {
        let at = self.name_in(name)?;
        match opened(self.rt, &reading_only(), at.as_str()) {
            Ok(folder) => Ok(folder),
            Err(error) => Err(self.failed(name, "the folder can't be opened", error)),
        }
    }

    // Syncs a file or a folder of this name.
    pub(crate) fn sync(&self, file: &File, name: &str) -> Result<(), OpenError>
        ensures { IfErr result IsOfFiles }
    {
        match file.sync_all() {
            Ok(()) => Ok(()),
            Err(error) => Err(self.failed(name, "it can't be synced", error)),
        }
    }

    // The bytes of a file in it, where it is there.
    pub(crate) fn text(&self, file: &str) -> Result<Option<Vec<u8>>, OpenError>
        ensures { IfErr result IsOfFiles }
    {
        let name = self.name_in(file)?;
        match fs::read(self.rt, name.as_str()) {
            Ok(text) => Ok(Some(text)),
            Err(error) if error.kind() == ErrorKind::NotFound => Ok(None),
            Err(error) => Err(self.failed(file, "the file can't be read", error)),
        }
    }

    // Makes a file in it with this text, under another name first: so a crash leaves all of the file, or none.
    pub(crate) fn put(&self, file: &str, first: &str, text: &str) -> Result<(), OpenError>
        ensures { IfErr result IsOfFiles }
    {
        let name = self.name_in(file)?;
        let first = self.name_in(first)?;
        match self.written(first.as_str(), name.as_str(), text) {
            Ok(()) => Ok(()),
            Err(error) => Err(self.failed(file, "the file can't be made", error)),
        }
    }

    // What has the first name goes before, so that a link isn't followed.
    fn written(&self, first: &str, name: &str, text: &str) -> io::Result<()> {
        match fs::remove_file(self.rt, first) {
            Err(error) if error.kind() != ErrorKind::NotFound => return Err(error),
            _ => {}
        }
        let mut file = opened(self.rt, changing().create_new(true), first)?;
        file.write_all(text.as_bytes())?;
        file.sync_all()?;
        fs::rename(self.rt, first, name)?;
        self.handle.sync_all()
    }

    // How many bytes the log file has.
    pub(crate) fn len_of(&self, log: &File) -> Result<u64, OpenError>
        ensures { IfErr result IsOfFiles }
    {
        match log.metadata() {
            Ok(found) => Ok(found.len()),
            Err(error) => Err(self.failed("log", "the file can't be looked at", error)),
        }
    }

    // Syncs which files and folders stand in it, and where the log file has no bytes the folder's own name too: who made
    // the folder may have been ended before that was synced, also an earlier opening.
    pub(crate) fn sync_names(&self, log: &File) -> Result<(), OpenError>
        ensures { IfErr result IsOfFiles }
    {
        self.sync(&self.handle, ".")?;
        if self.len_of(log)? > 0 {
            return Ok(());
        }
        let parent = self.open_folder("..")?;
        self.sync(&parent, "..")
    }

    // What names a file in it.
    pub(crate) fn name_in(&self, file: &str) -> Result<String, AllocError> {
        let folder = self.name.as_str();
        format!(in self.rt.alloc(); "{folder}/{file}")
    }

    // What errors call a file in it: the path that it has from the folder's.
    pub(crate) fn path_of(&self, file: &str) -> Result<String, AllocError> {
        let path = self.path;
        format!(in self.rt.alloc(); "{path}/{file}")
    }

    // The error of a call on a file in it.
    pub(crate) fn failed(&self, file: &str, doing: &'static str, error: io::Error) -> OpenError
        ensures { IsOfFiles result }
    {
        match self.path_of(file) {
            Ok(path) => OpenError::Io { path, doing, error },
            Err(_) => OpenError::OutOfMemory,
        }
    }
}

// How a file is opened that is only read.
fn reading_only() -> OpenOptions {
    let mut how = OpenOptions::new();
    how.read(true);
    how
}

// How a file is opened that is to be changed.
fn changing() -> OpenOptions {
    let mut how = OpenOptions::new();
    how.read(true).write(true);
    how
}

fn opened(rt: &HostRuntime, how: &OpenOptions, name: &str) -> io::Result<File> {
    apart(how.open(rt, name)?)
}

// The error of a call on the folder itself.
fn told(rt: &HostRuntime, path: &str, doing: &'static str, error: io::Error) -> OpenError
    ensures { IsOfFiles result }
{
    match String::from_str(rt.alloc(), path) {
        Ok(path) => OpenError::Io { path, doing, error },
        Err(_) => OpenError::OutOfMemory,
    }
}
