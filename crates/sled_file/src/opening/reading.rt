//! What is found in a folder.
ghost use Rattle.std.specs.Prelude.{IfErr};
ghost use Rattle.sled_file.specs.Formats.{IsOfFiles};

use crate::host::{Handles, Names, apart};
use crate::mirror::Mirror;
use crate::opening::place::{Holding, Place};
use crate::opening::{OpenError, Progress};
use std::alloc::{AllocError, Global};
use std::fs::{self, File};
use std::io::{self, ErrorKind, Read};

// How many bytes are read at a time.
const CHUNK: usize = 65536;

// Reads all files of the folder. Where it is held alone, what is found counts as durable: so each snapshot is synced before
// it is read, and each blob whose place isn't below the newest snapshot's number. Those below it are durable already, since
// a log syncs each blob before it publishes a snapshot above it (`README.md`, "What has to be believed").
pub(crate) fn read_all<P: Progress>(
    place: &Place<'_>,
    handles: &Handles,
    names: &Names,
    holding: Holding,
    progress: &mut P,
) -> Result<Mirror, OpenError>
    ensures { IfErr result IsOfFiles }
{
    let mut found = Mirror::new(place.rt.alloc());
    if let Err(error) = read_log(place.rt.alloc(), &handles.log, &mut found.log, progress) {
        return Err(place.failed("log", "the file can't be read", error));
    }
    let snapshots = Numbered {
        place,
        name: names.snapshots.as_str(),
        told: "snapshots",
        synced_from: from_if_alone(holding, i64::MIN),
    };
    let published = snapshots.numbers()?;
    let blobs = Numbered {
        place,
        name: names.blobs.as_str(),
        told: "blobs",
        synced_from: from_if_alone(holding, newest(&published)),
    };
    for number in blobs.numbers()? {
        found.blobs.put(number, blobs.read(number)?)?;
    }
    for number in published {
        found.snapshots.put(number, snapshots.read(number)?)?;
    }
    Ok(found)
}

// The number from which on files are synced, where the folder is held alone; else none is.
fn from_if_alone(holding: Holding, from: i64) -> Option<i64> {
    match holding {
        Holding::Alone => Some(from),
        Holding::Shared => None,
    }
}

// The greatest of these numbers, and the least that there is where there are none.
fn newest(numbers: &[i64]) -> i64 {
    let mut newest = i64::MIN;
    for number in numbers {
        newest = newest.max(*number);
    }
    newest
}

// Reads the log file.
fn read_log<P: Progress>(
    alloc: Global,
    file: &File,
    bytes: &mut Vec<u8>,
    progress: &mut P,
) -> io::Result<()> {
    let of = file.metadata()?.len();
    let mut chunk = vec![in alloc; 0u8; CHUNK]?;
    let mut reader = file;
    for _ in 0..u64::MAX {
        match reader.read(&mut chunk) {
            Ok(0) => return Ok(()),
            Ok(count) => {
                bytes.extend_from_slice(&chunk[..count])?;
                progress.has_read(bytes.len() as u64, of);
            }
            // A signal came.
            Err(error) if error.kind() == ErrorKind::Interrupted => {}
            Err(error) => return Err(error),
        }
    }
    Err(io::Error::other("the file doesn't end"))
}

// One of the two folders whose files have numbers for names.
#[derive(Clone, Copy)]
struct Numbered<'a> {
    place: &'a Place<'a>,
    // What names the folder.
    name: &'a str,
    // What errors call it.
    told: &'a str,
    // The number from which on a file is synced before it is read, if any is.
    synced_from: Option<i64>,
}

impl Numbered<'_> {
    // The numbers that are names of files in it. Other names are left alone.
    fn numbers(&self) -> Result<Vec<i64>, OpenError>
        ensures { IfErr result IsOfFiles }
    {
        match listed(self.place.rt, self.name) {
            Ok(numbers) => Ok(numbers),
            Err(error) => {
                Err(
                    self.place
                        .failed(self.told, "the folder can't be listed", error),
                )
            }
        }
    }

    // The bytes of the file of a number.
    fn read(&self, number: i64) -> Result<Vec<u8>, OpenError>
        ensures { IfErr result IsOfFiles }
    {
        let alloc = self.place.rt.alloc();
        let name = self.name;
        let name = format!(in alloc; "{name}/{number}")?;
        let mut file = match opened(self.place.rt, name.as_str()) {
            Ok(file) => file,
            Err(error) => return Err(self.failed(number, "the file can't be opened", error)),
        };
        if self.is_synced(number) {
            if let Err(error) = file.sync_all() {
                return Err(self.failed(number, "the file can't be synced", error));
            }
        }
        let mut bytes = Vec::new(alloc);
        match file.read_to_end(&mut bytes) {
            Ok(_) => Ok(bytes),
            Err(error) => Err(self.failed(number, "the file can't be read", error)),
        }
    }

    // Whether the file of a number is synced before it is read.
    fn is_synced(&self, number: i64) -> bool {
        match self.synced_from {
            Some(from) => from <= number,
            None => false,
        }
    }

    // The error of a call on the file of a number.
    fn failed(&self, number: i64, doing: &'static str, error: io::Error) -> OpenError
        ensures { IsOfFiles result }
    {
        let told = self.told;
        match format!(in self.place.rt.alloc(); "{told}/{number}") {
            Ok(file) => self.place.failed(file.as_str(), doing, error),
            Err(_) => OpenError::OutOfMemory,
        }
    }
}

fn opened(rt: &HostRuntime, name: &str) -> io::Result<File> {
    apart(File::open(rt, name)?)
}

fn listed(rt: &HostRuntime, folder: &str) -> io::Result<Vec<i64>> {
    let alloc = rt.alloc();
    let mut numbers = Vec::new(alloc);
    for entry in fs::read_dir(rt, folder)? {
        match entry {
            Ok(entry) => {
                if let Some(number) = number_of(alloc, entry.file_name())? {
                    numbers.push(number)?;
                }
            }
            // A name that is no text.
            Err(error) if error.kind() == ErrorKind::InvalidFilename => {}
            Err(error) => return Err(error),
        }
    }
    Ok(numbers)
}

// The number that a name is, where it is written as such a file is named.
fn number_of(alloc: Global, name: &str) -> Result<Option<i64>, AllocError> {
    let Ok(number) = name.parse::<i64>() else {
        return Ok(None);
    };
    if format!(in alloc; "{number}")?.as_str() == name {
        Ok(Some(number))
    } else {
        Ok(None)
    }
}
