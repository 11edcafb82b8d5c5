//! How the log of a folder is written: the size of its segments and its checksum, which the folder's file `config` names
//! (`docs/FORMATS.md`, "The files of a folder").
ghost use Rattle.std.specs.Prelude.{◌≡◌, ◌≢◌, ℕ, List, IfErr, IfSome};
ghost use Rattle.sled_file.specs.Formats.{of_crc32, of_log_crc32, version, IsUnread};

use crate::crc32::Crc32;
use crate::log_crc32::LogCrc32;
use crate::opening::OpenError;
use sled_codec::serialization::Checksum;
use sled_store::Config;
use std::alloc::{AllocError, Global};
use std::fs;
use std::io::ErrorKind;

/// A checksum that a folder can be kept under. It names itself in the folder's file `config`.
pub trait FolderChecksum: Checksum {
    // The bytes of the name.
    ghost named: { List ℕ };

    /// Returns the name: one word, always the same, and another one for each checksum.
    fn name(&self) -> &'static str
        ensures { result.now ≡ named };
}

impl FolderChecksum for Crc32 {
    ghost named = { of_crc32 };

    fn name(&self) -> &'static str {
        OF_VERSION_1
    }
}

impl FolderChecksum for LogCrc32 {
    ghost named = { of_log_crc32 };

    fn name(&self) -> &'static str {
        "crc32-log"
    }
}

/// How the log of a folder is written, by its file `config`.
#[derive(Debug, Drop)]
pub struct Format {
    /// The size of its segments.
    pub config: Config,
    /// The name of its checksum.
    pub checksum: String,
}

// The version that is written.
const VERSION: u64 = 2;

// The checksum of a file that names none.
pub(crate) const OF_VERSION_1: &str = "crc32";

/// Returns what the file `config` of a folder says; `None` where there is none, also where there is no folder.
///
/// # Errors
///
/// `OtherVersion` and `BadConfig` as `open`, `Io` where the file can't be read, and `OutOfMemory` where memory was refused.
pub fn format_of(rt: &HostRuntime, path: &str) -> Result<Option<Format>, OpenError>
    ensures { IfErr result IsUnread }
{
    let alloc = rt.alloc();
    let path = format!(in alloc; "{path}/config")?;
    match fs::read(rt, path.as_str()) {
        Ok(text) => Ok(Some(format_in(alloc, path, &text)?)),
        Err(error) if error.kind() == ErrorKind::NotFound => Ok(None),
        Err(error) => Err(OpenError::Io {
            path,
            doing: "the file can't be read",
            error,
        }),
    }
}

// What the bytes of such a file say, which errors call so.
pub(crate) fn format_in(alloc: Global, path: String, bytes: &[u8]) -> Result<Format, OpenError>
    ensures { IfErr result IsUnread }
{
    let Ok(text) = str::from_utf8(bytes) else {
        return Err(OpenError::BadConfig { path });
    };
    match said_by(text) {
        Ok((config, checksum)) => Ok(Format {
            config,
            checksum: String::from_str(alloc, checksum)?,
        }),
        Err(Some(version)) => Err(OpenError::OtherVersion { path, version }),
        Err(None) => Err(OpenError::BadConfig { path }),
    }
}

// The text of a file of version 2.
pub(crate) fn text_of(alloc: Global, config: Config, checksum: &str) -> Result<String, AllocError> {
    let size = config.segment_size;
    format!(in alloc; "sled_file {VERSION}\nsize {size}\nchecksum {checksum}\n")
}

// The text of a file of version 1.
pub(crate) fn text_of_version_1(alloc: Global, config: Config) -> Result<String, AllocError> {
    let size = config.segment_size;
    format!(in alloc; "size {size}\n")
}

// What a text says: size and name. If it is of another version the error is that one, and `None` if it is no such text.
fn said_by(text: &str) -> Result<(Config, &str), Option<u64>>
    ensures { IfErr result (λ other. IfSome other (λ v. v ≢ version)) }
{
    if let Some((config, "")) = size_line(text) {
        return Ok((config, OF_VERSION_1));
    }
    let Some((version, rest)) = marked(text) else {
        return Err(None);
    };
    if version != VERSION {
        return Err(Some(version));
    }
    match said_by_version_2(rest) {
        Some(said) => Ok(said),
        None => Err(None),
    }
}

// What the lines behind the mark say.
fn said_by_version_2(text: &str) -> Option<(Config, &str)> {
    let (config, rest) = size_line(text)?;
    match line(rest, "checksum ")? {
        (checksum, "") => Some((config, checksum)),
        _ => None,
    }
}

// The version that the first line names, and the lines behind it.
fn marked(text: &str) -> Option<(u64, &str)> {
    let (version, rest) = line(text, "sled_file ")?;
    Some((version.parse().ok()?, rest))
}

// The size that the first line names, and the lines behind it.
fn size_line(text: &str) -> Option<(Config, &str)> {
    let (size, rest) = line(text, "size ")?;
    Some((Config::new(size.parse().ok()?)?, rest))
}

// The rest of the first line, which begins so, and the lines behind it.
fn line<'a>(text: &'a str, begins: &str) -> Option<(&'a str, &'a str)> {
    text.strip_prefix(begins)?.split_once('\n')
}
