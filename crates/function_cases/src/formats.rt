//! How a folder is kept (`sled_file`): what its file `config` says, and which openings it refuses.
//!
//! Each case has a folder of its own where the program runs, and removes it.
ghost use Rattle.std.specs.Prelude.{codes};
ghost use Rattle.sled_codec.specs.Sums.{place_sum};

use crate::folders::Came;
use sled_file::{Crc32, FolderChecksum, LogCrc32, Unknown, format_of, open};
use sled_log::config::Config;
use sled_log::device::{Checksum, PlaceSum};
use std::alloc::AllocError;
use std::fs;

// A checksum of one's own, for a folder.
#[derive(Clone, Copy)]
struct Places;

impl Checksum for Places {
    ghost sum_of = { place_sum };

    fn sum(&self, bytes: &[u8]) -> u32 {
        PlaceSum.sum(bytes)
    }
}

impl FolderChecksum for Places {
    ghost named = { codes "places" };

    fn name(&self) -> &'static str {
        "places"
    }
}

// What an opening tells: that it went well, or the text of its error.
fn told<C: FolderChecksum>(
    rt: &HostRuntime,
    path: &str,
    size: u64,
    checksum: &C,
) -> Result<String, AllocError> {
    let alloc = rt.alloc();
    let Some(config) = Config::new(size) else {
        return String::from_str(alloc, "no size");
    };
    match open(rt, path, config, checksum, Unknown) {
        Ok(_) => String::from_str(alloc, "opened"),
        Err(error) => format!(in alloc; "{error}"),
    }
}

// Whether the folder, which may be missing, is of this format.
fn is_of(rt: &HostRuntime, path: &str, size: u64, checksum: &str) -> Came {
    match format_of(rt, path)? {
        Some(format) => Ok(
            format.config.segment_size == size && format.checksum.as_str() == checksum,
        ),
        None => Ok(false),
    }
}

/// A new folder tells its size and its checksum, whatever a crash left of an earlier try, and is opened again with these.
pub fn keep(rt: &HostRuntime) -> bool {
    matches!(keeps(rt, "format_kept"), Ok(true))
}

fn keeps(rt: &HostRuntime, path: &str) -> Came {
    let _ = fs::remove_dir_all(rt, path);
    let is_none = format_of(rt, path)?.is_none();
    fs::create_dir(rt, path)?;
    fs::write(rt, "format_kept/config.new", b"sled".as_slice())?;
    let is_new = format_of(rt, path)?.is_none()
        && told(rt, path, 512, &LogCrc32)?.as_str() == "opened";
    let is_written = fs::read(rt, "format_kept/config")?.as_slice()
        == b"sled_file 2\nsize 512\nchecksum crc32-log\n".as_slice();
    let is_left = fs::metadata(rt, "format_kept/config.new").is_ok();
    let is_again = told(rt, path, 512, &LogCrc32)?.as_str() == "opened"
        && is_of(rt, path, 512, "crc32-log")?;
    fs::remove_dir_all(rt, path)?;
    Ok(is_none && is_new && is_written && !is_left && is_again)
}

/// Another size, another checksum, another version and another text are refused, and nothing is changed then.
pub fn refuse(rt: &HostRuntime) -> bool {
    matches!(refuses(rt, "format_other"), Ok(true))
}

fn refuses(rt: &HostRuntime, path: &str) -> Came {
    let _ = fs::remove_dir_all(rt, path);
    fs::create_dir(rt, path)?;
    fs::write(rt, "format_other/log", b"abc".as_slice())?;
    let is_other = is_refused(
        rt,
        b"sled_file 2\nsize 512\nchecksum crc32-log\n".as_slice(),
        "format_other/config: the segments have 512 bytes here, and not 256",
    )? && is_refused(
        rt,
        b"sled_file 2\nsize 256\nchecksum crc32\n".as_slice(),
        "format_other/config: the checksum is crc32 here, and not crc32-log",
    )? && is_refused(
        rt,
        b"sled_file 3\nsizes 256 512\n".as_slice(),
        "format_other/config: the folder is of version 3, and 2 is the one that is known",
    )?;
    let is_bad = are_bad(rt)?;
    fs::remove_dir_all(rt, path)?;
    Ok(is_other && is_bad)
}

// Whether the folder with this text is refused so, and is left as it is.
fn is_refused(rt: &HostRuntime, text: &[u8], error: &str) -> Came {
    fs::write(rt, "format_other/config", text)?;
    let is_told = told(rt, "format_other", 256, &LogCrc32)?.as_str() == error;
    let is_same = fs::read(rt, "format_other/config")?.as_slice() == text
        && fs::read(rt, "format_other/log")?.as_slice() == b"abc".as_slice();
    let is_made = fs::metadata(rt, "format_other/blobs").is_ok();
    Ok(is_told && is_same && !is_made)
}

fn are_bad(rt: &HostRuntime) -> Came {
    Ok(
        is_bad(rt, b"".as_slice())?
            && is_bad(rt, b"size 256".as_slice())?
            && is_bad(rt, b"size 300\n".as_slice())?
            && is_bad(rt, b"size 256\nchecksum crc32-log\n".as_slice())?
            && is_bad(rt, b"sled_file two\n".as_slice())?
            && is_bad(rt, b"sled_file 2\n".as_slice())?
            && is_bad(rt, b"sled_file 2\nsize 256\n".as_slice())?
            && is_bad(
                rt,
                b"sled_file 2\nchecksum crc32-log\nsize 256\n".as_slice(),
            )?
            && is_bad(rt, b"sled_file 2\nsize 256\nchecksum crc32-log".as_slice())?
            && is_bad(
                rt,
                b"sled_file 2\nsize 256\nchecksum crc32-log\n\n".as_slice(),
            )?
            && is_bad(rt, [255, 10].as_slice())?,
    )
}

// Whether this is no text of such a file.
fn is_bad(rt: &HostRuntime, text: &[u8]) -> Came {
    is_refused(
        rt,
        text,
        "format_other/config: it has to be the lines 'sled_file 2', 'size S', 'checksum NAME', S a power of two from 256 to 8388608",
    )
}

/// A folder of the first version is one under `Crc32`, and stays of that version.
pub fn take_first(rt: &HostRuntime) -> bool {
    matches!(takes_first(rt, "format_first"), Ok(true))
}

fn takes_first(rt: &HostRuntime, path: &str) -> Came {
    let _ = fs::remove_dir_all(rt, path);
    fs::create_dir(rt, path)?;
    fs::write(rt, "format_first/config", b"size 256\n".as_slice())?;
    let is_known = is_of(rt, path, 256, "crc32")?;
    let is_told = told(rt, path, 256, &LogCrc32)?.as_str()
        == "format_first/config: the checksum is crc32 here, and not crc32-log"
        && told(rt, path, 512, &Crc32)?.as_str()
            == "format_first/config: the segments have 256 bytes here, and not 512"
        && told(rt, path, 256, &Crc32)?.as_str() == "opened";
    let is_same = fs::read(rt, "format_first/config")?.as_slice() == b"size 256\n".as_slice();
    fs::remove_dir_all(rt, path)?;
    Ok(is_known && is_told && is_same)
}

/// A folder can be kept under a checksum of one's own.
pub fn take_own(rt: &HostRuntime) -> bool {
    matches!(takes_own(rt, "format_own"), Ok(true))
}

fn takes_own(rt: &HostRuntime, path: &str) -> Came {
    let _ = fs::remove_dir_all(rt, path);
    let is_begun = told(rt, path, 256, &Places)?.as_str() == "opened"
        && fs::read(rt, "format_own/config")?.as_slice()
            == b"sled_file 2\nsize 256\nchecksum places\n".as_slice();
    let is_compared = told(rt, path, 256, &LogCrc32)?.as_str()
        == "format_own/config: the checksum is places here, and not crc32-log"
        && told(rt, path, 256, &Places)?.as_str() == "opened";
    fs::remove_dir_all(rt, path)?;
    Ok(is_begun && is_compared)
}

/// A log without the file `config` is taken under `Crc32`, with the size that is asked for first, and refused under another
/// checksum.
pub fn begin_old(rt: &HostRuntime) -> bool {
    matches!(begins_old(rt, "format_none"), Ok(true))
}

fn begins_old(rt: &HostRuntime, path: &str) -> Came {
    let _ = fs::remove_dir_all(rt, path);
    fs::create_dir(rt, path)?;
    fs::write(rt, "format_none/log", b"abc".as_slice())?;
    let is_refused = told(rt, path, 256, &LogCrc32)?.as_str()
        == "format_none/config: the file is missing, and the log has 3 bytes: write what it said, or 'size S' if there never was one"
        && format_of(rt, path)?.is_none();
    let is_taken = told(rt, path, 256, &Crc32)?.as_str() == "opened"
        && fs::read(rt, "format_none/config")?.as_slice() == b"size 256\n".as_slice()
        && fs::read(rt, "format_none/log")?.as_slice() == b"abc".as_slice();
    let is_compared = told(rt, path, 512, &Crc32)?.as_str()
        == "format_none/config: the segments have 256 bytes here, and not 512";
    fs::remove_dir_all(rt, path)?;
    Ok(is_refused && is_taken && is_compared)
}

/// The second checksum sums four bytes more: the expected values are those of Python's `zlib.crc32(b"log\0" + bytes)`. The
/// names are those of folders.
pub fn sum_as_others() -> bool {
    let text = b"The quick brown fox jumps over the lazy dog";
    LogCrc32.sum(b"".as_slice()) == 0x3983e6da
        && LogCrc32.sum(b"a".as_slice()) == 0x8e88066f
        && LogCrc32.sum(b"123456789".as_slice()) == 0x95e9786d
        && LogCrc32.sum(text.as_slice()) == 0x6c5aef26
        && LogCrc32.sum([255u8; 32].as_slice()) == 0x7e6f53cc
        && LogCrc32.sum([0u8; 100].as_slice()) == 0x0d24477a
        && Crc32.name() == "crc32"
        && LogCrc32.name() == "crc32-log"
}
