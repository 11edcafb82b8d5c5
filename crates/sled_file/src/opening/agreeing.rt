//! A folder's file `config` is held against what is asked for, and made where it is missing.
//!
//! It is made before the log has a byte, so that no log is ever written that it doesn't tell of.
ghost use Rattle.std.specs.Prelude.{◌≡◌, IfErr, OnOk, string_bytes};
ghost use Rattle.sled_file.specs.Formats.{IsRefused};

use crate::format::{Format, OF_VERSION_1, format_in, text_of, text_of_version_1};
use crate::opening::OpenError;
use crate::opening::place::Place;
use sled_store::Config;
use std::fs::File;

// What is asked for by who opens a folder: the size of segments, and the name of the checksum.
#[derive(Clone, Copy)]
pub(crate) struct Wanted {
    pub(crate) config: Config,
    pub(crate) checksum: &'static str,
}

// Holds what the folder says against what is asked for. A folder whose log is empty, or of which nothing is known but that
// it has a log, is begun. The folder is locked.
pub(crate) fn agree(place: &Place<'_>, log: &File, wanted: Wanted) -> Result<(), OpenError>
    ensures { IfErr result (IsRefused wanted.config.segment_size wanted.checksum.now) }
{
    match place.text("config")? {
        Some(text) => {
            let kept = format_in(place.rt.alloc(), place.path_of("config")?, &text)?;
            compare(place, kept, wanted)
        }
        None => begin(place, log, wanted),
    }
}

// Both have to be the same.
fn compare(place: &Place<'_>, kept: Format, wanted: Wanted) -> Result<(), OpenError>
    ensures size { OnOk result (kept.config.segment_size ≡ wanted.config.segment_size) }
    ensures checksum { OnOk result (string_bytes kept.checksum ≡ wanted.checksum.now) }
    ensures refused { IfErr result (IsRefused wanted.config.segment_size wanted.checksum.now) }
{
    let size = kept.config.segment_size;
    if size != wanted.config.segment_size {
        return Err(OpenError::OtherSize {
            path: place.path_of("config")?,
            kept: size,
            asked: wanted.config.segment_size,
        });
    }
    if kept.checksum.as_str() != wanted.checksum {
        return Err(OpenError::OtherChecksum {
            path: place.path_of("config")?,
            kept: kept.checksum,
            asked: wanted.checksum,
        });
    }
    Ok(())
}

// Earlier versions made no such file. Their checksum is taken, and the word of who opens the folder for the size.
fn begin(place: &Place<'_>, log: &File, wanted: Wanted) -> Result<(), OpenError>
    ensures { IfErr result (IsRefused wanted.config.segment_size wanted.checksum.now) }
{
    let alloc = place.rt.alloc();
    let len = place.len_of(log)?;
    let text = if len == 0 {
        text_of(alloc, wanted.config, wanted.checksum)?
    } else if wanted.checksum == OF_VERSION_1 {
        text_of_version_1(alloc, wanted.config)?
    } else {
        return Err(OpenError::NoConfig {
            path: place.path_of("config")?,
            len,
        });
    };
    place.put("config", "config.new", text.as_str())
}
