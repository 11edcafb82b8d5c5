//! The program `slog_file`: a segment log in a folder, which is run by lines of text, or looked at (`docs/SLOG_FILE.md`).
#![tactic(auto)]

ghost use Rattle.std.specs.Prelude.{◌≤◌, ◌≡◌};
ghost use Rattle.slog_file.specs.declared.Ended.TheVariants as way;

mod arguments;
mod bad_line;
mod check;
mod content;
mod damage;
mod dropped;
mod dump;
mod entries;
mod export;
mod get;
mod import;
mod iter;
mod json;
mod named_files;
mod noted_device;
mod output;
mod pages;
mod progress;
mod records;
mod run;
mod stat;
mod words;

use crate::arguments::{Act, Asked, Look, Wish, read_words};
use crate::content::{Folder, opening_error};
use anyhow::{Error, Result, anyhow};
use sled_file::{Crc32, FolderChecksum, Format, LogCrc32, format_of};
use sled_log::config::Config;
use std::alloc::{AllocError, Global};
use std::env;
use std::process::ExitCode;

fn main(rt: HostRuntime) -> ExitCode {
    ExitCode::from(status_of(&rt))
}

// Does what the arguments ask for, and returns the status that the program ends with: 1 for an error.
fn status_of(rt: &HostRuntime) -> u8
    ensures { result ≤ 3 }
{
    match do_as_asked(rt) {
        Ok(ended) => number_of(ended),
        Err(error) => {
            let _ = eprintln!(rt; "slog_file: {error:#}");
            1
        }
    }
}

/// How the program ends that met no error.
#[derive(Debug, Clone, Copy, PartialEq)]
pub(crate) enum Ended {
    /// All was done.
    Well,
    /// Damage was met, and told already.
    Damaged,
    /// The arguments, or a line, are none.
    Misread,
    /// The next opening drops bytes that aren't zeros.
    Drops,
}

// The status of a way to end.
fn number_of(ended: Ended) -> u8
    ensures most { result ≤ 3 }
    ensures well { ended ≡ way.Well → result ≡ 0 }
    ensures damaged { ended ≡ way.Damaged → result ≡ 1 }
    ensures misread { ended ≡ way.Misread → result ≡ 2 }
    ensures drops { ended ≡ way.Drops → result ≡ 3 }
{
    match ended {
        Ended::Well => 0,
        Ended::Damaged => 1,
        Ended::Misread => 2,
        Ended::Drops => 3,
    }
}

// Reads the arguments, and does what they ask for.
fn do_as_asked(rt: &HostRuntime) -> Result<Ended> {
    let words: Vec<String> = env::args(rt)?.collect(rt.alloc())?;
    match read_words(rt, &words)? {
        Wish::Do(asked) => carry_out(rt, &asked),
        Wish::Told => Ok(Ended::Well),
        Wish::Misread => Ok(Ended::Misread),
    }
}

// Does what is asked, under the checksum that the folder is kept under. A folder that is new is begun under the second one.
// No other function names the two: whatever is done with a folder is one function for both.
fn carry_out(rt: &HostRuntime, asked: &Asked) -> Result<Ended> {
    let folder = asked.folder.as_str();
    let format = match format_of(rt, folder) {
        Ok(format) => format,
        Err(error) => return Err(opening_error(error)),
    };
    let Some(Format { config, checksum }) = format else {
        return act(rt, folder, None, LogCrc32, asked.act);
    };
    let name = checksum.as_str();
    if name == Crc32.name() {
        act(rt, folder, Some(config), Crc32, asked.act)
    } else if name == LogCrc32.name() {
        act(rt, folder, Some(config), LogCrc32, asked.act)
    } else {
        let (first, second) = (Crc32.name(), LogCrc32.name());
        let error = anyhow!(
            "the checksum is {name} here, and this program knows {first} and {second}"
        );
        Err(error.context(config_path(rt.alloc(), folder)?))
    }
}

// Does this with a folder, whose segments have this size, if it is there already.
fn act<C: FolderChecksum + Copy + Drop>(
    rt: &HostRuntime,
    path: &str,
    kept: Option<Config>,
    checksum: C,
    act: Act,
) -> Result<Ended> {
    match (act, kept) {
        (Act::Run, _) => run::run(rt, path, kept, checksum),
        (Act::Import { size }, _) => import::run(rt, path, kept, size, checksum),
        (Act::Look(look), Some(config)) => {
            let folder = Folder {
                path,
                config,
                checksum,
            };
            show(rt, &folder, look)
        }
        (Act::Look(_), None) => Err(not_begun(rt.alloc(), path)?),
    }
}

// Shows this of a folder.
fn show<C: FolderChecksum + Copy + Drop>(
    rt: &HostRuntime,
    folder: &Folder<'_, C>,
    look: Look,
) -> Result<Ended> {
    match look {
        Look::Pages { is_json } => pages::show(rt, folder, is_json),
        Look::Dump { is_json } => dump::show(rt, folder, is_json),
        Look::Iter { from, is_json } => iter::show(rt, folder, from, is_json),
        Look::Get { page } => get::show(rt, folder, page),
        Look::Export => export::show(rt, folder),
        Look::Stat { is_json } => stat::show(rt, folder, is_json),
        Look::Check { is_json } => check::show(rt, folder, is_json),
    }
}

// The error of a folder that was not begun.
fn not_begun(alloc: Global, folder: &str) -> std::result::Result<Error, AllocError> {
    let error = anyhow!("the file is missing, which 'run' makes at its first line 'size S'");
    Ok(error.context(config_path(alloc, folder)?))
}

// The path of the file that says how a folder is kept.
fn config_path(alloc: Global, folder: &str) -> std::result::Result<String, AllocError> {
    format!(in alloc; "{folder}/config")
}
