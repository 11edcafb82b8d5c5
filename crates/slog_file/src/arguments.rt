//! The arguments of the program.

use anyhow::{Context, Result, bail};
use clap::error::ErrorKind;
use clap::{Arg, ArgAction, ArgMatches, Command, Error, value_parser};
use sled_log::result::{Lsn, PageId};
use std::alloc::{AllocError, Global};

/// The program's version.
const VERSION: &str = "0.1.0";

/// What the help of `run` says of its lines.
const LINES: &str = "\
Lines, each of which is answered by one (docs/SLOG.md):
  size S         first, and in a new folder: segments of S bytes, a power of two from 256 to 8388608
  open           recover what is there, and open a log
  replace P HEX  reserve a message that replaces page P by these bytes; a new page is the next one from 0
  link P HEX     reserve one that adds them to the page
  free P         reserve one that gives the page back
  rewrite P      reserve one that is the page's one item again, which stays in its blob
  begin          begin a batch
  end            end it
  complete T     complete the message of ticket T
  abort T        give it up
  flush          make all that was reserved durable
  stable L       make place L durable, and all before it
  write I        write the I-th sealed buffer
  read P         print the items of page P
  halt           close the log; what isn't durable is lost

The folder's newest snapshot has all that is durable behind a halt and at the end.";

/// What the program is asked for: what is to be done with a folder.
#[derive(Debug, Drop)]
pub(crate) struct Asked {
    pub(crate) folder: String,
    pub(crate) act: Act,
}

/// What is done with a folder.
#[derive(Debug, Clone, Copy)]
pub(crate) enum Act {
    /// Run the lines of standard input over it.
    Run,
    /// Write lines as an export prints them into it; a new one has segments of this size.
    Import { size: Option<u64> },
    /// Only read it.
    Look(Look),
}

/// What is shown of a folder.
#[derive(Debug, Clone, Copy)]
pub(crate) enum Look {
    /// The pages that a recovery finds.
    Pages { is_json: bool },
    /// All that the files hold.
    Dump { is_json: bool },
    /// The messages from a place on.
    Iter { from: Lsn, is_json: bool },
    /// What a recovery would do, and what can't be read.
    Check { is_json: bool },
    /// The items of a page.
    Get { page: PageId },
    /// The items of all pages, as lines of JSON.
    Export,
    /// How much the files hold.
    Stat { is_json: bool },
}

/// What the words of the command line come to.
#[derive(Debug, Drop)]
pub(crate) enum Wish {
    /// Something is to be done.
    Do(Asked),
    /// Help was asked for, and printed.
    Told,
    /// The words are none, which was printed.
    Misread,
}

/// Reads the words of the command line, the first of which is the program's name.
pub(crate) fn read_words(rt: &HostRuntime, words: &[String]) -> Result<Wish> {
    match parse(rt.alloc(), words) {
        Ok(Some(asked)) => Ok(Wish::Do(asked)),
        Ok(None) => Ok(Wish::Misread),
        Err(error) if error.kind() == ErrorKind::OutOfMemory => bail!("out of memory"),
        Err(error) => {
            error.print(rt).context(if error.use_stderr() {
                "standard error"
            } else {
                "standard output"
            })?;
            Ok(if error.use_stderr() {
                Wish::Misread
            } else {
                Wish::Told
            })
        }
    }
}

fn parse(alloc: Global, words: &[String]) -> std::result::Result<Option<Asked>, Error> {
    let command = command(alloc)?;
    let matches = command.try_get_matches_from(words)?;
    match matches.subcommand() {
        Some((name, found)) => Ok(asked_of(alloc, name, found)?),
        None => Ok(None),
    }
}

// The command line, of which each subcommand takes a folder.
fn command<'a>(alloc: Global) -> std::result::Result<Command<'a>, AllocError> {
    let command = Command::new(alloc, "slog_file")
        .about("A segment log in a folder, run by lines of text, or looked at")
        .version(VERSION)
        .subcommand_required(true)
        .subcommand(over(alloc, "run", "Run the lines of standard input")?.after_help(LINES))?
        .subcommand(get(alloc)?)?
        .subcommand(over(
            alloc,
            "export",
            "Print the items of all pages as lines of JSON",
        )?)?
        .subcommand(import(alloc)?)?;
    with_views(alloc, command)
}

// The same with the subcommands that show how the files are laid out.
fn with_views<'a>(
    alloc: Global,
    command: Command<'a>,
) -> std::result::Result<Command<'a>, AllocError> {
    command
        .subcommand(over_json(alloc, "pages", "Show the pages that a recovery finds")?)?
        .subcommand(over_json(alloc, "dump", "Show all that the files hold")?)?
        .subcommand(iter(alloc)?)?
        .subcommand(over_json(
            alloc,
            "check",
            "Say what a recovery would do, and what can't be read",
        )?)?
        .subcommand(over_json(alloc, "stat", "Count what the files hold")?)
}

fn get<'a>(alloc: Global) -> std::result::Result<Command<'a>, AllocError> {
    let page = Arg::new(alloc, "page")
        .required(true)
        .value_parser(value_parser!(u64))
        .help("the number of the page");
    over(alloc, "get", "Print the items of a page")?.arg(page)
}

fn import<'a>(alloc: Global) -> std::result::Result<Command<'a>, AllocError> {
    let size = Arg::new(alloc, "size")
        .long("size")
        .value_parser(value_parser!(u64))
        .help(
            "the size of segments of a new folder: a power of two from 256 to 8388608, 65536 if it is left out",
        );
    over(
        alloc,
        "import",
        "Write the lines of an export into a folder without pages",
    )?
    .arg(size)
}

fn iter<'a>(alloc: Global) -> std::result::Result<Command<'a>, AllocError> {
    let from = Arg::new(alloc, "from")
        .required(true)
        .allow_negative_numbers(true)
        .value_parser(value_parser!(i64))
        .help("the place that the messages begin from");
    over_json(alloc, "iter", "Show the messages from a place on")?.arg(from)
}

// A subcommand over a folder.
fn over<'a>(
    alloc: Global,
    name: &'a str,
    about: &'a str,
) -> std::result::Result<Command<'a>, AllocError> {
    let folder = Arg::new(alloc, "folder")
        .required(true)
        .help("the folder that the log is kept in");
    Command::new(alloc, name).about(about).arg(folder)
}

// The same, which may print JSON.
fn over_json<'a>(
    alloc: Global,
    name: &'a str,
    about: &'a str,
) -> std::result::Result<Command<'a>, AllocError> {
    let json = Arg::new(alloc, "json")
        .long("json")
        .action(ArgAction::SetTrue)
        .help("print JSON");
    over(alloc, name, about)?.arg(json)
}

// What a subcommand asks for.
fn asked_of(
    alloc: Global,
    name: &str,
    found: &ArgMatches<'_>,
) -> std::result::Result<Option<Asked>, AllocError> {
    let folder = String::from_str(alloc, found.get_str("folder").unwrap_or(""))?;
    let act = match name {
        "run" => Act::Run,
        "import" => Act::Import {
            size: found.get_one::<u64>("size"),
        },
        _ => match look_of(name, found) {
            Some(look) => Act::Look(look),
            None => return Ok(None),
        },
    };
    Ok(Some(Asked { folder, act }))
}

// What a subcommand shows that only reads the folder.
fn look_of(name: &str, found: &ArgMatches<'_>) -> Option<Look> {
    let is_json = found.get_flag("json");
    match name {
        "pages" => Some(Look::Pages { is_json }),
        "dump" => Some(Look::Dump { is_json }),
        "iter" => Some(Look::Iter {
            from: found.get_one::<i64>("from").unwrap_or(0),
            is_json,
        }),
        "check" => Some(Look::Check { is_json }),
        "get" => Some(Look::Get {
            page: found.get_one::<u64>("page").unwrap_or(0),
        }),
        "export" => Some(Look::Export),
        "stat" => Some(Look::Stat { is_json }),
        _ => None,
    }
}
