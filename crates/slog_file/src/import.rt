//! The lines of an export, written into a folder that has no pages.
ghost use Rattle.std.specs.Prelude.{◌≡◌, true};
ghost use Rattle.sled_log.specs.Refusals.{is_for_log};

mod line;

use crate::Ended;
use crate::import::line::{Fault, Line, parse};
use crate::output::printed;
use crate::run::Runner;
use anyhow::{Error, Result, anyhow};
use sled_file::FolderChecksum;
use sled_log::config::Config;
use sled_log::result::PageId;
use sled_log::session::{Command, Reply};
use std::io::{BufRead, BufReader};

// The size of a new folder's segments, where none is asked for.
const DEFAULT_SIZE: u64 = 65536;

// So many bytes of items are written before they are flushed.
const FLUSH_AT: usize = 1 << 20;

/// Writes the lines of standard input into a folder, flushes, and tells how many pages there are. After a bad line the pages
/// before it are kept.
pub(crate) fn run<C: FolderChecksum + Copy + Drop>(
    rt: &HostRuntime,
    folder: &str,
    kept: Option<Config>,
    size: Option<u64>,
    checksum: C,
) -> Result<Ended> {
    let Some(config) = config_of(kept, size) else {
        let _ = eprintln!(rt; "slog_file: --size: a size is a power of two from 256 to 8388608");
        return Ok(Ended::Misread);
    };
    let mut import = Import {
        rt,
        folder,
        runner: Runner::new(rt, folder, checksum),
        pages: 0,
        unflushed: 0,
    };
    let outcome = import.all(config);
    let pages = import.pages;
    let failure = import.end();
    match (outcome, failure) {
        (_, Some(error)) => Err(error.context(folder)),
        (Ok(ended), None) => {
            printed(println!(rt; "pages {pages}"))?;
            Ok(ended)
        }
        (Err(error), None) => Err(error),
    }
}

// The size of segments: the one that is asked for, or else that of the folder. `None` where that is no size.
fn config_of(kept: Option<Config>, size: Option<u64>) -> Option<Config> {
    match (size, kept) {
        (None, Some(kept)) => Some(kept),
        (size, _) => Config::new(size.unwrap_or(DEFAULT_SIZE)),
    }
}

// What lines are written with.
struct Import<'r, 'f, C> {
    rt: &'r HostRuntime,
    folder: &'f str,
    runner: Runner<'r, 'f, C>,
    // How many pages were written.
    pages: u64,
    // How many bytes of items were written since they were flushed.
    unflushed: usize,
}

impl<C: FolderChecksum + Copy + Drop> Import<'_, '_, C> {
    // Ends the session. Returns the failure of the files, where one came.
    fn end(self) -> Option<Error> {
        let Import {
            rt: _,
            folder: _,
            runner,
            pages: _,
            unflushed: _,
        } = self;
        runner.end()
    }

    // Opens the folder, writes all lines, flushes, and has a snapshot published.
    fn all(&mut self, config: Config) -> Result<Ended> {
        self.runner.open(config)?;
        self.begin()?;
        let ended = self.lines()?;
        self.flush()?;
        self.runner.settle()?;
        Ok(ended)
    }

    // Opens the log, which has to have no pages.
    fn begin(&mut self) -> Result<()> {
        match self.runner.answer(Command::Open)? {
            Reply::Opened { pages: 0, .. } => Ok(()),
            Reply::Opened { pages, .. } => {
                Err(anyhow!("it has {pages} pages, and an import wants none").context(self.folder))
            }
            Reply::Failed(error) => Err(self.runner.explained(error)),
            _ => Err(self.refused()),
        }
    }

    // Writes the lines, up to a bad one, which is told.
    fn lines(&mut self) -> Result<Ended> {
        let alloc = self.rt.alloc();
        let mut reader = BufReader::new(alloc, self.rt.reader())?;
        let mut line = Vec::new(alloc);
        for number in 1..u64::MAX {
            line.clear();
            match reader.read_until(b'\n', &mut line) {
                Ok(0) => return Ok(Ended::Well),
                Ok(_) => {}
                Err(error) => return Err(Error::from(error).context("standard input")),
            }
            if let Err(fault) = self.take(parse(alloc, &line)?)? {
                let _ = eprintln!(self.rt; "slog_file: line {number}: {fault}");
                return Ok(Ended::Misread);
            }
        }
        Ok(Ended::Well)
    }

    // Writes what a line has.
    fn take(
        &mut self,
        line: std::result::Result<Line, Fault>,
    ) -> Result<std::result::Result<(), Fault>> {
        let (page, items) = match line {
            Ok(Line::Items(page, items)) => (page, Some(items)),
            Ok(Line::Free(page)) => (page, None),
            Ok(Line::Damaged(page)) => return Ok(Err(Fault::Damaged(page))),
            Err(fault) => return Ok(Err(fault)),
        };
        if page != self.pages {
            return Ok(Err(Fault::NotNext(page, self.pages)));
        }
        match items {
            Some(items) => self.write(page, items)?,
            None => self.write_free(page)?,
        }
        self.pages = self.pages.saturating_add(1);
        Ok(Ok(()))
    }

    // Writes a page: its first item replaces what there is, and the others are links.
    fn write(&mut self, page: PageId, items: Vec<Vec<u8>>) -> Result<()> {
        let mut is_first = true;
        for item in items {
            self.unflushed = self.unflushed.saturating_add(item.len());
            if is_first {
                self.settle(Command::Replace(page, item))?;
            } else {
                self.settle(Command::Link(page, item))?;
            }
            is_first = false;
        }
        if self.unflushed >= FLUSH_AT {
            self.flush()?;
        }
        Ok(())
    }

    // Writes a page that was given back. It is begun first, as each page is.
    fn write_free(&mut self, page: PageId) -> Result<()> {
        self.settle(Command::Replace(page, Vec::new(self.rt.alloc())))?;
        self.settle(Command::Free(page))
    }

    // Reserves a message and completes it.
    fn settle(&mut self, command: Command) -> Result<()>
        requires { is_for_log command ≡ true }
    {
        match self.runner.answer(command)? {
            Reply::Reserved(ticket, _, _) => match self.runner.answer(Command::Complete(ticket))? {
                Reply::Done(_, _) => Ok(()),
                Reply::Failed(error) => Err(Error::from(error).context(self.folder)),
                _ => Err(self.refused()),
            },
            Reply::Failed(error) => Err(Error::from(error).context(self.folder)),
            _ => Err(self.refused()),
        }
    }

    fn flush(&mut self) -> Result<()> {
        self.unflushed = 0;
        match self.runner.answer(Command::Flush)? {
            Reply::Flushed(_) => Ok(()),
            Reply::Failed(error) => Err(Error::from(error).context(self.folder)),
            _ => Err(self.refused()),
        }
    }

    // The log takes no such message.
    fn refused(&self) -> Error {
        let page = self.pages;
        anyhow!("the log takes no such message of page {page}").context(self.folder)
    }
}
