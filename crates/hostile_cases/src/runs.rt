//! A session that is told commands one by one, each reply held against what is known.

use crate::files::{Files, files_of};
use crate::known::Known;
use case_lines::lines::{Fault, Outcome};
use case_lines::texts::Text;
use sled_log::config::Config;
use sled_log::device::{MemDevice, PlaceSum};
use sled_log::session::{Command, Reply, Session};
use slog_lines::text;
use std::alloc::Global;
use std::slice;

/// A session over a device in memory. It is to be ended.
pub(crate) struct Run {
    alloc: Global,
    session: Session<MemDevice, PlaceSum>,
    /// What is known of it.
    pub(crate) known: Known,
    // Which reply wasn't allowed, and why.
    wrong: Option<(usize, &'static str)>,
    // How many commands were told.
    told: usize,
}

impl Run {
    /// A session over a device that nothing was written to.
    pub(crate) fn new(alloc: Global, config: Config, device: MemDevice) -> Run {
        Run {
            alloc,
            session: Session::new(alloc, config, device, PlaceSum),
            known: Known::new(alloc),
            wrong: None,
            told: 0,
        }
    }

    /// Tells a command, and notes its reply.
    ///
    /// # Errors
    ///
    /// Out of memory.
    pub(crate) fn tell(&mut self, command: &Command) -> Outcome<Reply> {
        let mut replies = self.session.run(slice::from_ref(command))?;
        let Some(reply) = replies.pop() else {
            return Err(Fault("no reply"));
        };
        self.told = self.told.saturating_add(1);
        if let Some(why) = self.known.note(command, &reply)? {
            self.is_wrong(why);
        }
        Ok(reply)
    }

    /// Notes that a reply isn't allowed. What is noted first stays.
    pub(crate) fn is_wrong(&mut self, why: &'static str) {
        self.wrong = self.wrong.or(Some((self.told, why)));
    }

    /// Reads all pages, and holds the table and what is read against what is known. A log is open.
    ///
    /// # Errors
    ///
    /// Out of memory.
    pub(crate) fn read_all(&mut self) -> Outcome<()> {
        for page in 0..self.known.pages() {
            let read = self.tell(&Command::Read(page))?;
            let shown = self
                .session
                .pages()
                .and_then(|pages| pages.get(page as usize));
            let is_so = match shown {
                Some(shown) => self.known.is_page(page, shown, &read)?,
                None => false,
            };
            if !is_so {
                self.is_wrong("a page isn't what its messages say");
            }
        }
        Ok(())
    }

    /// Ends the session. Returns the files of the device, and what wasn't allowed.
    ///
    /// # Errors
    ///
    /// Out of memory, or a device that is stopped.
    pub(crate) fn files(self) -> Outcome<Files> {
        let Run {
            alloc,
            session,
            known: _,
            wrong: _,
            told: _,
        } = self;
        let mut device = session.end();
        files_of(alloc, &mut device)
    }

    /// Ends the session. Returns what wasn't allowed.
    pub(crate) fn end(self) -> Option<(usize, &'static str)> {
        let Run {
            alloc: _,
            session,
            known: _,
            wrong,
            told: _,
        } = self;
        let _ = session.end();
        wrong
    }
}

/// Returns the line of a reply, without its line feed.
///
/// # Errors
///
/// Out of memory.
pub(crate) fn line_of_reply(alloc: Global, reply: &Reply) -> Outcome<Text> {
    let mut line = Vec::new(alloc);
    if text::print(alloc, &mut line, reply).is_err() {
        return Err(Fault("out of memory"));
    }
    let _ = line.pop();
    let mut text = Text::new(alloc);
    text.push(str::from_utf8(&line).unwrap_or("no text"));
    Ok(text)
}
