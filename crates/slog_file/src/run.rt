//! The lines of standard input, run over the files of a folder.
ghost use Rattle.std.specs.Prelude.{◌≡◌, true};
ghost use Rattle.sled_log.specs.Refusals.{is_for_log};

use crate::bad_line::reason_of;
use crate::content::opening_error;
use crate::dropped::count_dropped;
use crate::output::{output_error, printed};
use crate::progress::Told;
use crate::{Ended, damage};
use anyhow::{Error, Result, anyhow};
use sled_file::{FileDevice, FolderChecksum, HostFolder, OpenError, Unknown, open_told};
use sled_log::config::{Config, RunningConfig};
use sled_log::result::Error as LogError;
use sled_log::session::{Command, Reply, Session};
use slog_lines::line::{Asked, parse};
use slog_lines::text::print;
use std::alloc::{AllocError, AllocFailed, Global};
use std::io::{self, BufRead, BufReader, BufWriter, Write};

/// The files of a folder, as they are opened.
type Files = FileDevice<HostFolder, Unknown>;

// The size of segments, once it is known, and a session over the files of the folder.
type Running<C> = Option<(Config, Session<Files, C>)>;

// Why the lines end before the input does.
#[derive(Drop)]
enum Stop {
    // The line is none, or stands where it can't.
    BadLine,
    // The folder, the input or the output failed, or memory was refused.
    Failed(Error),
}

impl From<Error> for Stop {
    fn from(error: Error) -> Stop {
        Stop::Failed(error)
    }
}

// What prints failed.
impl From<io::Error> for Stop {
    fn from(error: io::Error) -> Stop {
        Stop::Failed(output_error(error))
    }
}

impl From<AllocError> for Stop {
    fn from(error: AllocError) -> Stop {
        Stop::Failed(Error::from(error))
    }
}

impl<T: Drop> From<AllocFailed<T>> for Stop {
    fn from(_error: AllocFailed<T>) -> Stop {
        Stop::Failed(Error::from(AllocError))
    }
}

/// What a line is run with.
pub(crate) struct Runner<'r, 'f, C> {
    rt: &'r HostRuntime,
    folder: &'f str,
    checksum: C,
    running: Running<C>,
    // A recovery may find something else than the last one did, since a command came between.
    is_changed: bool,
    // An opening of the log met damage, which was told.
    is_damaged: bool,
    // How many bytes the first opening drops that aren't zeros, until that is told; 0 if memory was refused to the counting.
    dropped: u64,
}

/// Runs the lines of standard input over a folder, and prints a line for each on standard output. The folder's segments have
/// the size `kept`, if it is there already.
pub(crate) fn run<C: FolderChecksum + Copy + Drop>(
    rt: &HostRuntime,
    folder: &str,
    kept: Option<Config>,
    checksum: C,
) -> Result<Ended> {
    let alloc = rt.alloc();
    let mut reader = BufReader::new(alloc, rt.reader())?;
    let mut writer = BufWriter::new(alloc, io::writer(rt))?;
    let mut runner = Runner::new(rt, folder, checksum);
    let outcome = runner.run_all(kept, &mut reader, &mut writer);
    let ended = runner.settled(outcome);
    let failure = runner.end();
    printed(writer.flush())?;
    match failure {
        Some(error) => Err(error.context(folder)),
        None => ended,
    }
}

impl<C: FolderChecksum + Copy + Drop> Runner<'_, '_, C> {
    /// One over a folder that isn't open yet, and that is kept under this checksum.
    pub(crate) fn new<'r, 'f>(
        rt: &'r HostRuntime,
        folder: &'f str,
        checksum: C,
    ) -> Runner<'r, 'f, C> {
        Runner {
            rt,
            folder,
            checksum,
            running: None,
            is_changed: false,
            is_damaged: false,
            dropped: 0,
        }
    }

    // How the program ends behind its lines, unless the files failed. Behind a bad line the folder is settled too.
    fn settled(&mut self, outcome: std::result::Result<(), Stop>) -> Result<Ended> {
        let ended = match outcome {
            Err(Stop::Failed(error)) => return Err(error),
            Err(Stop::BadLine) => Ended::Misread,
            Ok(()) if self.is_damaged => Ended::Damaged,
            Ok(()) => Ended::Well,
        };
        self.settle()?;
        Ok(ended)
    }

    /// Ends the session, if one was begun. Returns the failure of the files that came first, if one came.
    pub(crate) fn end(self) -> Option<Error> {
        let Runner {
            rt: _,
            folder: _,
            checksum: _,
            running,
            is_changed: _,
            is_damaged: _,
            dropped: _,
        } = self;
        let (_, session) = running?;
        let failure = session.end().failure()?;
        Some(Error::from(failure))
    }

    // Opens the folder if it is there already, and runs one line after another. Says which one is bad.
    fn run_all<R: BufRead, W: Write>(
        &mut self,
        kept: Option<Config>,
        reader: &mut R,
        writer: &mut W,
    ) -> std::result::Result<(), Stop> {
        if let Some(config) = kept {
            self.open(config)?;
        }
        let mut line = Vec::new(self.rt.alloc());
        for number in 1..u64::MAX {
            line.clear();
            match reader.read_until(b'\n', &mut line) {
                Ok(0) => return Ok(()),
                Ok(_) => {}
                Err(error) => return Err(unread(error)),
            }
            if let Err(stop) = self.run_line(number == 1, &line, writer) {
                return Err(told(self.rt, stop, writer, number, &line));
            }
        }
        Err(Stop::BadLine)
    }

    // Runs a line, and prints what came of it. The writer is flushed then, so that whoever writes the lines can wait for
    // each reply.
    fn run_line<W: Write>(
        &mut self,
        is_first: bool,
        line: &[u8],
        writer: &mut W,
    ) -> std::result::Result<(), Stop> {
        let alloc = self.rt.alloc();
        match parse(alloc, line)? {
            Some(Asked::Size(size)) if is_first => self.take_size(size),
            Some(Asked::Command(command)) if is_for_files(&command) => {
                let reply = self.reply_to(&command)?;
                print(alloc, writer, &reply)?;
                Ok(writer.flush()?)
            }
            _ => Err(Stop::BadLine),
        }
    }

    // Runs a command of a line. Behind a halt a snapshot is published, and the halt fails if that does. Damage that an opening
    // meets is told.
    fn reply_to(&mut self, command: &Command) -> std::result::Result<Reply, Stop>
        requires { is_for_log command.now ≡ true }
    {
        let reply = match self.run_command(command)? {
            Reply::Halted => self.publish()?,
            reply => reply,
        };
        if matches!(command, Command::Open | Command::Halt) {
            self.hear_opening(&reply);
        }
        Ok(reply)
    }

    // Takes the size of segments, which has to be that of the folder where it is kept already.
    fn take_size(&mut self, size: u64) -> std::result::Result<(), Stop> {
        let Some(config) = Config::new(size) else {
            return Err(Stop::BadLine);
        };
        match &self.running {
            Some((kept, _)) if kept.segment_size == config.segment_size => Ok(()),
            Some((kept, _)) => Err(self.of_other_size(kept.segment_size, size)?),
            None => Ok(self.open(config)?),
        }
    }

    // The folder's segments have another size than is asked for.
    fn of_other_size(&self, kept: u64, asked: u64) -> std::result::Result<Stop, AllocError> {
        let folder = self.folder;
        let path = format!(in self.rt.alloc(); "{folder}/config")?;
        Ok(Stop::Failed(opening_error(OpenError::OtherSize { path, kept, asked })))
    }

    /// Opens the folder, and begins a session over its files.
    pub(crate) fn open(&mut self, config: Config) -> Result<()> {
        let mut told = Told::begin(self.rt, self.folder);
        let (rt, folder) = (self.rt, self.folder);
        match open_told(rt, folder, config, &self.checksum, Unknown, &mut told) {
            Ok(files) => {
                let mut running = RunningConfig::new(rt.alloc(), config, files, self.checksum);
                self.dropped = count_dropped(&mut running).unwrap_or(0);
                self.begin(config, running.into_device());
                Ok(())
            }
            Err(error) => Err(opening_error(error)),
        }
    }

    // Begins a session over the files.
    fn begin(&mut self, config: Config, files: Files) {
        let session = Session::new(self.rt.alloc(), config, files, self.checksum);
        if let Some((_, before)) = self.running.replace((config, session)) {
            let _ = before.end();
        }
    }

    /// Ends the session in order: the log is closed, if it is open, and the folder's newest snapshot has all that is durable
    /// then. What isn't durable is lost.
    pub(crate) fn settle(&mut self) -> Result<()> {
        if self.is_settled() {
            return Ok(());
        }
        self.answer(Command::Halt)?;
        match self.publish()? {
            Reply::Failed(error) => Err(self.explained(error)),
            _ => Ok(()),
        }
    }

    // Has the newest snapshot have all that is durable, while no log is open: one is opened, which publishes what it recovers,
    // and closed again. The reply is `Halted`, or that of an opening that failed.
    fn publish(&mut self) -> Result<Reply> {
        if self.is_settled() {
            return Ok(Reply::Halted);
        }
        match self.answer(Command::Open)? {
            Reply::Opened { .. } => self.answer(Command::Halt),
            reply => Ok(reply),
        }
    }

    // Whether one more recovery would publish nothing: it would find what the last one did, or damage that was told already.
    fn is_settled(&self) -> bool {
        !self.is_changed || self.is_damaged
    }

    // Tells on standard error how many bytes the first opening dropped that weren't zeros: they were damaged, or nobody was told
    // that they are durable.
    fn tell_dropped(&mut self) {
        let folder = self.folder;
        let _ = match self.dropped {
            0 => return,
            1 => eprintln!(self.rt; "slog_file: {folder}/log: 1 byte that isn't zero is dropped"),
            count => {
                eprintln!(self.rt;
                    "slog_file: {folder}/log: {count} bytes that aren't zeros are dropped"
                )
            }
        };
        self.dropped = 0;
    }

    // Tells on standard error where the folder is damaged, if that is why an opening of the log failed.
    fn hear_opening(&mut self, reply: &Reply) {
        match reply {
            Reply::Failed(error) if damage::is_damage(error) => self.tell_damage(),
            _ => {}
        }
    }

    fn tell_damage(&mut self) {
        self.is_damaged = true;
        if let Some(error) = self.locate_damage() {
            let _ = eprintln!(self.rt; "slog_file: {error:#}");
        }
    }

    /// Runs a command, once the folder is open.
    pub(crate) fn answer(&mut self, command: Command) -> Result<Reply>
        requires { is_for_log command ≡ true }
    {
        match self.run_command(&command) {
            Ok(reply) => Ok(reply),
            Err(Stop::Failed(error)) => Err(error),
            Err(Stop::BadLine) => Err(anyhow!("the folder isn't open").context(self.folder)),
        }
    }

    /// The error of an opening of the log, with what is damaged and where, if that is what it says.
    pub(crate) fn explained(&mut self, error: LogError) -> Error {
        if damage::is_damage(&error)
            && let Some(located) = self.locate_damage()
        {
            return located;
        }
        Error::from(error).context(self.folder)
    }

    // Where the folder is damaged. No log is open, so that the session ends, and another one begins on its device.
    fn locate_damage(&mut self) -> Option<Error> {
        let alloc = self.rt.alloc();
        let (config, session) = self.running.take()?;
        let mut config = RunningConfig::new(alloc, config, session.end(), self.checksum);
        let error = damage::located(alloc, self.folder, &mut config);
        let size = config.config;
        self.begin(size, config.into_device());
        Some(error)
    }

    // Runs a command. Before the size of segments it is a bad line.
    fn run_command(&mut self, command: &Command) -> std::result::Result<Reply, Stop>
        requires { is_for_log command.now ≡ true }
    {
        match &mut self.running {
            Some((_, session)) => {
                let reply = session.carry_out(command);
                self.is_changed = is_changed(self.is_changed, command, &reply);
                if let Reply::Opened { .. } = &reply {
                    self.tell_dropped();
                }
                Ok(reply)
            }
            None => Err(Stop::BadLine),
        }
    }
}

// Whether a recovery may find something else than the last one did, once a command had this reply; before it that was so or
// wasn't.
fn is_changed(before: bool, command: &Command, reply: &Reply) -> bool {
    match (command, reply) {
        (_, Reply::Opened { .. }) => false,
        (_, Reply::Refused(_)) => before,
        (Command::Open | Command::Read(_) | Command::Halt, _) => before,
        _ => true,
    }
}

// Whether a command can be carried out over files: a stop and a crash are those of a device for tests.
fn is_for_files(command: &Command) -> bool
    ensures { result ≡ is_for_log command.now }
{
    !matches!(command, Command::Stop(_) | Command::Crash(_))
}

// The error of standard input.
fn unread(error: io::Error) -> Stop {
    Stop::Failed(Error::from(error).context("standard input"))
}

// Prints the number of a bad line, and tells on standard error why it is one.
fn told<W: Write>(rt: &HostRuntime, stop: Stop, writer: &mut W, number: u64, line: &[u8]) -> Stop {
    if let Stop::BadLine = stop {
        let _ = eprintln!(rt;
            "slog_file: line {number}: {}",
            reason_of(line, number == 1)
        );
    }
    match stop {
        Stop::Failed(error) => Stop::Failed(error),
        Stop::BadLine => match writeln!(writer, "bad line {number}") {
            Ok(()) => Stop::BadLine,
            Err(error) => Stop::from(error),
        },
    }
}
