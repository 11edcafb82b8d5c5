//! Devices that fail or stop: over the commands of a case each call of the device fails in turn, and each that changes or syncs is
//! stopped, with crashes that leave what was settled or what was written. Each reply is held against what is known (`known`).
//!
//! Behind a failure each command that calls the log tells it, and the files stay as they are until the log is halted. Then all that was
//! acknowledged is opened, and the log goes on.

use crate::files::Files;
use crate::runs::Run;
use crate::scripts::{Script, command_of};
use case_lines::lines::{Fault, Outcome};
use case_lines::tally::Tally;
use case_lines::texts::Text;
use sled_log::config::Config;
use sled_log::device::{Choice, CrashDevice, MemDevice};
use sled_log::result::Error;
use sled_log::session::{Command, Refusal, Reply};
use std::alloc::Global;
use std::io::ErrorKind;

// A case makes fewer calls of its device.
const MOST: u64 = 4096;

// What is tried behind a failure, beside what the case has.
const BEHIND: [&str; 9] = [
    "flush",
    "stable 0",
    "read 0",
    "replace 0 07",
    "link 0 07",
    "free 0",
    "begin",
    "end",
    "write 0",
];

/// Runs the cases of a file: `fails`, and `stops CALLS` with the number of the calls that change or sync. Each run counts, and that number.
pub(crate) fn run(alloc: Global, text: &str, tally: &mut Tally<'_>) {
    let mut script = Script::new(alloc);
    for (number, line) in text.lines().enumerate() {
        let number = number.wrapping_add(1);
        let outcome = match script.take(line) {
            Ok(None) => Ok(()),
            Ok(Some((word, calls))) => sweep(alloc, &script, word, calls, number, tally),
            Err(fault) => Err(fault),
        };
        if let Err(Fault(why)) = outcome {
            tally.case(number, line, why);
        }
    }
}

// Has each call of a case fail, or stop.
fn sweep(
    alloc: Global,
    script: &Script,
    word: &str,
    calls: &str,
    line: usize,
    tally: &mut Tally<'_>,
) -> Outcome<()> {
    let behind = commands_behind(alloc)?;
    let case = Case {
        alloc,
        config: script.config()?,
        commands: script.commands(),
        behind: &behind,
    };
    match word {
        "fails" => case.fail_all(line, tally),
        "stops" => {
            let mut text = Text::new(alloc);
            text.number(case.stop_all(line, tally)?);
            tally.case(line, calls, text.as_str());
            Ok(())
        }
        _ => Err(Fault("no such line")),
    }
}

// What is tried behind a failure.
fn commands_behind(alloc: Global) -> Outcome<Vec<Command>> {
    let mut commands = Vec::new(alloc);
    for line in BEHIND {
        commands.push(command_of(alloc, line)?)?;
    }
    Ok(commands)
}

// The command that met a failure, and those behind it up to the end of its log: their numbers.
type Failing = (usize, usize);

// A case whose device fails or stops.
#[derive(Clone, Copy)]
struct Case<'a> {
    alloc: Global,
    config: Config,
    commands: &'a [Command],
    behind: &'a [Command],
}

impl<'a> Case<'a> {
    // Has each call fail, up to the first that isn't made.
    fn fail_all(&self, line: usize, tally: &mut Tally<'_>) -> Outcome<()> {
        for call in 1..MOST {
            let mut run = Run::new(self.alloc, self.config, self.failing(call));
            let outcome = self.play(&mut run);
            let wrong = run.end();
            let Some(failing) = outcome? else {
                return Ok(());
            };
            self.note(line, call, wrong, tally);
            self.compare_files(line, call, failing, tally)?;
        }
        Err(Fault("too many calls"))
    }

    // A device on which the call of a number fails.
    fn failing(&self, call: u64) -> MemDevice {
        let mut device = MemDevice::new(self.alloc);
        if call > 0 {
            device.fail_at(call);
        }
        device
    }

    // Tells all commands, and more behind a failure and at the end. Returns where the failure was met.
    fn play(&self, run: &mut Run) -> Outcome<Option<Failing>> {
        let mut met = None;
        let mut is_failing = false;
        for (number, command) in self.commands.iter().enumerate() {
            if is_failing && matches!(command, Command::Halt) {
                self.tell_failing(run, self.behind)?;
                is_failing = false;
            }
            if is_failing {
                tell_failing(run, command)?;
                met = met.map(|(at, _)| (at, number));
            } else if is_failed(&run.tell(command)?) {
                met = Some((number, number));
                is_failing = !matches!(command, Command::Open);
                if !is_failing {
                    tell_open(run)?;
                }
            }
        }
        if is_failing {
            self.tell_failing(run, self.behind)?;
        }
        self.go_on(run)?;
        Ok(met)
    }

    // Tells commands of a log that keeps a failure.
    fn tell_failing(&self, run: &mut Run, commands: &[Command]) -> Outcome<()> {
        for command in commands {
            tell_failing(run, command)?;
        }
        Ok(())
    }

    // Closes the log, opens it, and reads all; and once more behind a message that is flushed.
    fn go_on(&self, run: &mut Run) -> Outcome<()> {
        let _ = run.tell(&Command::Halt)?;
        tell_open(run)?;
        run.read_all()?;
        let item = [7u8].to_vec(self.alloc)?;
        let _ = run.tell(&Command::Replace(0, item))?;
        let _ = run.tell(&Command::Complete(0))?;
        if !matches!(run.tell(&Command::Flush)?, Reply::Flushed(_)) {
            run.is_wrong("the log doesn't go on");
        }
        let _ = run.tell(&Command::Halt)?;
        tell_open(run)?;
        run.read_all()
    }

    // Compares the files behind the command that met a failure with those behind all that was tried of its log.
    fn compare_files(
        &self,
        line: usize,
        call: u64,
        (from, to): Failing,
        tally: &mut Tally<'_>,
    ) -> Outcome<()> {
        let first = self.files(call, from, &[])?;
        let last = self.files(call, to, self.behind)?;
        let wrong = if first == last {
            None
        } else {
            Some((to, "the files are others"))
        };
        self.note(line, call, wrong, tally);
        Ok(())
    }

    // The files behind the command of a number and these ones, where a call fails.
    fn files(&self, call: u64, number: usize, behind: &[Command]) -> Outcome<Files> {
        let mut run = Run::new(self.alloc, self.config, self.failing(call));
        let outcome = self.tell_up_to(&mut run, number, behind);
        let files = run.files();
        outcome?;
        files
    }

    // Tells the commands up to the one of a number, and these ones.
    fn tell_up_to(&self, run: &mut Run, number: usize, behind: &[Command]) -> Outcome<()> {
        for command in self.commands.iter().take(number.saturating_add(1)) {
            let _ = run.tell(command)?;
        }
        for command in behind {
            let _ = run.tell(command)?;
        }
        Ok(())
    }

    // Has each call that changes or syncs be stopped, up to the first that isn't made. Returns how many are.
    fn stop_all(&self, line: usize, tally: &mut Tally<'_>) -> Outcome<u64> {
        for call in 0..MOST {
            for is_new in [false, true] {
                let mut device = MemDevice::new(self.alloc);
                device.stop_after(call);
                let mut run = Run::new(self.alloc, self.config, device);
                let outcome = self.play_stopped(&mut run, is_new);
                let wrong = run.end();
                if !outcome? {
                    return Ok(call);
                }
                self.note(line, call, wrong, tally);
            }
        }
        Err(Fault("too many calls"))
    }

    // Tells all commands; whether the device stopped within one. Then it crashes, and the log is opened.
    fn play_stopped(&self, run: &mut Run, is_new: bool) -> Outcome<bool> {
        let mut is_stopped = false;
        for command in self.commands {
            let reply = run.tell(command)?;
            if is_stopped && !matches!(reply, Reply::Refused(Refusal::Stopped)) {
                run.is_wrong("the device is stopped");
            }
            is_stopped |= matches!(reply, Reply::Stopped);
        }
        if is_stopped {
            let patch = Vec::new(self.alloc);
            let choice = if is_new {
                Choice::New(patch)
            } else {
                Choice::Old(patch)
            };
            if !matches!(run.tell(&Command::Crash(choice))?, Reply::Crashed(true)) {
                run.is_wrong("the crash leaves something else");
            }
            self.go_on(run)?;
        }
        Ok(is_stopped)
    }

    // Notes a run, with its call and what was wrong in it.
    fn note(
        &self,
        line: usize,
        call: u64,
        wrong: Option<(usize, &'static str)>,
        tally: &mut Tally<'_>,
    ) {
        let Some((number, why)) = wrong else {
            tally.count(false);
            return;
        };
        let mut text = Text::new(self.alloc);
        text.push("call ");
        text.number(call);
        text.push(", command ");
        text.number(number as u64);
        text.push(": ");
        text.push(why);
        tally.case(line, "as it should be", text.as_str());
    }
}

// Tells a command of a log that keeps a failure. It tells that, or is refused.
fn tell_failing(run: &mut Run, command: &Command) -> Outcome<()> {
    let must = run.known.must_fail(command);
    let reply = run.tell(command)?;
    let is_told = is_failed(&reply);
    let may_be = !must && matches!(reply, Reply::Refused(_) | Reply::FreePage);
    if !is_told && !may_be {
        run.is_wrong("the failure isn't told");
    }
    Ok(())
}

// Opens a log, which has to succeed.
fn tell_open(run: &mut Run) -> Outcome<()> {
    if !matches!(run.tell(&Command::Open)?, Reply::Opened { .. }) {
        run.is_wrong("it isn't opened");
    }
    Ok(())
}

// Whether a reply tells a failure of the device.
fn is_failed(reply: &Reply) -> bool {
    match reply {
        Reply::Failed(Error::Io(e)) => e.kind() == ErrorKind::Other,
        _ => false,
    }
}
