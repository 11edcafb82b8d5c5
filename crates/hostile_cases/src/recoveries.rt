//! Recoveries that are stopped within each of their calls, and the next ones again, driven by the commands of a session: whatever the
//! crashes leave, the last opening replies as it does without stops, and all pages read as their messages say.

use crate::files::{File, Files};
use crate::runs::{Run, line_of_reply};
use crate::scripts::Script;
use case_lines::lines::{Fault, Outcome, Words};
use case_lines::tally::Tally;
use case_lines::texts::Text;
use sled_log::config::Config;
use sled_log::device::{Choice, MemDevice};
use sled_log::session::{Command, Reply};
use std::alloc::Global;

// An opening makes fewer calls that change or sync.
const MOST: u64 = 64;

// Bytes at offsets.
type Patch = Vec<(u64, u8)>;

// What a crash leaves: what was settled, or what was written, under a patch.
#[derive(Drop)]
enum Left {
    Old,
    New(Patch),
}

// A stop within a call of an opening, and what the crash behind it leaves.
type Stop<'a> = (u64, &'a Left);

/// Runs the cases of a file. `opens PLACE SEGMENT PAGES` asks for the stops behind the commands so far, of which the last is a crash or
/// halt. `torn FROM TO PLACE SEGMENT PAGES` asks for the stops of one opening alone, behind crashes that leave what was written up to each
/// of these offsets, and what was settled behind it. Each last opening counts.
pub(crate) fn run(alloc: Global, text: &str, tally: &mut Tally<'_>) {
    let mut script = Script::new(alloc);
    for (number, line) in text.lines().enumerate() {
        let number = number.wrapping_add(1);
        let outcome = match script.take(line) {
            Ok(None) => Ok(()),
            Ok(Some((word, behind))) => sweep(alloc, &script, word, behind, number, tally),
            Err(fault) => Err(fault),
        };
        if let Err(Fault(why)) = outcome {
            tally.case(number, line, why);
        }
    }
}

// Tries the stops that a line asks for.
fn sweep<'a>(
    alloc: Global,
    script: &'a Script,
    word: &str,
    behind: &'a str,
    line: usize,
    tally: &mut Tally<'_>,
) -> Outcome<()> {
    let mut case = Case {
        alloc,
        config: script.config()?,
        commands: script.commands(),
        wanted: behind,
        line,
    };
    match word {
        "opens" => case.stop_all(None, tally),
        "torn" => {
            let mut parts = behind.splitn(3, ' ');
            let (from, to) = (parts.next().unwrap_or(""), parts.next().unwrap_or(""));
            case.wanted = parts.next().unwrap_or("");
            case.tear_all(number_of(from)?, number_of(to)?, tally)
        }
        _ => Err(Fault("no such line")),
    }
}

// The number that a word is.
fn number_of(word: &str) -> Outcome<u64> {
    let mut words = Words::new(word);
    let number = words.number();
    words.end()?;
    Ok(number)
}

// Commands behind which a log is opened, with what the opening has to reply.
#[derive(Clone, Copy)]
struct Case<'a> {
    alloc: Global,
    config: Config,
    commands: &'a [Command],
    wanted: &'a str,
    line: usize,
}

impl<'a> Case<'a> {
    // Tears what was written at each of these offsets.
    fn tear_all(&self, from: u64, to: u64, tally: &mut Tally<'_>) -> Outcome<()> {
        for at in from..=to {
            let torn = Left::New(self.patch_behind(at)?);
            self.stop_all(Some(&torn), tally)?;
        }
        Ok(())
    }

    // The settled bytes of the log file that were written over, from an offset on.
    fn patch_behind(&self, from: u64) -> Outcome<Patch> {
        let old = self.log_behind(&Left::Old)?;
        let new = self.log_behind(&Left::New(Vec::new(self.alloc)))?;
        let mut patch = Vec::new(self.alloc);
        for (at, (old, new)) in old.iter().zip(new.iter()).enumerate() {
            if at as u64 >= from && old != new {
                patch.push((at as u64, *old))?;
            }
        }
        Ok(patch)
    }

    // The log file that a crash behind the commands leaves.
    fn log_behind(&self, left: &Left) -> Outcome<Vec<u8>> {
        let mut run = Run::new(self.alloc, self.config, MemDevice::new(self.alloc));
        let outcome = self.begin(&mut run, Some(left));
        let files = run.files();
        outcome?;
        log_among(files?)
    }

    // Stops each call of an opening; where the commands end with the crash, each call of the next one too.
    fn stop_all(&self, crash: Option<&Left>, tally: &mut Tally<'_>) -> Outcome<()> {
        let lefts = [Left::Old, Left::New(Vec::new(self.alloc))];
        self.open(crash, &[], tally)?;
        for call in 0..MOST {
            for first in &lefts {
                if !self.open(crash, &[(call, first)], tally)? {
                    return Ok(());
                }
                if crash.is_none() {
                    self.stop_again((call, first), &lefts, tally)?;
                }
            }
        }
        Err(Fault("too many calls"))
    }

    // Stops each call of the opening behind a stop.
    fn stop_again(&self, first: Stop<'_>, lefts: &[Left; 2], tally: &mut Tally<'_>) -> Outcome<()> {
        for call in 0..MOST {
            for second in lefts {
                if !self.open(None, &[first, (call, second)], tally)? {
                    return Ok(());
                }
            }
        }
        Err(Fault("too many calls"))
    }

    // Opens a log behind these stops, and counts it. Whether each of them came about.
    fn open(
        &self,
        crash: Option<&Left>,
        stops: &[Stop<'_>],
        tally: &mut Tally<'_>,
    ) -> Outcome<bool> {
        let mut run = Run::new(self.alloc, self.config, MemDevice::new(self.alloc));
        let outcome = self.play(&mut run, crash, stops);
        let wrong = run.end();
        let Some(came) = outcome? else {
            return Ok(false);
        };
        let came = wrong.map_or(came.as_str(), |(_, why)| why);
        if came == self.wanted {
            tally.count(false);
        } else {
            tally.case(self.line, self.wanted, self.told(came, stops).as_str());
        }
        Ok(true)
    }

    // What came behind these stops.
    fn told(&self, came: &str, stops: &[Stop<'_>]) -> Text {
        let mut text = Text::new(self.alloc);
        for (call, left) in stops {
            text.push("stop ");
            text.number(*call);
            text.push(match left {
                Left::Old => " old, ",
                Left::New(_) => " new, ",
            });
        }
        text.push(came);
        text
    }

    // Tells the commands, the stops and the opening. Returns what that replied behind its first word, or `None` where a stop didn't
    // come about.
    fn play(
        &self,
        run: &mut Run,
        crash: Option<&Left>,
        stops: &[Stop<'_>],
    ) -> Outcome<Option<Text>> {
        self.begin(run, crash)?;
        for (call, left) in stops {
            let _ = run.tell(&Command::Stop(*call))?;
            if !matches!(run.tell(&Command::Open)?, Reply::Stopped) {
                return Ok(None);
            }
            self.crash(run, left)?;
        }
        let opened = run.tell(&Command::Open)?;
        run.read_all()?;
        let reply = line_of_reply(self.alloc, &opened)?;
        let mut text = Text::new(self.alloc);
        text.push(
            reply
                .as_str()
                .strip_prefix("opened ")
                .unwrap_or(reply.as_str()),
        );
        Ok(Some(text))
    }

    // Tells the commands, and a crash.
    fn begin(&self, run: &mut Run, crash: Option<&Left>) -> Outcome<()> {
        for command in self.commands {
            let _ = run.tell(command)?;
        }
        match crash {
            Some(left) => self.crash(run, left),
            None => Ok(()),
        }
    }

    // The device crashes, and leaves this.
    fn crash(&self, run: &mut Run, left: &Left) -> Outcome<()> {
        let mut copy = Vec::new(self.alloc);
        let choice = match left {
            Left::Old => Choice::Old(copy),
            Left::New(patch) => {
                copy.extend_from_slice(patch)?;
                Choice::New(copy)
            }
        };
        if !matches!(run.tell(&Command::Crash(choice))?, Reply::Crashed(true)) {
            run.is_wrong("the crash leaves something else");
        }
        Ok(())
    }
}

// The bytes of the log file among the files of a device.
fn log_among(files: Files) -> Outcome<Vec<u8>> {
    for (file, bytes) in files {
        if file == File::Log {
            return Ok(bytes);
        }
    }
    Err(Fault("no log file"))
}
