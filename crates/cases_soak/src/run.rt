//! A session and the reference beside it.

use crate::counts::Counts;
use crate::ledger::Ledger;
use crate::reference::Reference;
use crate::reference::wrong::Wrong;
use crate::script::{Gave, Script, Stay};
use crate::watched::{Notes, Watched};
use sled_log::config::Config;
use sled_log::device::{MemDevice, PlaceSum};
use sled_log::session::{Command, Reply, Session};
use std::alloc::Global;

/// A reply that is wrong, and what was wanted.
#[derive(Drop)]
pub struct Failure {
    pub reply: Option<Reply>,
    pub wrong: Wrong,
}

type Watching = Session<Watched<MemDevice>, PlaceSum>;

/// A session over a device in memory, with the reference that judges it. It has to be ended.
pub struct Run {
    alloc: Global,
    config: Config,
    // It is missing only while its device is looked at.
    session: Option<Watching>,
    pub reference: Reference,
}

impl Run {
    /// Begins a session with segments of this size. Where that is asked for, its notes tell whether a crash left something
    /// foreign.
    pub fn begin(alloc: Global, config: Config, tells_foreign: bool) -> Run {
        let size = config.segment_size;
        let ledger = if tells_foreign {
            Some(Ledger::new(alloc, size))
        } else {
            None
        };
        let device = Watched {
            device: MemDevice::new(alloc),
            notes: Notes::new(alloc, ledger),
        };
        Run {
            alloc,
            config,
            session: Some(Session::new(alloc, config, device, PlaceSum)),
            reference: Reference::new(alloc, size),
        }
    }

    /// Carries a command out, and judges its reply.
    ///
    /// # Errors
    ///
    /// The reply that is wrong.
    pub fn step(&mut self, command: &[Command; 1], counts: &mut Counts) -> Result<Gave, Failure> {
        let Some(reply) = self.reply_to(command) else {
            let wrong = Wrong::Wanted("memory for the reply");
            return Err(Failure { reply: None, wrong });
        };
        let [command] = command;
        counts.note(command, &reply);
        match self.reference.judge(command, &reply) {
            Ok(()) => Ok(Gave::of(&reply)),
            Err(wrong) => Err(Failure {
                reply: Some(reply),
                wrong,
            }),
        }
    }

    fn reply_to(&mut self, command: &[Command; 1]) -> Option<Reply> {
        let session = self.session.as_mut()?;
        let mut replies = session.run(command).ok()?;
        replies.pop()
    }

    /// Closes the log that is open, and hands out the device. A new session goes on with what is handed back.
    pub fn take_device(&mut self) -> Option<Watched<MemDevice>> {
        let session = self.session.take()?;
        Some(session.end())
    }

    /// Goes on with a device.
    pub fn put_device(&mut self, device: Watched<MemDevice>) {
        let session = Session::new(self.alloc, self.config, device, PlaceSum);
        if let Some(other) = self.session.replace(session) {
            let _ = other.end();
        }
    }

    /// Ends it, and returns what was noted of its device.
    pub fn end(self) -> Option<Notes> {
        let Run {
            alloc: _,
            config: _,
            session,
            reference: _,
        } = self;
        let Watched { device: _, notes } = session?.end();
        Some(notes)
    }
}

/// What came of a script.
#[derive(Drop)]
pub struct Outcome {
    /// The first reply that is wrong.
    pub failure: Option<Failure>,
    /// Whether a crash left something foreign.
    pub is_foreign: bool,
}

/// Runs a script once more, and tells whether a crash left something foreign. It notes what each command gave.
pub fn replay(alloc: Global, config: Config, script: &mut Script) -> Outcome {
    let mut run = Run::begin(alloc, config, true);
    let mut counts = Counts::new();
    let mut failure = None;
    for step in script.steps.iter_mut() {
        if step.stay != Stay::Kept {
            continue;
        }
        match run.step(&step.command, &mut counts) {
            Ok(gave) => step.gave = gave,
            Err(found) => {
                failure = Some(found);
                break;
            }
        }
    }
    let notes = run.end();
    Outcome {
        failure: misjudged(failure, &notes),
        is_foreign: notes.map_or(true, |notes| notes.is_foreign()),
    }
}

/// A failure, also where none was found and the device misjudged a crash.
pub fn misjudged(failure: Option<Failure>, notes: &Option<Notes>) -> Option<Failure> {
    if failure.is_some() {
        return failure;
    }
    match notes {
        Some(notes) if notes.is_misjudged => Some(Failure {
            reply: None,
            wrong: Wrong::Wanted("a crash that leaves what it may, and says so"),
        }),
        _ => None,
    }
}
