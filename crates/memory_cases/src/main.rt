//! The program that `.ci/memory` runs once for each of its requests for memory, of which that one is refused.
//!
//! It carries out the commands of each file under `data/` (`data/README.md`), and a command that is refused memory once more.
//! Then it goes over the messages that are left. A refusal changes nothing of what it prints; where one was met it says on
//! standard error.
#![tactic(auto)]

mod messages;
mod replies;

use messages::tell_messages;
use replies::{Came, carry_out};
use sled_log::config::{Config, RunningConfig};
use sled_log::device::{MemDevice, PlaceSum};
use sled_log::session::Session;
use std::fs;
use std::process::ExitCode;

/// How often something is tried that needs memory. One request of a run is refused, so the second time there is some.
pub(crate) const TRIES: usize = 2;

// The files under `data/`.
const SCRIPTS: [&str; 2] = ["blob_and_batch.txt", "freed_segment.txt"];

fn main(rt: HostRuntime) -> ExitCode {
    for name in SCRIPTS {
        let _ = println!(rt; "{name}");
        match read(&rt, name) {
            Some(text) => run(&rt, &text),
            None => {
                let _ = println!(rt; "it isn't read");
            }
        }
    }
    ExitCode::SUCCESS
}

// The text of a file.
fn read(rt: &HostRuntime, name: &str) -> Option<String> {
    for _ in 0..TRIES {
        match fs::read_to_string(rt, name) {
            Ok(text) => return Some(text),
            Err(_) => met(rt, "the program"),
        }
    }
    None
}

/// Says who met the refusal.
pub(crate) fn met(rt: &HostRuntime, who: &str) {
    let _ = eprintln!(rt; "met by {who}");
}

// Carries out the lines of a script, and goes over what they leave.
fn run(rt: &HostRuntime, text: &str) {
    let alloc = rt.alloc();
    let Some(config) = Config::new(256) else {
        return;
    };
    let mut session = Session::new(alloc, config, MemDevice::new(alloc), PlaceSum);
    let mut commands = 0u64;
    for line in text.lines() {
        if let Some((asked, wanted)) = line.split_once(" = ") {
            commands = commands.wrapping_add(1);
            let came = carry_out(rt, &mut session, asked, wanted);
            tell(rt, line, &came);
        }
    }
    let device = session.end();
    let _ = println!(rt; "{commands} commands");
    tell_messages(rt, RunningConfig::new(alloc, config, device, PlaceSum));
}

// Tells of a reply that isn't the wanted one.
fn tell(rt: &HostRuntime, line: &str, came: &Came) {
    let _ = match came {
        Came::Wanted => Ok(()),
        Came::Other(bytes) => println!(rt;
            "{line}: came '{}'",
            str::from_utf8(bytes).unwrap_or("no text")
        ),
        Came::Nothing(why) => println!(rt; "{line}: {why}"),
    };
}
