//! The program that treats a log badly in every way that a script can be treated: bytes of its files are changed and cut off,
//! each call of its device fails or is stopped, and so are those of its recoveries, once and again (`data/README.md`).
//!
//! It prints a line for each file under `data/`, and before it one for each case that differs, and ends with the exit
//! status 1 where one does, or where a file can't be read.
#![tactic(auto)]

mod bytes;
mod devices;
mod files;
mod known;
mod recoveries;
mod rounds;
mod runs;
mod scripts;

use case_lines::tally::Tally;
use std::alloc::Global;
use std::fs;
use std::process::ExitCode;

// The files under `data/`, one a kind.
const FILES: [&str; 4] = ["bytes.txt", "devices.txt", "recoveries.txt", "rounds.txt"];

fn main(rt: HostRuntime) -> ExitCode {
    let mut is_fine = true;
    for name in FILES {
        is_fine &= compare(&rt, name);
    }
    if is_fine {
        ExitCode::SUCCESS
    } else {
        ExitCode::FAILURE
    }
}

// Runs the cases of a file, and prints what came of them.
fn compare(rt: &HostRuntime, name: &str) -> bool {
    let mut tally = Tally::new(rt.alloc(), name);
    match fs::read_to_string(rt, name) {
        Ok(text) => run(rt.alloc(), name, &text, &mut tally),
        Err(_) => tally.case(0, "a file", "not read"),
    }
    tally.end();
    print!(rt; "{}", tally.text.as_str()).is_ok() && tally.is_fine()
}

// Runs the cases of a file.
fn run(alloc: Global, name: &str, text: &str, tally: &mut Tally<'_>) {
    match name {
        "bytes.txt" => bytes::run(alloc, text, tally),
        "devices.txt" => devices::run(alloc, text, tally),
        "recoveries.txt" => recoveries::run(alloc, text, tally),
        _ => rounds::run(alloc, text, tally),
    }
}
