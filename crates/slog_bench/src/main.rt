//! The program that compares what the library answers with the files under `data/` (`data/README.md`).
//!
//! It prints a line for each file, and before it one for each case that differs, and ends with the exit
//! status 1 where one does, or where a file can't be read.
#![tactic(auto)]

mod calls;
mod logs;
mod marks;
mod reads;
mod runs;
mod scripts;
mod tables;
mod values;
mod world;

use case_lines::lines::{Fault, Words, asked_and_wanted};
use case_lines::tally::Tally;
use case_lines::texts::Text;
use function_cases::functions;
use recovery_cases::recovery::By;
use recovery_cases::{hostile, intervals, own, recovery, stops};
use std::alloc::Global;
use std::fs;
use std::process::ExitCode;
use store_cases::{accountant, codecs, segment_headers, words};

// The files under `data/`, one a kind.
const FILES: [&str; 20] = [
    "codecs.txt",
    "segment_headers.txt",
    "words.txt",
    "recovery.txt",
    "plain.txt",
    "stops.txt",
    "hostile.txt",
    "calls.txt",
    "batches.txt",
    "iterations.txt",
    "freeing.txt",
    "marked.txt",
    "slog.txt",
    "runs.txt",
    "reuse.txt",
    "own.txt",
    "accountant.txt",
    "accountant_blobs.txt",
    "accountant_start.txt",
    "intervals.txt",
];

fn main(rt: HostRuntime) -> ExitCode {
    let mut is_fine = true;
    for name in FILES {
        is_fine &= compare(&rt, name);
    }
    is_fine &= call_functions(&rt);
    if is_fine {
        ExitCode::SUCCESS
    } else {
        ExitCode::FAILURE
    }
}

// Compares the cases of a file, and prints what came of them.
fn compare(rt: &HostRuntime, name: &str) -> bool {
    let mut tally = Tally::new(rt.alloc(), name);
    match fs::read_to_string(rt, name) {
        Ok(text) => run(rt.alloc(), name, &text, &mut tally),
        Err(_) => tally.case(0, "a file", "not read"),
    }
    said(rt, &mut tally)
}

// Compares what the functions answer that no line of a file can call.
fn call_functions(rt: &HostRuntime) -> bool {
    let mut tally = Tally::new(rt.alloc(), "functions");
    functions::run(rt, &mut tally);
    said(rt, &mut tally)
}

// Prints what came of some cases; whether none differs.
fn said(rt: &HostRuntime, tally: &mut Tally<'_>) -> bool {
    tally.end();
    print!(rt; "{}", tally.text.as_str()).is_ok() && tally.is_fine()
}

// Compares the cases of a file.
fn run(alloc: Global, name: &str, text: &str, tally: &mut Tally<'_>) {
    match name {
        "recovery.txt" => recovery::run(alloc, text, By::Call, tally),
        "plain.txt" => {
            recovery::run(alloc, text, By::Plain, tally);
            recovery::run(alloc, text, By::Call, tally);
        }
        "stops.txt" => stops::run(alloc, text, tally),
        "hostile.txt" => hostile::run(alloc, text, tally),
        "calls.txt" | "batches.txt" | "iterations.txt" | "freeing.txt" | "marked.txt" => {
            if let Err(Fault(why)) = calls::run(alloc, text, tally) {
                tally.case(0, "lines", why);
            }
        }
        "slog.txt" | "runs.txt" | "reuse.txt" => scripts::run(alloc, text, tally),
        "accountant.txt" | "accountant_blobs.txt" | "accountant_start.txt" => {
            accountant::run(alloc, text, tally)
        }
        "intervals.txt" => intervals::run(alloc, text, tally),
        _ => run_lines(alloc, name, text, tally),
    }
}

// Compares the lines `ASKED -> WANTED` of a file.
fn run_lines(alloc: Global, name: &str, text: &str, tally: &mut Tally<'_>) {
    for (number, line) in text.lines().enumerate() {
        if let Some((asked, wanted)) = asked_and_wanted(line) {
            let came = answer_of(alloc, name, asked);
            tally.case(number.wrapping_add(1), wanted, came.as_str());
        }
    }
}

// What came of a line of a file.
fn answer_of(alloc: Global, name: &str, asked: &str) -> Text {
    let mut out = Text::new(alloc);
    if name == "codecs.txt" {
        codecs::answer(alloc, asked, &mut out);
        return out;
    }
    let mut words = Words::new(asked);
    match name {
        "words.txt" => words::answer(&mut words, &mut out),
        "own.txt" => own::answer(alloc, &mut words, &mut out),
        _ => segment_headers::answer(alloc, &mut words, &mut out),
    }
    if let Err(Fault(why)) = words.end() {
        out.push(why);
    }
    out
}
