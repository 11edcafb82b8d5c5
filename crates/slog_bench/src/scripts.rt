//! Scripts of the program `slog`: lines of input, what is printed and the exit status (`data/README.md`).

use case_lines::lines::{bytes, number};
use case_lines::tally::Tally;
use case_lines::texts::Text;
use slog_lines::run_lines;
use std::alloc::Global;

/// Runs the cases of a file.
pub fn run(alloc: Global, text: &str, tally: &mut Tally<'_>) {
    let mut script = Script::new(alloc);
    for (at, line) in text.lines().enumerate() {
        match line.split_once(' ') {
            Some(("status", status)) => {
                script.run(alloc, status, at.wrapping_add(1), tally);
                script = Script::new(alloc);
            }
            _ => script.take(alloc, line),
        }
    }
}

// The input of a script, and what it is to print.
#[derive(Drop)]
struct Script {
    input: Vec<u8>,
    wanted: Text,
    // Whether each line was taken.
    is_whole: bool,
}

impl Script {
    fn new(alloc: Global) -> Script {
        Script {
            input: Vec::new(alloc),
            wanted: Text::new(alloc),
            is_whole: true,
        }
    }

    // Takes a line: of the input behind `>`, a last one without line feed behind `>>`, bytes behind `hex`; any other is to be printed.
    fn take(&mut self, alloc: Global, line: &str) {
        if line.is_empty() || line.starts_with('#') {
            return;
        }
        match line.split_once(' ') {
            Some((">", input)) => self.feed_line(input),
            Some((">>", input)) => self.feed(input.as_bytes()),
            Some(("hex", digits)) => self.feed_digits(alloc, digits),
            _ => self.want(line),
        }
    }

    fn feed_line(&mut self, line: &str) {
        self.feed(line.as_bytes());
        self.feed(b"\n");
    }

    fn feed_digits(&mut self, alloc: Global, digits: &str) {
        match bytes(alloc, digits) {
            Some(bytes) => self.feed(&bytes),
            None => self.is_whole = false,
        }
    }

    fn feed(&mut self, bytes: &[u8]) {
        let is_fed = self.input.extend_from_slice(bytes).is_ok();
        self.is_whole &= is_fed;
    }

    fn want(&mut self, line: &str) {
        self.wanted.push(line);
        self.wanted.push("\n");
    }

    // Runs the script, and compares what it prints and its exit status.
    fn run(&self, alloc: Global, status: &str, at: usize, tally: &mut Tally<'_>) {
        let mut printed = Vec::new(alloc);
        let ended = run_lines(alloc, self.input.as_slice(), &mut printed);
        let came = str::from_utf8(&printed).unwrap_or("no text");
        let is_ended = self.is_whole && number(status) == Some(u64::from(ended));
        if is_ended {
            tally.case(at, self.wanted.as_str(), came);
        } else {
            tally.case(at, status, "another status");
        }
    }
}
