//! The program `slog`: it reads lines from standard input, runs them on a log over a device in memory,
//! and prints a line for each (`docs/SLOG.md`).
#![tactic(auto)]

ghost use Rattle.std.specs.Prelude.{◌≤◌};

use slog_lines::run_lines;
use std::io::{self, BufReader, BufWriter};
use std::process::ExitCode;

fn main(rt: HostRuntime) -> ExitCode {
    ExitCode::from(run_standard(&rt))
}

// Runs the lines of standard input, and prints on standard output.
fn run_standard(rt: &HostRuntime) -> u8
    ensures { result ≤ 2 }
{
    let alloc = rt.alloc();
    let Ok(reader) = BufReader::new(alloc, rt.reader()) else {
        return 1;
    };
    let Ok(writer) = BufWriter::new(alloc, io::writer(rt)) else {
        return 1;
    };
    run_lines(alloc, reader, writer)
}
