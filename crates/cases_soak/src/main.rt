//! The program `cases_soak N SEED`: random sessions beside a slow reference (`reference`), which judges each reply, until N
//! recoveries were made. It prints what it did in numbers; where a reply is wrong, the smallest script that fails, and ends
//! with status 1.
#![tactic(auto)]

mod chance;
mod counts;
mod ledger;
mod maker;
mod reference;
mod run;
mod script;
mod shrink;
mod soak;
mod watched;

use case_lines::texts::Text;
use counts::Counts;
use reference::wrong::Wrong;
use slog_lines::text::print;
use soak::{Found, soak};
use std::process::ExitCode;
use std::{env, io};

fn main(rt: HostRuntime) -> io::Result<ExitCode> {
    let Some((recoveries, seed)) = arguments(&rt)? else {
        println!(rt; "cases_soak: pass how many recoveries, and a seed")?;
        return Ok(ExitCode::from(2));
    };
    let mut counts = Counts::new();
    let found = soak(rt.alloc(), recoveries, seed, &mut counts);
    let mut out = Text::new(rt.alloc());
    counts.write(&mut out);
    print!(rt; "{}", out.as_str())?;
    let recoveries = counts.recoveries;
    match found {
        Some(found) => {
            tell(&rt, &found)?;
            println!(rt; "{recoveries} recoveries, 1 wrong")?;
            Ok(ExitCode::FAILURE)
        }
        None => {
            println!(rt; "{recoveries} recoveries, 0 wrong")?;
            Ok(ExitCode::SUCCESS)
        }
    }
}

// The two numbers that the program is passed.
fn arguments(rt: &HostRuntime) -> io::Result<Option<(u64, u64)>> {
    let mut words = env::args(rt)?;
    let _ = words.next();
    let (Some(recoveries), Some(seed)) = (words.next(), words.next()) else {
        return Ok(None);
    };
    match (recoveries.as_str().parse(), seed.as_str().parse()) {
        (Ok(recoveries), Ok(seed)) => Ok(Some((recoveries, seed))),
        _ => Ok(None),
    }
}

// Prints the script that fails, the reply that is wrong, and what was wanted.
fn tell(rt: &HostRuntime, found: &Found) -> io::Result<()> {
    let mut out = Text::new(rt.alloc());
    found.script.write(&mut out);
    print!(rt; "{}reply: ", out.as_str())?;
    match &found.failure.reply {
        Some(reply) => print(rt.alloc(), &mut io::writer(rt), reply)?,
        None => println!(rt; "none")?,
    }
    match found.failure.wrong {
        Wrong::Wanted(what) => println!(rt; "wanted: {what}"),
        Wrong::With(what, number) => println!(rt; "wanted: {what}{number}"),
        Wrong::Refused(why) => println!(rt; "wanted: refused {why:?}"),
        Wrong::Items(page) => println!(rt;
            "wanted: the items of page {page} as they were completed"
        ),
    }
}
