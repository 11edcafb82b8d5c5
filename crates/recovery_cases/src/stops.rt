//! Recoveries that are stopped within a call, and again within the one that follows: whatever the crashes leave, the
//! last answer is that of a recovery without stops.
//!
//! The cases have the format of `recovery.txt` (`recovery.rt`). Their answers aren't read: what counts is what the
//! recovery without stops answers.

use crate::recovery::{Content, device_of, line_of, table_of};
use case_lines::devices::log_of;
use case_lines::lines::{Fault, Outcome};
use case_lines::tally::Tally;
use case_lines::texts::Text;
use sled_log::config::{Config, RunningConfig};
use sled_log::device::{Choice, CrashDevice, MemDevice, PlaceSum};
use sled_log::snapshot::read_snapshot_or_default;
use std::alloc::Global;
use std::mem;

/// The most calls of a recovery that are stopped, one by one. A case with more of them is too long.
const CALLS: u64 = 64;

/// What a crash leaves of the log file behind a stop. Names are those that were settled, or those that were last written.
#[derive(Debug, Clone, Copy, PartialEq)]
enum Tear {
    /// What was settled.
    Settled,
    /// What was last written.
    Written,
    /// What was last written, but that of the bytes that differ the first ones are as settled, so many in a hundred.
    SettledFirst(usize),
    /// The same of the last ones.
    SettledLast(usize),
}

/// What is tried behind the first stop.
const TEARS: [Tear; 4] = [
    Tear::Settled,
    Tear::Written,
    Tear::SettledFirst(60),
    Tear::SettledLast(60),
];

/// What is tried behind the second one, which comes where the first left what was settled.
const LATER_TEARS: [Tear; 2] = [Tear::Settled, Tear::Written];

/// A stop within a call, counted from 0, and what the crash leaves of it: what was settled, or what was last written with
/// these bytes at these offsets.
#[derive(Drop)]
struct Stop {
    call: u64,
    written: Option<Vec<(u64, u8)>>,
}

/// Runs the cases of a file.
pub fn run(alloc: Global, text: &str, tally: &mut Tally<'_>) {
    let mut content = Content::new(alloc);
    for (number, line) in text.lines().enumerate() {
        content.line(line);
        if line == "end" {
            let came = answer_of(alloc, &content);
            tally.case(number.wrapping_add(1), "the same", came.as_str());
        }
    }
}

// What came of a case.
fn answer_of(alloc: Global, content: &Content<'_>) -> Text {
    match judge(alloc, content) {
        Ok(text) => text,
        Err(Fault(why)) => line_of(alloc, why),
    }
}

// Whether all answers of a case are the same, or one that isn't.
fn judge(alloc: Global, content: &Content<'_>) -> Outcome<Text> {
    let content = content.lines()?;
    let (size, _) = device_of(alloc, content)?;
    let Some(config) = Config::new(size) else {
        return Err(Fault("no size of segments"));
    };
    let case = Case {
        alloc,
        config,
        content,
    };
    let wanted = case.answer(&[])?;
    for call in 0..CALLS {
        if !case.comes_about(&[], call)? {
            return Ok(line_of(alloc, "the same"));
        }
        for tear in TEARS {
            let first = case.stop(&[], call, tear)?;
            let came = case.answer(&[&first])?;
            if came.as_str() != wanted.as_str() {
                return Ok(came);
            }
        }
        let settled = case.stop(&[], call, Tear::Settled)?;
        if let Some(differs) = case.compare_behind(&settled, &wanted)? {
            return Ok(differs);
        }
    }
    Err(Fault("too many calls"))
}

// A device that is recovered, as the lines of a case say what is on it.
#[derive(Clone, Copy)]
struct Case<'a> {
    alloc: Global,
    config: Config,
    content: &'a [&'a str],
}

impl<'a> Case<'a> {
    // An answer that isn't the one that is wanted, behind this stop and a later one.
    fn compare_behind(&self, first: &Stop, wanted: &Text) -> Outcome<Option<Text>> {
        for call in 0..CALLS {
            if !self.comes_about(&[first], call)? {
                return Ok(None);
            }
            for tear in LATER_TEARS {
                let second = self.stop(&[first], call, tear)?;
                let came = self.answer(&[first, &second])?;
                if came.as_str() != wanted.as_str() {
                    return Ok(Some(came));
                }
            }
        }
        Err(Fault("too many calls"))
    }

    // What a recovery answers behind these stops.
    fn answer(&self, stops: &[&Stop]) -> Outcome<Text> {
        let device = self.device(stops)?;
        let mut config = RunningConfig::new(self.alloc, self.config, device, PlaceSum);
        table_of(self.alloc, &read_snapshot_or_default(&mut config))
    }

    // Whether a recovery behind these stops makes so many calls and one more.
    fn comes_about(&self, stops: &[&Stop], call: u64) -> Outcome<bool> {
        let mut device = self.device(stops)?;
        device.stop_after(call);
        Ok(self.recovered(device).stopped())
    }

    // A stop behind these ones.
    fn stop(&self, stops: &[&Stop], call: u64, tear: Tear) -> Outcome<Stop> {
        let written = match tear {
            Tear::Settled => None,
            Tear::Written => Some(Vec::new(self.alloc)),
            Tear::SettledFirst(share) => Some(self.patch(stops, call, share, true)?),
            Tear::SettledLast(share) => Some(self.patch(stops, call, share, false)?),
        };
        Ok(Stop { call, written })
    }

    // Of the bytes that this stop would leave as written the first or last ones, so many in a hundred, as settled.
    fn patch(
        &self,
        stops: &[&Stop],
        call: u64,
        share: usize,
        is_first: bool,
    ) -> Outcome<Vec<(u64, u8)>> {
        let settled = self.log(stops, call, Choice::Old(Vec::new(self.alloc)))?;
        let written = self.log(stops, call, Choice::New(Vec::new(self.alloc)))?;
        let mut differ = Vec::new(self.alloc);
        for (at, (old, new)) in settled.iter().zip(written.iter()).enumerate() {
            if old != new {
                differ.push((at as u64, *old))?;
            }
        }
        if !is_first {
            differ.reverse();
        }
        let count = differ.len().saturating_mul(share).div_ceil(100);
        differ.truncate(count);
        Ok(differ)
    }

    // The log file that this choice leaves behind a stop.
    fn log(&self, stops: &[&Stop], call: u64, choice: Choice) -> Outcome<Vec<u8>> {
        let mut device = self.device(stops)?;
        device.stop_after(call);
        let mut device = self.recovered(device);
        let _ = device.crash(choice);
        match log_of(self.alloc, &mut device) {
            Ok(bytes) => Ok(bytes),
            Err(_) => Err(Fault("the log isn't read")),
        }
    }

    // The device behind these stops.
    fn device(&self, stops: &[&Stop]) -> Outcome<MemDevice> {
        let (_, mut device) = device_of(self.alloc, self.content)?;
        for stop in stops {
            device.stop_after(stop.call);
            device = self.recovered(device);
            let choice = stop.choice(self.alloc)?;
            let _ = device.crash(choice);
        }
        Ok(device)
    }

    // A device that was recovered, whatever that answered.
    fn recovered(&self, device: MemDevice) -> MemDevice {
        let mut config = RunningConfig::new(self.alloc, self.config, device, PlaceSum);
        let _ = read_snapshot_or_default(&mut config);
        mem::replace(&mut config.device, MemDevice::new(self.alloc))
    }
}

impl Stop {
    // What is asked of the crash.
    fn choice(&self, alloc: Global) -> Outcome<Choice> {
        let mut patch = Vec::new(alloc);
        match &self.written {
            Some(written) => {
                patch.extend_from_slice(written)?;
                Ok(Choice::New(patch))
            }
            None => Ok(Choice::Old(patch)),
        }
    }
}
