//! Calls of the library with what each answers, a line a call (`data/README.md` has the language).
//!
//! This module reads the lines: names for bytes, loops, parts, and commands that are kept for the next run. `world` makes the
//! calls.

use crate::runs::{Told, command};
use crate::world::World;
use case_lines::answer::Answer;
use case_lines::lines::{Fault, Outcome, bytes, number};
use case_lines::tally::Tally;
use case_lines::texts::Text;
use std::alloc::Global;
use std::collections::BTreeMap;
use std::mem;

/// Runs the cases of a file.
///
/// # Errors
///
/// The fault, where memory for the lines is refused.
pub fn run(alloc: Global, text: &str, tally: &mut Tally<'_>) -> Outcome<()> {
    let lines: Vec<&str> = text.lines().collect(alloc)?;
    let mut world = World::new(alloc);
    let mut script = Script::new(alloc);
    run_all(&lines, &mut script, &mut world, tally);
    world.close();
    Ok(())
}

// Runs one line after another, up to the last one.
fn run_all(lines: &[&str], script: &mut Script, world: &mut World, tally: &mut Tally<'_>) {
    for _ in 0..u64::MAX {
        let Some(line) = lines.get(script.at).copied() else {
            break;
        };
        script.at = script.at.wrapping_add(1);
        let number = script.at;
        if let Err(Fault(why)) = script.run(line, world, tally) {
            tally.case(number, line, why);
        }
    }
    if !script.is_ended() {
        let why = "an open loop or part, or commands that were not run";
        tally.case(script.at, "the end", why);
    }
}

// A loop: the lines behind its first one are run once with each of these words.
#[derive(Drop)]
struct Loop {
    name: String,
    // The words to come, the next one last.
    coming: Vec<String>,
    word: String,
    // The line behind its first one.
    begin: usize,
}

// Where a file is being read.
#[derive(Drop)]
struct Script {
    alloc: Global,
    // The line that is read next, counted from 0.
    at: usize,
    // The loops that are open, the inner one last.
    loops: Vec<Loop>,
    // The line behind the first one of each part, by its name.
    parts: BTreeMap<String, usize>,
    // Where it goes on behind the parts that are being run, the inner one last.
    callers: Vec<usize>,
    // Whether the lines of a part are passed over.
    is_part: bool,
    // Bytes by their names, as digits.
    names: BTreeMap<String, String>,
    // The commands of the next run.
    told: Vec<Told>,
}

impl Script {
    fn new(alloc: Global) -> Script {
        Script {
            alloc,
            at: 0,
            loops: Vec::new(alloc),
            parts: BTreeMap::new(alloc),
            callers: Vec::new(alloc),
            is_part: false,
            names: BTreeMap::new(alloc),
            told: Vec::new(alloc),
        }
    }

    // Whether no loop and no part is open, and no command waits for its run.
    fn is_ended(&self) -> bool {
        self.loops.is_empty() && self.callers.is_empty() && self.told.is_empty() && !self.is_part
    }

    // Runs a line.
    fn run(&mut self, line: &str, world: &mut World, tally: &mut Tally<'_>) -> Outcome<()> {
        let line = line.trim();
        if self.is_part {
            self.is_part = line != "end";
            return Ok(());
        }
        if line.is_empty() || line.starts_with('#') {
            return Ok(());
        }
        let line = self.with_words(line)?;
        let line = line.as_str();
        match line.split_once(' ') {
            Some(("for", text)) => self.begin(text),
            Some(("part", name)) => self.part(name),
            Some(("do", name)) => self.go(name),
            None if line == "next" => self.next_round(),
            None if line == "end" => self.go_back(),
            _ => {
                let line = self.with_bytes(line)?;
                self.run_call(line.as_str(), world, tally)
            }
        }
    }

    // Runs a line that stands for no other one.
    fn run_call(&mut self, line: &str, world: &mut World, tally: &mut Tally<'_>) -> Outcome<()> {
        if let Some(named) = line.strip_prefix("name ") {
            return self.name(named);
        }
        let (asked, wanted) = match line.split_once(" = ") {
            Some((asked, wanted)) => (asked, Some(wanted)),
            None => (line, None),
        };
        if let Some(told) = asked.strip_prefix(": ") {
            return self.tell(told, wanted.unwrap_or(""));
        }
        if asked == "run" {
            let told = mem::replace(&mut self.told, Vec::new(self.alloc));
            return world.run(told, tally);
        }
        let mut out = Answer::new(self.alloc);
        world.call(asked, &mut out)?;
        self.compare(wanted, &out, tally);
        Ok(())
    }

    // Compares what a call answered. A call with nothing behind it must not answer an error.
    fn compare(&self, wanted: Option<&str>, came: &Answer, tally: &mut Tally<'_>) {
        match wanted {
            Some(wanted) => tally.case(self.at, wanted, came.text.as_str()),
            None if came.is_error => tally.case(self.at, "no error", came.text.as_str()),
            None => tally.count(false),
        }
    }

    // Keeps a command for the next run.
    fn tell(&mut self, told: &str, wanted: &str) -> Outcome<()> {
        let told = Told {
            line: self.at,
            command: command(self.alloc, told)?,
            wanted: String::from_str(self.alloc, wanted)?,
        };
        self.told.push(told)?;
        Ok(())
    }

    // Gives bytes a name.
    fn name(&mut self, named: &str) -> Outcome<()> {
        let Some((name, bytes)) = named.split_once(' ') else {
            return Err(Fault("a name and bytes"));
        };
        let name = String::from_str(self.alloc, name)?;
        let bytes = String::from_str(self.alloc, bytes)?;
        self.names.insert(name, bytes)?;
        Ok(())
    }

    // Names the lines up to the next `end`, and passes over them.
    fn part(&mut self, name: &str) -> Outcome<()> {
        let name = String::from_str(self.alloc, name)?;
        self.parts.insert(name, self.at)?;
        self.is_part = true;
        Ok(())
    }

    // Goes to the lines of this name.
    fn go(&mut self, name: &str) -> Outcome<()> {
        let Some(at) = self.parts.get(name).copied() else {
            return Err(Fault("no part has this name"));
        };
        self.callers.push(self.at)?;
        self.at = at;
        Ok(())
    }

    // Goes on behind the line that went to a part.
    fn go_back(&mut self) -> Outcome<()> {
        let Some(at) = self.callers.pop() else {
            return Err(Fault("no part is being run"));
        };
        self.at = at;
        Ok(())
    }

    // Begins a loop: `NAME in WORD ..`, where a word `A..B` stands for the numbers from A up to the one before B.
    fn begin(&mut self, text: &str) -> Outcome<()> {
        let Some((name, text)) = text.split_once(" in ") else {
            return Err(Fault("a loop is over words"));
        };
        let mut coming = self.words_of(text)?;
        let Some(word) = coming.pop() else {
            return Err(Fault("a loop is over words"));
        };
        let begin = self.at;
        self.loops.push(Loop {
            name: String::from_str(self.alloc, name)?,
            coming,
            word,
            begin,
        })?;
        Ok(())
    }

    // The words of a loop, the first one last.
    fn words_of(&self, text: &str) -> Outcome<Vec<String>> {
        let mut words = Vec::new(self.alloc);
        for word in text.split(' ') {
            match word.split_once("..") {
                Some((from, to)) => self.push_numbers(&mut words, from, to)?,
                None => words.push(String::from_str(self.alloc, word)?)?,
            }
        }
        words.reverse();
        Ok(words)
    }

    // Adds the numbers from one up to the one before another.
    fn push_numbers(&self, words: &mut Vec<String>, from: &str, to: &str) -> Outcome<()> {
        for n in known(number(from))?..known(number(to))? {
            words.push(format!(in self.alloc; "{n}")?)?;
        }
        Ok(())
    }

    // Goes to the next round of the inner loop, or on behind it.
    fn next_round(&mut self) -> Outcome<()> {
        let Some(last) = self.loops.last_mut() else {
            return Err(Fault("no loop is open"));
        };
        match last.coming.pop() {
            Some(word) => {
                last.word = word;
                self.at = last.begin;
            }
            None => {
                let _ = self.loops.pop();
            }
        }
        Ok(())
    }

    // The line with the word of a loop in place of each `{NAME}`.
    fn with_words(&self, line: &str) -> Outcome<Text> {
        let mut out = Text::new(self.alloc);
        for (i, part) in line.split('{').enumerate() {
            if i == 0 {
                out.push(part);
            } else {
                self.push_word(&mut out, part)?;
            }
        }
        Ok(out)
    }

    // Adds what stands behind a brace: the word of a loop, and then what stands behind its name.
    fn push_word(&self, out: &mut Text, part: &str) -> Outcome<()> {
        let Some((name, behind)) = part.split_once('}') else {
            return Err(Fault("the name of a loop ends with a brace"));
        };
        out.push(self.word_of(name)?);
        out.push(behind);
        Ok(())
    }

    // The word of the loop of this name.
    fn word_of(&self, name: &str) -> Outcome<&str> {
        for one in self.loops.iter().rev() {
            if one.name.as_str() == name {
                return Ok(one.word.as_str());
            }
        }
        Err(Fault("no loop of this name is open"))
    }

    // The line with digits in place of the words that stand for bytes.
    fn with_bytes(&self, line: &str) -> Outcome<Text> {
        let mut out = Text::new(self.alloc);
        for (i, word) in line.split(' ').enumerate() {
            if i > 0 {
                out.push(" ");
            }
            if word.contains(['$', '*', '+', '!', '/']) {
                self.push_bytes(&mut out, word)?;
            } else {
                out.push(word);
            }
        }
        Ok(out)
    }

    // Adds the digits of a word: parts with `+` between them.
    fn push_bytes(&self, out: &mut Text, word: &str) -> Outcome<()> {
        for part in word.split('+') {
            self.push_part(out, part)?;
        }
        Ok(())
    }

    // Adds the digits of a part: bytes, `*N` times, or the first N by `/N`, or with byte N one greater by `!N`.
    fn push_part(&self, out: &mut Text, part: &str) -> Outcome<()> {
        if let Some((bytes, times)) = part.split_once('*') {
            return self.push_often(out, bytes, times);
        }
        if let Some((bytes, len)) = part.split_once('/') {
            return push_front(out, self.digits(bytes)?, known(number(len))?);
        }
        if let Some((bytes, at)) = part.split_once('!') {
            return push_raised(self.alloc, out, self.digits(bytes)?, known(number(at))?);
        }
        out.push(self.digits(part)?);
        Ok(())
    }

    // Adds the digits of bytes so many times.
    fn push_often(&self, out: &mut Text, bytes: &str, times: &str) -> Outcome<()> {
        let digits = self.digits(bytes)?;
        for _ in 0..known(number(times))? {
            out.push(digits);
        }
        Ok(())
    }

    // The digits of bytes, or of the bytes of a name.
    fn digits<'a>(&'a self, bytes: &'a str) -> Outcome<&'a str> {
        match bytes.strip_prefix('$') {
            Some(name) => match self.names.get(name) {
                Some(digits) => Ok(digits.as_str()),
                None => Err(Fault("no bytes have this name")),
            },
            None => Ok(bytes),
        }
    }
}

// A value, which has to be there.
fn known<T>(value: Option<T>) -> Outcome<T> {
    value.ok_or(Fault("this is no number"))
}

// Adds the digits of the first bytes; a dash where that are none.
fn push_front(out: &mut Text, digits: &str, len: u64) -> Outcome<()> {
    if len == 0 {
        out.push("-");
        return Ok(());
    }
    match digits.split_at_checked(len.saturating_mul(2) as usize) {
        Some((front, _)) => out.push(front),
        None => return Err(Fault("there are fewer bytes")),
    }
    Ok(())
}

// Adds digits, where the byte of this index is one greater, modulo 256.
fn push_raised(alloc: Global, out: &mut Text, digits: &str, at: u64) -> Outcome<()> {
    match parted(digits, at.saturating_mul(2) as usize) {
        Some((front, byte, behind)) => {
            out.push(front);
            out.hex(&[raised(alloc, byte)]);
            out.push(behind);
            Ok(())
        }
        None => Err(Fault("there are fewer bytes")),
    }
}

// Two digits at an index, what stands before them and what stands behind them.
fn parted(digits: &str, at: usize) -> Option<(&str, &str, &str)> {
    let (front, behind) = digits.split_at_checked(at)?;
    let (byte, behind) = behind.split_at_checked(2)?;
    Some((front, byte, behind))
}

// The byte of two digits, one greater.
fn raised(alloc: Global, digits: &str) -> u8 {
    match bytes(alloc, digits) {
        Some(bytes) => bytes.first().copied().unwrap_or(0).wrapping_add(1),
        None => 0,
    }
}
