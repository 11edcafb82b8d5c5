//! What came of the cases of a file: how many there were, and each one that differs.

use crate::texts::Text;
use std::alloc::Global;

/// The cases of a file so far.
#[derive(Drop)]
pub struct Tally<'a> {
    name: &'a str,
    cases: u64,
    differ: u64,
    /// A line for each case that differs.
    pub text: Text,
}

impl<'a> Tally<'a> {
    /// No case of a file of this name.
    pub fn new(alloc: Global, name: &'a str) -> Tally<'a> {
        Tally {
            name,
            cases: 0,
            differ: 0,
            text: Text::new(alloc),
        }
    }

    /// Counts a case, and notes it where what came isn't what was wanted.
    pub fn case(&mut self, line: usize, wanted: &str, came: &str) {
        let differs = wanted != came;
        self.count(differs);
        if differs {
            self.note(line, wanted, came);
        }
    }

    /// Counts a case.
    pub fn count(&mut self, differs: bool) {
        self.cases = self.cases.wrapping_add(1);
        if differs {
            self.differ = self.differ.wrapping_add(1);
        }
    }

    /// Adds a line for a case that differs.
    pub fn note(&mut self, line: usize, wanted: &str, came: &str) {
        self.text.push(self.name);
        self.text.push(":");
        self.text.number(line as u64);
        self.text.push(": wanted '");
        self.text.push(wanted);
        self.text.push("', came '");
        self.text.push(came);
        self.text.push("'\n");
    }

    /// Whether each case was as it was wanted.
    pub fn is_fine(&self) -> bool {
        self.differ == 0
    }

    /// Adds the line of the counts.
    pub fn end(&mut self) {
        self.text.push(self.name);
        self.text.push(": ");
        self.text.number(self.cases);
        self.text.push(" cases, ");
        self.text.number(self.differ);
        self.text.push(" differ\n");
    }
}
