//! What came of a call: its text, and whether it is an error.

use crate::texts::{Text, kind_of};
use sled_codec::result::{DiskPtr, Error, Lsn, Result};
use std::alloc::Global;
use std::io;

/// The answer to a call.
#[derive(Drop)]
pub struct Answer {
    /// What the call answered: `ok` where it answers nothing.
    pub text: Text,
    /// Whether it is an error.
    pub is_error: bool,
}

impl Answer {
    /// Nothing was answered yet.
    pub fn new(alloc: Global) -> Answer {
        Answer {
            text: Text::new(alloc),
            is_error: false,
        }
    }

    /// The call answered nothing.
    pub fn ok(&mut self) {
        self.text.push("ok");
    }

    /// The call asks for something that doesn't hold, so it wasn't made.
    pub fn refused(&mut self) {
        self.is_error = true;
        self.text.push("refused");
    }

    /// An error.
    pub fn error(&mut self, e: &Error) {
        self.is_error = true;
        self.text.error(e);
    }

    /// An error of the device.
    pub fn fault(&mut self, e: &io::Error) {
        self.is_error = true;
        self.text.push(kind_of(e));
    }

    /// Names, or a dash for none.
    fn names(&mut self, names: &[i64]) {
        if names.is_empty() {
            self.text.push("-");
        }
        for (i, name) in names.iter().enumerate() {
            if i > 0 {
                self.text.push(" ");
            }
            self.text.signed(*name);
        }
    }

    /// Nothing, or an error of the device.
    pub fn done(&mut self, answer: io::Result<()>) {
        match answer {
            Ok(()) => self.ok(),
            Err(e) => self.fault(&e),
        }
    }

    /// Names, or an error of the device.
    pub fn listed(&mut self, answer: io::Result<Vec<i64>>) {
        match answer {
            Ok(names) => self.names(&names),
            Err(e) => self.fault(&e),
        }
    }

    /// Bytes, or an error of the device.
    pub fn found(&mut self, answer: io::Result<Vec<u8>>) {
        match answer {
            Ok(bytes) => self.text.hex(&bytes),
            Err(e) => self.fault(&e),
        }
    }

    /// A number, or an error of the device.
    pub fn counted(&mut self, answer: io::Result<u64>) {
        match answer {
            Ok(n) => self.text.number(n),
            Err(e) => self.fault(&e),
        }
    }

    /// A place and a pointer, or an error.
    pub fn placed(&mut self, answer: Result<(Lsn, DiskPtr)>) {
        match answer {
            Ok((place, at)) => self.text.spot(place, at),
            Err(e) => self.error(&e),
        }
    }
}
