//! Standard output, and how its failures are told.

use anyhow::{Error, Result, anyhow};
use std::io::{self, ErrorKind};

/// The answer of what prints, whose error names standard output.
pub(crate) fn printed(answer: io::Result<()>) -> Result<()> {
    match answer {
        Ok(()) => Ok(()),
        Err(error) => Err(output_error(error)),
    }
}

/// The error of what prints, by the name of standard output, unless memory was refused.
pub(crate) fn output_error(error: io::Error) -> Error {
    match error.kind() {
        ErrorKind::OutOfMemory => anyhow!("out of memory"),
        _ => Error::from(error).context("standard output"),
    }
}
