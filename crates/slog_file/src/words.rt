//! Words that several subcommands print.

use sled_log::logger::{DiskPtr, LogKind, LogOffset};
use sled_log::result::Lsn;
use std::fmt;

/// A number, or a dash where there is none.
#[derive(Debug, Clone, Copy)]
pub(crate) struct Optional<T>(pub(crate) Option<T>);

impl<T: fmt::Display> fmt::Display for Optional<T> {
    fn fmt<W: fmt::Write>(&self, f: &mut fmt::Formatter<W>) -> fmt::Result {
        match &self.0 {
            Some(number) => write!(f, "{number}"),
            None => write!(f, "-"),
        }
    }
}

/// Where a record lies, as the lines of `slog` have it: `I:` and its offset, or `B:`, the offset, and the place of its blob.
#[derive(Debug, Clone, Copy)]
pub(crate) struct Pointer(pub(crate) DiskPtr);

impl fmt::Display for Pointer {
    fn fmt<W: fmt::Write>(&self, f: &mut fmt::Formatter<W>) -> fmt::Result {
        match self.0 {
            DiskPtr::Inline(lid) => write!(f, "I:{lid}"),
            DiskPtr::Blob(lid, place) => write!(f, "B:{lid}:{place}"),
        }
    }
}

/// Where the record at an offset lies, which names this blob if any.
pub(crate) fn pointer_of(offset: LogOffset, blob: Option<Lsn>) -> Pointer {
    match blob {
        Some(place) => Pointer(DiskPtr::Blob(offset, place)),
        None => Pointer(DiskPtr::Inline(offset)),
    }
}

/// The word for what a message does.
pub(crate) fn word_of_kind(kind: LogKind) -> &'static str {
    match kind {
        LogKind::Replace => "replace",
        LogKind::Link => "link",
        LogKind::Free => "free",
        LogKind::Skip => "skip",
        LogKind::Corrupted => "corrupted",
    }
}
