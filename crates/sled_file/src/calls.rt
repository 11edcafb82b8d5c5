//! What was asked of the files of a folder. It stands in proofs alone: a `GhostCalls` has no bytes.
//!
//! The two functions here have the only proofs by hand over a `GhostCalls`. Another could set it to anything, so
//! there is none. That a note is true is not proved: who reads `host.rt` sees that each call is made that is noted.
ghost use Rattle.std.specs.Prelude.{◌≡◌, List, [], ◌∷◌};
ghost use Rattle.std.specs.Borrow.{ftrue};
ghost use Rattle.sled_file.specs.CallRecords.{Call};

use crate::mirror::Mirror;
use std::marker::Model;

/// The calls on the files of a folder so far, the newest first.
#[derive(Drop)]
pub struct GhostCalls {
    pub(crate) ghost made: { List Call },
}

impl Model for GhostCalls {
    ghost also_owns = { λ _. ftrue };
}

// What a call on the files is to do.
#[derive(Clone, Copy, Drop)]
pub(crate) enum Asked<'a> {
    // The folder was opened, and this was found in it.
    Opened { found: &'a Mirror },
    Wrote { at: u64, bytes: &'a [u8] },
    Cut { len: u64 },
    Synced,
    BlobMade { place: i64, bytes: &'a [u8] },
    BlobSynced { place: i64 },
    BlobRemoved { place: i64 },
    SnapshotFilled { bytes: &'a [u8] },
    SnapshotPublished { number: i64 },
    SnapshotRemoved { number: i64 },
    NamesSynced,
}

// A call on the files, and whether it answered Ok.
#[derive(Clone, Copy, Drop)]
pub(crate) struct Note<'a> {
    pub(crate) asked: Asked<'a>,
    pub(crate) succeeded: bool,
}

impl GhostCalls {
    ghost use Rattle.sled_file.specs.Calls.{call_of};

    // No call was made yet.
    pub(crate) fn new() -> GhostCalls
        ensures { result.made ≡ [] }
    {
        GhostCalls {}
    }

    // This call was made, and before it those that were made so far.
    pub(crate) fn then(&self, _note: &Note<'_>) -> GhostCalls
        ensures { result.made ≡ call_of _note.now ∷ self.now.made }
    {
        GhostCalls {}
    }
}
