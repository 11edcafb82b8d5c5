//! The trace of a device in memory. It stands in proofs alone: a `GhostTrace` has no bytes, so that no call
//! wants memory for its event.
//!
//! What ties a story to the device are the clauses of the trait, which name each event, and the ghost
//! fields of the device, which compare what the events make with what is kept. The two functions here
//! have the only proofs by hand over a `GhostTrace`. Another could set it to anything, so there is none.
ghost use Rattle.std.specs.Prelude.{◌≡◌, [], ◌∷◌};
ghost use Rattle.std.specs.Borrow.{ftrue};
ghost use Rattle.sled_store.specs.Device.{Trace};

use crate::Offer;
use std::marker::Model;

/// What was asked of a device so far, the newest first.
#[derive(Drop)]
pub struct GhostTrace {
    pub(crate) ghost events: { Trace },
}

impl Model for GhostTrace {
    ghost also_owns = { λ _. ftrue };
}

// An event, as it is told to a story.
#[derive(Clone, Copy, Drop)]
pub(crate) enum Note<'a> {
    Wrote {
        at: u64,
        asked: &'a [u8],
        now: &'a [u8],
    },
    Cut {
        asked: u64,
        now: u64,
    },
    Synced,
    BlobMade {
        place: i64,
        asked: &'a [u8],
        now: &'a [u8],
        done: bool,
    },
    BlobSynced {
        place: i64,
    },
    BlobRemoved {
        place: i64,
        done: bool,
    },
    SnapshotFilled {
        asked: &'a [u8],
        now: &'a [u8],
    },
    SnapshotPublished {
        number: i64,
        done: bool,
    },
    SnapshotRemoved {
        number: i64,
        done: bool,
    },
    NamesSynced,
    StopAsked {
        n: u64,
    },
    CrashedOld {
        patch: &'a [(u64, u8)],
    },
    CrashedNew {
        patch: &'a [(u64, u8)],
    },
    CrashedWith {
        offer: &'a Offer,
    },
}

impl GhostTrace {
    ghost use Rattle.sled_store.specs.inside.Noted.{event_of};

    // Nothing was asked yet.
    pub(crate) fn new() -> GhostTrace
        ensures { result.events ≡ [] }
    {
        GhostTrace {}
    }

    // This was asked, and before it what was asked so far.
    pub(crate) fn then(&self, _note: &Note<'_>) -> GhostTrace
        ensures { result.events ≡ event_of _note.now ∷ self.now.events }
    {
        GhostTrace {}
    }
}
