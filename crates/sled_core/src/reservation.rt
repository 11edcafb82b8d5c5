//! Tickets: what a caller holds for a place that is kept for it, and for a pin. Neither can be dropped,
//! so each is handed back to the log that made it, or abandoned on purpose.

use sled_codec::result::{BlobPointer, DiskPtr, Lsn};

/// A place in the log that is kept for a message. It is spent by `Log::complete`, by `Log::abort` or by `abandon`.
pub struct Reservation {
    // Where the record begins.
    lsn: Lsn,
    pointer: DiskPtr,
    // Which reservation of its buffer it is.
    index: usize,
    // How long the record is.
    len: usize,
    // Whether it is of the manifest of a batch.
    is_manifest: bool,
    // The blob that this reservation made for its item. That of a rewritten pointer was made by another one.
    pub(crate) own_blob: Option<BlobPointer>,
}

impl Reservation {
    ghost use Rattle.std.specs.Prelude.{◌≡◌, None};
    ghost use Rattle.sled_core.specs.Tickets.{place_of, pointer_of, index_of, len_of, is_manifest_of, own_blob};

    /// One that made no blob.
    #[inline(always)]
    pub(crate) fn new(
        lsn: Lsn,
        pointer: DiskPtr,
        index: usize,
        len: usize,
        is_manifest: bool,
    ) -> Reservation
        ensures place { place_of result ≡ lsn }
        ensures pointer { pointer_of result ≡ pointer }
        ensures index { index_of result ≡ index }
        ensures len { len_of result ≡ len }
        ensures manifest { is_manifest_of result ≡ is_manifest }
        ensures own { own_blob result ≡ None }
    {
        Reservation {
            lsn,
            pointer,
            index,
            len,
            is_manifest,
            own_blob: None,
        }
    }

    /// Returns where the record begins in the log.
    pub fn lsn(&self) -> Lsn
        ensures { result ≡ place_of self.now }
    {
        self.lsn
    }

    /// Returns where the message lies on the disk.
    pub fn pointer(&self) -> DiskPtr
        ensures { result ≡ pointer_of self.now }
    {
        self.pointer
    }

    /// Returns how many bytes the record has in the log, its header counted.
    pub fn reservation_len(&self) -> usize
        ensures { result ≡ len_of self.now }
    {
        self.len
    }

    /// Whether the message is the manifest of a batch.
    pub fn is_manifest(&self) -> bool
        ensures { result ≡ is_manifest_of self.now }
    {
        self.is_manifest
    }

    pub(crate) fn index(&self) -> usize
        ensures { result ≡ index_of self.now }
    {
        self.index
    }

    /// Gives the ticket up. Its reservation stays open for the life of the log, and holds up the
    /// buffer that it is in.
    pub fn abandon(self) {
        let Reservation {
            lsn: _,
            pointer: _,
            index: _,
            len: _,
            is_manifest: _,
            own_blob: _,
        } = self;
    }
}

/// A pin: while it is out, no segment that a reader may look at is used again. It is spent by
/// `Log::unpin` or by `abandon`.
pub struct Guard {
    unit: (),
}

impl Guard {
    pub(crate) fn new() -> Guard {
        Guard { unit: () }
    }

    /// Gives the guard up. Its pin stays out for the life of the log.
    pub fn abandon(self) {
        let Guard { unit: _ } = self;
    }
}
