//! What a call of the log may answer in place of a value, and where a message lies on the disk.
ghost use Rattle.std.specs.Prelude.{◌≡◌};
ghost use Rattle.std.specs.IoError.{error_kind};
ghost use Rattle.sled_codec.specs.Pointers.{lid_of};
ghost use Rattle.sled_codec.specs.Errors.{variant_of, lid_in, blob_in, text_of, fault_of, place_of};

use std::alloc::{AllocError, AllocFailed};
use std::{fmt, io};
use thiserror::Error;

/// An offset in the log file, in bytes.
pub type LogOffset = u64;

/// The place of a blob: the log sequence number of the message that wrote it.
pub type BlobPointer = i64;

/// A log sequence number: the place of a byte in the log since its beginning. Places that a message
/// can have are not negative, and -1 is the place before the first one.
pub type Lsn = i64;

/// The number of a page.
pub type PageId = u64;

/// A result with the error of this library.
pub type Result<T> = std::result::Result<T, Error>;

/// Where a message lies: its offset in the log file, and for one whose item is a blob the blob's place
/// too (`docs/FORMATS.md`, "Pointers").
#[derive(Debug, Clone, Copy, PartialEq, Eq, PartialOrd, Ord)]
pub enum DiskPtr {
    /// The item stands in the message's record, which begins at this offset.
    Inline(LogOffset),
    /// The record begins at this offset, and the item is the blob of this place.
    Blob(LogOffset, BlobPointer),
}

impl DiskPtr {
    ghost use Rattle.sled_codec.specs.Pointers.{lid_of};

    /// Returns the offset of the record in the log file.
    pub fn lid(&self) -> LogOffset
        ensures { result ≡ lid_of self.now }
    {
        match *self {
            DiskPtr::Inline(lid) => lid,
            DiskPtr::Blob(lid, _) => lid,
        }
    }
}

/// The offset, and behind a colon the place of the blob if there is one: `20`, or `20:7`.
impl fmt::Display for DiskPtr {
    ghost use Rattle.std.specs.Prelude.{Some};
    ghost use Rattle.sled_codec.specs.Pointers.{pointer_text};

    ghost output = { λ pointer. Some (pointer_text pointer) };

    fn fmt<W: fmt::Write>(&self, f: &mut fmt::Formatter<W>) -> fmt::Result {
        match *self {
            DiskPtr::Inline(lid) => write!(f, "{lid}"),
            DiskPtr::Blob(lid, place) => write!(f, "{lid}:{place}"),
        }
    }
}

/// Why a call failed. `docs/PROMISES.md` says for each call which of these it may answer, and what
/// then is unchanged.
#[derive(Debug, Drop, Error)]
pub enum Error {
    /// Bytes that encode nothing, or that this log can't have written. `at` names the blob, where a blob is what is damaged.
    ///
    /// What can be the cause: bytes of the device that changed, or that something else wrote; another size of segments or another
    /// checksum than the device was written with; pages that weren't begun in order, each by a Replace; a snapshot that isn't
    /// of this device; and of a read a place or a pointer that no message has. The calls that answer it say which of these
    /// they mean. It doesn't come of every such cause: most changed bytes end what is read (`docs/DEVICE.md`, "Bit rot").
    #[error("the bytes are damaged: {at:?}")]
    Corruption {
        /// The blob with a wrong checksum, if it is one.
        at: Option<DiskPtr>,
    },
    /// A message of this kind cannot stand under this page. The text is empty.
    #[error("no message of this kind is known: {0}")]
    Unsupported(String),
    /// The device failed.
    #[error("the device failed: {0}")]
    Io(io::Error),
    /// Memory was refused.
    #[error("out of memory")]
    OutOfMemory,
    /// An open or abandoned reservation holds the call up. Its place, the least of these in the buffer.
    #[error("the reservation at {0} holds the call up")]
    Held(Lsn),
    /// Nothing was reserved up to this place.
    #[error("nothing is reserved at {0}")]
    NotReserved(Lsn),
    /// A further segment would pass the greatest place or offset.
    #[error("the places of the log are used up")]
    PlacesUsedUp,
    /// There is no collection of this name. For users: no call of this library answers it.
    #[error("no collection has the name {0:?}")]
    CollectionNotFound(Vec<u8>),
    /// A mistake in the code, to be reported. For users: no call of this library answers it.
    #[error("a bug, please report it: {0}")]
    ReportableBug(String),
}

impl Error {
    // Which variant it is.
    fn variant(&self) -> u8
        ensures { result ≡ variant_of self.now }
    {
        match self {
            Error::Corruption { at: _ } => 1,
            Error::Unsupported(_) => 2,
            Error::Io(_) => 3,
            Error::OutOfMemory => 4,
            Error::Held(_) => 5,
            Error::NotReserved(_) => 6,
            Error::PlacesUsedUp => 7,
            Error::CollectionNotFound(_) => 8,
            Error::ReportableBug(_) => 9,
        }
    }

    // The offset in its pointer, if there is one.
    fn lid(&self) -> Option<LogOffset>
        ensures { result ≡ lid_in self.now }
    {
        match self {
            Error::Corruption { at: Some(at) } => Some(at.lid()),
            _ => None,
        }
    }

    // The blob in its pointer, if there is one.
    fn blob(&self) -> Option<BlobPointer>
        ensures { result ≡ blob_in self.now }
    {
        match self {
            Error::Corruption {
                at: Some(DiskPtr::Blob(_, place)),
            } => Some(*place),
            _ => None,
        }
    }

    // The text or the name in it, if there is one.
    fn text(&self) -> &[u8]
        ensures { result.now ≡ text_of self.now }
    {
        match self {
            Error::Unsupported(text) | Error::ReportableBug(text) => text.as_bytes(),
            Error::CollectionNotFound(name) => name,
            _ => &[],
        }
    }

    // The kind of the device's error in it, if there is one.
    fn fault(&self) -> Option<io::ErrorKind>
        ensures { result ≡ fault_of self.now }
    {
        match self {
            Error::Io(io) => Some(io.kind()),
            _ => None,
        }
    }

    // The place in it, or 0.
    fn place(&self) -> Lsn
        ensures { result ≡ place_of self.now }
    {
        match self {
            Error::Held(place) | Error::NotReserved(place) => *place,
            _ => 0,
        }
    }
}

/// Two errors are equal where their variants and what stands in them are; errors of the device where
/// their kinds are.
impl PartialEq for Error {
    ghost use Rattle.sled_codec.specs.ErrorLaws.{error_eq, error_per};

    ghost eq = { error_eq };

    ghost laws = { error_per };

    fn eq(&self, other: &Error) -> bool {
        self.variant() == other.variant()
            && self.lid() == other.lid()
            && self.blob() == other.blob()
            && self.text() == other.text()
            && self.fault() == other.fault()
            && self.place() == other.place()
    }
}

impl Eq for Error {
    ghost use Rattle.sled_codec.specs.ErrorLaws.{error_equiv};

    ghost laws = { error_equiv };
}

/// Returns a copy in which all is the same, so it is equal.
///
/// # Errors
///
/// `AllocError` where memory was refused for the text or the name in it.
impl Clone for Error {
    ghost use Rattle.sled_codec.specs.ErrorLaws.{SameError};

    ghost is_clone = { SameError };

    fn clone(&self) -> std::result::Result<Error, AllocError> {
        Ok(match self {
            Error::Corruption { at } => Error::Corruption { at: *at },
            Error::Unsupported(text) => Error::Unsupported(text.clone()?),
            Error::Io(io) => Error::Io(io::Error::from(io.kind())),
            Error::OutOfMemory => Error::OutOfMemory,
            Error::Held(place) => Error::Held(*place),
            Error::NotReserved(place) => Error::NotReserved(*place),
            Error::PlacesUsedUp => Error::PlacesUsedUp,
            Error::CollectionNotFound(name) => Error::CollectionNotFound(name.clone()?),
            Error::ReportableBug(text) => Error::ReportableBug(text.clone()?),
        })
    }
}

/// The kind alone: that of the device's error, and for each other error one that fits.
impl From<Error> for io::Error {
    ghost use Rattle.sled_codec.specs.Errors.{io_kind_of};

    ghost from_gives = { λ e io. error_kind io ≡ io_kind_of e };

    fn from(e: Error) -> io::Error {
        io::Error::from(match e {
            Error::Io(io) => io.kind(),
            Error::Corruption { at: _ } => io::ErrorKind::InvalidData,
            Error::Unsupported(_) | Error::NotReserved(_) => io::ErrorKind::InvalidInput,
            Error::OutOfMemory => io::ErrorKind::OutOfMemory,
            Error::Held(_) => io::ErrorKind::WouldBlock,
            Error::CollectionNotFound(_) => io::ErrorKind::NotFound,
            Error::PlacesUsedUp | Error::ReportableBug(_) => io::ErrorKind::Other,
        })
    }
}

/// Memory that was refused is `OutOfMemory`.
impl From<AllocError> for Error {
    ghost use Rattle.sled_codec.specs.declared.result.Error.TheVariants.{OutOfMemory};

    ghost from_gives = { λ _ e. e ≡ OutOfMemory };

    fn from(_e: AllocError) -> Error {
        Error::OutOfMemory
    }
}

/// A value that found no room is let go, and the error is `OutOfMemory`.
impl<T: Drop> From<AllocFailed<T>> for Error {
    ghost use Rattle.sled_codec.specs.declared.result.Error.TheVariants.{OutOfMemory};

    ghost from_gives = { λ _ e. e ≡ OutOfMemory };

    fn from(_e: AllocFailed<T>) -> Error {
        Error::OutOfMemory
    }
}

/// The kind `OutOfMemory` is `Error::OutOfMemory`, and each other one is `Error::Io`.
impl From<io::Error> for Error {
    ghost use Rattle.sled_codec.specs.Errors.{IsErrorOf};

    ghost from_gives = { λ io e. IsErrorOf io e };

    fn from(e: io::Error) -> Error {
        match e.kind() {
            io::ErrorKind::OutOfMemory => Error::OutOfMemory,
            _ => Error::Io(e),
        }
    }
}
