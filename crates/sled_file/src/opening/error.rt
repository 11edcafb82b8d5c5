//! Why a folder could not be opened.
ghost use Rattle.std.specs.Prelude.{◌≡◌};
ghost use Rattle.sled_file.specs.declared.opening.error.OpenError.TheVariants.{OutOfMemory};

use std::alloc::{AllocError, AllocFailed};
use std::io;
use thiserror::Error;

/// Why a folder could not be opened.
#[derive(Debug, Drop, Error)]
pub enum OpenError {
    /// Another process, or another device of this one, has it open, or reads it while it is to be opened.
    #[error("{path}: the folder is open elsewhere")]
    Locked {
        /// The file whose lock is held.
        path: String,
    },
    /// A call on a file failed.
    #[error("{path}: {doing}: {error}")]
    Io {
        /// The file or the folder.
        path: String,
        /// What was done with it.
        doing: &'static str,
        /// How it failed.
        error: io::Error,
    },
    /// The segments of its log have another size.
    #[error("{path}: the segments have {kept} bytes here, and not {asked}")]
    OtherSize {
        /// The file `config`.
        path: String,
        /// The size that it names.
        kept: u64,
        /// The size that was asked for.
        asked: u64,
    },
    /// Its log is kept under another checksum.
    #[error("{path}: the checksum is {kept} here, and not {asked}")]
    OtherChecksum {
        /// The file `config`.
        path: String,
        /// The checksum that it names.
        kept: String,
        /// The checksum that was asked for.
        asked: &'static str,
    },
    /// It is of another version than 2, the one that is known.
    #[error("{path}: the folder is of version {version}, and 2 is the one that is known")]
    OtherVersion {
        /// The file `config`.
        path: String,
        /// The version that it names.
        version: u64,
    },
    /// The file `config` has another text.
    #[error("{path}: it has to be the lines 'sled_file 2', 'size S', 'checksum NAME', S a power of two from 256 to 8388608")]
    BadConfig {
        /// The file `config`.
        path: String,
    },
    /// The file `config` is missing, and the log isn't empty.
    #[error("{path}: the file is missing, and the log has {len} bytes: write what it said, or 'size S' if there never was one")]
    NoConfig {
        /// Where the file has to be.
        path: String,
        /// How many bytes the log has.
        len: u64,
    },
    /// Memory was refused.
    #[error("out of memory")]
    OutOfMemory,
}

impl From<AllocError> for OpenError {
    ghost from_gives = { λ _ e. e ≡ OutOfMemory };

    fn from(_error: AllocError) -> OpenError {
        OpenError::OutOfMemory
    }
}

impl<T: Drop> From<AllocFailed<T>> for OpenError {
    ghost from_gives = { λ _ e. e ≡ OutOfMemory };

    fn from(_error: AllocFailed<T>) -> OpenError {
        OpenError::OutOfMemory
    }
}
