//! The failure of a device over files that came first: what was done, and how it failed.

use std::io;
use thiserror::Error;

/// What was to be done with the files by a call that failed.
#[derive(Debug, Clone, Copy, PartialEq, Eq, Error)]
pub enum Doing {
    /// Bytes were to be written to the log file.
    #[error("a write to the log file failed")]
    WriteLog,
    /// The log file was to be cut.
    #[error("the log file could not be cut")]
    CutLog,
    /// The log file was to be synced.
    #[error("a sync of the log file failed")]
    SyncLog,
    /// The blob of a place was to be made.
    #[error("the blob of place {0} could not be made")]
    MakeBlob(i64),
    /// The blob of a place was to be synced.
    #[error("a sync of the blob of place {0} failed")]
    SyncBlob(i64),
    /// The blob of a place was to be removed.
    #[error("the blob of place {0} could not be removed")]
    RemoveBlob(i64),
    /// The temporary snapshot was to be written and synced.
    #[error("a snapshot could not be written")]
    WriteSnapshot,
    /// The temporary snapshot was to get a number.
    #[error("the snapshot of number {0} could not be published")]
    PublishSnapshot(i64),
    /// The snapshot of a number was to be removed.
    #[error("the snapshot of number {0} could not be removed")]
    RemoveSnapshot(i64),
    /// The folders of blobs and of snapshots were to be synced.
    #[error("a sync of the folders failed")]
    SyncNames,
}

/// A call on the files that failed.
#[derive(Debug, Clone, Copy, Error)]
#[error("{doing}: {error}")]
pub struct Failure {
    /// What it was to do.
    pub doing: Doing,
    /// The error that the device answered for it.
    pub error: io::Error,
}
