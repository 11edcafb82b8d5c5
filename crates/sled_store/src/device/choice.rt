//! What a test may ask a crash to leave.
ghost use Rattle.std.specs.Prelude.{◌≡◌, map, IfOk};
ghost use Rattle.sled_store.specs.Noted.{files_of, left_of, offered};

use std::alloc::AllocError;

/// A whole content of a device, offered as what a crash left. Both lists are in ascending order.
#[derive(Drop)]
pub struct Offer {
    /// The bytes of the log file.
    pub bytes: Vec<u8>,
    /// The blobs, each under its place.
    pub blobs: Vec<(i64, Vec<u8>)>,
    /// The snapshots, each under its number.
    pub snapshots: Vec<(i64, Vec<u8>)>,
}

/// What a crash is asked to leave (`docs/DEVICE.md`). A patch lists offsets of the log file and the bytes
/// there; the last of a repeated offset counts.
#[derive(Drop)]
pub enum Choice {
    /// What was settled, under a patch. A blob that was never synced is empty.
    Old(Vec<(u64, u8)>),
    /// What was last written, under a patch. A call that was stopped within counts as done.
    New(Vec<(u64, u8)>),
    /// A content of its own.
    Whole(Offer),
}

impl Choice {
    /// Returns a copy, which asks for the same.
    ///
    /// # Errors
    ///
    /// `AllocError` where memory for it was refused.
    pub fn try_clone(&self) -> Result<Choice, AllocError>
        ensures { IfOk result (λ copy. left_of copy ≡ left_of self.now) }
    {
        match self {
            Choice::Old(patch) => Ok(Choice::Old(patch.to_vec(*patch.allocator())?)),
            Choice::New(patch) => Ok(Choice::New(patch.to_vec(*patch.allocator())?)),
            Choice::Whole(offer) => Ok(Choice::Whole(offer.try_clone()?)),
        }
    }
}

impl Offer {
    /// Returns a copy, which has the same files.
    ///
    /// # Errors
    ///
    /// `AllocError` where memory for it was refused.
    pub fn try_clone(&self) -> Result<Offer, AllocError>
        ensures { IfOk result (λ copy. offered copy ≡ offered self.now) }
    {
        Ok(Offer {
            bytes: self.bytes.to_vec(*self.bytes.allocator())?,
            blobs: copied(&self.blobs)?,
            snapshots: copied(&self.snapshots)?,
        })
    }
}

/// A copy of files under names.
fn copied(files: &Vec<(i64, Vec<u8>)>) -> Result<Vec<(i64, Vec<u8>)>, AllocError>
    ensures { IfOk result (λ copies. files_of copies.items ≡ files_of files.now.items) }
{
    let alloc = *files.allocator();
    let mut copies = Vec::with_capacity(alloc, files.len())?;
    for (name, bytes) in files {
        copies.push_reserved((*name, bytes.to_vec(alloc)?));
    }
    Ok(copies)
}
