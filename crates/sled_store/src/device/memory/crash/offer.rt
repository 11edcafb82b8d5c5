//! Whether a crash may leave offered files under names, tried without a change.
ghost use Rattle.std.specs.Prelude.{◌≡◌, ◌↔◌, ◌<◌, ℤ, Some, None, IsSome, IsTrue, MatchOption, List, ℕ, Vec, length, slice_index_or, true, false};
ghost use Rattle.std.specs.Bool.{MatchBool};
ghost use Rattle.std.specs.Ordering.{int_cmp};
ghost use Rattle.std.specs.BTreeMap.{get};
ghost use Rattle.std.specs.declared.alloc.Global.{Global};
ghost use Rattle.sled_store.specs.Device.{NamesState, NameState, LeavesName, file_named};
ghost use Rattle.sled_store.specs.Noted.{files_of};
ghost use Rattle.sled_store.specs.Chosen.{are_ascending};
ghost use Rattle.sled_store.specs.inside.MemoryNames.{Keeps, states_of, upon, files_under, leaves_any};

use crate::device::memory::named_files::MemNames;
use crate::device::memory::named_files::version::FileVersion;

impl MemNames {
    // Whether a crash may leave these files and no others.
    pub(crate) fn may_leave(&self, files: &Vec<(i64, Vec<u8>)>) -> bool
        ensures { (s : NamesState) → Keeps self.now s → IsTrue result ↔ ((n : ℤ) → LeavesName s n (file_named (files_of files.now.items) n)) }
    {
        if !self.may_have_offered(files) {
            return false;
        }
        self.may_have_kept(files)
    }

    // Whether it may be so under each name that was offered.
    fn may_have_offered(&self, files: &Vec<(i64, Vec<u8>)>) -> bool
        ensures { MatchBool result
            ((n : ℤ) → IsSome (file_named (files_of files.now.items) n)
            → IsTrue (leaves_any (states_of (files_under self.now.kept n)) (file_named (files_of files.now.items) n)))
            ((n : ℤ) × (leaves_any (states_of (files_under self.now.kept n)) (file_named (files_of files.now.items) n) ≡ false)) }
    {
        for file in files {
            if !self.may_be(files, file.0) {
                return false;
            }
        }
        true
    }

    // Whether it may be so under each name under which a file was made.
    fn may_have_kept(&self, files: &Vec<(i64, Vec<u8>)>) -> bool
        ensures { MatchBool result
            ((n : ℤ) → IsSome (get int_cmp self.now.kept n)
            → IsTrue (leaves_any (states_of (files_under self.now.kept n)) (file_named (files_of files.now.items) n)))
            ((n : ℤ) × (leaves_any (states_of (files_under self.now.kept n)) (file_named (files_of files.now.items) n) ≡ false)) }
    {
        for (name, _kept) in &self.kept {
            if !self.may_be(files, *name) {
                return false;
            }
        }
        true
    }

    // Whether a crash may leave under a name what is offered.
    fn may_be(&self, files: &Vec<(i64, Vec<u8>)>, name: i64) -> bool
        ensures { result ≡ leaves_any (states_of (files_under self.now.kept name)) (file_named (files_of files.now.items) name) }
    {
        match offered(files, name) {
            Some(i) => may_be_file(self.under(name), &files[i].1),
            None => may_be_missing(self.under(name)),
        }
    }
}

// Whether each name is below the next.
pub(crate) fn is_ascending(files: &Vec<(i64, Vec<u8>)>) -> bool
    ensures { result ≡ are_ascending (files_of files.now.items) }
{
    let mut i = 1;
    while i < files.len() {
        if files[i - 1].0 >= files[i].0 {
            return false;
        }
        i += 1;
    }
    true
}

// Where a name is among the offered files.
pub(crate) fn offered(files: &Vec<(i64, Vec<u8>)>, name: i64) -> Option<usize>
    ensures { MatchOption result (file_named (files_of files.now.items) name ≡ None)
        (λ i. (i < length files.now.items) × ((d : ℤ × Vec ℕ Global)
        → file_named (files_of files.now.items) name ≡ Some (slice_index_or files.now.items i d).1.items)) }
{
    for (i, file) in files.iter().enumerate() {
        if file.0 == name {
            return Some(i);
        }
    }
    None
}

// Whether a crash may leave these bytes where these files were made.
fn may_be_file(kept: &[FileVersion], bytes: &[u8]) -> bool
    ensures { result ≡ leaves_any (states_of kept.now) (Some bytes.now) }
{
    let mut can = false;
    for one in kept {
        can = can_be_file(can, one, bytes);
    }
    can
}

// With one more file on top of the states.
fn can_be_file(can: bool, one: &FileVersion, bytes: &[u8]) -> bool
    ensures { (was : List NameState) → can ≡ leaves_any was (Some bytes.now) → result ≡ leaves_any (upon was one.now) (Some bytes.now) }
{
    if one.is_unsynced || one.bytes.as_slice() == bytes {
        return true;
    }
    can && !one.is_settled
}

// Whether a crash may leave nothing where these files were made.
fn may_be_missing(kept: &[FileVersion]) -> bool
    ensures { result ≡ leaves_any (states_of kept.now) None }
{
    let mut can = true;
    for one in kept {
        can = can_be_missing(can, one);
    }
    can
}

fn can_be_missing(can: bool, one: &FileVersion) -> bool
    ensures { (was : List NameState) → can ≡ leaves_any was None → result ≡ leaves_any (upon was one.now) None }
{
    if one.is_gone {
        return true;
    }
    can && !one.is_settled
}
