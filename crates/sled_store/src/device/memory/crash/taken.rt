//! Offered files become what stands under names in memory. It wants no memory: each is put where a file of
//! its name was kept.
ghost use Rattle.std.specs.Prelude.{◌≡◌, ◌<◌, ℤ, [], ◌∷◌, Some, None, IsSome, is_some, length, true, false, if◌then◌else◌};
ghost use Rattle.std.specs.Ordering.{int_eq};
ghost use Rattle.sled_store.specs.Device.{names_at_rest, file_named};
ghost use Rattle.sled_store.specs.Noted.{files_of};
ghost use Rattle.sled_store.specs.inside.MemoryNames.{Keeps, states_of, firm, files_under};

use crate::device::memory::crash::offer::offered;
use crate::device::memory::named_files::MemNames;
use crate::device::memory::named_files::version::{FileVersion, put_alone};

impl MemNames {
    // These files are there, settled, and no others.
    pub(crate) fn take(&mut self, files: Vec<(i64, Vec<u8>)>)
        requires { (n : ℤ) → IsSome (file_named (files_of files.items) n) → 0 < length (files_under self.old.kept n) }
        ensures { Keeps self.new (names_at_rest (file_named (files_of files.items))) }
    {
        self.keep(&files);
        self.put_all(files);
    }

    // Drops the files of other names.
    fn keep(&mut self, files: &Vec<(i64, Vec<u8>)>)
        ensures { (n : ℤ) → files_under self.new.kept n ≡ (if is_some (file_named (files_of files.now.items) n) then files_under self.old.kept n else []) }
    {
        self.kept.retain(|name, _| is_offered(files, *name));
    }

    // Puts each file where one of its name is kept.
    fn put_all(&mut self, files: Vec<(i64, Vec<u8>)>)
        requires made { (n : ℤ) → IsSome (file_named (files_of files.items) n) → 0 < length (files_under self.old.kept n) }
        requires others { (n : ℤ) → file_named (files_of files.items) n ≡ None → files_under self.old.kept n ≡ [] }
        ensures { (n : ℤ) → states_of (files_under self.new.kept n) ≡ firm (file_named (files_of files.items) n) ∷ [] }
    {
        let mut files = files;
        while let Some(file) = files.pop() {
            let (name, bytes) = file;
            self.put(name, bytes);
        }
    }

    // Puts a file alone where one of its name is kept.
    fn put(&mut self, name: i64, bytes: Vec<u8>)
        requires { 0 < length (files_under self.old.kept name) }
        ensures here { states_of (files_under self.new.kept name) ≡ firm (Some bytes.items) ∷ [] }
        ensures made { 0 < length (files_under self.new.kept name) }
        ensures others { (n : ℤ) → int_eq name n ≡ false → files_under self.new.kept n ≡ files_under self.old.kept n }
    {
        if let Some(kept) = self.kept.get_mut(&name) {
            put_alone(
                kept,
                FileVersion {
                    bytes,
                    is_unsynced: false,
                    is_gone: false,
                    is_settled: true,
                },
            );
        }
    }
}

fn is_offered(files: &Vec<(i64, Vec<u8>)>, name: i64) -> bool
    ensures { result ≡ is_some (file_named (files_of files.now.items) name) }
{
    match offered(files, name) {
        Some(_) => true,
        None => false,
    }
}
