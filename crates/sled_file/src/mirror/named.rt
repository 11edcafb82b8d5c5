//! Files under names in memory: blobs by place, or snapshots by number.
ghost use Rattle.std.specs.Prelude.{◌≡◌, ◌↔◌, ℤ, None, Some, IsSome, is_some, IfOk, OnOk, OnErr, IfErr, MatchOption, Contains, false, if◌then◌else◌};
ghost use Rattle.std.specs.Ordering.{int_cmp, int_eq};
ghost use Rattle.std.specs.BTreeMap.{keys};
ghost use Rattle.std.specs.Map.{keys_of};
ghost use Rattle.std.specs.List.Sorted.{IsStrictlySortedBy};
ghost use Rattle.std.specs.declared.io.ErrorKind.TheVariants.{NotFound};
ghost use Rattle.sled_store.specs.Answers.{FailsWantsOrSays, is_fault};
ghost use Rattle.sled_file.specs.Mirrors.{file_in};

use std::alloc::{AllocError, AllocFailed, Global};
use std::collections::BTreeMap;
use std::io;

// The bytes of the file under each name.
#[derive(Drop)]
pub(crate) struct NamedFiles {
    pub(crate) files: BTreeMap<i64, Vec<u8>>,
}

impl NamedFiles {
    // None.
    pub(crate) fn new(alloc: Global) -> NamedFiles
        ensures { (n : ℤ) → file_in result.files n ≡ None }
    {
        NamedFiles {
            files: BTreeMap::new(alloc),
        }
    }

    // The file that is under a name.
    fn find(&self, name: i64) -> Option<&Vec<u8>>
        ensures { MatchOption result (file_in self.now.files name ≡ None) (λ bytes. file_in self.now.files name ≡ Some bytes.now.items) }
    {
        match self.files.get(&name) {
            Some(bytes) => Some(bytes),
            None => None,
        }
    }

    // Whether a file is under a name.
    pub(crate) fn has(&self, name: i64) -> bool
        ensures { result ≡ is_some (file_in self.now.files name) }
    {
        match self.find(name) {
            Some(_) => true,
            None => false,
        }
    }

    // Puts a file under a name, over another one that is there.
    pub(crate) fn put(
        &mut self,
        name: i64,
        bytes: Vec<u8>,
    ) -> Result<(), AllocFailed<(i64, Vec<u8>)>>
        ensures ok { OnOk result ((n : ℤ) → file_in self.new.files n ≡ (if int_eq name n then Some bytes.items else file_in self.old.files n)) }
        ensures err { OnErr result ((n : ℤ) → file_in self.new.files n ≡ file_in self.old.files n) }
        ensures back { IfErr result (λ e. e.value ≡ (name, bytes)) }
    {
        self.files.insert(name, bytes)?;
        Ok(())
    }

    // Removes the file under a name, where there is one.
    pub(crate) fn remove(&mut self, name: i64)
        ensures { (n : ℤ) → file_in self.new.files n ≡ (if int_eq name n then None else file_in self.old.files n) }
    {
        let _ = self.files.remove(&name);
    }

    // The bytes of the file under a name.
    pub(crate) fn read(&self, alloc: Global, name: i64) -> io::Result<Vec<u8>>
        ensures found { IfOk result (λ bytes. file_in self.now.files name ≡ Some bytes.items) }
        ensures error { FailsWantsOrSays NotFound (file_in self.now.files name ≡ None) result }
        ensures refuses { IfErr result (λ e. is_fault e ≡ false) }
    {
        match self.find(name) {
            Some(bytes) => Ok(bytes.to_vec(alloc)?),
            None => Err(io::Error::new(io::ErrorKind::NotFound, "nothing is under that name")),
        }
    }

    // The names that have a file, in ascending order.
    pub(crate) fn list(&self, alloc: Global) -> Result<Vec<i64>, AllocError>
        ensures names { IfOk result (λ names. (n : ℤ) → IsSome (file_in self.now.files n) ↔ Contains names.items n) }
        ensures ascending { IfOk result (λ names. IsStrictlySortedBy int_cmp names.items) }
    {
        self.keys(alloc)
    }

    // The keys of the map.
    fn keys(&self, alloc: Global) -> Result<Vec<i64>, AllocError>
        ensures keys { IfOk result (λ names. names.items ≡ keys self.now.files) }
        ensures ascending { IfOk result (λ names. IsStrictlySortedBy int_cmp names.items) }
    {
        self.files.keys().copied().collect(alloc)
    }

    // All files, in ascending order of their names.
    pub(crate) fn into_list(self, alloc: Global) -> Result<Vec<(i64, Vec<u8>)>, AllocError>
        ensures files { IfOk result (λ files. files.items ≡ self.files.entries) }
        ensures ascending { IfOk result (λ files. IsStrictlySortedBy int_cmp (keys_of files.items)) }
    {
        self.files.into_iter().collect(alloc)
    }
}
