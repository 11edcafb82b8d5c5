//! Files under names in memory: blobs by place, or snapshots by number.
//!
//! Under each name are the files that were made since names were last settled, so that a call is a look-up.
//! Its clauses say that where it stands for a state, it stands for the next one after each call
//! (`specs/inside/MemoryNames.antt`).
ghost use Rattle.std.specs.Prelude.{◌≡◌, ◌↔◌, ℤ, ℕ, List, [], ◌∷◌, None, Some, IsSome, IfOk, OnOk, OnErr, MatchOption, Contains, true, false, is_some, IfErr};
ghost use Rattle.std.specs.Ordering.{int_cmp, int_eq};
ghost use Rattle.std.specs.List.Sorted.{IsStrictlySortedBy};
ghost use Rattle.std.specs.declared.io.ErrorKind.TheVariants.{NotFound};
ghost use Rattle.sled_store.specs.Answers.{is_fault, FailsWantsOrSays};
ghost use Rattle.sled_store.specs.Device.{NamesState, names_at_rest, renamed, unnamed, file_synced, names_synced};
ghost use Rattle.sled_store.specs.inside.MemoryNames.{Keeps, IsNoted, files_under, states_of, latest};

pub(crate) mod version;

use crate::device::memory::named_files::version::{
    FileVersion, current, is_there, remove_file, settle_bytes, settle_name,
};
use std::alloc::{AllocError, Global};
use std::collections::BTreeMap;
use std::io;

// The files under each name, in the order in which they were made.
#[derive(Drop)]
pub(crate) struct MemNames {
    pub(crate) kept: BTreeMap<i64, Vec<FileVersion>>,
    // The names under which something was made or removed since names were last settled, in any order, some of
    // them several times.
    pub(crate) changed: Vec<i64>,
    // One of them isn't listed, since there was no memory for it.
    pub(crate) has_unlisted: bool,
}

impl MemNames {
    // None.
    pub(crate) fn new(alloc: Global) -> MemNames
        ensures { Keeps result (names_at_rest (λ _. None)) }
    {
        MemNames {
            kept: BTreeMap::new(alloc),
            changed: Vec::new(alloc),
            has_unlisted: false,
        }
    }

    // The files that were made under a name.
    pub(crate) fn under(&self, name: i64) -> &[FileVersion]
        ensures { result.now ≡ files_under self.now.kept name }
    {
        match self.kept.get(&name) {
            Some(kept) => kept,
            None => &[],
        }
    }

    // The file that is under a name.
    pub(crate) fn find(&self, name: i64) -> Option<&FileVersion>
        ensures found { (s : NamesState) → Keeps self.now s → MatchOption result (s.file name ≡ None) (λ one. s.file name ≡ Some one.now.bytes.items) }
    {
        current(self.under(name))
    }

    // Whether a file is under a name.
    pub(crate) fn has(&self, name: i64) -> bool
        ensures { (s : NamesState) → Keeps self.now s → result ≡ is_some (s.file name) }
    {
        is_there(self.under(name))
    }

    // Makes a file, over another that is under the name.
    pub(crate) fn make(
        &mut self,
        alloc: Global,
        name: i64,
        bytes: Vec<u8>,
        is_unsynced: bool,
    ) -> Result<(), AllocError>
        ensures ok { (s : NamesState) (asked : List (List ℕ)) → Keeps self.old s
            → OnOk result (Keeps self.new (renamed s name true (record { file = Some bytes.items; is_unsynced = is_unsynced }) asked)) }
        ensures err { (s : NamesState) → Keeps self.old s → OnErr result (Keeps self.new s) }
    {
        self.note(name);
        let one = FileVersion {
            bytes,
            is_unsynced,
            is_gone: false,
            is_settled: false,
        };
        if let Some(kept) = self.kept.get_mut(&name) {
            kept.push(one)?;
            return Ok(());
        }
        let mut kept = Vec::new(alloc);
        kept.push(one)?;
        self.kept.insert(name, kept)?;
        Ok(())
    }

    // Removes the file that is under a name, where there is one.
    pub(crate) fn remove(&mut self, name: i64)
        ensures { (s : NamesState) → Keeps self.old s → Keeps self.new (unnamed s name true) }
    {
        if !self.has(name) {
            return;
        }
        self.note(name);
        if let Some(kept) = self.kept.get_mut(&name) {
            remove_file(kept);
        }
    }

    // Notes that the files under a name change. It takes no memory where none can be had.
    fn note(&mut self, name: i64)
        ensures kept { self.new.kept ≡ self.old.kept }
        ensures keeps { (s : NamesState) → Keeps self.old s → Keeps self.new s }
        ensures noted { IsNoted self.new name }
    {
        if self.changed.push(name).is_err() {
            self.has_unlisted = true;
        }
    }

    // Settles the bytes of the file that is under a name.
    pub(crate) fn sync(&mut self, name: i64)
        ensures { (s : NamesState) → Keeps self.old s → IsSome (s.file name) → Keeps self.new (file_synced s name) }
    {
        if let Some(kept) = self.kept.get_mut(&name) {
            settle_bytes(kept);
        }
    }

    // Settles all names. It takes as long as names changed since they were last settled, however many there are.
    pub(crate) fn settle(&mut self)
        ensures { (s : NamesState) → Keeps self.old s → Keeps self.new (names_synced s) }
    {
        if self.has_unlisted {
            self.settle_all();
        } else {
            self.settle_changed();
        }
    }

    // Settles each name.
    fn settle_all(&mut self)
        ensures { (s : NamesState) → Keeps self.old s → Keeps self.new (names_synced s) }
    {
        self.kept.retain(|_, kept| settle_name(kept));
        self.changed.clear();
        self.has_unlisted = false;
    }

    // Settles the names that are listed, where these are all that changed.
    fn settle_changed(&mut self)
        requires { self.old.has_unlisted ≡ false }
        ensures { (s : NamesState) → Keeps self.old s → Keeps self.new (names_synced s) }
    {
        while let Some(name) = self.changed.pop() {
            self.settle_one(name);
        }
    }

    // Settles one name.
    fn settle_one(&mut self, name: i64)
        ensures here { states_of (files_under self.new.kept name) ≡ latest (states_of (files_under self.old.kept name)) ∷ [] }
        ensures others { (n : ℤ) → int_eq name n ≡ false → files_under self.new.kept n ≡ files_under self.old.kept n }
        ensures changed { self.new.changed ≡ self.old.changed }
        ensures listed { self.new.has_unlisted ≡ self.old.has_unlisted }
    {
        let Some(kept) = self.kept.get_mut(&name) else {
            return;
        };
        if !settle_name(kept) {
            self.kept.remove(&name);
        }
    }

    // The bytes of the file under a name.
    pub(crate) fn read(&self, alloc: Global, name: i64) -> io::Result<Vec<u8>>
        ensures found { (s : NamesState) → Keeps self.now s → IfOk result (λ bytes. s.file name ≡ Some bytes.items) }
        ensures error { (s : NamesState) → Keeps self.now s → FailsWantsOrSays NotFound (s.file name ≡ None) result }
        ensures refuses { IfErr result (λ e. is_fault e ≡ false) }
    {
        match self.find(name) {
            Some(one) => Ok(one.bytes.to_vec(alloc)?),
            None => Err(io::Error::new(io::ErrorKind::NotFound, "nothing is under that name")),
        }
    }

    // The names that have a file, in ascending order.
    pub(crate) fn list(&self, alloc: Global) -> Result<Vec<i64>, AllocError>
        ensures names { (s : NamesState) → Keeps self.now s → IfOk result (λ names. (n : ℤ) → IsSome (s.file n) ↔ Contains names.items n) }
        ensures ascending { IfOk result (λ names. IsStrictlySortedBy int_cmp names.items) }
    {
        let mut names = Vec::new(alloc);
        for (name, kept) in &self.kept {
            if is_there(kept) {
                names.push(*name)?;
            }
        }
        Ok(names)
    }
}
