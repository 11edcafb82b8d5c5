//! What files under names in memory are once a crash came. It wants no memory.
ghost use Rattle.std.specs.Prelude.{◌≡◌, ◌∷◌, [], if◌then◌else◌, true, false};
ghost use Rattle.sled_store.specs.Device.{NamesState, names_at_rest, settled_files};
ghost use Rattle.sled_store.specs.inside.MemoryNames.{Keeps, states_of, latest, firm, file_settled};

use crate::device::memory::named_files::MemNames;
use crate::device::memory::named_files::version::{
    FileVersion, put_alone, settle_bytes, settle_name,
};

impl MemNames {
    // Each name has the file that was settled.
    pub(crate) fn lose(&mut self)
        ensures { (s : NamesState) → Keeps self.old s → Keeps self.new (names_at_rest (settled_files s)) }
    {
        self.kept.retain(|_, kept| go_back(kept));
    }

    // Each name has the file that it has now, settled with its bytes.
    pub(crate) fn hold(&mut self)
        ensures { (s : NamesState) → Keeps self.old s → Keeps self.new (names_at_rest s.file) }
    {
        self.kept.retain(|_, kept| hold_name(kept));
    }
}

// Leaves the file alone that was settled under a name. Answers whether there was one.
fn go_back(kept: &mut Vec<FileVersion>) -> bool
    ensures { states_of (if result then kept.new.items else []) ≡ firm (file_settled (states_of kept.old.items)) ∷ [] }
{
    while let Some(one) = kept.pop() {
        if one.is_settled {
            put_alone(kept, restored(one));
            return true;
        }
    }
    false
}

// A settled file is there again, with its bytes where they were settled.
fn restored(one: FileVersion) -> FileVersion
    ensures bytes { result.bytes.items ≡ (if one.is_unsynced then [] else one.bytes.items) }
    ensures firm { result.is_unsynced ≡ false }
    ensures there { result.is_gone ≡ false }
    ensures settled { result.is_settled ≡ true }
{
    let mut bytes = one.bytes;
    if one.is_unsynced {
        bytes.clear();
    }
    FileVersion {
        bytes,
        is_unsynced: false,
        is_gone: false,
        is_settled: true,
    }
}

// Leaves the file that is under a name alone, settled with its bytes. Answers whether there is one.
fn hold_name(kept: &mut Vec<FileVersion>) -> bool
    ensures { states_of (if result then kept.new.items else []) ≡ firm (latest (states_of kept.old.items)).file ∷ [] }
{
    if !settle_name(kept) {
        return false;
    }
    settle_bytes(kept);
    true
}
