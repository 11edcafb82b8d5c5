//! The files that were made under one name in memory since names were last settled, in their turn.
//!
//! A removal and a sync change the last one in place, and settling leaves it alone, so that none of them wants
//! memory. The clauses say what becomes of the states that the files stand for (`specs/inside/MemoryNames.antt`).
ghost use Rattle.std.specs.Prelude.{◌≡◌, ◌<◌, [], ◌∷◌, None, Some, IsSome, MatchOption, if◌then◌else◌, is_some, vec_capacity};
ghost use Rattle.sled_store.specs.inside.MemoryNames.{states_of, latest, without_file, firm_file};

// A file that was made under a name.
#[derive(Drop)]
pub(crate) struct FileVersion {
    pub(crate) bytes: Vec<u8>,
    // Its bytes may still be lost.
    pub(crate) is_unsynced: bool,
    // It was removed, and nothing was made under its name since.
    pub(crate) is_gone: bool,
    // It stood under its name when names were last settled.
    pub(crate) is_settled: bool,
}

// The file that is under the name.
pub(crate) fn current(kept: &[FileVersion]) -> Option<&FileVersion>
    ensures { MatchOption result ((latest (states_of kept.now)).file ≡ None) (λ one. (latest (states_of kept.now)).file ≡ Some one.now.bytes.items) }
{
    let one = kept.last()?;
    if one.is_gone {
        return None;
    }
    Some(one)
}

// Whether a file is under the name.
pub(crate) fn is_there(kept: &[FileVersion]) -> bool
    ensures { result ≡ is_some (latest (states_of kept.now)).file }
{
    match current(kept) {
        Some(_) => true,
        None => false,
    }
}

// Removes the file that is under the name, where there is one.
pub(crate) fn remove_file(kept: &mut Vec<FileVersion>)
    ensures { states_of kept.new.items ≡ without_file (states_of kept.old.items) }
{
    if let Some(one) = kept.last_mut() {
        one.is_gone = true;
    }
}

// Settles the bytes of the file that is under the name.
pub(crate) fn settle_bytes(kept: &mut Vec<FileVersion>)
    ensures { IsSome (latest (states_of kept.old.items)).file → states_of kept.new.items ≡ firm_file (states_of kept.old.items) }
{
    if let Some(one) = kept.last_mut() {
        one.is_unsynced = false;
    }
}

// Leaves the file that is under the name alone, settled. Answers whether there is one.
pub(crate) fn settle_name(kept: &mut Vec<FileVersion>) -> bool
    ensures there { result ≡ is_some (latest (states_of kept.old.items)).file }
    ensures alone { states_of (if result then kept.new.items else []) ≡ latest (states_of kept.old.items) ∷ [] }
{
    let Some(one) = kept.pop() else {
        return false;
    };
    if one.is_gone {
        return false;
    }
    put_alone(
        kept,
        FileVersion {
            bytes: one.bytes,
            is_unsynced: one.is_unsynced,
            is_gone: false,
            is_settled: true,
        },
    );
    true
}

// One file is left, where there is room for it.
pub(crate) fn put_alone(kept: &mut Vec<FileVersion>, one: FileVersion)
    requires { 0 < vec_capacity kept.old }
    ensures { kept.new.items ≡ one ∷ [] }
{
    kept.clear();
    kept.push_reserved(one);
}
