//! What a folder went through before it was opened, as data of proofs.
ghost use Rattle.std.specs.Prelude.{[]};
ghost use Rattle.sled_store.specs.Device.{Trace};

/// What was asked of a folder by all that had it open before, and how each of them ended. No code can read it. A
/// function over `S: Start` is proved for every such past, and so for the true one, in which what an earlier process wrote
/// counts as written by the log.
pub trait Start: Drop {
    /// All events before the opening, the newest first.
    ghost past: { Trace };
}

/// A past of which nothing is known: for `main` to name, and for a folder that is new. At this type a clause takes what
/// is found in the folder as given by somebody else.
#[derive(Drop)]
pub struct Unknown;

impl Start for Unknown {
    ghost past = { [] };
}
