//! Laws of the definitions: both ends of what a crash may leave are in it, after any calls, and where
//! all is settled they are the same.
ghost use Rattle.std.specs.Prelude.{◌≡◌, ◌∷◌, ℤ, false};
ghost use Rattle.sled_store.specs.Device.{Trace, Content, state_of, content_of, settled_content, Leaves, Synced, NamesSynced};
ghost use Rattle.sled_store.specs.Durable.{SameContent};

/// A crash may leave what is read, as where all was written just before it.
pub fn what_is_read_may_be_left()
    ensures { (trace : Trace) → Leaves (state_of trace) (content_of (state_of trace)) }
{}

/// A crash may leave what is settled, as where all else was lost.
pub fn what_is_settled_may_be_left()
    ensures { (trace : Trace) → Leaves (state_of trace) (settled_content (state_of trace)) }
{}

/// After a sync and a sync of names, where every blob's bytes were synced, a crash leaves exactly what
/// is read.
pub fn what_is_synced_is_left()
    ensures { (trace : Trace) (left : Content) → ((n : ℤ) → (state_of trace).blobs.is_unsynced n ≡ false)
        → Leaves (state_of (NamesSynced ∷ Synced ∷ trace)) left → SameContent left (content_of (state_of trace)) }
{}
