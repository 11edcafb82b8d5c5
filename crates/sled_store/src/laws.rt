//! Laws of traces, each the contract of a function that does nothing. A proof cites them by the lemmas of
//! `proofs/PublicLaws.antt`, which has those of moments too; a contract can't range over what holds at them.
ghost use Rattle.sled_store.specs.Device.{Trace};
ghost use Rattle.sled_store.specs.Moments.{IsLater};

/// Each trace goes on from itself, and what goes on from a later trace goes on from the one before.
pub fn traces_go_on()
    ensures same { (trace : Trace) → IsLater trace trace }
    ensures both { (old mid new : Trace) → IsLater old mid → IsLater mid new → IsLater old new }
{}
