//! Laws of devices that give identifiers from a number on, each the contract of a function that does nothing. A proof cites them by
//! the lemmas of `proofs/PublicLaws.antt`.
ghost use Rattle.std.specs.Prelude.{◌≤◌, ◌<◌, ◌^◌, ◌∷◌, ℕ};
ghost use Rattle.sled_store.specs.Device.{Crashed, Left, Leaves, State, Trace, content_left, fresh, state_of};
ghost use Rattle.sled_core.specs.Recoverable.{NoForeign};
ghost use Rattle.ids.specs.declared.generator.IdGenerator.{IdGenerator};
ghost use Rattle.ids.specs.Bounds.{GivesFrom};
ghost use Rattle.ids.specs.Generators.{Generates, asked_of, bound_of, running, size_of};

use sled_log::device::{Checksum, Device};

/// A device that was never written to gives identifiers from 0 on.
pub fn an_empty_device_gives_from_the_beginning<C: Checksum>()
    ensures { (size : ℕ) → 256 ≤ size → size < 2 ^ 63 → GivesFrom C.sum_of size 0 0 fresh }
{}

/// Behind a crash that leaves only what the log itself wrote, a device gives from where it gave before.
pub fn a_crash_gives_no_identifier_again<C: Checksum>()
    ensures { (size n most : ℕ) (trace : Trace) (left : Left) → GivesFrom C.sum_of size n most (state_of trace)
        → Leaves (state_of trace) (content_left left (state_of trace)) → NoForeign C.sum_of size (state_of trace) (content_left left (state_of trace))
        → GivesFrom C.sum_of size n most (state_of (Crashed left ∷ trace)) }
{}

/// The device of a generator gives from the end of its block on, without any call.
pub fn a_generator_gives_from_its_bound<D: Device, C: Checksum>()
    ensures { (g : IdGenerator D C) → Generates D.trace C.sum_of g
        → GivesFrom C.sum_of (size_of g) (bound_of g) (asked_of g) (state_of (D.trace (running g).device)) }
{}

/// What gives from one number on gives from a lower one, too, and up to a higher one.
pub fn less_is_given_from<C: Checksum>()
    ensures { (size n less most more : ℕ) (device : State) → less ≤ n → most ≤ more → GivesFrom C.sum_of size n most device
        → GivesFrom C.sum_of size less more device }
{}
