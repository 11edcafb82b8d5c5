//! Laws of histories and tables, each the contract of a function that does nothing. They are the interface for a client:
//! what it may rely on, each with when it needs it. A proof cites a law by the lemma of `proofs/PublicLaws.antt` that says the
//! same; what that file has besides, under "Helpers", is no promise on a log, but facts on lists that a client needs too.
ghost use Rattle.std.specs.Prelude.{◌≡◌, ◌⊎◌, ◌↔◌, ◌<◌, ◌≤◌, if◌then◌else◌, ℕ, Bool, true, false, IsTrue, List, [], ◌∷◌, ◌++◌, length, Contains};
ghost use Rattle.std.specs.List.{All};
ghost use Rattle.sled_codec.specs.declared.serialization.message.LogKind.TheVariants.{Free, Link, Replace};
ghost use Rattle.sled_codec.specs.History.{Message, Batch, History, Batched, Completed, Step, table, below, no_history};
ghost use Rattle.sled_codec.specs.PageTables.{IsTable};
ghost use Rattle.sled_codec.specs.Snapshots.{Page};
ghost use Rattle.sled_codec.specs.WellFormed.{LieApart};
ghost use Rattle.sled_store.specs.Chosen.{MayBeChosen};
ghost use Rattle.sled_store.specs.declared.device.choice.Choice.{Choice};
ghost use Rattle.sled_store.specs.Device.{Crashed, Leaves, Left, Settled, Trace, content_left, state_of};
ghost use Rattle.sled_store.specs.Noted.{left_of};
ghost use Rattle.sled_core.specs.Recoverable.{LeavesRecoverable, NoForeign};
ghost use Rattle.sled_log.specs.Made.{IsMade};
ghost use Rattle.sled_log.specs.Orderly.{IsOrderly};
ghost use Rattle.sled_log.specs.PageHistories.{IsLastBeginning, MayAdd, of_pages};
ghost use Rattle.sled_log.specs.Replaces.{HasLast, IsOfReplaces, MayCome};
ghost use Rattle.sled_log.specs.declared.session.command.Command.{Command};
ghost use Rattle.sled_log.specs.declared.session.command.Reply.{Reply};
ghost use Rattle.sled_log.specs.Headline.{MeansStep};
ghost use Rattle.sled_log.specs.RunPhases.{SomeStands, view_by};
ghost use Rattle.sled_log.specs.RunStates.{DeviceView, RunState, closed};
ghost use Rattle.sled_log.specs.Runs.{CanGoOn, IsStep};

use sled_codec::serialization::Checksum;
use sled_store::CrashDevice;

/// A history of Replaces in the order of pages is one that recovery goes on from. It is one at first, behind each
/// Replace that may come, and below each cut.
pub fn histories_of_replaces_are_orderly()
    ensures orderly { (H : History) → IsOfReplaces H → IsOrderly H }
    ensures none { IsOfReplaces no_history }
    ensures completed { (H H' : History) (m : Message) → IsOfReplaces H → MayCome H m → Step H (Completed m) H' → LieApart H'.messages
        → IsOfReplaces H' }
    ensures below { (H : History) (cut : ℕ) → IsOfReplaces H → IsOfReplaces (below H cut) }
{}

/// A message that is completed is in the history, and behind all others it is appended.
pub fn a_later_message_is_appended()
    ensures there { (H H' : History) (m : Message) → Step H (Completed m) H' → Contains H'.messages m }
    ensures appended { (H H' : History) (m : Message) → Step H (Completed m) H' → All (λ x. x.place < m.place) H.messages
        → (H'.messages ≡ H.messages ++ m ∷ []) × (H'.batches ≡ H.batches) }
{}

/// What is left of a history below a cut is what of it begins there.
pub fn a_cut_keeps_what_begins_below()
    ensures { (H : History) (cut : ℕ) (m : Message) → Contains (below H cut).messages m ↔ (Contains H.messages m × (m.place < cut)) }
{}

/// Each entry of a table is a message of its page below the cut; and the table is that of what lies below it.
pub fn entries_stand_for_messages()
    ensures entry { (H : History) (cut page : ℕ) (m : Message) → Contains (table H cut page) m
        → Contains H.messages m × (m.page ≡ page) × (m.place < cut) }
    ensures below { (H : History) (cut : ℕ) (pages : List Page) → IsTable pages (below H cut) cut ↔ IsTable pages H cut }
{}

/// Of Replaces each page of a table has the last message below the cut, and each message below it has its page
/// in the table.
pub fn a_table_has_the_last_messages()
    ensures last { (H : History) (cut : ℕ) (pages : List Page) → IsOfReplaces H → IsTable pages H cut
        → (page : ℕ) → page < length pages → HasLast pages H cut page }
    ensures page { (H : History) (cut : ℕ) (pages : List Page) → IsOfReplaces H → IsTable pages H cut
        → (m : Message) → Contains H.messages m → m.place < cut → m.page < length pages }
{}

/// What a device left that crashed, a crash may leave: what was chosen, where it took that, and else what was settled.
pub fn a_device_leaves_what_a_crash_may_leave()
    ensures { (old : Trace) (choice : Choice) (taken : Bool) → (IsTrue taken → MayBeChosen choice (state_of old))
        → Leaves (state_of old) (content_left (if taken then left_of choice else Settled []) (state_of old)) }
{}

/// What a history has below a cut is a beginning of it, and all behind that lies at the cut or above. A client needs it to say which of
/// its operations a recovery kept: a first part of them, in their order.
pub fn what_lies_below_a_cut_is_a_beginning()
    ensures { (H : History) (cut : ℕ) → LieApart H.messages
        → (rest : List Message) × (H.messages ≡ (below H cut).messages ++ rest) × All (λ m. cut ≤ m.place) rest }
{}

/// The table below a cut has the last message there that begins a page, and where that is a Replace also each Link of the page behind it;
/// so it has a Replace or a Free that was just completed behind all of its page. A client needs it to read such a message back, with
/// `what_is_not_synced_has_its_record` of `sled_core`, without the pages of a snapshot.
pub fn a_table_has_what_began_a_page_last()
    ensures beginning { (H : History) (cut page : ℕ) (m : Message) → LieApart H.messages → IsLastBeginning H cut page m → Contains (table H cut page) m }
    ensures link { (H : History) (cut page : ℕ) (base m : Message) → LieApart H.messages → IsLastBeginning H cut page base → base.kind ≡ Replace
        → Contains H.messages m → m.page ≡ page → m.kind ≡ Link → base.place < m.place → m.place < cut → Contains (table H cut page) m }
    ensures completed { (H H' : History) (m : Message) (cut : ℕ) → Step H (Completed m) H' → LieApart H'.messages → (m.kind ≡ Replace) ⊎ (m.kind ≡ Free)
        → ((x : Message) → Contains H.messages x → x.page ≡ m.page → x.place < m.place) → m.place < cut → Contains (table H' cut m.page) m }
{}

/// What a history has of some pages alone (`of_pages`) has the tables of these pages, and is a history of its own: what is completed for other
/// pages leaves it, and what is for one of them is completed in it. Clients that share a log need it, each to speak of its own pages alone.
pub fn a_history_can_be_split_by_pages()
    ensures table { (mine : ℕ → Bool) (H : History) (cut page : ℕ) → mine page ≡ true → table (of_pages mine H) cut page ≡ table H cut page }
    ensures apart { (mine : ℕ → Bool) (H : History) → LieApart H.messages → LieApart (of_pages mine H).messages }
    ensures below { (mine : ℕ → Bool) (H : History) (cut : ℕ) → of_pages mine (below H cut) ≡ below (of_pages mine H) cut }
    ensures other { (mine : ℕ → Bool) (H H' : History) (m : Message) → Step H (Completed m) H' → mine m.page ≡ false → of_pages mine H' ≡ of_pages mine H }
    ensures own { (mine : ℕ → Bool) (H H' : History) (m : Message) → Step H (Completed m) H' → mine m.page ≡ true
        → Step (of_pages mine H) (Completed m) (of_pages mine H') }
    ensures batch { (mine : ℕ → Bool) (H H' : History) (b : Batch) → Step H (Batched b) H' → Step (of_pages mine H) (Batched b) (of_pages mine H') }
{}

/// A history is orderly at first, behind each message that may come, Links and Frees too, and below each cut. A client whose history isn't of
/// Replaces alone needs it, since each recovery asks for an orderly one.
pub fn histories_stay_orderly()
    ensures none { IsOrderly no_history }
    ensures added { (H H' : History) (m : Message) → IsOrderly H → MayAdd H m → Step H (Completed m) H' → LieApart H'.messages → IsOrderly H' }
    ensures below { (H : History) (cut : ℕ) → IsOrderly H → IsOrderly (below H cut) }
{}

/// A run goes on behind a crash, also in a process of its own: what a crash leaves at a moment at which all that it leaves can be
/// recovered (`Carries.crash`), and in which nothing is foreign, can be gone on from, by whoever finds it (`Session::new`).
pub fn what_a_crash_leaves_can_be_gone_on_from<C: Checksum>()
    ensures { (size : ℕ) (a : RunState) (trace : Trace) (left : Left) (device : DeviceView) → IsMade a.history
        → LeavesRecoverable C.sum_of size a.history a.acknowledged a.floor (state_of trace)
        → Leaves (state_of trace) (content_left left (state_of trace)) → NoForeign C.sum_of size (state_of trace) (content_left left (state_of trace))
        → device.trace ≡ Crashed left ∷ trace → CanGoOn C.sum_of size (closed a device) }
{}

/// What a step of a run means, which the clause `headline` of `Session::run` tells in full (`Carries.step`, `Carries.came`, `Carries.new` and
/// `Carries.after`), from where some session stands, as it does between all commands of a run: for the place that is told there, what clause
/// `recovers` says. A client that has the one clause needs it to have the other one too of the very same places.
pub fn what_a_step_means<D: CrashDevice, C: Checksum>()
    ensures { let view = view_by D.trace D.faults D.is_stopped in (size : ℕ) (a : RunState) (c : Command) (came : Reply) (new : DeviceView) (b : RunState)
        → SomeStands D C view C.sum_of size a → IsStep C.sum_of size a c came new b → MeansStep C.sum_of size a c came new b }
{}
