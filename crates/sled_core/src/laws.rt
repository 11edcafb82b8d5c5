//! Laws of logs, each the contract of a function that does nothing: what a client may rely on besides the contracts of the calls. A proof cites a
//! law by the lemma of `proofs/PublicLaws.antt` that says the same; what that file has besides, under "Helpers", promises nothing more.
ghost use Rattle.std.specs.Prelude.{◌≡◌, ◌≢◌, ◌↔◌, ◌⊎◌, ◌≤◌, ◌<◌, ◌≤ℤ◌, ◌<ℤ◌, ◌+ℤ◌, ◌-ℤ◌, ◌+◌, ◌*◌, ◌/◌, ◌^◌, ◌∷◌, ◌++◌, ℕ, ℤ, pos, true, Bool, List, [], replicate, Option, None, Some, Result, IfErr, IfOk, OnOk, length, map, ◌-◌, Contains, if◌then◌else◌, int_lt, unsigned_abs, take};
ghost use Rattle.std.specs.Borrow.{MutBor};
ghost use Rattle.std.specs.declared.io.Error.{Error as IoError};
ghost use Rattle.sled_codec.specs.declared.result.Error.{Error};
ghost use Rattle.sled_core.specs.Iterates.{Damage, EndsAt, GivesBehind, GivesOf, IsIteration, IsMissing, Item};
ghost use Rattle.sled_core.specs.Iterators.{BorrowsLog, IsLogOf, IsNext, IsOnlyRead, IsOverLog};
ghost use Rattle.std.specs.Int.{w64, cast_signed, cast_unsigned};
ghost use Rattle.std.specs.List.{All};
ghost use Rattle.sled_codec.specs.declared.result.DiskPtr.TheVariants.{Blob};
ghost use Rattle.sled_codec.specs.declared.serialization.message.LogKind.{LogKind};
ghost use Rattle.sled_codec.specs.declared.serialization.message.LogKind.TheVariants.{Free, Link, Replace};
ghost use Rattle.sled_codec.specs.History.{Message, Batch, Completed, History, Step, no_history, table};
ghost use Rattle.sled_codec.specs.WellFormed.{LieApart};
ghost use Rattle.sled_store.specs.Device.{Trace, State, Left, Leaves, Crashed, state_of, content_of, content_left, at_rest, fresh, Content, Settled, Wrote, Synced, step};
ghost use Rattle.sled_store.specs.Moments.{IsLater, LeavesOnly};
ghost use Rattle.sled_store.specs.Script.{Performs};
ghost use Rattle.sled_store.specs.Outdated.{IsNamedNow, MayName, NamesBlob};
ghost use Rattle.sled_store.specs.Marks.{IsFormerList, IsIn, IsNeeded, info_of};
ghost use Rattle.sled_store.specs.SegmentStates.{Machine, MayMark, linked, next_slot, replaced, slot_at};
ghost use Rattle.sled_store.specs.declared.segment.slot.CacheInfo.{CacheInfo};
ghost use Rattle.sled_core.specs.Fits.{stable_end, KeepsAll, Awaits, FirstWaits, FitsInline, HasRecordOf, IsLeastOpen, IsUnchanged, IsUsedUpBelow, IsUsedUpFor, IsWritten, NoneOpen, blob_at, body_length, buffers_of, current_begin, device_of, fault_of, fillings_of, given_up_of, heads_of, held_len, holding_below, in_blob_of, is_moved, ledger_for, ledger_of, line_of, machine_at, machine_behind, message_for, message_rewriting, next_place, noted_in, open_of, open_places, pins_of, position_of, reserved_end, sealing_end, segment_size_of, start_behind, start_of, synced_end, target_of, waiting_behind, waiting_of, writing_below, writing_pending, writing_some};
ghost use Rattle.sled_core.specs.invariants.Fits.{Holds};
ghost use Rattle.sled_codec.specs.Snapshots.{SnapshotModel, empty_model, stable_place};
ghost use Rattle.sled_store.specs.Begin.{offset_at, place_at};
ghost use Rattle.sled_codec.specs.Record.{IsHeader};
ghost use Rattle.sled_core.specs.HeaderMark.{mark_at};
ghost use Rattle.sled_core.specs.Account.{account_behind, account_of};
ghost use Rattle.sled_core.specs.Freeing.{Ledger};
ghost use Rattle.sled_core.specs.Fronts.{synced_writes, syncs};
ghost use Rattle.sled_core.specs.Grown.{GrowsFrom};
ghost use Rattle.sled_core.specs.Ledger.{ledger_behind, writings};
ghost use Rattle.sled_core.specs.ReadBuffer.{ledger_at, settling};
ghost use Rattle.sled_core.specs.Waiting.{BufferAt, HasLength, spans, write_around, write_pending, writes_below};
ghost use Rattle.sled_core.specs.WholeBuffers.{IsWholeBuffer};
ghost use Rattle.sled_core.specs.Batches.{LiesInNoFilling};
ghost use Rattle.sled_core.specs.Causes.{FaultAnswers, HeldAnswers, ReserveAnswers, ReserveCauses};
ghost use Rattle.sled_core.specs.Keeps.{GoesOn, IsSpared, KeepsLog, KeepsSeen, KeepsWriting, Preserves, PreservesWriting};
ghost use Rattle.sled_core.specs.Reasons.{ReserveFails, TellsOf, WriteFails};
ghost use Rattle.sled_core.specs.Reading.{BlobIsBelow, IsInline};
ghost use Rattle.sled_core.specs.Ready.{IsReady};
ghost use Rattle.sled_core.specs.declared.iterator.Segment.{Segment};
ghost use Rattle.sled_core.specs.Replayed.{IsDamagedBefore, IsReplayed};
ghost use Rattle.sled_core.specs.Rising.{FollowFrom, IsReadBy, RiseFrom};
ghost use Rattle.sled_core.specs.LogSegments.{AreSegments};
ghost use Rattle.sled_core.specs.Tail.{IsOrdering, Scanned, begun_below};
ghost use Rattle.sled_core.specs.Recoverable.{NoForeign, ReadsOnlyOwn, RecoverableIfOwn, LeavesRecoverable, NoHeaderOfZeros};
ghost use Rattle.sled_core.specs.invariants.Recoverable.{Recoverable};
ghost use Rattle.sled_core.specs.OnFile.{HasSegment};
ghost use Rattle.sled_core.specs.OpenPlaces.{first_between, places_from};
ghost use Rattle.sled_core.specs.Reserves.{RefusalLeaves, ReservesAs, StandsBehind, TouchesBlob, reserve_causes};
ghost use Rattle.sled_core.specs.invariants.Running.{Fits, Ready};
ghost use Rattle.sled_core.specs.Running.{IsStored, end_below};
ghost use Rattle.sled_core.specs.Manifests.{is_manifest, kind_for};
ghost use Rattle.sled_core.specs.Tickets.{is_manifest_of, len_of, own_blob, place_of, pointer_of};
ghost use Rattle.sled_core.specs.Unmarked.{without};
ghost use Rattle.sled_core.specs.Own.{IsSomeRecord, written_out_of_order, IsReachedToEnd};
ghost use Rattle.sled_core.specs.Stale.{NothingStale};
ghost use Rattle.sled_core.specs.StableEnds.{LiesIn, IsContiguousEnd, IsHalfSynced, IsStableEnd, AreApart, places_of};
ghost use Rattle.sled_codec.specs.Sums.{place_sum};

use crate::iterator::LogIter;
use crate::logger::Log;
use crate::reservation::Reservation;
use sled_codec::serialization::Checksum;
use sled_store::Device;

/// A log holds the history that it fits, and what was acknowledged lies below its stable end.
pub fn a_fitting_log_holds<D: Device, C: Checksum>()
    ensures holds { (log : Log D C) (H : History) (A f : ℕ) (U : List Message) → Fits D.trace C.sum_of log H A f U → Holds D.trace C.sum_of log H }
    ensures acknowledged { (log : Log D C) (H : History) (A f : ℕ) (U : List Message) → Fits D.trace C.sum_of log H A f U → A ≤ stable_end log }
{}

/// The messages of a history that a log fits lie below its next place, one behind another. Of a message with an inline
/// pointer no crash takes the item from a blob. The places of the messages of tickets, and the end of what was reserved,
/// lie below 2^63. The record of a message that comes is put at the next place or behind it.
pub fn messages_lie_in_order<D: Device, C: Checksum>()
    ensures below { (log : Log D C) (H : History) (A f : ℕ) (U : List Message) → Fits D.trace C.sum_of log H A f U
        → All (λ m. m.place < next_place log) H.messages }
    ensures apart { (log : Log D C) (H : History) (A f : ℕ) (U : List Message) → Fits D.trace C.sum_of log H A f U → LieApart H.messages }
    ensures stored { (log : Log D C) (m : Message) → IsInline m.pointer → IsStored D.trace C.sum_of log m }
    ensures small { (log : Log D C) (ticket : Reservation) (m : Message) → Awaits log ticket m → m.place < 2 ^ 63 }
    ensures reserved { (log : Log D C) → reserved_end log < 2 ^ 63 }
    ensures target { (log : Log D C) (page n : ℕ) → FitsInline (segment_size_of log) n → next_place log ≤ (target_of log page n).place }
{}

/// The pointer of a page can be rewritten (`Log::rewrite_blob_pointer`): where the page's Replace is in the table of a history that a log
/// fits, and has its item in a blob, no crash takes the item of the same Replace with the next record, whose blob was made before it.
/// And as long as the page is in the table so, a message may come to the history that names its blob (`MayName`).
pub fn what_is_in_the_table_can_be_rewritten<D: Device, C: Checksum>()
    ensures stored { (log : Log D C) (H : History) (A f : ℕ) (U : List Message) (m : Message) (lid : ℕ) (blob : ℤ) → Fits D.trace C.sum_of log H A f U
        → Contains (table H (next_place log) m.page) m → m.kind ≡ Replace → m.pointer ≡ Blob lid blob
        → IsStored D.trace C.sum_of log (message_rewriting log m.page blob m.bytes) }
    ensures named { (log : Log D C) (H : History) (A f : ℕ) (U : List Message) (page : ℕ) (m : Message) (blob : ℤ) → Fits D.trace C.sum_of log H A f U
        → Contains (table H (next_place log) page) m → NamesBlob m blob → IsNamedNow H blob }
{}

/// Of each entry of the table of all that there is no crash takes the item, and no write its blob, with a pin or without (`items` of `PreservesWriting`).
pub fn what_is_in_the_table_is_stored<D: Device, C: Checksum>()
    ensures stored { (log : Log D C) (H : History) (A f : ℕ) (U : List Message) (m : Message) → Fits D.trace C.sum_of log H A f U
        → Contains (table H (next_place log) m.page) m → IsStored D.trace C.sum_of log m }
    ensures spared { (log : Log D C) (H : History) (A f : ℕ) (U : List Message) (m : Message) → Fits D.trace C.sum_of log H A f U
        → Contains (table H (next_place log) m.page) m → IsSpared log m }
{}

/// What counts as acknowledged once all below a place is durable (`end_below`) is the greatest end of what begins there:
/// each message and each batch that begins below the place ends at it or before, and it is no greater than that asks.
pub fn what_is_durable_is_acknowledged()
    ensures message { (place : ℕ) (H : History) (m : Message) → Contains H.messages m → m.place < place → m.place + m.size ≤ end_below place H }
    ensures batch { (place : ℕ) (H : History) (b : Batch) → Contains H.batches b → b.low < place
        → (b.low < end_below place H) × (b.peg < end_below place H) }
    ensures least { (place n : ℕ) (H : History) → ((m : Message) → Contains H.messages m → m.place < place → m.place + m.size ≤ n)
        → ((b : Batch) → Contains H.batches b → b.low < place → (b.low < n) × (b.peg < n)) → end_below place H ≤ n }
{}

/// A log that is started on what is ready goes on at the place of its snapshot.
pub fn a_log_goes_on_where_its_snapshot_ends<C: Checksum>()
    ensures { (size : ℕ) (device : State) (s : SnapshotModel) (H : History) (A f : ℕ) → 0 < size → Ready C.sum_of size device s H A f
        → place_at size (stable_place s.stable) s.active + offset_at size (stable_place s.stable) s.active ≡ stable_place s.stable }
{}

/// What a flush wrote ends at the stable end at most.
pub fn written_messages_are_stable<D: Device, C: Checksum>()
    ensures { (log : Log D C) (H : History) → IsWritten D.trace C.sum_of log H → All (λ m. m.place + m.size ≤ synced_end log) H.messages }
{}

/// What is seen of the buffers of a log that aren't on the device: the current one, as it would be sealed, lies behind the sealed ones, from where it begins up
/// to where it ends once it is sealed, and so it does where a reservation fills its segment; each has as many bytes as places, and unless it is held up it is
/// whole records, each with its sum and of a kind that a reader knows, and those of messages that were given up with the bodies of these; none but what fills
/// the segment ends it, from where the log has it, or the current one from where what was reserved ends; one that begins its segment has the header that the
/// log has for that, and the mark of that header, and another one has no mark.
pub fn a_log_shows_its_buffers<D: Device, C: Checksum>()
    ensures current { (log : Log D C) → 0 < held_len log
        → spans (buffers_of C.sum_of log)
        ≡ spans (waiting_of log) ++ record { place = current_begin log; end = sealing_end log; lid = (start_of log).lid } ∷ [] }
    ensures empty { (log : Log D C) → held_len log ≡ 0 → buffers_of C.sum_of log ≡ waiting_of log }
    ensures behind { (log : Log D C) (page n : ℕ) → is_moved log page n ≡ true → spans (waiting_behind C.sum_of log page n)
        ≡ spans (waiting_of log) ++ record { place = current_begin log; end = (start_behind log page n).place; lid = (start_of log).lid } ∷ [] }
    ensures long { (log : Log D C) → All HasLength (buffers_of C.sum_of log) }
    ensures whole { (log : Log D C) (H : History) → Holds D.trace C.sum_of log H → fault_of log ≡ None
        → All (λ b. b.held ≡ None → IsWholeBuffer C.sum_of (segment_size_of log) (given_up_of log) (heads_of log)
        (record { next = sealing_end log; from = reserved_end log } ∷ fillings_of log) b) (buffers_of C.sum_of log) }
{}

/// Where no reservation is open, none holds a buffer up, nor a flush.
pub fn where_none_is_open_none_is_held<D: Device, C: Checksum>()
    ensures buffers { (log : Log D C) → NoneOpen log → All (λ b. b.held ≡ None) (buffers_of C.sum_of log) }
    ensures flush { (log : Log D C) → NoneOpen log → holding_below C.sum_of log (reserved_end log) ≡ None }
{}

/// The places of the open reservations of a log say what is seen of them: there are none exactly where none is open; a buffer that isn't on the device, the
/// current one as it would be sealed, is held up by the first of them within it; those from where the current buffer begins on are its own: as many as it has
/// open ones, and the first is the least place of these; and a ticket is for one of them.
pub fn open_reservations_are_seen<D: Device, C: Checksum>()
    ensures none { (log : Log D C) → NoneOpen log ↔ (open_places log ≡ []) }
    ensures held { (log : Log D C) → All (λ b. b.held ≡ first_between b.place b.end (open_places log)) (buffers_of C.sum_of log) }
    ensures count { (log : Log D C) → open_of log ≡ length (places_from (current_begin log) (open_places log)) }
    ensures least { (log : Log D C) (at : ℤ) → IsLeastOpen log at
        → (place : ℕ) × (rest : List ℕ) × (places_from (current_begin log) (open_places log) ≡ place ∷ rest) × (at ≡ pos place) }
    ensures awaits { (log : Log D C) (ticket : Reservation) (m : Message) → Awaits log ticket m → Contains (open_places log) m.place }
{}

/// What is ready for a log with more acknowledged is ready for it with less.
pub fn less_is_acknowledged_before<C: Checksum>()
    ensures { (size : ℕ) (device : State) (s : SnapshotModel) (H : History) (A less f : ℕ) → less ≤ A → Ready C.sum_of size device s H A f
        → Ready C.sum_of size device s H less f }
{}

/// What a log fits, what is ready for one and what can be recovered, now or by what a crash leaves, stays so where less counts as
/// acknowledged, and where the floor is lower. A client needs it that keeps a bound or a floor of its own, lower than the log's.
pub fn less_may_be_claimed<D: Device, C: Checksum>()
    ensures fits { (log : Log D C) (H : History) (A less f lower : ℕ) (U : List Message) → less ≤ A → lower ≤ f → Fits D.trace C.sum_of log H A f U
        → Fits D.trace C.sum_of log H less lower U }
    ensures ready { (size : ℕ) (device : State) (s : SnapshotModel) (H : History) (A less f lower : ℕ) → less ≤ A → lower ≤ f
        → Ready C.sum_of size device s H A f → Ready C.sum_of size device s H less lower }
    ensures leaves { (size : ℕ) (device : State) (H : History) (A less f lower : ℕ) → less ≤ A → lower ≤ f
        → LeavesRecoverable C.sum_of size H A f device → LeavesRecoverable C.sum_of size H less lower device }
    ensures recoverable { (size : ℕ) (content : Content) (H : History) (A less f lower : ℕ) → less ≤ A → lower ≤ f
        → Recoverable C.sum_of size content H A f → Recoverable C.sum_of size content H less lower }
{}

/// The clauses of `Log::reserve` come to one relation, `ReservesAs`. A client needs it to give a lemma of its own all that a reservation did.
pub fn a_reservation_comes_to_one_relation<D: Device, C: Checksum>()
    ensures { (kind : LogKind) (page : ℕ) (item : List ℕ) (old new : Log D C) (result : Result Reservation Error)
        → let blob = in_blob_of old (length item) in let n = body_length old (length item) in
        IfOk result (λ ticket. Awaits new ticket (message_for old kind page item))
        → OnOk result (IsStored D.trace C.sum_of new (message_for old kind page item))
        → IfOk result (λ ticket. is_manifest_of ticket ≡ is_manifest kind page)
        → IfOk result (λ ticket. own_blob ticket ≡ blob_at blob (target_of old page n).place)
        → OnOk result (StandsBehind C.sum_of old new page n)
        → ((ticket : Reservation) (m : Message) → Awaits old ticket m → Awaits new ticket m)
        → ReserveAnswers result (IsUsedUpFor old page n) (IsLeastOpen old) (reserve_causes D.trace D.faults kind page blob n old new)
        → TouchesBlob D.trace C.sum_of result blob (kind_for kind page true 8) (pos (target_of old page n).place) item old new
        → Preserves D.trace C.sum_of old new → KeepsSeen old new → RefusalLeaves C.sum_of result blob old new page n
        → ReservesAs D.trace D.faults C.sum_of result kind page item blob n old new }
{}

/// Where a call fails, it is for one of its own reasons: the end of a ticket, a call that writes buffers, and one that keeps a place. A
/// client needs it to go through these reasons, and not through all errors.
pub fn a_call_fails_for_its_own_reasons<T, D: Device, C: Checksum>()
    ensures end { (result : Result T Error) (fault : Option IoError) → FaultAnswers result fault → IfErr result (TellsOf fault) }
    ensures write { (log : Log D C) (to : ℕ) (result : Result T Error) (held : Option ℕ) (old new : Option IoError) (before after : ℕ)
        → HeldAnswers result held (IsUsedUpBelow log to) old new before after
        → IfErr result (WriteFails held (IsUsedUpBelow log to) old new before after) }
    ensures reserve { (log : Log D C) (page n : ℕ) (result : Result T Error) (at : ReserveCauses)
        → ReserveAnswers result (IsUsedUpFor log page n) (IsLeastOpen log) at → IfErr result (ReserveFails (IsUsedUpFor log page n) (IsLeastOpen log) at) }
{}

/// While a pin is out no segment is freed: the calls that write buffers are one write and one sync for each, so that as many syncs were made as
/// buffers were written, and the slots stay. It is out at each ledger at which a call begins, whether the call seals the current buffer or not.
pub fn a_pin_defers_freeing<D: Device, C: Checksum>()
    ensures below { (log : Log D C) (to : ℕ) → 0 < pins_of log → writing_below C.sum_of log to ≡ writes_below to (buffers_of C.sum_of log) }
    ensures some { (log : Log D C) (to count : ℕ) → 0 < pins_of log
        → writing_some count C.sum_of log to ≡ take (2 * count) (writes_below to (buffers_of C.sum_of log)) }
    ensures pending { (log : Log D C) (i : ℕ) → 0 < pins_of log → writing_pending log i ≡ write_pending i (waiting_of log) }
    ensures around { (log : Log D C) (lsn : ℤ) → 0 < pins_of log → settling C.sum_of log lsn
        ≡ (if int_lt lsn (pos (synced_end log)) then [] else write_around (unsigned_abs lsn) (buffers_of C.sum_of log)) }
    ensures pinned { (log : Log D C) (at : ℕ) → 0 < pins_of log → ((ledger_of log).account.pinned ≡ true)
        × ((ledger_for at log).account.pinned ≡ true) × ((ledger_at at log).account.pinned ≡ true) }
    ensures slots { (size : ℕ) (bs : List BufferAt) (l : Ledger) → l.account.pinned ≡ true → (ledger_behind size bs l).machine ≡ l.machine }
    ensures synced { (size count : ℕ) (bs : List BufferAt) (l : Ledger) (old new : Trace) → l.account.pinned ≡ true → Performs (writings size bs l) old new
        → synced_writes new ≡ count + synced_writes old → syncs new ≡ count + syncs old }
{}

/// So while a pin is out a call that writes keeps all that one keeps which frees nothing.
pub fn a_pin_keeps_all<D: Device, C: Checksum>()
    ensures { (old new : Log D C) → 0 < pins_of old → KeepsWriting D.trace C.sum_of old new → KeepsLog D.trace C.sum_of old new }
{}

/// No write removes the blob of a message that may come to the history (`MayName`), whether a pin is out or not: a blob goes with a
/// segment only where each message that names it was replaced. So the items of open tickets stay, and those of the page table.
pub fn no_write_removes_what_may_be_named<D: Device, C: Checksum>()
    ensures { (log : Log D C) (H : History) (A f : ℕ) (U : List Message) (m : Message) → Fits D.trace C.sum_of log H A f U → MayName H m
        → IsSpared log m }
{}

/// A message of the history names no blob of a place above its own. So a blob of the next place of the log, or of a higher one, is named
/// by none, and a message that has its item in such a blob may come to the history (`MayName`).
pub fn a_higher_blob_is_named_by_none<D: Device, C: Checksum>()
    ensures below { (log : Log D C) (H : History) (A f : ℕ) (U : List Message) (e : Message) → Fits D.trace C.sum_of log H A f U → Contains H.messages e
        → BlobIsBelow e e.pointer }
    ensures unnamed { (log : Log D C) (H : History) (A f : ℕ) (U : List Message) (e : Message) (blob : ℤ) → Fits D.trace C.sum_of log H A f U
        → pos (next_place log) ≤ℤ blob → Contains H.messages e → NamesBlob e blob → ⊥ }
    ensures may { (log : Log D C) (H : History) (A f : ℕ) (U : List Message) (m : Message) (lid : ℕ) (blob : ℤ) → Fits D.trace C.sum_of log H A f U
        → pos (next_place log) ≤ℤ blob → m.pointer ≡ Blob lid blob → MayName H m }
{}

/// A completed message that isn't marked yet may be marked (`Log::can_mark`): a Link as it is, and what begins its page in place of all
/// that the page is made of by what is marked. So a client that marks truthfully needn't test it.
pub fn what_is_not_marked_may_be_marked<D: Device, C: Checksum>()
    ensures link { (log : Log D C) (H : History) (A f : ℕ) (U : List Message) (m : Message) → Fits D.trace C.sum_of log H A f U → Contains U m
        → MayMark (segment_size_of log) (machine_at log) (info_of m) [] }
    ensures begins { (log : Log D C) (H : History) (A f : ℕ) (U : List Message) (m : Message) (old : List CacheInfo) → Fits D.trace C.sum_of log H A f U
        → Contains U m → IsFormerList (without U H) m.page old → MayMark (segment_size_of log) (machine_at log) (info_of m) old }
{}

/// Marks join with the writes of buffers, whatever is freed behind them.
pub fn marks_join_with_what_is_written()
    ensures { (size : ℕ) (bs : List BufferAt) (l : Ledger) → (ledger_behind size bs l).account ≡ account_behind bs l.account }
{}

/// The mark of a buffer that begins with the header of its segment is that header's.
pub fn a_mark_is_that_of_its_header()
    ensures { (sum : List ℕ → ℕ) (bytes rest : List ℕ) (lsn mark : ℤ) → IsHeader sum bytes lsn mark → mark_at 0 (bytes ++ rest) ≡ Some mark }
{}

/// Where no reservation was open, none is as long as nothing of the log is another.
pub fn an_unchanged_log_has_none_open<D: Device, C: Checksum>()
    ensures { (old new : Log D C) → IsUnchanged old new → NoneOpen old → NoneOpen new }
{}

/// A place that code keeps in a value of its own, and so casts to a word and back, is that place.
pub fn a_place_comes_back()
    ensures { (z : ℤ) (n : ℕ) → z ≡ pos n → n < 2 ^ 63 → pos n ≡ cast_signed w64 (cast_unsigned w64 z) }
{}

/// A ticket says where its message lies, how long its record is, and whether it is the manifest of a batch.
pub fn a_ticket_says_the_place<D: Device, C: Checksum>()
    ensures { (log : Log D C) (ticket : Reservation) (m : Message) → Awaits log ticket m
        → (pos m.place ≡ place_of ticket) × (m.pointer ≡ pointer_of ticket) × (m.size ≡ len_of ticket) × (is_manifest_of ticket ≡ is_manifest m.kind m.page) }
{}

/// What a crash leaves now of the device of a log can be recovered, without any call.
pub fn a_crash_now_loses_nothing<D: Device, C: Checksum>()
    ensures { (log : Log D C) (H : History) (A f : ℕ) (U : List Message) → Fits D.trace C.sum_of log H A f U
        → LeavesRecoverable C.sum_of (segment_size_of log) H A f (state_of (D.trace (device_of log))) }
{}

/// What two calls keep one behind the other both of them keep, and where nothing is done all is kept. So it is with calls that write, behind which segments may
/// come free: two in a row keep what one does, and one that frees nothing keeps at least that, where no blob goes with a segment that didn't.
pub fn calls_keep_together<D: Device, C: Checksum>()
    ensures none { (log : Log D C) → Preserves D.trace C.sum_of log log }
    ensures both { (old mid new : Log D C) → Preserves D.trace C.sum_of old mid → Preserves D.trace C.sum_of mid new → Preserves D.trace C.sum_of old new }
    ensures goes_on { (old mid new : Log D C) → Preserves D.trace C.sum_of old mid → GoesOn D.trace C.sum_of mid new → GoesOn D.trace C.sum_of old new }
    ensures writing { (old mid new : Log D C) → KeepsWriting D.trace C.sum_of old mid → KeepsWriting D.trace C.sum_of mid new
        → KeepsWriting D.trace C.sum_of old new }
    ensures frees_nothing { (old new : Log D C) → KeepsLog D.trace C.sum_of old new
        → ((k : ℕ) (blob : ℤ) → Contains (slot_at (machine_at new) k).blobs blob → (j : ℕ) × Contains (slot_at (machine_at old) j).blobs blob)
        → KeepsWriting D.trace C.sum_of old new }
{}

/// The greatest place that was reserved lies in nothing that fills a segment, so a batch may end there; and the batches that are noted end at or below it.
pub fn batches_end_in_what_was_reserved<D: Device, C: Checksum>()
    ensures filled { (log : Log D C) → LiesInNoFilling (segment_size_of log) (line_of log) (pos (reserved_end log) -ℤ pos 1) }
    ensures noted { (log : Log D C) (b : Batch) → Contains (noted_in log) b → b.peg < reserved_end log }
{}

/// The stable end of a log is that of the interval that is on its device without a gap, from behind any place in it on, and of
/// the batches that it noted (`specs/StableEnds.antt`): as a `StabilityIntervals` would have it that knew of these.
pub fn a_log_is_stable_as_its_intervals_are<D: Device, C: Checksum>()
    ensures { (log : Log D C) (s : ℤ) → s <ℤ pos (synced_end log)
        → IsStableEnd s ((s +ℤ pos 1, pos (synced_end log) -ℤ pos 1) ∷ []) (map places_of (noted_in log)) (pos (stable_end log) -ℤ pos 1) }
{}

/// The stable end isn't behind what is on the device without a gap. It never falls, where a call notes no batch, whatever comes free by it;
/// it stays where what is written and noted stays.
pub fn the_stable_end_never_falls<D: Device, C: Checksum>()
    ensures reached { (log : Log D C) → stable_end log ≤ synced_end log }
    ensures keeps { (old new : Log D C) → Preserves D.trace C.sum_of old new → stable_end old ≤ stable_end new }
    ensures writes { (old new : Log D C) → PreservesWriting D.trace C.sum_of old new → stable_end old ≤ stable_end new }
    ensures same { (old new : Log D C) → KeepsAll old new → stable_end new ≡ stable_end old }
{}

/// All before the synced end is on the device without a gap, and there the first of the buffers begins that aren't, or the current
/// one. So it is where it was as long as these are the same, as behind a read of a place below it.
pub fn the_first_buffer_waits_behind_what_is_synced<D: Device, C: Checksum>()
    ensures first { (log : Log D C) → FirstWaits (synced_end log) (current_begin log) (waiting_of log) }
    ensures same { (old new : Log D C) → waiting_of new ≡ waiting_of old → start_of new ≡ start_of old → synced_end new ≡ synced_end old }
{}

/// A log has the record of each message that begins where what is synced ends, or behind that, and of each that is in the table of all
/// that is synced, or of more. The mark that joined isn't above what is synced, where the log holds a history.
pub fn what_is_not_synced_has_its_record<D: Device, C: Checksum>()
    ensures mark { (log : Log D C) (H : History) → Holds D.trace C.sum_of log H → (account_of log).mark ≤ℤ pos (synced_end log) }
    ensures unsynced { (log : Log D C) (H : History) (m : Message) → synced_end log ≤ m.place → HasRecordOf log H m }
    ensures entry { (log : Log D C) (H : History) (m : Message) (cut : ℕ) → synced_end log ≤ cut → Contains (table H cut m.page) m
        → HasRecordOf log H m }
{}

/// While the mark that joined stays, as it does while a pin is out (`joined` of `SamePlace`), a log goes on having the record of each
/// entry of a table from that mark on, whatever comes to its page from there on. So what a reader saw under a pin it goes on reading until
/// the pin goes back, also once it was replaced.
pub fn what_was_in_a_table_keeps_its_record<D: Device, C: Checksum>()
    ensures { (old new : Log D C) (H H' : History) (m : Message) (cut : ℕ) → Holds D.trace C.sum_of old H → Holds D.trace C.sum_of new H'
        → (account_of new).mark ≡ (account_of old).mark → GrowsFrom (account_of old).mark m H H' → (account_of old).mark ≤ℤ pos cut
        → Contains (table H cut m.page) m → HasRecordOf new H' m }
{}

/// The history of a log grows as that law asks (`GrowsFrom`), call by call. What a ticket awaits lies at the mark or above it, so each message that is
/// completed may come, but a Free in front of a Link of its page; a batch brings no message; and it grows so by what both of two calls do.
pub fn a_history_grows_from_the_mark<D: Device, C: Checksum>()
    ensures awaited { (log : Log D C) (H : History) (ticket : Reservation) (m : Message) → Holds D.trace C.sum_of log H → Awaits log ticket m
        → (account_of log).mark ≤ℤ pos m.place }
    ensures completed { (mark : ℤ) (m : Message) (H H' : History) (c : Message) → Step H (Completed c) H' → mark ≤ℤ pos c.place
        → (m.kind ≡ Link → c.page ≡ m.page → c.kind ≡ Free → m.place ≤ c.place) → GrowsFrom mark m H H' }
    ensures same { (mark : ℤ) (m : Message) (H H' : History) → H'.messages ≡ H.messages → GrowsFrom mark m H H' }
    ensures both { (mark : ℤ) (m : Message) (old mid new : History) → GrowsFrom mark m old mid → GrowsFrom mark m mid new → GrowsFrom mark m old new }
{}

/// A log still has the segment of each message that it has the record of: so its iterator passes over none of them for want of a segment.
pub fn what_has_its_record_has_its_segment<D: Device, C: Checksum>()
    ensures { (log : Log D C) (H : History) (A f : ℕ) (U : List Message) (m : Message) → Fits D.trace C.sum_of log H A f U → Contains H.messages m
        → HasRecordOf log H m → HasSegment (machine_at log) (m.place / segment_size_of log * segment_size_of log) }
{}

/// The slot that is handed out next has no segment that a table from the stable end on needs: each of those is in another slot. The mark that
/// joined, which is what lets segments go, isn't above the stable end. So it is as long as the log keeps no failure; what is said of slots is so
/// with a failure, too, where twenty zeros pass as no header.
pub fn the_next_slot_is_not_needed<D: Device, C: Checksum>()
    ensures mark { (log : Log D C) (H : History) (A f : ℕ) (U : List Message) → Fits D.trace C.sum_of log H A f U → fault_of log ≡ None
        → (account_of log).mark ≤ℤ pos (stable_end log) }
    ensures needed { (log : Log D C) (H : History) (A f : ℕ) (U : List Message) (cut place : ℕ) → Fits D.trace C.sum_of log H A f U
        → (fault_of log ≡ None) ⊎ NoHeaderOfZeros C.sum_of → stable_end log ≤ cut → IsNeeded (segment_size_of log) H cut place
        → (k : ℕ) × IsIn (machine_at log) k place × (k ≢ next_slot (machine_at log)) }
{}

/// While a pin is out a slot keeps its segment, whatever is called: a reservation hands out a slot that was free, and so does a call that seals the
/// current buffer; a write frees none then; and marks change no segment. So what was in the table when a pin was taken (law
/// `what_has_its_record_has_its_segment`) goes on being read until the pin goes back (`stored` and `inline` of `ReadsMessage`), whatever comes to
/// its page: also once it is replaced, and once the page is given back, in whatever order the messages are completed.
pub fn a_pin_keeps_segments<D: Device, C: Checksum>()
    ensures reserved { (log : Log D C) (H : History) (A f : ℕ) (U : List Message) (page n place : ℕ) → Fits D.trace C.sum_of log H A f U
        → HasSegment (machine_at log) place → HasSegment (machine_behind log page n) place }
    ensures next { (log : Log D C) (H : History) (A f : ℕ) (U : List Message) (place : ℕ) → Fits D.trace C.sum_of log H A f U
        → HasSegment (machine_at log) place → HasSegment (position_of log).machine place }
    ensures sealed { (log : Log D C) (H : History) (A f : ℕ) (U : List Message) (at place : ℕ) → Fits D.trace C.sum_of log H A f U
        → HasSegment (machine_at log) place → HasSegment (ledger_for at log).machine place × HasSegment (ledger_at at log).machine place }
    ensures written { (size : ℕ) (bs : List BufferAt) (l : Ledger) (place : ℕ) → l.account.pinned ≡ true → HasSegment l.machine place
        → HasSegment (ledger_behind size bs l).machine place }
    ensures linked { (size pid : ℕ) (info : CacheInfo) (m : Machine) (place : ℕ) → MayMark size m info [] → HasSegment m place
        → HasSegment (linked size pid info m) place }
    ensures replaced { (size pid : ℕ) (info : CacheInfo) (old : List CacheInfo) (m : Machine) (place : ℕ) → MayMark size m info old → HasSegment m place
        → HasSegment (replaced size pid info old m) place }
{}

/// What can be recovered at each moment of one call and of the next can be at each moment of both.
pub fn moments_follow_one_another<C: Checksum>()
    ensures here { (size : ℕ) (H : History) (A f : ℕ) (trace : Trace) → LeavesRecoverable C.sum_of size H A f (state_of trace)
        → LeavesOnly (RecoverableIfOwn C.sum_of size H A f) trace trace }
    ensures both { (size : ℕ) (H : History) (A f : ℕ) (old mid new : Trace) → LeavesOnly (RecoverableIfOwn C.sum_of size H A f) old mid
        → LeavesOnly (RecoverableIfOwn C.sum_of size H A f) mid new → LeavesOnly (RecoverableIfOwn C.sum_of size H A f) old new }
    ensures last { (size : ℕ) (H : History) (A f : ℕ) (old new : Trace) → LeavesOnly (RecoverableIfOwn C.sum_of size H A f) old new
        → LeavesRecoverable C.sum_of size H A f (state_of new) }
    ensures later { (size : ℕ) (H : History) (A f : ℕ) (old new : Trace) → LeavesOnly (RecoverableIfOwn C.sum_of size H A f) old new → IsLater old new }
{}

/// A log can be started on an empty device, with nothing in its history, and a recovery can go on from what a crash leaves of it.
pub fn an_empty_device_is_ready<C: Checksum>()
    ensures ready { (size : ℕ) → 256 ≤ size → size < 2 ^ 63 → Ready C.sum_of size fresh empty_model no_history 0 0 }
    ensures leaves { (size : ℕ) → 256 ≤ size → size < 2 ^ 63 → LeavesRecoverable C.sum_of size no_history 0 0 fresh }
    ensures recoverable { (size : ℕ) → 256 ≤ size → size < 2 ^ 63
        → Recoverable C.sum_of size (record { log = []; blobs = λ n. None; snapshots = λ n. None }) no_history 0 0 }
    ensures no_log { (size : ℕ) (device : State) → device.log ≡ at_rest [] → ((n : ℤ) → device.snapshots.file n ≡ None)
        → IsReady C.sum_of size device empty_model no_history }
{}

/// What a crash leaves can be recovered, and so can what the next crash leaves; and what is read behind a crash is the log's own.
pub fn a_crash_leaves_what_can_be_recovered<C: Checksum>()
    ensures now { (size : ℕ) (H : History) (A f : ℕ) (trace : Trace) → LeavesRecoverable C.sum_of size H A f (state_of trace)
        → ReadsOnlyOwn C.sum_of size (state_of trace) → Recoverable C.sum_of size (content_of (state_of trace)) H A f }
    ensures crash { (size : ℕ) (H : History) (A f : ℕ) (trace : Trace) (left : Left) → LeavesRecoverable C.sum_of size H A f (state_of trace)
        → Leaves (state_of trace) (content_left left (state_of trace)) → NoForeign C.sum_of size (state_of trace) (content_left left (state_of trace))
        → Recoverable C.sum_of size (content_left left (state_of trace)) H A f × LeavesRecoverable C.sum_of size H A f (state_of (Crashed left ∷ trace)) }
{}

/// Where nothing that is read is foreign, what is read is the log's own.
pub fn what_is_not_foreign_is_the_logs_own()
    ensures { (sum : List ℕ → ℕ) (size : ℕ) (s : State) → NoForeign sum size s (content_of s) → ReadsOnlyOwn sum size s }
{}

/// What is read of the device of a log that fits a history is the log's own, as long as the log keeps no failure and the mark that
/// joined isn't above the floor. A log that was started on what a recovery gave has the floor for its mark, and while a pin is out no
/// other one joins. (Once a higher one does segments may be freed, and the file may have bytes of theirs that look like the log's own.)
pub fn what_a_log_reads_is_its_own<D: Device, C: Checksum>()
    ensures { (log : Log D C) (H : History) (A f : ℕ) (U : List Message) → Fits D.trace C.sum_of log H A f U → fault_of log ≡ None → NoHeaderOfZeros C.sum_of
        → (account_of log).mark ≤ℤ pos f → ReadsOnlyOwn C.sum_of (segment_size_of log) (state_of (D.trace (device_of log))) }
{}

/// So it is also where a higher mark joined, as long as nothing in the file is stale (`NothingStale`): free slots have zeros, and so has what
/// isn't written yet of the segments that were begun.
pub fn what_a_log_reads_is_its_own_unless_stale<D: Device, C: Checksum>()
    ensures { (log : Log D C) (H : History) (A f : ℕ) (U : List Message) → Fits D.trace C.sum_of log H A f U → fault_of log ≡ None → NoHeaderOfZeros C.sum_of
        → NothingStale D.trace log → ReadsOnlyOwn C.sum_of (segment_size_of log) (state_of (D.trace (device_of log))) }
{}

/// On an empty device nothing is foreign, where twenty zeros pass as no header (`NoHeaderOfZeros`).
pub fn nothing_is_foreign_on_an_empty_device()
    ensures { (sum : List ℕ → ℕ) (size : ℕ) → NoHeaderOfZeros sum → NoForeign sum size fresh (content_of fresh) }
{}

/// After one write to an empty log file nothing is foreign in what a crash leaves that loses all of it, whatever was written,
/// nor in what is read, before a sync and after it, where it is no longer than a segment: as long as twenty zeros pass as no
/// header (`NoHeaderOfZeros`). (A write that a file keeps half is what `NoForeign` is a premise for.)
pub fn nothing_is_foreign_after_the_first_write()
    ensures read { (sum : List ℕ → ℕ) (size : ℕ) (text : List ℕ) → NoHeaderOfZeros sum → length text ≤ size
        → NoForeign sum size (state_of (Wrote 0 text text ∷ [])) (content_of (state_of (Wrote 0 text text ∷ []))) }
    ensures synced { (sum : List ℕ → ℕ) (size : ℕ) (text : List ℕ) → NoHeaderOfZeros sum → length text ≤ size
        → NoForeign sum size (state_of (Synced ∷ Wrote 0 text text ∷ [])) (content_of (state_of (Synced ∷ Wrote 0 text text ∷ []))) }
    ensures lost { (sum : List ℕ → ℕ) (size : ℕ) (text : List ℕ) → NoHeaderOfZeros sum
        → NoForeign sum size (state_of (Wrote 0 text text ∷ [])) (content_left (Settled []) (state_of (Wrote 0 text text ∷ []))) }
{}

/// A record that was written before the one in front of it isn't foreign, not even before that one is synced, where both lie in
/// the first segment and twenty zeros pass as no header (`NoHeaderOfZeros`).
pub fn nothing_is_foreign_where_records_come_out_of_order()
    ensures { (sum : List ℕ → ℕ) (size : ℕ) (header first second third : List ℕ) → NoHeaderOfZeros sum → length header ≡ 20
        → IsSomeRecord sum first → IsSomeRecord sum second → IsSomeRecord sum third → 20 + length first + length second + length third ≤ size
        → NoForeign sum size (state_of (written_out_of_order header first second third))
        (content_of (state_of (written_out_of_order header first second third))) }
{}

/// What is read stays without anything foreign when the log file is synced.
pub fn nothing_becomes_foreign_by_a_sync()
    ensures { (sum : List ℕ → ℕ) (size : ℕ) (s : State) → NoForeign sum size s (content_of s)
        → NoForeign sum size (step Synced s) (content_of (step Synced s)) }
{}

/// What a crash left stays without anything foreign once it is what is read.
pub fn nothing_becomes_foreign_after_a_crash()
    ensures { (sum : List ℕ → ℕ) (size : ℕ) (left : Left) (s : State) → NoForeign sum size s (content_left left s)
        → NoForeign sum size (step (Crashed left) s) (content_of (step (Crashed left) s)) }
{}

/// Twenty zeros pass as no header, where the checksum of sixteen zeros isn't all ones: so under the checksum for tests.
pub fn zeros_are_no_header()
    ensures general { (sum : List ℕ → ℕ) → sum (replicate 16 0) < 2 ^ 32 - 1 → NoHeaderOfZeros sum }
    ensures place_sum { NoHeaderOfZeros place_sum }
{}

/// A write at the end of the records makes nothing foreign: neither in what is read, where it ends within the first segment and a
/// reader comes along the records to the end of the file (`IsReachedToEnd`), nor where it is lost after a sync.
pub fn nothing_becomes_foreign_by_a_write_behind()
    ensures read { (sum : List ℕ → ℕ) (size : ℕ) (s : State) (text : List ℕ) → NoForeign sum size s (content_of s) → 20 ≤ length s.log.bytes
        → length s.log.bytes + length text ≤ size → IsReachedToEnd sum size s.log.bytes
        → NoForeign sum size (step (Wrote (length s.log.bytes) text text) s) (content_of (step (Wrote (length s.log.bytes) text text) s)) }
    ensures lost { (sum : List ℕ → ℕ) (size : ℕ) (s : State) (at : ℕ) (asked now : List ℕ) → NoForeign sum size s (content_of s)
        → NoForeign sum size (step (Wrote at asked now) (step Synced s)) (content_left (Settled []) (step (Wrote at asked now) (step Synced s))) }
{}

/// Intervals have one contiguous end, and with batches one stable end.
pub fn there_is_one_stable_end()
    ensures contiguous { (s : ℤ) (is : List (ℤ × ℤ)) (e e' : ℤ) → IsContiguousEnd s is e → IsContiguousEnd s is e' → e ≡ e' }
    ensures stable { (s : ℤ) (is bs : List (ℤ × ℤ)) (r r' : ℤ) → IsStableEnd s is bs r → IsStableEnd s is bs r' → r ≡ r' }
{}

/// Where batches share no place, none has the stable end inside it, below its peg.
pub fn no_batch_is_cut_in_two()
    ensures { (s : ℤ) (is bs : List (ℤ × ℤ)) (r : ℤ) → IsStableEnd s is bs r → All (λ b. b.0 ≤ℤ b.1) bs
        → ((a b : ℤ × ℤ) → Contains bs a → Contains bs b → (a ≡ b) ⊎ AreApart a b) → All (λ b. IsHalfSynced r b → ⊥) bs }
{}

/// A place above the start that is in no interval lies beyond the contiguous end.
pub fn places_not_synced_are_beyond()
    ensures { (s : ℤ) (is : List (ℤ × ℤ)) (e p : ℤ) → IsContiguousEnd s is e → s <ℤ p → All (λ i. LiesIn p i → ⊥) is → e <ℤ p }
{}

/// An iterator of a log only reads it, call by call, and gives it back (`LogIter::into_log`).
pub fn an_iterator_only_reads_its_log<D: Device, C: Checksum>()
    ensures begun { (entry : MutBor (Log D C)) (it : LogIter D C) → BorrowsLog entry it → IsOverLog D.trace C.sum_of entry it }
    ensures next { (entry : MutBor (Log D C)) (old : LogIter D C) (item : Option (Result Item Error)) (new : LogIter D C)
        → IsNext D.trace D.faults C.sum_of old item new → IsOverLog D.trace C.sum_of entry old → IsOverLog D.trace C.sum_of entry new }
    ensures back { (entry : MutBor (Log D C)) (it : LogIter D C) (result : Option (MutBor (Log D C)))
        → IsOverLog D.trace C.sum_of entry it → IsLogOf it result
        → (r : MutBor (Log D C)) × (result ≡ Some r) × (r.ghost_name ≡ entry.ghost_name) × IsOnlyRead D.trace C.sum_of entry.now r.now }
{}

/// An iterator gives messages of ever greater places, whatever bytes stand in the file, where its segments lie one behind another (`FollowFrom`):
/// so the segments lie that are found in a file, and those of a log. Of a list with other numbers than bytes the same is said where each segment
/// can be read in some way (`IsReadBy`).
pub fn an_iteration_rises<D: Device, C: Checksum>()
    ensures rises { (sum : List ℕ → ℕ) (size : ℕ) (log : List ℕ) (blobs : ℤ → Option (List ℕ)) (end : ℕ) (strict : Bool) (low : ℕ) (ss : List Segment)
        (items : List Item) (damage : Damage) → FollowFrom size low ss → ((s : Segment) → Contains ss s → IsReadBy sum size log end s)
        → IsIteration sum size log blobs end strict ss items damage → RiseFrom low items }
    ensures bytes { (sum : List ℕ → ℕ) (size : ℕ) (log : List ℕ) (blobs : ℤ → Option (List ℕ)) (end : ℕ) (strict : Bool) (low : ℕ) (ss : List Segment)
        (items : List Item) (damage : Damage) → All (λ b. b < 256) log → FollowFrom size low ss
        → IsIteration sum size log blobs end strict ss items damage → RiseFrom low items }
    ensures found { (sum : List ℕ → ℕ) (size : ℕ) (log : List ℕ) (least end : ℕ) (ordering : List Segment) → 0 < size
        → IsOrdering sum size log least ordering → FollowFrom size least (begun_below end ordering) }
    ensures of_log { (log : Log D C) (H : History) (A f : ℕ) (U : List Message) (from to : ℕ) (ss : List Segment) → Fits D.trace C.sum_of log H A f U
        → AreSegments (segment_size_of log) (machine_at log) from to ss → FollowFrom (segment_size_of log) from ss }
{}

/// A segment is read in one way. So one reading of it says what an iterator gives of it and of those behind it: up to a batch that is
/// open or to its end, or up to a damaged record. It must have its header where the iterator is strict.
pub fn one_reading_says_what_is_given()
    ensures replayed { (sum : List ℕ → ℕ) (size : ℕ) (log : List ℕ) (blobs : ℤ → Option (List ℕ)) (end : ℕ) (strict : Bool) (ss : List Segment)
        (items : List Item) (damage : Damage) (x : Scanned) → (IsMissing strict sum log x.segment → ⊥) → IsReplayed sum size log end x
        → GivesOf sum blobs end x.met (GivesBehind strict x.why (IsIteration sum size log blobs end strict ss)) items damage
        → IsIteration sum size log blobs end strict (x.segment ∷ ss) items damage }
    ensures damaged { (sum : List ℕ → ℕ) (size : ℕ) (log : List ℕ) (blobs : ℤ → Option (List ℕ)) (end : ℕ) (strict : Bool) (s : Segment) (ss : List Segment)
        (items : List Item) (damage : Damage) → (IsMissing strict sum log s → ⊥) → (d : IsDamagedBefore sum size log end s)
        → GivesOf sum blobs end d.met (EndsAt end (s.place + d.next)) items damage
        → IsIteration sum size log blobs end strict (s ∷ ss) items damage }
{}
