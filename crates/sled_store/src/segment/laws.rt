//! Laws of the segments that come back, each the contract of a function that does nothing: what truthful marks of all
//! messages of a history (`specs/Marks.antt`) make of the segments (`specs/SegmentStates.antt`). A segment whose pages
//! are all replaced holds no entry of the page table, and no slot that is free, or handed out next, holds an entry of a
//! table below a cut that the mark's segment doesn't pass.
ghost use Rattle.std.specs.Prelude.{◌≡◌, ◌≢◌, ◌⊎◌, ◌+◌, ◌*◌, ◌/◌, ◌%◌, ◌^◌, ◌<◌, ◌≤◌, ℕ, ℤ, pos, true, false, List, [], Some, Contains, get_or, map};
ghost use Rattle.std.specs.List.{sum_by};
ghost use Rattle.sled_codec.specs.History.{AddsMessage, Message, History, begins_page, no_history, table};
ghost use Rattle.sled_codec.specs.PageTables.{IsTable};
ghost use Rattle.sled_codec.specs.Snapshots.{Page, Uninitialized};
ghost use Rattle.sled_codec.specs.WellFormed.{LieApart};
ghost use Rattle.sled_store.specs.Begin.{entries_in};
ghost use Rattle.sled_store.specs.Marks.{Completes, HasReplacement, IsCounted, IsFormerList, IsFormerState, IsIn, IsLinked, IsNeeded, IsNewPlace, IsPast, IsSuperseded, Marked, greatest_mark, info_of, slot_with, standing_size, told_of};
ghost use Rattle.sled_store.specs.Outdated.{AreOutdated, MayName, NamesBlob, NoneShares};
ghost use Rattle.sled_store.specs.SegmentStates.{Machine, MayMark, handed_out, is_active, is_due, is_free, linked, next_slot, popped, replaced, segment_in, slot_at, stabilized, unused_machine};
ghost use Rattle.sled_store.specs.Tracked.{IsAccountOf, IsHeld};
ghost use Rattle.sled_store.specs.declared.segment.slot.CacheInfo.{CacheInfo};

/// Each message is linked to the segment that its slot holds, or a later one has replaced its page, in a segment that
/// ends where the mark's begins, or below. So a slot that is freed has waited for all that replaced its pages.
pub fn messages_are_linked_or_superseded()
    ensures { (size mark : ℕ) (H : History) (m : Machine) (e : Message) → Marked size mark H m → Contains H.messages e
        → IsLinked size m e ⊎ IsSuperseded size (mark / size * size) H e }
{}

/// Each entry of the table of all messages is counted in its slot.
pub fn entries_are_counted()
    ensures { (size mark : ℕ) (H : History) (m : Machine) (cut page : ℕ) (e : Message) → Marked size mark H m
        → IsPast H cut → Contains (table H cut page) e → IsCounted size m e }
{}

/// A slot whose pages are all replaced holds no entry of the table of all messages.
pub fn done_segments_hold_no_entry()
    ensures { (size mark : ℕ) (H : History) (m : Machine) (cut page k : ℕ) (e : Message) → Marked size mark H m
        → IsPast H cut → (slot_at m k).gone ≡ (slot_at m k).pages → Contains (table H cut page) e → slot_with size e ≢ k }
{}

/// Each entry of a table below a cut that the mark's segment doesn't pass is linked to the segment that it lies in.
pub fn tables_above_the_mark_are_linked()
    ensures { (size mark : ℕ) (H : History) (m : Machine) (cut page : ℕ) (e : Message) → Marked size mark H m
        → mark / size * size ≤ cut → Contains (table H cut page) e → IsLinked size m e }
{}

/// The same of a table of more messages than are marked, for each of its entries that is.
pub fn tables_of_more_messages_are_linked()
    ensures { (size mark : ℕ) (H G : History) (m : Machine) (cut page : ℕ) (e : Message) → Marked size mark H m
        → ((x : Message) → Contains H.messages x → Contains G.messages x) → LieApart G.messages
        → mark / size * size ≤ cut → Contains H.messages e → Contains (table G cut page) e → IsLinked size m e }
{}

/// No entry of a table below such a cut lies in a slot that is free, as the one that is handed out next is: each segment
/// that is needed below such a cut is in another slot.
pub fn free_slots_are_not_needed()
    ensures free { (size mark : ℕ) (H : History) (m : Machine) (cut page k : ℕ) (e : Message) → Marked size mark H m
        → mark / size * size ≤ cut → Contains (table H cut page) e → is_free (slot_at m k).state ≡ true → slot_with size e ≢ k }
    ensures next { (size mark : ℕ) (H : History) (m : Machine) → Marked size mark H m → is_free (slot_at m (next_slot m)).state ≡ true }
    ensures needed { (size mark : ℕ) (H : History) (m : Machine) (cut place : ℕ) → Marked size mark H m
        → mark / size * size ≤ cut → IsNeeded size H cut place → (k : ℕ) × IsIn m k place × (k ≢ next_slot m) }
{}

/// The former state of a page, with its lengths, is a former list, for which any lengths may be told.
pub fn former_states_are_former_lists()
    ensures { (H : History) (page : ℕ) (old : List CacheInfo) → IsFormerState H page old → IsFormerList H page old }
{}

/// A client that has no more than the page table may mark: what a start counts of a page (`entries_in`, with 32 for one
/// that was given back) is a former list of it.
pub fn a_tables_entries_are_former_lists()
    ensures { (H : History) (cut page : ℕ) (pages : List Page) → IsTable pages H cut → IsPast H cut
        → IsFormerList H page (map told_of (entries_in (get_or pages page Uninitialized))) }
{}

/// A message in an active segment may be marked in place of its page's former state: that lies in segments, whatever
/// lengths are told of it.
pub fn former_states_may_be_marked()
    ensures { (size mark : ℕ) (H : History) (m : Machine) (x : Message) (old : List CacheInfo) → Marked size mark H m
        → IsFormerList H x.page old → MayMark size m (info_of x) [] → MayMark size m (info_of x) old }
{}

/// A message from the mark's segment on is linked: no segment goes from there on.
pub fn messages_from_the_mark_are_linked()
    ensures { (size mark : ℕ) (H : History) (m : Machine) (e : Message) → Marked size mark H m → Contains H.messages e
        → mark / size * size ≤ e.place → IsLinked size m e }
{}

/// The segment at a place is in one slot at most, and one that isn't active ends where the mark's begins, or below.
pub fn segments_lie_apart()
    ensures one_slot { (size mark : ℕ) (H : History) (m : Machine) (j k place : ℕ) → Marked size mark H m
        → IsIn m j place → IsIn m k place → j ≡ k }
    ensures aligned { (size mark : ℕ) (H : History) (m : Machine) (k place : ℕ) → Marked size mark H m
        → IsIn m k place → place % size ≡ 0 }
    ensures stable { (size mark : ℕ) (H : History) (m : Machine) (k place : ℕ) → Marked size mark H m
        → IsIn m k place → is_active (slot_at m k).state ≡ false → place + size ≤ mark / size * size }
{}

/// A page that is gone from a segment was linked there, and a message in a later segment has replaced it.
pub fn gone_pages_are_replaced()
    ensures linked { (size mark : ℕ) (H : History) (m : Machine) (k page : ℕ) → Marked size mark H m
        → Contains (slot_at m k).gone page → Contains (slot_at m k).pages page }
    ensures replaced { (size mark : ℕ) (H : History) (m : Machine) (k page : ℕ) → Marked size mark H m
        → Contains (slot_at m k).gone page → HasReplacement size H (slot_at m k) page }
{}

/// The free waits: where a mark frees a slot, the segment of its latest replacement ends where the greatest mark's
/// begins, or below, and so isn't active any more.
pub fn frees_wait_for_the_latest_replacement()
    ensures { (size mark : ℕ) (H : History) (m : Machine) (next : ℤ) (k place : ℕ) → Marked size mark H m
        → is_free (slot_at m k).state ≡ false → is_free (slot_at (stabilized size next m).machine k).state ≡ true
        → (slot_at m k).latest ≡ Some place → place + size ≤ greatest_mark mark next / size * size }
{}

/// Where all messages sum up to less than 2^64, a slot holds at least what its messages sum up to that no later one of
/// their page has replaced, and so the size of each entry of the table of all messages that lies there.
pub fn slots_hold_their_entries()
    ensures standing { (size mark : ℕ) (H : History) (m : Machine) (k : ℕ) → Marked size mark H m
        → sum_by (λ e. e.size) H.messages < 2 ^ 64 → standing_size size H k ≤ (slot_at m k).held }
    ensures entries { (size mark : ℕ) (H : History) (m : Machine) (cut page : ℕ) (e : Message) → Marked size mark H m
        → sum_by (λ x. x.size) H.messages < 2 ^ 64 → IsPast H cut → Contains (table H cut page) e → e.size ≤ (slot_at m (slot_with size e)).held }
{}

/// Slots come back: there is a history after whose truthful marks a slot is taken, and a mark frees it.
pub fn marks_free_slots()
    ensures { (H : History) × (m : Machine) × Marked 256 0 H m × (is_free (slot_at m 0).state ≡ false)
        × (is_free (slot_at (stabilized 256 (pos 768) m).machine 0).state ≡ true) }
{}

/// The account of a history, whose tables count from a base on, goes on. Nothing was marked of an unused log. Handing out
/// a slot and asking the cleaner for a page keep it; a message that is linked, or that is there in place of its page's
/// former state, makes it that of the history with the message; and a mark that is made stable raises the base.
pub fn accounts_go_on()
    ensures unused { (size base : ℕ) → IsAccountOf size base no_history unused_machine }
    ensures hands_out { (size base : ℕ) (H : History) (m : Machine) (place : ℕ) → IsAccountOf size base H m → IsNewPlace size place m
        → IsAccountOf size base H (handed_out place m) }
    ensures links { (size base : ℕ) (H : History) (m : Machine) (x : Message) (H' : History) → 0 < size → LieApart H.messages → IsAccountOf size base H m
        → Completes H x H' → MayMark size m (info_of x) [] → IsAccountOf size base H' (linked size x.page (info_of x) m) }
    ensures replaces { (size base : ℕ) (H : History) (m : Machine) (x : Message) (H' : History) (old : List CacheInfo) → 0 < size → LieApart H.messages
        → IsAccountOf size base H m → Completes H x H' → MayMark size m (info_of x) [] → begins_page x.kind ≡ true → IsFormerList H x.page old
        → IsAccountOf size base H' (replaced size x.page (info_of x) old m) }
    ensures stabilizes { (size base : ℕ) (H : History) (m : Machine) (next : ℤ) (raised : ℕ) → 0 < size → LieApart H.messages → IsAccountOf size base H m
        → base ≤ raised → ((place : ℕ) → is_due size next place ≡ true → place + size ≤ raised) → IsAccountOf size raised H (stabilized size next m).machine }
    ensures pops { (size base : ℕ) (H : History) (m : Machine) → IsAccountOf size base H m
        → IsAccountOf size base H (record m { cleaner = popped m.cleaner }) }
{}

/// What a table from the base of an account on has is in the slot of its segment, and so each segment that is needed
/// there is in another slot than the one that is handed out next.
pub fn accounts_have_what_tables_need()
    ensures entries { (size base : ℕ) (H : History) (m : Machine) (cut page : ℕ) (e : Message) → IsAccountOf size base H m
        → base ≤ cut → Contains (table H cut page) e → IsHeld size (slot_at m (slot_with size e)) e }
    ensures needed { (size base : ℕ) (H : History) (m : Machine) (cut place : ℕ) → IsAccountOf size base H m
        → base ≤ cut → IsNeeded size H cut place → (k : ℕ) × IsIn m k place × (k ≢ next_slot m) }
    ensures free { (size base : ℕ) (H : History) (m : Machine) (cut page k : ℕ) (e : Message) → IsAccountOf size base H m
        → base ≤ cut → Contains (table H cut page) e → is_free (slot_at m k).state ≡ true → slot_with size e ≢ k }
{}

/// A blob that goes with a segment stays outdated: of an unused log there is none, no step but a replacement makes one
/// such, and that does so with those of the page's former state that no other message needs. A message that is
/// completed may name a blob that none names, or one of an entry of the table of all messages, which is not outdated.
pub fn outdated_blobs_stay_outdated()
    ensures unused { (size : ℕ) (H : History) → AreOutdated size H unused_machine }
    ensures hands_out { (size : ℕ) (H : History) (m : Machine) (place : ℕ) → AreOutdated size H m → AreOutdated size H (handed_out place m) }
    ensures completes { (size : ℕ) (H : History) (m : Machine) (x : Message) (H' : History) → LieApart H.messages → AreOutdated size H m
        → AddsMessage H x H' → MayName H x → AreOutdated size H' m }
    ensures links { (size : ℕ) (H : History) (m : Machine) (pid : ℕ) (info : CacheInfo) → AreOutdated size H m
        → AreOutdated size H (linked size pid info m) }
    ensures replaces { (size : ℕ) (H G : History) (m : Machine) (x : Message) (old : List CacheInfo) → LieApart H.messages → AreOutdated size H m
        → Contains H.messages x → begins_page x.kind ≡ true → ((e : Message) → Contains G.messages e → Contains H.messages e)
        → IsFormerList G x.page old → NoneShares H x old → MayMark size m (info_of x) old
        → AreOutdated size H (replaced size x.page (info_of x) old m) }
    ensures stabilizes { (size : ℕ) (H : History) (m : Machine) (next : ℤ) → AreOutdated size H m → AreOutdated size H (stabilized size next m).machine }
    ensures pops { (size : ℕ) (H : History) (m : Machine) → AreOutdated size H m → AreOutdated size H (record m { cleaner = popped m.cleaner }) }
{}

/// No entry of a table from the end of a segment on has its item in a blob that goes with the segment.
pub fn outdated_blobs_are_not_needed()
    ensures { (size : ℕ) (H : History) (m : Machine) (k cut page : ℕ) (blob : ℤ) (e : Message) → 0 < size → LieApart H.messages → AreOutdated size H m
        → Contains (slot_at m k).blobs blob → (slot_at m k).lsn + size ≤ cut → Contains (table H cut page) e → NamesBlob e blob → ⊥ }
{}

/// Marks change no segment: each slot has the one that it had.
pub fn marks_change_no_segment()
    ensures links { (size pid : ℕ) (info : CacheInfo) (m : Machine) (k : ℕ) → MayMark size m info []
        → segment_in (slot_at (linked size pid info m) k) ≡ segment_in (slot_at m k) }
    ensures replaces { (size pid : ℕ) (info : CacheInfo) (old : List CacheInfo) (m : Machine) (k : ℕ) → MayMark size m info old
        → segment_in (slot_at (replaced size pid info old m) k) ≡ segment_in (slot_at m k) }
{}
