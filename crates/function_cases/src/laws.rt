//! The laws of all crates, each called at one type.

use ids::laws as ids_laws;
use sled_codec::serialization::laws as codec_laws;
use sled_core::laws as core_laws;
use sled_log::device::{MemDevice, PlaceSum};
use sled_log::laws as log_laws;
use sled_log::serialization::MessageHeader;
use sled_store::device::laws as device_laws;
use sled_store::laws as store_laws;
use sled_store::segment::laws as segment_laws;

/// Calls them all: those of codecs and of what a crash leaves, and the others.
pub fn cite_all() {
    device_laws::what_is_read_may_be_left();
    device_laws::what_is_settled_may_be_left();
    device_laws::what_is_synced_is_left();
    codec_laws::read_again::<u64>();
    codec_laws::read_again::<Vec<u8>>();
    codec_laws::read_again::<MessageHeader>();
    codec_laws::written_is_record::<PlaceSum>();
    codec_laws::one_record::<PlaceSum>();
    codec_laws::lengths();
    codec_laws::snapshot_again();
    codec_laws::meta_again();
    laws_of_logs();
    laws_of_running_logs();
    laws_of_segments();
    laws_of_identifiers();
}

// The laws of a log that runs, each called at one type.
fn laws_of_running_logs() {
    core_laws::what_is_durable_is_acknowledged();
    core_laws::a_log_shows_its_buffers::<MemDevice, PlaceSum>();
    core_laws::where_none_is_open_none_is_held::<MemDevice, PlaceSum>();
    core_laws::open_reservations_are_seen::<MemDevice, PlaceSum>();
    core_laws::less_is_acknowledged_before::<PlaceSum>();
    core_laws::batches_end_in_what_was_reserved::<MemDevice, PlaceSum>();
    core_laws::the_stable_end_never_falls::<MemDevice, PlaceSum>();
    core_laws::what_was_in_a_table_keeps_its_record::<MemDevice, PlaceSum>();
    core_laws::a_history_grows_from_the_mark::<MemDevice, PlaceSum>();
    core_laws::what_has_its_record_has_its_segment::<MemDevice, PlaceSum>();
    core_laws::an_iterator_only_reads_its_log::<MemDevice, PlaceSum>();
    core_laws::one_reading_says_what_is_given();
    core_laws::less_may_be_claimed::<MemDevice, PlaceSum>();
    core_laws::a_reservation_comes_to_one_relation::<MemDevice, PlaceSum>();
    core_laws::a_call_fails_for_its_own_reasons::<u64, MemDevice, PlaceSum>();
    core_laws::a_log_is_stable_as_its_intervals_are::<MemDevice, PlaceSum>();
    core_laws::the_first_buffer_waits_behind_what_is_synced::<MemDevice, PlaceSum>();
    core_laws::what_is_not_synced_has_its_record::<MemDevice, PlaceSum>();
    core_laws::what_a_log_reads_is_its_own::<MemDevice, PlaceSum>();
    core_laws::what_a_log_reads_is_its_own_unless_stale::<MemDevice, PlaceSum>();
    core_laws::the_next_slot_is_not_needed::<MemDevice, PlaceSum>();
    core_laws::an_iteration_rises::<MemDevice, PlaceSum>();
    core_laws::a_mark_is_that_of_its_header();
    core_laws::a_pin_defers_freeing::<MemDevice, PlaceSum>();
    core_laws::a_pin_keeps_all::<MemDevice, PlaceSum>();
    core_laws::a_pin_keeps_segments::<MemDevice, PlaceSum>();
    core_laws::no_write_removes_what_may_be_named::<MemDevice, PlaceSum>();
    core_laws::a_higher_blob_is_named_by_none::<MemDevice, PlaceSum>();
    core_laws::what_is_in_the_table_is_stored::<MemDevice, PlaceSum>();
    core_laws::what_is_not_marked_may_be_marked::<MemDevice, PlaceSum>();
    core_laws::marks_join_with_what_is_written();
}

// The laws of histories, devices and logs, each called at one type.
fn laws_of_logs() {
    store_laws::traces_go_on();
    core_laws::a_fitting_log_holds::<MemDevice, PlaceSum>();
    core_laws::messages_lie_in_order::<MemDevice, PlaceSum>();
    core_laws::what_is_in_the_table_can_be_rewritten::<MemDevice, PlaceSum>();
    core_laws::a_log_goes_on_where_its_snapshot_ends::<PlaceSum>();
    core_laws::written_messages_are_stable::<MemDevice, PlaceSum>();
    core_laws::an_unchanged_log_has_none_open::<MemDevice, PlaceSum>();
    core_laws::a_place_comes_back();
    core_laws::a_ticket_says_the_place::<MemDevice, PlaceSum>();
    core_laws::a_crash_now_loses_nothing::<MemDevice, PlaceSum>();
    core_laws::calls_keep_together::<MemDevice, PlaceSum>();
    core_laws::moments_follow_one_another::<PlaceSum>();
    core_laws::an_empty_device_is_ready::<PlaceSum>();
    core_laws::a_crash_leaves_what_can_be_recovered::<PlaceSum>();
    core_laws::what_is_not_foreign_is_the_logs_own();
    core_laws::nothing_is_foreign_on_an_empty_device();
    core_laws::nothing_is_foreign_after_the_first_write();
    core_laws::nothing_is_foreign_where_records_come_out_of_order();
    core_laws::nothing_becomes_foreign_by_a_sync();
    core_laws::nothing_becomes_foreign_after_a_crash();
    core_laws::nothing_becomes_foreign_by_a_write_behind();
    core_laws::zeros_are_no_header();
    core_laws::there_is_one_stable_end();
    core_laws::no_batch_is_cut_in_two();
    core_laws::places_not_synced_are_beyond();
    log_laws::histories_of_replaces_are_orderly();
    log_laws::a_later_message_is_appended();
    log_laws::a_cut_keeps_what_begins_below();
    log_laws::a_device_leaves_what_a_crash_may_leave();
    log_laws::entries_stand_for_messages();
    log_laws::a_table_has_the_last_messages();
    log_laws::what_lies_below_a_cut_is_a_beginning();
    log_laws::a_table_has_what_began_a_page_last();
    log_laws::a_history_can_be_split_by_pages();
    log_laws::histories_stay_orderly();
    log_laws::what_a_crash_leaves_can_be_gone_on_from::<PlaceSum>();
    log_laws::what_a_step_means::<MemDevice, PlaceSum>();
}

// The laws of the segments that come back.
fn laws_of_segments() {
    segment_laws::messages_are_linked_or_superseded();
    segment_laws::entries_are_counted();
    segment_laws::done_segments_hold_no_entry();
    segment_laws::tables_above_the_mark_are_linked();
    segment_laws::tables_of_more_messages_are_linked();
    segment_laws::free_slots_are_not_needed();
    segment_laws::former_states_may_be_marked();
    segment_laws::former_states_are_former_lists();
    segment_laws::a_tables_entries_are_former_lists();
    segment_laws::messages_from_the_mark_are_linked();
    segment_laws::segments_lie_apart();
    segment_laws::gone_pages_are_replaced();
    segment_laws::frees_wait_for_the_latest_replacement();
    segment_laws::slots_hold_their_entries();
    segment_laws::marks_free_slots();
    segment_laws::accounts_go_on();
    segment_laws::accounts_have_what_tables_need();
    segment_laws::outdated_blobs_stay_outdated();
    segment_laws::outdated_blobs_are_not_needed();
    segment_laws::marks_change_no_segment();
}

// The laws of devices that give identifiers, each called at one type.
fn laws_of_identifiers() {
    ids_laws::an_empty_device_gives_from_the_beginning::<PlaceSum>();
    ids_laws::a_crash_gives_no_identifier_again::<PlaceSum>();
    ids_laws::a_generator_gives_from_its_bound::<MemDevice, PlaceSum>();
    ids_laws::less_is_given_from::<PlaceSum>();
}
