//! Whole labs and their results, computed by the definitions.
#![tactic(auto)]

mod alone;
mod lessons;
mod shapes;

pub use alone::a_core_alone_answers_the_shared_words;
pub use lessons::{
    a_chunk_is_overwritten, a_flag_overtakes_its_data, a_line_is_torn, a_lock_is_freed_early,
    a_message_is_taken_twice, a_written_word_waits, an_eviction_heals_by_luck, an_old_copy_is_read,
    an_old_flag_passes_a_barrier, two_bits_are_changed_at_once, two_registers_lock_one_word,
};
pub use shapes::{
    a_core_goes_back, a_flag_is_seen_before_its_data, a_register_is_taken_once,
    a_single_access_passes_what_is_held, both_miss_the_other, two_puts_lose_both_words,
    words_of_a_line_are_kept,
};
