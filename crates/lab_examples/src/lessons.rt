//! The lessons: in each, one read returns another value than the expected one. Mended, all reads return what is expected.
#![tactic(auto, unfolding(texts::specs::Numbers::number_in, texts::specs::Numbers::number_of, lab_plain::specs::Meaning::lab_start))]

ghost use Rattle.std.specs.Prelude.{◌≡◌};
ghost use Rattle.lab_examples.specs.Ends.{all_came, end_of_text, heap_word, loses_at};
ghost use Rattle.lab_examples.specs.Lessons as lesson;
ghost use Rattle.lab_examples.specs.Mended as mended;

/// Core 1 reads its copy of a line, and misses what core 0 has written since.
pub fn an_old_copy_is_read()
    ensures loses { end_of_text lesson.old_copy ≡ loses_at 6 (heap_word 0 0 0) 0 42 }
    ensures keeps { end_of_text mended.old_copy_mended ≡ all_came }
{}

/// A word that core 0 wrote waits in its write-combining buffer, and core 1 does not see it.
pub fn a_written_word_waits()
    ensures loses { end_of_text lesson.write_waits ≡ loses_at 6 (heap_word 0 0 0) 0 42 }
    ensures keeps { end_of_text mended.write_waits_mended ≡ all_came }
{}

/// Core 1 sees the flag, but reads the old word: core 0 wrote the word last, and it still waits.
pub fn a_flag_overtakes_its_data()
    ensures loses { end_of_text lesson.flag_overtakes ≡ loses_at 10 (heap_word 0 0 1) 0 43 }
    ensures keeps { end_of_text mended.flag_overtakes_mended ≡ all_came }
{}

/// Cores 1 and 2 each set a bit of one word, and one bit is lost.
pub fn two_bits_are_changed_at_once()
    ensures loses { end_of_text lesson.two_bits ≡ loses_at 12 (heap_word 0 0 0) 4 6 }
    ensures keeps { end_of_text mended.two_bits_mended ≡ all_came }
{}

/// Core 0 puts its next chunk over the last one before core 1 has taken it.
pub fn a_chunk_is_overwritten()
    ensures loses { end_of_text lesson.overwritten ≡ loses_at 8 (heap_word 0 0 0) 43 42 }
    ensures keeps { end_of_text mended.overwritten_mended ≡ all_came }
{}

/// An eviction drops core 2's copy, so core 2 reads the new word; core 1 reads its old copy.
pub fn an_eviction_heals_by_luck()
    ensures loses { end_of_text lesson.lucky_eviction ≡ loses_at 10 (heap_word 0 0 0) 0 42 }
    ensures keeps { end_of_text mended.lucky_eviction_mended ≡ all_came }
{}

/// Core 1 frees the register while its word still waits, and core 2 reads the old word.
pub fn a_lock_is_freed_early()
    ensures loses { end_of_text lesson.lock_freed_early ≡ loses_at 11 (heap_word 0 0 0) 0 1 }
    ensures keeps { end_of_text mended.lock_freed_early_mended ≡ all_came }
{}

/// The flags of one barrier are still set at the next.
pub fn an_old_flag_passes_a_barrier()
    ensures loses { end_of_text lesson.old_barrier ≡ loses_at 8 (heap_word 1 0 0) 1 0 }
    ensures keeps { end_of_text mended.old_barrier_mended ≡ all_came }
{}

/// The flag of a message is still set after the message was taken.
pub fn a_message_is_taken_twice()
    ensures loses { end_of_text lesson.taken_twice ≡ loses_at 8 (heap_word 1 1 0) 1 0 }
    ensures keeps { end_of_text mended.taken_twice_mended ≡ all_came }
{}

/// Core 1 gets a line while core 0 puts it, and gets half of the old one and half of the new one.
pub fn a_line_is_torn()
    ensures loses { end_of_text lesson.torn_line ≡ loses_at 7 (heap_word 0 0 1) 43 0 }
    ensures keeps { end_of_text mended.torn_line_mended ≡ all_came }
{}

/// Cores 1 and 2 lock one word by two registers, and one of their sums is lost.
pub fn two_registers_lock_one_word()
    ensures loses { end_of_text lesson.two_registers ≡ loses_at 16 (heap_word 0 0 0) 1 2 }
    ensures keeps { end_of_text mended.two_registers_mended ≡ all_came }
{}
