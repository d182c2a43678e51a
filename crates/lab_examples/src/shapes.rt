//! How this memory behaves: small labs in which each read returns the expected value.
#![tactic(auto, unfolding(texts::specs::Numbers::number_in, texts::specs::Numbers::number_of, lab_plain::specs::Meaning::lab_start))]

ghost use Rattle.std.specs.Prelude.{◌≡◌, Ok, Some};
ghost use Rattle.lab_examples.specs.Ends.{all_came, end_of_text};
ghost use Rattle.lab_examples.specs.Shapes.{flag_before_data, own_word_back, past_what_is_held, register_taken_twice, store_buffering, two_puts_split, words_of_one_line};
ghost use Rattle.lab_plain.specs.declared.said.Stopped.TheVariants.{HoldsNot};

/// Each of two cores misses what the other has written.
pub fn both_miss_the_other()
    ensures both { end_of_text store_buffering ≡ all_came }
{}

/// A core reads its own word, and then the word's old value.
pub fn a_core_goes_back()
    ensures back { end_of_text own_word_back ≡ all_came }
{}

/// Two cores with a copy of one line each write a word of it, and both words are kept.
pub fn words_of_a_line_are_kept()
    ensures kept { end_of_text words_of_one_line ≡ all_came }
{}

/// Two cores put one line word by word, each with a change to one word, and both changes are lost.
pub fn two_puts_lose_both_words()
    ensures lost { end_of_text two_puts_split ≡ all_came }
{}

/// A core sees a flag whose data, in the same line, is still old, because the flag was stored first.
pub fn a_flag_is_seen_before_its_data()
    ensures torn { end_of_text flag_before_data ≡ all_came }
{}

/// A single load or store ignores what its core holds.
pub fn a_single_access_passes_what_is_held()
    ensures past { end_of_text past_what_is_held ≡ all_came }
{}

/// A register is taken once until it is freed, and no other core can free it.
pub fn a_register_is_taken_once()
    ensures once { end_of_text register_taken_twice ≡ Ok (Some (HoldsNot 5 0 5)) }
{}
