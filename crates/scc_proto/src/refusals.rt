//! What a record does not permit, one condition a function: each list is permitted up to its end, and then
//! one more move or event is not.

ghost use Rattle.std.specs.Prelude.{◌+◌, [], ◌∷◌, ◌++◌};
ghost use Rattle.scc_base.specs.Heads.{most_message, most_post};
ghost use Rattle.scc_base.specs.Places.{WordAt};
ghost use Rattle.scc_base.specs.declared.signals.Signal.TheVariants.{Sent, Ready};
ghost use Rattle.scc_proto.specs.Moves.{DraftHeader, DraftChunk, RaiseSignal, LookSignal, ReadHeader, ReadChunk, LowerSignal, FlipGather, LookGather, WriteRelease, LookRelease, StoreHeap};
ghost use Rattle.scc_proto.specs.Records.{look_at};
ghost use Rattle.scc_proto.specs.Examples.{two_ranks, two_ranks_bits, three_ranks, loads, stores, takes_register, frees};
ghost use Rattle.scc_proto.specs.Refusals.{Refuses, RefusesEvent, drafts_line, drafts_words, raises_four, sees_ready, posts, sends_first, drafts_second, reads_plain, reads_head, begins_taking, reads_words, takes_first, sees_first, sees_all, drafts_empty, reads_empty, misses, sees_sent, raises_empty, sees_bit, takes_bit, holds_draft, sets_bit, three_ranks_bits, four_ranks};

/// `sent` is not raised before all four words of the header line are drafted.
pub fn header_is_whole()
    ensures kind { Refuses (DraftHeader 3 0 ∷ DraftHeader 2 4 ∷ DraftHeader 1 0 ∷ drafts_words 7) (RaiseSignal Sent 1) }
    ensures comm { Refuses (DraftHeader 3 0 ∷ DraftHeader 2 4 ∷ DraftHeader 0 0 ∷ drafts_words 7) (RaiseSignal Sent 1) }
    ensures len { Refuses (DraftHeader 3 0 ∷ DraftHeader 1 0 ∷ DraftHeader 0 0 ∷ []) (RaiseSignal Sent 1) }
    ensures post { Refuses (DraftHeader 2 4 ∷ DraftHeader 1 0 ∷ DraftHeader 0 0 ∷ drafts_words 7) (RaiseSignal Sent 1) }
    ensures chunk_alone { Refuses (drafts_words 7) (RaiseSignal Sent 1) }
    ensures nothing { Refuses [] (RaiseSignal Sent 1) }
{}

/// `sent` is not raised over a head that no message has.
pub fn header_is_valid()
    ensures kind { Refuses (drafts_line 5 0 4 0 ++ drafts_words 7) (RaiseSignal Sent 1) }
    ensures comm { Refuses (drafts_line 1 16 4 0 ++ drafts_words 7) (RaiseSignal Sent 1) }
    ensures plain { Refuses (drafts_line 0 1 4 0 ++ drafts_words 7) (RaiseSignal Sent 1) }
    ensures len { Refuses (drafts_line 0 0 (most_message + 1) 0 ++ drafts_words 7) (RaiseSignal Sent 1) }
    ensures last { Refuses (drafts_line 0 0 4 2 ++ drafts_words 7) (RaiseSignal Sent 1) }
{}

/// Header words are drafted only before the first chunk is raised.
pub fn header_comes_first()
    ensures through { Refuses sends_first (DraftHeader 0 0) }
    ensures drafted { Refuses drafts_second (DraftHeader 0 0) }
{}

/// `sent` is not raised before all words of the chunk's lines are drafted, for each chunk anew.
pub fn chunk_is_whole()
    ensures first { Refuses (drafts_line 0 0 4 0 ++ DraftChunk 3 0 ∷ DraftChunk 2 0 ∷ DraftChunk 1 0 ∷ []) (RaiseSignal Sent 1) }
    ensures last { Refuses (drafts_line 0 0 4 0 ++ DraftChunk 2 0 ∷ DraftChunk 1 0 ∷ DraftChunk 0 7 ∷ []) (RaiseSignal Sent 1) }
    ensures none { Refuses (drafts_line 0 0 4 0) (RaiseSignal Sent 1) }
    ensures second { Refuses sends_first (RaiseSignal Sent 1) }
    ensures second_part { Refuses (sends_first ++ DraftChunk 3 0 ∷ DraftChunk 2 0 ∷ DraftChunk 1 0 ∷ []) (RaiseSignal Sent 1) }
{}

/// The bytes of the chunk's last line past its end are zero.
pub fn padding_is_zero()
    ensures word { Refuses (drafts_line 0 0 4 0 ++ drafts_words 4294967296) (RaiseSignal Sent 1) }
    ensures line { Refuses (drafts_line 0 0 4 0 ++ DraftChunk 3 1 ∷ DraftChunk 2 0 ∷ DraftChunk 1 0 ∷ DraftChunk 0 7
        ∷ []) (RaiseSignal Sent 1) }
    ensures second { Refuses (sends_first ++ drafts_words 256) (RaiseSignal Sent 1) }
{}

/// A later chunk goes to the same rank.
pub fn target_stays()
    ensures second { Refuses drafts_second (RaiseSignal Sent 2) }
{}

/// After a raise nothing is drafted, and `ready` is lowered only once it was seen, and of the same rank.
pub fn ready_is_seen()
    ensures lower { Refuses raises_four (LowerSignal Ready 1) }
    ensures clear { Refuses (raises_four ++ LookSignal Ready (look_at 1 0) ∷ []) (LowerSignal Ready 1) }
    ensures of_other { Refuses (raises_four ++ LookSignal Ready (look_at 2 1) ∷ []) (LowerSignal Ready 1) }
    ensures other { Refuses sees_ready (LowerSignal Ready 2) }
    ensures chunk { Refuses raises_four (DraftChunk 0 8) }
    ensures header { Refuses raises_four (DraftHeader 0 0) }
    ensures raise { Refuses raises_four (RaiseSignal Sent 1) }
    ensures seen_chunk { Refuses sees_ready (DraftChunk 0 8) }
    ensures seen_header { Refuses sees_ready (DraftHeader 0 0) }
    ensures seen_raise { Refuses sees_ready (RaiseSignal Sent 1) }
    ensures drafted { Refuses drafts_second (LowerSignal Ready 1) }
    ensures nothing { Refuses [] (LowerSignal Ready 1) }
{}

/// `sent` is lowered only where it was seen set, for each chunk anew.
pub fn sent_is_seen()
    ensures never { Refuses [] (LowerSignal Sent 0) }
    ensures clear { Refuses (LookSignal Sent (look_at 0 0) ∷ ReadHeader 0 0 0 ∷ ReadHeader 0 1 0 ∷ ReadHeader 0 2 4
        ∷ []) (LowerSignal Sent 0) }
    ensures other { Refuses reads_head (LowerSignal Sent 1) }
    ensures twice { Refuses begins_taking (LowerSignal Sent 0) }
    ensures second { Refuses takes_first (LowerSignal Sent 0) }
{}

/// `sent` is lowered for a first chunk only once the head was read since, and only where it is one.
pub fn head_is_read()
    ensures kind { Refuses (LookSignal Sent (look_at 0 1) ∷ ReadHeader 0 1 0 ∷ ReadHeader 0 2 4 ∷ []) (LowerSignal Sent 0) }
    ensures comm { Refuses (LookSignal Sent (look_at 0 1) ∷ ReadHeader 0 0 0 ∷ ReadHeader 0 2 4 ∷ []) (LowerSignal Sent 0) }
    ensures short { Refuses (LookSignal Sent (look_at 0 1) ∷ ReadHeader 0 0 0 ∷ ReadHeader 0 1 0 ∷ []) (LowerSignal Sent 0) }
    ensures invalid_kind { Refuses (LookSignal Sent (look_at 0 1) ∷ ReadHeader 0 0 5 ∷ ReadHeader 0 1 0 ∷ ReadHeader 0 2 4
        ∷ []) (LowerSignal Sent 0) }
    ensures invalid_comm { Refuses (LookSignal Sent (look_at 0 1) ∷ ReadHeader 0 0 1 ∷ ReadHeader 0 1 16 ∷ ReadHeader 0 2 4
        ∷ []) (LowerSignal Sent 0) }
    ensures invalid_plain { Refuses (LookSignal Sent (look_at 0 1) ∷ ReadHeader 0 0 0 ∷ ReadHeader 0 1 1 ∷ ReadHeader 0 2 4
        ∷ []) (LowerSignal Sent 0) }
    ensures invalid_len { Refuses (reads_plain 0 (most_message + 1)) (LowerSignal Sent 0) }
    ensures before { Refuses (ReadHeader 0 0 0 ∷ ReadHeader 0 1 0 ∷ ReadHeader 0 2 4 ∷ LookSignal Sent (look_at 0 1)
        ∷ []) (LowerSignal Sent 0) }
    ensures anew { Refuses (reads_head ++ LookSignal Sent (look_at 0 1) ∷ []) (LowerSignal Sent 0) }
    ensures other { Refuses (LookSignal Sent (look_at 0 1) ∷ reads_plain 2 4) (LowerSignal Sent 0) }
{}

/// A later chunk is taken from the same rank.
pub fn source_stays()
    ensures second { Refuses (takes_first ++ reads_plain 2 4) (LowerSignal Sent 2) }
{}

/// `ready` is raised only once all words of the chunk were loaded, since `sent` was lowered for it.
pub fn chunk_is_loaded()
    ensures none { Refuses begins_taking (RaiseSignal Ready 0) }
    ensures first { Refuses (begins_taking ++ ReadChunk 0 1 0 ∷ ReadChunk 0 2 0 ∷ ReadChunk 0 3 0 ∷ []) (RaiseSignal Ready 0) }
    ensures last { Refuses (begins_taking ++ ReadChunk 0 0 7 ∷ ReadChunk 0 1 0 ∷ ReadChunk 0 2 0 ∷ []) (RaiseSignal Ready 0) }
    ensures other { Refuses (begins_taking ++ reads_words 2) (RaiseSignal Ready 0) }
    ensures before { Refuses (reads_head ++ (reads_words 0 ++ LowerSignal Sent 0 ∷ [])) (RaiseSignal Ready 0) }
    ensures second { Refuses (takes_first ++ LookSignal Sent (look_at 0 1) ∷ LowerSignal Sent 0 ∷ []) (RaiseSignal Ready 0) }
    ensures not_taken { Refuses (reads_head ++ reads_words 0) (RaiseSignal Ready 0) }
    ensures between { Refuses takes_first (RaiseSignal Ready 0) }
{}

/// `ready` is raised at the rank that the chunk was taken from.
pub fn answer_goes_back()
    ensures other { Refuses (begins_taking ++ reads_words 0) (RaiseSignal Ready 2) }
{}

/// One thing at a time: no receive while a message is drafted, sent or taken, and no draft while one is received.
pub fn one_message_is_open()
    ensures take_in_draft { Refuses (reads_head ++ drafts_words 7) (LowerSignal Sent 0) }
    ensures take_in_header { Refuses (reads_head ++ DraftHeader 0 0 ∷ []) (LowerSignal Sent 0) }
    ensures take_in_send { Refuses (reads_head ++ raises_four) (LowerSignal Sent 0) }
    ensures take_in_answer { Refuses (reads_head ++ sees_ready) (LowerSignal Sent 0) }
    ensures take_in_sends { Refuses (reads_head ++ sends_first) (LowerSignal Sent 0) }
    ensures take_in_take { Refuses (reads_plain 2 4 ++ begins_taking) (LowerSignal Sent 2) }
    ensures take_again { Refuses (begins_taking ++ LookSignal Sent (look_at 0 1) ∷ []) (LowerSignal Sent 0) }
    ensures draft_in_take { Refuses begins_taking (DraftChunk 0 7) }
    ensures header_in_take { Refuses begins_taking (DraftHeader 0 0) }
    ensures draft_between { Refuses takes_first (DraftChunk 0 7) }
    ensures header_between { Refuses takes_first (DraftHeader 0 0) }
{}

/// A barrier is entered only where nothing is drafted and no message is open, and until it ends no message is begun.
pub fn barrier_stands_alone()
    ensures in_header { Refuses (DraftHeader 3 0 ∷ []) (FlipGather 0 1 2) }
    ensures in_draft { Refuses (drafts_words 7) (FlipGather 0 1 2) }
    ensures in_send { Refuses raises_four (FlipGather 0 1 2) }
    ensures in_answer { Refuses sees_ready (FlipGather 0 1 2) }
    ensures in_sends { Refuses sends_first (FlipGather 0 1 2) }
    ensures in_take { Refuses begins_taking (FlipGather 0 1 2) }
    ensures between { Refuses takes_first (FlipGather 0 1 2) }
    ensures draft { Refuses (FlipGather 0 1 2 ∷ []) (DraftChunk 0 7) }
    ensures header { Refuses (FlipGather 0 1 2 ∷ []) (DraftHeader 0 0) }
    ensures take { Refuses (reads_head ++ FlipGather 0 1 2 ∷ []) (LowerSignal Sent 0) }
{}

/// A gather flag is flipped to its other value, and only where no barrier is open.
pub fn gather_is_flipped()
    ensures same { Refuses [] (FlipGather 0 0 2) }
    ensures same_again { Refuses (FlipGather 0 1 2 ∷ LookRelease 0 1 ∷ []) (FlipGather 0 1 2) }
    ensures twice { Refuses (FlipGather 0 1 2 ∷ []) (FlipGather 0 0 2) }
    ensures other { Refuses (FlipGather 0 1 2 ∷ []) (FlipGather 1 1 2) }
{}

/// No gather flag of an absent communicator is flipped.
pub fn communicator_is_present()
    ensures first_word { RefusesEvent two_ranks 0 [] (stores 0 0 98 0 1) }
    ensures second_word { RefusesEvent two_ranks 0 [] (stores 0 0 97 1 1) }
    ensures third_word { RefusesEvent two_ranks 0 [] (stores 0 0 97 2 1) }
    ensures bits { RefusesEvent two_ranks_bits 0 [] (stores 0 0 3 0 1) }
{}

/// A root releases nobody before it has seen all, each in its turn with the barrier's value.
pub fn release_comes_last()
    ensures early { Refuses sees_first (WriteRelease 0 1 1 1 2) }
    ensures unordered { Refuses (FlipGather 0 1 2 ∷ LookGather 0 2 2 1 ∷ LookGather 0 1 1 1 ∷ []) (WriteRelease 0 1 1 1 2) }
    ensures not_flipped { Refuses (sees_first ++ LookGather 0 2 2 0 ∷ []) (WriteRelease 0 1 1 1 2) }
    ensures elsewhere { Refuses (sees_first ++ LookGather 1 2 2 0 ∷ []) (WriteRelease 0 1 1 1 2) }
{}

/// A root that has seen all releases its members one after the other, in the open barrier and with its value.
pub fn release_is_in_order()
    ensures order { Refuses sees_all (WriteRelease 0 2 2 1 2) }
    ensures twice { Refuses (sees_all ++ WriteRelease 0 1 1 1 2 ∷ []) (WriteRelease 0 1 1 1 2) }
    ensures comm { Refuses sees_all (WriteRelease 1 1 1 0 2) }
    ensures value { Refuses sees_all (WriteRelease 0 1 1 0 2) }
    ensures ended { Refuses (sees_all ++ WriteRelease 0 1 1 1 2 ∷ WriteRelease 0 2 2 1 2 ∷ []) (WriteRelease 0 1 1 1 2) }
    ensures nothing { Refuses [] (WriteRelease 0 1 1 0 2) }
{}

/// A root looks at and releases only members of its own group.
pub fn release_stays_in_group()
    ensures write { RefusesEvent four_ranks 0 (stores 0 0 98 0 1 ∷ loads 0 2 98 0 1 ∷ []) (stores 0 3 106 0 1) }
    ensures look { RefusesEvent four_ranks 0 (stores 0 0 98 0 1 ∷ loads 0 3 98 0 1 ∷ []) (stores 0 2 106 0 1) }
{}

/// A member goes on only once its own release flag has the barrier's value, a root once it has released all.
pub fn barrier_ends_at_release()
    ensures old { Refuses (FlipGather 0 1 2 ∷ LookRelease 0 0 ∷ []) (DraftChunk 0 7) }
    ensures elsewhere { Refuses (FlipGather 0 1 2 ∷ LookRelease 1 0 ∷ []) (DraftChunk 0 7) }
    ensures other { RefusesEvent three_ranks 1 (stores 1 5 97 0 1 ∷ loads 1 40 105 0 1 ∷ []) (stores 1 5 0 0 0) }
    ensures root { RefusesEvent three_ranks 0 (stores 0 7 97 0 1 ∷ loads 0 7 105 0 1 ∷ []) (stores 0 7 0 0 0) }
    ensures released { Refuses (sees_all ++ WriteRelease 0 1 1 1 2 ∷ []) (DraftChunk 0 7) }
{}

/// A posted message is plain and has at most 3,584 bytes.
pub fn post_is_short()
    ensures len { Refuses (drafts_line 0 0 (most_post + 1) 1 ++ drafts_words 7) (RaiseSignal Sent 1) }
    ensures kind { Refuses (drafts_line 1 0 4 1 ++ drafts_words 7) (RaiseSignal Sent 1) }
{}

/// While a posted message is on its way nothing is drafted, and its `ready` is lowered only once it was seen.
pub fn post_is_kept()
    ensures chunk { Refuses posts (DraftChunk 0 8) }
    ensures header { Refuses posts (DraftHeader 0 0) }
    ensures raise { Refuses posts (RaiseSignal Sent 1) }
    ensures lower { Refuses posts (LowerSignal Ready 1) }
    ensures clear { Refuses (posts ++ LookSignal Ready (look_at 1 0) ∷ []) (LowerSignal Ready 1) }
    ensures of_other { Refuses (posts ++ LookSignal Ready (look_at 2 1) ∷ []) (LowerSignal Ready 1) }
    ensures other { Refuses (posts ++ LookSignal Ready (look_at 1 1) ∷ []) (LowerSignal Ready 2) }
    ensures seen_chunk { Refuses (posts ++ LookSignal Ready (look_at 1 1) ∷ []) (DraftChunk 0 8) }
    ensures twice { Refuses (posts ++ LookSignal Ready (look_at 1 1) ∷ LowerSignal Ready 1 ∷ []) (LowerSignal Ready 1) }
{}

/// A heap word is stored only where nothing is drafted, no chunk is being taken and no barrier is open.
pub fn heap_waits()
    ensures header { Refuses (DraftHeader 3 0 ∷ []) (StoreHeap (record { core = 0; line = 225; word = 0 }) 1) }
    ensures draft { Refuses (drafts_words 7) (StoreHeap (record { core = 0; line = 225; word = 0 }) 1) }
    ensures raised { Refuses raises_four (StoreHeap (record { core = 0; line = 225; word = 0 }) 1) }
    ensures answered { Refuses sees_ready (StoreHeap (record { core = 0; line = 225; word = 0 }) 1) }
    ensures second { Refuses drafts_second (StoreHeap (record { core = 0; line = 225; word = 0 }) 1) }
    ensures taking { Refuses begins_taking (StoreHeap (record { core = 0; line = 225; word = 0 }) 1) }
    ensures barrier { Refuses (FlipGather 0 1 2 ∷ []) (StoreHeap (record { core = 0; line = 225; word = 0 }) 1) }
{}

/// A register is taken only where this rank does not hold it, and freed only where it does.
pub fn register_is_held()
    ensures twice { RefusesEvent two_ranks 0 (takes_register 0 1 ∷ []) (takes_register 0 1) }
    ensures failed_twice { RefusesEvent two_ranks 0 (takes_register 0 1 ∷ []) (misses 0 1) }
    ensures free { RefusesEvent two_ranks 0 [] (frees 0 1) }
    ensures freed { RefusesEvent two_ranks 0 (takes_register 0 1 ∷ frees 0 1 ∷ []) (frees 0 1) }
    ensures failed { RefusesEvent two_ranks 0 (misses 0 1 ∷ []) (frees 0 1) }
    ensures other { RefusesEvent two_ranks 0 (takes_register 0 1 ∷ []) (frees 0 0) }
{}

/// A word of bit flags is stored only under the register of its core, and only once it was loaded there.
pub fn bits_are_held()
    ensures no_register { RefusesEvent two_ranks_bits 1 (drafts_empty 1 1 ++ loads 1 0 1 0 0 ∷ []) (stores 1 0 1 0 2) }
    ensures failed { RefusesEvent two_ranks_bits 1 (drafts_empty 1 1 ++ misses 1 0 ∷ loads 1 0 1 0 0 ∷ []) (stores 1 0 1 0 2) }
    ensures not_loaded { RefusesEvent two_ranks_bits 1 holds_draft (stores 1 0 1 0 2) }
    ensures before { RefusesEvent two_ranks_bits 1 (drafts_empty 1 1 ++ loads 1 0 1 0 0 ∷ takes_register 1 0 ∷ []) (stores 1 0 1 0 2) }
    ensures freed { RefusesEvent two_ranks_bits 1
        (holds_draft ++ loads 1 0 1 0 0 ∷ frees 1 0 ∷ takes_register 1 0 ∷ []) (stores 1 0 1 0 2) }
    ensures let_go { RefusesEvent two_ranks_bits 1 (holds_draft ++ loads 1 0 1 0 0 ∷ frees 1 0 ∷ []) (stores 1 0 1 0 2) }
    ensures other_core { RefusesEvent two_ranks_bits 1 (holds_draft ++ takes_register 1 1 ∷ loads 1 1 1 0 0 ∷ []) (stores 1 0 1 0 2) }
    ensures ready_for_sent { RefusesEvent two_ranks_bits 1 (holds_draft ++ loads 1 0 1 1 0 ∷ []) (stores 1 0 1 0 2) }
    ensures ready_no_register { RefusesEvent two_ranks_bits 0 (takes_bit ++ loads 0 1 1 1 0 ∷ []) (stores 0 1 1 1 1) }
    ensures sent_for_ready { RefusesEvent two_ranks_bits 0 (takes_bit ++ takes_register 0 1 ∷ loads 0 1 1 0 0 ∷ []) (stores 0 1 1 1 1) }
{}

/// Under one hold a word of bit flags is stored once for each load of it, and by what it was at the last.
pub fn bits_are_loaded_anew()
    ensures sent { RefusesEvent two_ranks_bits 1 (sets_bit ++ loads 1 1 1 1 1 ∷ takes_register 1 1 ∷ loads 1 1 1 1 1 ∷ stores 1 1 1 1 0
        ∷ drafts_empty 1 1) (stores 1 0 1 0 2) }
    ensures ready { RefusesEvent two_ranks_bits 0 (takes_bit ++ takes_register 0 1 ∷ loads 0 1 1 1 0 ∷ stores 0 1 1 1 1
        ∷ takes_bit) (stores 0 1 1 1 1) }
    ensures last_sent { RefusesEvent two_ranks_bits 1 (holds_draft ++ loads 1 0 1 0 0 ∷ loads 1 0 1 0 4 ∷ []) (stores 1 0 1 0 2) }
    ensures last_ready { RefusesEvent two_ranks_bits 0 (takes_bit ++ takes_register 0 1 ∷ loads 0 1 1 1 0 ∷ loads 0 1 1 1 4
        ∷ []) (stores 0 1 1 1 1) }
{}

/// A store of a word of bit flags changes one bit, which is the move's: the own one is set at another core.
pub fn one_bit_changes()
    ensures two { RefusesEvent two_ranks_bits 1 (holds_draft ++ loads 1 0 1 0 0 ∷ []) (stores 1 0 1 0 6) }
    ensures other { RefusesEvent two_ranks_bits 1 (holds_draft ++ loads 1 0 1 0 0 ∷ []) (stores 1 0 1 0 1) }
    ensures none { RefusesEvent two_ranks_bits 1 (holds_draft ++ loads 1 0 1 0 0 ∷ []) (stores 1 0 1 0 0) }
    ensures is_set { RefusesEvent two_ranks_bits 1 (holds_draft ++ loads 1 0 1 0 2 ∷ []) (stores 1 0 1 0 4) }
    ensures own_core { RefusesEvent two_ranks_bits 1 (drafts_empty 1 1 ++ takes_register 1 1 ∷ loads 1 1 1 0 0 ∷ []) (stores 1 1 1 0 2) }
    ensures ready_two { RefusesEvent two_ranks_bits 0 (takes_bit ++ takes_register 0 1 ∷ loads 0 1 1 1 0 ∷ []) (stores 0 1 1 1 3) }
    ensures ready_is_set { RefusesEvent two_ranks_bits 0 (takes_bit ++ takes_register 0 1 ∷ loads 0 1 1 1 1 ∷ []) (stores 0 1 1 1 2) }
{}

/// One bit is cleared at the own core: that of the other rank, whose flag was seen.
pub fn one_bit_is_cleared()
    ensures two { RefusesEvent two_ranks_bits 0 (sees_bit ++ takes_register 0 0 ∷ loads 0 0 1 0 6 ∷ []) (stores 0 0 1 0 0) }
    ensures more { RefusesEvent two_ranks_bits 0 (sees_bit ++ takes_register 0 0 ∷ loads 0 0 1 0 2 ∷ []) (stores 0 0 1 0 1) }
    ensures none { RefusesEvent two_ranks_bits 0 (sees_bit ++ takes_register 0 0 ∷ loads 0 0 1 0 2 ∷ []) (stores 0 0 1 0 2) }
    ensures is_clear { RefusesEvent two_ranks_bits 0 (sees_bit ++ takes_register 0 0 ∷ loads 0 0 1 0 4 ∷ []) (stores 0 0 1 0 2) }
    ensures unseen { RefusesEvent three_ranks_bits 0 (loads 0 0 1 0 2 ∷ reads_empty 0 2 ++ takes_register 0 0 ∷ loads 0 0 1 0 6
        ∷ []) (stores 0 0 1 0 2) }
    ensures other_core { RefusesEvent two_ranks_bits 0 (sees_bit ++ takes_register 0 1 ∷ loads 0 1 1 0 2 ∷ []) (stores 0 1 1 0 0) }
    ensures ready_two { RefusesEvent two_ranks_bits 1
        (sets_bit ++ loads 1 1 1 1 1 ∷ takes_register 1 1 ∷ loads 1 1 1 1 5 ∷ []) (stores 1 1 1 1 0) }
    ensures ready_is_clear { RefusesEvent two_ranks_bits 1 (sets_bit ++ loads 1 1 1 1 1 ∷ takes_register 1 1 ∷ loads 1 1 1 1 2
        ∷ []) (stores 1 1 1 1 1) }
{}

/// A look at bit flags is a load at the own core while its register is not held.
pub fn bits_are_looked_at()
    ensures sent_held { RefusesEvent two_ranks_bits 0 (takes_register 0 0 ∷ loads 0 0 1 0 2 ∷ reads_empty 0 1) (stores 0 0 1 0 0) }
    ensures sent_elsewhere { RefusesEvent two_ranks_bits 0 (loads 0 1 1 0 2 ∷ reads_empty 0 1 ++ takes_register 0 0 ∷ loads 0 0 1 0 2
        ∷ []) (stores 0 0 1 0 0) }
    ensures ready_held { RefusesEvent two_ranks_bits 1 (sets_bit ++ takes_register 1 1 ∷ loads 1 1 1 1 1 ∷ []) (stores 1 1 1 1 0) }
    ensures ready_other { RefusesEvent two_ranks_bits 1 (sets_bit ++ loads 1 1 1 1 4 ∷ takes_register 1 1 ∷ loads 1 1 1 1 1
        ∷ []) (stores 1 1 1 1 0) }
    ensures ready_elsewhere { RefusesEvent two_ranks_bits 1 (sets_bit ++ frees 1 0 ∷ loads 1 0 1 1 1 ∷ takes_register 1 1 ∷ loads 1 1 1 1 1
        ∷ []) (stores 1 1 1 1 0) }
{}

/// A look at a line flag is a load of the own flag that answers 1.
pub fn lines_are_looked_at()
    ensures sent_two { RefusesEvent three_ranks 2 (loads 2 40 1 0 2 ∷ reads_empty 2 7) (stores 2 40 1 0 0) }
    ensures sent_elsewhere { RefusesEvent three_ranks 2 (loads 2 5 1 0 1 ∷ reads_empty 2 7) (stores 2 40 1 0 0) }
    ensures ready_two { RefusesEvent three_ranks 0 (raises_empty ++ loads 0 7 51 0 2 ∷ []) (stores 0 7 51 0 0) }
    ensures ready_elsewhere { RefusesEvent three_ranks 0 (raises_empty ++ loads 0 5 51 0 1 ∷ []) (stores 0 7 51 0 0) }
{}

/// A line flag is set to 1 by one of its two ranks, and to 0 by the other.
pub fn flags_have_owners()
    ensures raise_other { RefusesEvent three_ranks 2 (drafts_empty 2 40) (stores 2 5 1 0 1) }
    ensures raise_value { RefusesEvent three_ranks 2 (drafts_empty 2 40) (stores 2 5 3 0 2) }
    ensures raise_zero { RefusesEvent three_ranks 2 (drafts_empty 2 40) (stores 2 5 3 0 0) }
    ensures raise_own { RefusesEvent three_ranks 2 (drafts_empty 2 40) (stores 2 40 3 0 1) }
    ensures lower_other { RefusesEvent three_ranks 2 sees_sent (stores 2 5 1 0 0) }
    ensures lower_value { RefusesEvent three_ranks 2 sees_sent (stores 2 40 1 0 2) }
    ensures lower_one { RefusesEvent three_ranks 2 sees_sent (stores 2 40 1 0 1) }
    ensures answer_other { RefusesEvent three_ranks 2 (sees_sent ++ stores 2 40 1 0 0 ∷ []) (stores 2 7 50 0 1) }
    ensures answer_value { RefusesEvent three_ranks 2 (sees_sent ++ stores 2 40 1 0 0 ∷ []) (stores 2 7 51 0 2) }
    ensures answer_zero { RefusesEvent three_ranks 2 (sees_sent ++ stores 2 40 1 0 0 ∷ []) (stores 2 7 51 0 0) }
    ensures end_other { RefusesEvent three_ranks 0 (raises_empty ++ loads 0 7 51 0 1 ∷ []) (stores 0 5 51 0 0) }
    ensures end_value { RefusesEvent three_ranks 0 (raises_empty ++ loads 0 7 51 0 1 ∷ []) (stores 0 7 51 0 2) }
    ensures end_one { RefusesEvent three_ranks 0 (raises_empty ++ loads 0 7 51 0 1 ∷ []) (stores 0 7 51 0 1) }
{}

/// No rank stores into another one's header line, chunk buffer or gather flag, or into an idle word.
pub fn words_have_owners()
    ensures header { RefusesEvent two_ranks 0 [] (stores 0 1 0 0 0) }
    ensures chunk { RefusesEvent two_ranks 0 [] (stores 0 1 113 0 0) }
    ensures gather { RefusesEvent two_ranks 0 [] (stores 0 1 97 0 1) }
    ensures own_flag { RefusesEvent two_ranks 0 (drafts_empty 0 0) (stores 0 0 1 0 1) }
    ensures idle { RefusesEvent two_ranks 0 (drafts_empty 0 0) (stores 0 1 1 1 1) }
    ensures idle_bits { RefusesEvent two_ranks_bits 1 (holds_draft ++ loads 1 0 1 2 0 ∷ []) (stores 1 0 1 2 2) }
    ensures far { RefusesEvent two_ranks 0 [] (stores 0 2 225 0 1) }
{}
