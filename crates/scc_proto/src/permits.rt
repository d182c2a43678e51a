//! What a record permits beside what it refuses, one condition a function: a stronger condition would refuse a list of these.

ghost use Rattle.std.specs.Prelude.{[], ◌∷◌, ◌++◌};
ghost use Rattle.scc_base.specs.Heads.{most_message, most_post};
ghost use Rattle.scc_base.specs.declared.signals.Signal.TheVariants.{Sent, Ready};
ghost use Rattle.scc_proto.specs.Moves.{DraftHeader, DraftChunk, RaiseSignal, LookSignal, ReadHeader, LowerSignal, FlipGather};
ghost use Rattle.scc_proto.specs.Records.{look_at};
ghost use Rattle.scc_proto.specs.Refusals.{drafts_line, drafts_words, posts, sends_first, reads_plain, reads_head, begins_taking, reads_words, takes_first};
ghost use Rattle.scc_proto.specs.Permits.{Permits, raises};

/// While a posted message is on its way a barrier is entered and a message is taken, and `ready` is lowered in both.
pub fn post_stands_aside()
    ensures flip { Permits (posts ++ FlipGather 0 1 2 ∷ []) }
    ensures take { Permits (posts ++ (reads_head ++ LowerSignal Sent 0 ∷ [])) }
    ensures lower_in_barrier { Permits (posts ++ FlipGather 0 1 2 ∷ LookSignal Ready (look_at 1 1) ∷ LowerSignal Ready 1 ∷ []) }
    ensures lower_in_take { Permits (posts ++ (begins_taking ++ LookSignal Ready (look_at 1 1) ∷ LowerSignal Ready 1 ∷ [])) }
    ensures answer_in_post { Permits (posts ++ (begins_taking ++ (reads_words 0 ++ RaiseSignal Ready 0 ∷ []))) }
    ensures next { Permits (posts ++ LookSignal Ready (look_at 1 1) ∷ LowerSignal Ready 1 ∷ posts) }
{}

/// A word is drafted again before the raise, and a header word after a chunk word.
pub fn draft_is_free()
    ensures chunk { Permits (drafts_words 7 ++ DraftChunk 0 8 ∷ []) }
    ensures header { Permits (drafts_line 0 0 4 0 ++ DraftHeader 2 5 ∷ []) }
    ensures unordered { Permits (drafts_words 7 ++ (drafts_line 0 0 4 0 ++ RaiseSignal Sent 1 ∷ [])) }
    ensures second { Permits (sends_first ++ (drafts_words 9 ++ DraftChunk 0 10 ∷ RaiseSignal Sent 1 ∷ [])) }
{}

/// A message is raised with each head that a message may have.
pub fn heads_are_free()
    ensures plain { Permits (raises 0 0 4 0) }
    ensures bcast { Permits (raises 1 3 4 0) }
    ensures reduce { Permits (raises 2 7 4 0) }
    ensures all_up { Permits (raises 3 8 4 0) }
    ensures all_down { Permits (raises 4 15 4 0) }
    ensures longest { Permits (raises 0 0 most_message 0) }
    ensures longest_post { Permits (raises 0 0 most_post 1) }
    ensures empty { Permits (drafts_line 0 0 0 0 ++ RaiseSignal Sent 1 ∷ []) }
    ensures empty_post { Permits (drafts_line 0 0 0 1 ++ RaiseSignal Sent 1 ∷ []) }
{}

/// A message is taken with each head that a message may have.
pub fn heads_are_read()
    ensures all_down { Permits (LookSignal Sent (look_at 0 1) ∷ ReadHeader 0 0 4 ∷ ReadHeader 0 1 15 ∷ ReadHeader 0 2 4
        ∷ LowerSignal Sent 0 ∷ []) }
    ensures longest { Permits (reads_plain 0 most_message ++ LowerSignal Sent 0 ∷ []) }
    ensures unordered { Permits (LookSignal Sent (look_at 0 1) ∷ ReadHeader 0 2 4 ∷ ReadHeader 0 0 0 ∷ ReadHeader 0 1 0
        ∷ LowerSignal Sent 0 ∷ []) }
    ensures later { Permits (takes_first ++ LookSignal Sent (look_at 0 1) ∷ LowerSignal Sent 0 ∷ []) }
{}
