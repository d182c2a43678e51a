//! The definition of legal lists of calls, tried on few calls of few ranks.

ghost use Rattle.std.specs.Prelude.{ℕ, List, [], ◌∷◌, Option, Some};
ghost use Rattle.scc_base.specs.Calls.{Bar};
ghost use Rattle.scc_proto.specs.Legality.{Outgoing, IsLegal, no_slots};
ghost use Rattle.scc_proto.specs.LegalExamples.{one_group, lists_of, slot_of_first, four_bytes, send_of_message, receive_of_message, posting};

/// Rank 0 sends four bytes to rank 1, which receives them.
pub fn sent_and_received()
    ensures legal { IsLegal 3 one_group
        (lists_of (send_of_message (four_bytes 1) ∷ []) (receive_of_message 0 (four_bytes 1) ∷ []) []) no_slots }
{}

/// Rank 0 posts four bytes for rank 1, which has not received them: they stand in the slot.
pub fn posted()
    ensures legal { IsLegal 3 one_group
        (lists_of (posting (four_bytes 1) ∷ []) [] []) (slot_of_first (Some (four_bytes 1))) }
{}

/// Rank 1 receives four bytes that rank 0 posted, after a barrier of all ranks.
pub fn posted_and_received()
    ensures legal { IsLegal 3 one_group
        (lists_of (posting (four_bytes 1) ∷ Bar 0 ∷ []) (Bar 0 ∷ receive_of_message 0 (four_bytes 1) ∷ []) (Bar 0 ∷ [])) no_slots }
{}

/// Two ranks that receive from each other before they send have made no call.
pub fn both_receive_first()
    ensures refused { (slots : ℕ → Option Outgoing) → IsLegal 3 one_group
        (lists_of (receive_of_message 1 (four_bytes 0) ∷ send_of_message (four_bytes 1) ∷ [])
        (receive_of_message 0 (four_bytes 1) ∷ send_of_message (four_bytes 0)
        ∷ []) []) slots
        → ⊥ }
{}

/// A barrier of three is not passed by two.
pub fn barrier_of_two()
    ensures refused { (slots : ℕ → Option Outgoing) → IsLegal 3 one_group (lists_of (Bar 0 ∷ []) (Bar 0 ∷ []) []) slots → ⊥ }
{}

/// What is received has the bytes that were sent.
pub fn other_bytes()
    ensures refused { (slots : ℕ → Option Outgoing) → IsLegal 3 one_group
        (lists_of (send_of_message (four_bytes 1) ∷ [])
        (receive_of_message 0 (record (four_bytes 1) { bytes = 1 ∷ 2 ∷ 3 ∷ 5 ∷ [] }) ∷ []) []) slots
        → ⊥ }
{}
