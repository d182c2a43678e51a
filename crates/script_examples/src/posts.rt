//! Messages that a rank leaves in its buffer.
#![tactic(auto, unfolding(texts::specs::Numbers::number_of, script_machine::specs::Local::local_next, script_machine::specs::Program::unrolled_items, hex::specs::Hex::decode_pairs))]

ghost use Rattle.std.specs.Prelude.{◌≡◌, [], ◌∷◌, codes, Ok, Err};
ghost use Rattle.scc_base.specs.Heads.{plain_head};
ghost use Rattle.scc_base.specs.declared.calls.Call.TheVariants.{Post, Recv};
ghost use Rattle.script_rules.specs.declared.fault.FaultKind.TheVariants.{TooLong};
ghost use Rattle.script_examples.specs.Ends.{ends_of_text, finishes, posted_to, shows, stops, waits};

/// A ring of four that all post first goes round.
pub fn all_post_first()
    ensures arrives { ends_of_text (codes "all\nfill x 1 9\npost +1 x\nrecv -1 y 1\nprint y\n") 4
        ≡ Ok (finishes (shows 1 (9 ∷ []) ∷ []) ∷ finishes (shows 1 (9 ∷ []) ∷ []) ∷ finishes (shows 1 (9 ∷ []) ∷ [])
        ∷ finishes (shows 1 (9 ∷ []) ∷ []) ∷ []) }
{}

/// A rank goes on after its post. At its end and at its next post it waits until the message is taken.
pub fn a_post_is_taken()
    ensures at_end { ends_of_text (codes "ue 0\nbytes x 01\npost 1 x\nprint x\n") 2
        ≡ Ok (posted_to 1 (waits 3 (Post 1 (plain_head 1)) (shows 0 (1 ∷ []) ∷ [])) ∷ finishes [] ∷ []) }
    ensures at_next { ends_of_text (codes "ue 0\nbytes x 01\npost 1 x\npost 2 x\nue 2\nrecv 0 y 1\n") 3
        ≡ Ok (posted_to 1 (waits 4 (Post 2 (plain_head 1)) []) ∷ finishes [] ∷ waits 6 (Recv 0 (plain_head 1)) [] ∷ []) }
{}

/// A posted message of two bytes stops a receiver that asks for one. A register of more than 3,584 bytes is not posted.
pub fn a_post_has_a_length()
    ensures stops { ends_of_text (codes "ue 0\nbytes x 0102\npost 1 x\nue 1\nrecv 0 y 1\n") 2
        ≡ Ok (posted_to 1 (waits 3 (Post 1 (plain_head 2)) []) ∷ stops 5 0 (plain_head 2) (plain_head 1) ∷ []) }
    ensures refused { ends_of_text (codes "ue 0\nfill x 3585 0\npost 1 x\n") 2 ≡ Err (record { line = 3; kind = TooLong }) }
{}
