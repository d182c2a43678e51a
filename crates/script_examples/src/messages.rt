//! Messages between two ranks and in a ring.
#![tactic(auto, unfolding(texts::specs::Numbers::number_of, script_machine::specs::Local::local_next, script_machine::specs::Program::unrolled_items, hex::specs::Hex::decode_pairs))]

ghost use Rattle.std.specs.Prelude.{◌≡◌, [], ◌∷◌, codes, Ok, pos};
ghost use Rattle.scc_base.specs.Heads.{plain_head};
ghost use Rattle.scc_base.specs.declared.calls.Call.TheVariants.{Send};
ghost use Rattle.groups.specs.declared.operations.Ty.TheVariants.{Int};
ghost use Rattle.script_examples.specs.Ends.{ends_of_text, finishes, shows, shows_value, stops, waits};

/// A message of four bytes arrives and is printed, and so does one without bytes.
pub fn a_message_arrives()
    ensures four { ends_of_text (codes "ue 0\nbytes x 01020304\nsend 1 x\nue 1\nrecv 0 y 4\nprint y\n") 2
        ≡ Ok (finishes [] ∷ finishes (shows 1 (1 ∷ 2 ∷ 3 ∷ 4 ∷ []) ∷ []) ∷ []) }
    ensures none { ends_of_text (codes "ue 0\nbytes x -\nsend 1 x\nue 1\nrecv 0 y 0\nprint y\n") 2
        ≡ Ok (finishes [] ∷ finishes (shows 1 [] ∷ []) ∷ []) }
{}

/// Two equal messages arrive in order. With one receive less the sender waits.
pub fn two_messages_arrive()
    ensures both { ends_of_text (codes "ue 0\nbytes x aa\nsend 1 x\nsend 1 x\nue 1\nrecv 0 y 1\nrecv 0 z 1\nprint y\nprint z\n") 2
        ≡ Ok (finishes [] ∷ finishes (shows 1 (170 ∷ []) ∷ shows 2 (170 ∷ []) ∷ []) ∷ []) }
    ensures one { ends_of_text (codes "ue 0\nbytes x aa\nsend 1 x\nsend 1 x\nue 1\nrecv 0 y 1\nprint y\n") 2
        ≡ Ok (waits 4 (Send 1 (plain_head 1)) [] ∷ finishes (shows 1 (170 ∷ []) ∷ []) ∷ []) }
{}

/// A message of eight bytes stops a receiver that asks for four.
pub fn lengths_differ()
    ensures stops { ends_of_text (codes "ue 0\nbytes x 0001020304050607\nsend 1 x\nue 1\nrecv 0 y 4\n") 2
        ≡ Ok (waits 3 (Send 1 (plain_head 8)) [] ∷ stops 5 0 (plain_head 8) (plain_head 4) ∷ []) }
{}

/// A ring of four that all send first waits for good.
pub fn all_send_first()
    ensures waits { ends_of_text (codes "all\nfill x 1 9\nsend +1 x\nrecv -1 y 1\nprint y\n") 4
        ≡ Ok (waits 3 (Send 1 (plain_head 1)) [] ∷ waits 3 (Send 2 (plain_head 1)) [] ∷ waits 3 (Send 3 (plain_head 1)) []
        ∷ waits 3 (Send 0 (plain_head 1)) [] ∷ []) }
{}

/// In a ring of four in which the odd ranks receive first each rank gets the number of the rank before it.
pub fn a_ring_goes_round()
    ensures arrives { ends_of_text
        (codes "all\nrank x int\neven\nsend +1 x\nrecv -1 y 4\nodd\nrecv -1 y 4\nsend +1 x\nall\nprint int y\n") 4
        ≡ Ok (finishes (shows_value Int 1 (pos 3) ∷ []) ∷ finishes (shows_value Int 1 (pos 0) ∷ [])
        ∷ finishes (shows_value Int 1 (pos 1) ∷ [])
        ∷ finishes (shows_value Int 1 (pos 2) ∷ []) ∷ []) }
{}

/// A message goes on by a rank in between.
pub fn a_message_goes_on()
    ensures arrives { ends_of_text (codes "ue 2\nbytes x 01\nsend 1 x\nue 1\nrecv 2 y 1\nsend 0 y\nue 0\nrecv 1 z 1\nprint z\n") 3
        ≡ Ok (finishes (shows 2 (1 ∷ []) ∷ []) ∷ finishes [] ∷ finishes [] ∷ []) }
{}
