//! Barriers and collective calls of all ranks and of groups.
#![tactic(auto, unfolding(scc_base::specs::Communicators::key_of, texts::specs::Numbers::number_of, script_machine::specs::Local::local_next, script_machine::specs::Program::unrolled_items, hex::specs::Hex::decode_pairs))]

ghost use Rattle.std.specs.Prelude.{◌≡◌, [], ◌∷◌, codes, Ok, neg_ℤ, pos};
ghost use Rattle.scc_base.specs.Heads.{plain_head};
ghost use Rattle.scc_base.specs.declared.calls.Call.TheVariants.{Bar, Send};
ghost use Rattle.scc_base.specs.declared.kinds.Kind.TheVariants as kind;
ghost use Rattle.groups.specs.Collectives.{head_of_kind};
ghost use Rattle.groups.specs.declared.operations.Ty.TheVariants.{Int, Long};
ghost use Rattle.script_examples.specs.Ends.{ends_of_text, finishes, shows, shows_value, stops, waits};

/// Three ranks pass two barriers. If one of them does not come, the others wait.
pub fn barriers_meet()
    ensures twice { ends_of_text (codes "all\nbarrier\nbarrier\nbytes x ff\nprint x\n") 3
        ≡ Ok (finishes (shows 0 (255 ∷ []) ∷ []) ∷ finishes (shows 0 (255 ∷ []) ∷ []) ∷ finishes (shows 0 (255 ∷ []) ∷ []) ∷ []) }
    ensures missed { ends_of_text (codes "ue 0-1\nbarrier\n") 3 ≡ Ok (waits 2 (Bar 0) [] ∷ waits 2 (Bar 0) [] ∷ finishes [] ∷ []) }
{}

/// The barrier of a group is passed by its members. If one of them does not come, the other waits.
pub fn groups_meet()
    ensures both { ends_of_text (codes "all\nsplit 1 mod 2\nue 0\nbarrier 1\nue 2\nbarrier 1\n") 3
        ≡ Ok (finishes [] ∷ finishes [] ∷ finishes [] ∷ []) }
    ensures one { ends_of_text (codes "all\nsplit 1 mod 2\nue 0\nbarrier 1\nue 2\n") 3
        ≡ Ok (waits 4 (Bar 1) [] ∷ finishes [] ∷ finishes [] ∷ []) }
{}

/// A message of a broadcast stops a receiver that asks for a plain one.
pub fn kinds_differ()
    ensures stops { ends_of_text (codes "all\nbytes x 07\nue 0\nbcast 0 0 x 1\nue 1\nrecv 0 x 1\n") 2
        ≡ Ok (waits 4 (Send 1 (head_of_kind kind.Bcast 0 1)) [] ∷ stops 6 0 (head_of_kind kind.Bcast 0 1) (plain_head 1) ∷ []) }
{}

/// A member leaves a broadcast before the others have come, and sends to one that enters it later.
pub fn a_member_leaves_early()
    ensures arrives { ends_of_text
        (codes "ue 0\nbytes x 11\nbcast 0 0 x 1\nue 1\nbcast 0 0 x 1\nsend 2 x\nue 2\nrecv 1 y 1\nbcast 0 0 x 1\nprint x\nprint y\n") 3
        ≡ Ok (finishes [] ∷ finishes [] ∷ finishes (shows 0 (17 ∷ []) ∷ shows 1 (17 ∷ []) ∷ []) ∷ []) }
{}

/// A sum wraps.
pub fn a_sum_wraps()
    ensures wraps { ends_of_text (codes "ue 0\nints x 2147483647\nue 1\nints x 1\nall\nallreduce 0 sum int y x\nprint int y\n") 2
        ≡ Ok (finishes (shows_value Int 1 (neg_ℤ (pos 2147483648)) ∷ [])
        ∷ finishes (shows_value Int 1 (neg_ℤ (pos 2147483648)) ∷ []) ∷ []) }
{}

/// The groups of a split: 0, 2 and 4, and 1 and 3. The second member of each gets the greatest rank.
pub fn groups_reduce()
    ensures greatest { ends_of_text (codes "all\nsplit 1 mod 2\nrank x long\nreduce 1 1 max long y x\nue 2-3\nprint long y\n") 5
        ≡ Ok (finishes [] ∷ finishes [] ∷ finishes (shows_value Long 1 (pos 4) ∷ []) ∷ finishes (shows_value Long 1 (pos 3) ∷ [])
        ∷ finishes [] ∷ []) }
{}

/// The groups of a split inside a split: 0 and 2, 1 and 3, 4 and 6, 5 and 7.
pub fn splits_nest()
    ensures sums { ends_of_text (codes "rcce 2\nall\nsplit 1 div 4\nsplit 9 of 1 mod 2\nrank x long\nallreduce 9 sum long y x\nue 0-1\nprint long y\nue 6\nprint long y\n") 8
        ≡ Ok (finishes (shows_value Long 1 (pos 2) ∷ []) ∷ finishes (shows_value Long 1 (pos 4) ∷ []) ∷ finishes [] ∷ finishes []
        ∷ finishes [] ∷ finishes []
        ∷ finishes (shows_value Long 1 (pos 10) ∷ []) ∷ finishes [] ∷ []) }
{}
