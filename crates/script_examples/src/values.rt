//! What a rank does by itself.
#![tactic(auto, unfolding(texts::specs::Numbers::number_of, script_machine::specs::Local::local_next, script_machine::specs::Program::unrolled_items))]

ghost use Rattle.std.specs.Prelude.{◌≡◌, [], ◌∷◌, codes, Ok, pos};
ghost use Rattle.groups.specs.declared.operations.Ty.TheVariants.{Int};
ghost use Rattle.script_examples.specs.Ends.{ends_of_text, finishes, shows, shows_value};

/// A script without a line.
pub fn nothing_is_done()
    ensures ends { ends_of_text [] 2 ≡ Ok (finishes [] ∷ finishes [] ∷ []) }
{}

/// A number is printed by its bytes, the lowest first, and as a value.
pub fn a_number_is_printed()
    ensures both { ends_of_text (codes "all\nints x 258\nprint x\nprint int x\n") 1
        ≡ Ok (finishes (shows 0 (2 ∷ 1 ∷ 0 ∷ 0 ∷ []) ∷ shows_value Int 0 (pos 258) ∷ []) ∷ []) }
{}

/// A repeat is done as often as it says.
pub fn a_repeat_is_done_twice()
    ensures doubles { ends_of_text (codes "all\nints x 3\nrepeat 2\napply sum int x x\nprint int x\nend\n") 1
        ≡ Ok (finishes (shows_value Int 0 (pos 6) ∷ shows_value Int 0 (pos 12) ∷ []) ∷ []) }
{}
