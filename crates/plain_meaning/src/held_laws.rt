//! The law of what holds up the ranks that a run leaves unfinished.

ghost use Rattle.std.specs.Prelude.{◌<◌, ℕ};
ghost use Rattle.script_rules.specs.Script.{Script};
ghost use Rattle.script_rules.specs.Settled.{IsWholeScript};
ghost use Rattle.plain_meaning.specs.HeldUp.{IsExplained};
ghost use Rattle.plain_meaning.specs.Meaning.{keys_of, plain_ends};

/// At the end of a script that was read, each unfinished rank waits for another rank of the run: the other rank of its
/// message, or a member of its group that has not come to its barrier. A message that nobody took is for another rank.
pub fn ends_are_explained()
    ensures law { (script : Script) → IsWholeScript script.nue script.items → (rank : ℕ) → rank < script.nue
        → IsExplained (keys_of script) (plain_ends script) rank }
{}
