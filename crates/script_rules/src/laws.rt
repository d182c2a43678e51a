//! The numbers of the limits of a script.

ghost use Rattle.std.specs.Prelude.{◌≡◌};
ghost use Rattle.scc_base.specs.Heads.{most_message};
ghost use Rattle.script_rules.specs.Limits.{most_names, most_open, most_operations, most_printed};

/// The limits of a script: a rank's operations and printed bytes, a file's names, open repeats, and bytes of a register or a
/// message.
pub fn numbers_law()
    ensures operations { most_operations ≡ 100000 }
    ensures printed { most_printed ≡ 1048576 }
    ensures names { most_names ≡ 64 }
    ensures open { most_open ≡ 8 }
    ensures message { most_message ≡ 65536 }
{}
