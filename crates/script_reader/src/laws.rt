//! The laws of the versions of the language, and of a script's names and repeats.

ghost use Rattle.std.specs.Prelude.{◌≡◌, ◌≤◌, ℕ, IfOk, List, length};
ghost use Rattle.script_rules.specs.declared.version.Version.TheVariants.{One, Two};
ghost use Rattle.script_rules.specs.Checks.{last_comm};
ghost use Rattle.script_rules.specs.Closed.{IsClosed};
ghost use Rattle.script_reader.specs.Reading.{parse_script, read_as, read_file, version_of};
ghost use Rattle.script_rules.specs.Settled.{NamesCommsTo, SplitsWorldAlone};
ghost use Rattle.script_rules.specs.Limits.{most_names};
ghost use Rattle.texts.specs.Cuts.{lines_of};

/// A file is read by the grammar of version 1, unless its first line with words is `rcce 2`. A script of version 1 splits only
/// the world. No script names a communicator above the highest of its version.
pub fn version_law()
    ensures first { (bytes : List ℕ) (nue : ℕ) → version_of (lines_of bytes) ≡ One → read_file bytes nue ≡ read_as One bytes nue }
    ensures second { (bytes : List ℕ) (nue : ℕ) → version_of (lines_of bytes) ≡ Two → read_file bytes nue ≡ read_as Two bytes nue }
    ensures flat { (bytes : List ℕ) (nue : ℕ) → version_of (lines_of bytes) ≡ One → IfOk (read_file bytes nue) SplitsWorldAlone }
    ensures named { (bytes : List ℕ) (nue : ℕ) → IfOk (read_file bytes nue) (NamesCommsTo (last_comm (version_of (lines_of bytes)))) }
{}

/// A script that was read names no more registers than a file may. None of its repeats is open at its end, and each repeat has
/// the place of its end, in its section.
pub fn script_law()
    ensures few { (bytes : List ℕ) (nue : ℕ) → IfOk (parse_script bytes nue) (λ script. length script.names ≤ most_names) }
    ensures closed { (bytes : List ℕ) (nue : ℕ) → IfOk (parse_script bytes nue) IsClosed }
{}
