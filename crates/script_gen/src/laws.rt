//! The laws of generated scripts: what the reader makes of them, and what their ranks send.

ghost use Rattle.std.specs.Prelude.{◌≡◌, ◌≤◌, ℕ, Ok, length};
ghost use Rattle.script_machine.specs.Local.{most_steps_left, local_start};
ghost use Rattle.script_plain.specs.Matches.{plain_matches};
ghost use Rattle.plain_meaning.specs.Meaning.{plain_end};
ghost use Rattle.script_reader.specs.Reading.{parse_script};
ghost use Rattle.script_gen.specs.Outcome.{all_sends, all_sent_bytes, message_bytes};
ghost use Rattle.script_gen.specs.Scripts.{gen_script_of};
ghost use Rattle.script_gen.specs.Texts.{gen_text};

/// The reader accepts each generated script, for each number of ranks: it is the one that is stated. So `read_script` never
/// refuses it for another cause than memory.
pub fn generated_scripts_are_read()
    ensures { (nue s : ℕ) → 1 ≤ nue → nue ≤ 48 → s ≤ 65535 → parse_script (gen_text nue s) nue ≡ Ok (gen_script_of nue s) }
{}

/// A generated script posts nothing, so what its ranks have sent at the plain end are the messages that came.
pub fn sent_messages_came()
    ensures messages { (nue s : ℕ) → all_sends (plain_end (gen_script_of nue s)) ≡ length (plain_matches (gen_script_of nue s)) }
    ensures bytes { (nue s : ℕ) → all_sent_bytes (plain_end (gen_script_of nue s)) ≡ message_bytes (plain_matches (gen_script_of nue s)) }
{}

/// The ranks of a generated script take few steps.
pub fn generated_scripts_are_short()
    ensures { (nue s rank : ℕ) → nue ≤ 48 → most_steps_left (local_start (gen_script_of nue s) rank) ≤ 110001 }
{}
