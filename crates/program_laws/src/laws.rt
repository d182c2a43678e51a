//! Laws of programs, each a function whose contract is the law.

ghost use Rattle.std.specs.Prelude.{◌≡◌, ℕ, List, Some, IsSome};
ghost use Rattle.rcce_io.specs.Faults.{IsSteady};
ghost use Rattle.rcce_io.specs.Files.{NamedFile};
ghost use Rattle.rcce_io.specs.Memory.{FilesState, SinkState, after_open, after_read, files_seen, sink_seen};
ghost use Rattle.outcomes.specs.Delivery.{AreSteady, Shows, sinks};
ghost use Rattle.outcomes.specs.Plans.{Program, expected_outcome};
ghost use Rattle.rcce_words.specs.ScriptWords.{script_command};
ghost use Rattle.check_program.specs.Program.{rccecheck};
ghost use Rattle.check_program.specs.Statuses.{run_status};
ghost use Rattle.run_program.specs.Program.{rccerun};

/// For the words that ask for a script by a number of units of execution and a file, which `rccecheck` and `rccerun` both take, both
/// are to end with one status, and it is `run_status`.
pub fn status_law()
    ensures run { (words : List (List ℕ)) (told : List NamedFile) → IsSome (script_command words)
        → (expected_outcome rccerun words told).status ≡ run_status words told }
    ensures check { (words : List (List ℕ)) (told : List NamedFile)
        → (expected_outcome rccecheck words told).status ≡ run_status words told }
{}

/// Files and sinks in memory meet the premises of the output theorem (`output` of `Promises`, in outcomes), and what it then says,
/// whatever a program, its words and its files are: the files tell their contents, no call on them counts a fault, whichever file
/// is opened and read, and sinks with room take the texts of the expected outcome.
pub fn premises_law()
    ensures met { (program : Program) (words : List (List ℕ)) (told : List NamedFile)
        → (files : FilesState) × (out err out_after err_after : SinkState)
        × ((files_seen files).told ≡ Some told)
        × ((file : List ℕ) (len : ℕ) → IsSteady (files_seen files).faults (files_seen (after_read (after_open files file) len)).faults)
        × AreSteady (sinks (sink_seen out) (sink_seen err)) (sinks (sink_seen out_after) (sink_seen err_after))
        × Shows (expected_outcome program words told) (sinks (sink_seen out) (sink_seen err))
        (sinks (sink_seen out_after) (sink_seen err_after))
        (expected_outcome program words told).status }
{}
