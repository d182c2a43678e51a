ghost use Rattle.std.specs.Prelude.{◌≡◌, ◌∷◌, [], ℕ, List, codes};
ghost use Rattle.rcce_io.specs.Sending.{Sends, joined_texts};
ghost use Rattle.outcomes.specs.Complaints.{complaint_outcome};
ghost use Rattle.outcomes.specs.Outcomes.{file_refused, words_refused};

use crate::Status;
use rcce_io::Piece::{Number, Text};
use rcce_io::{Sink, WriteFault, write_texts};

/// Why a program did not run.
#[derive(Clone, Copy)]
pub enum Complaint<'a> {
    /// The words are refused: the fault, the word that has it, what is said between, and its value.
    Words {
        fault: &'a str,
        word: &'a str,
        afterwards: &'a str,
        value: &'a str,
    },
    /// No memory was left.
    Memory,
    /// There is no such file.
    Absent(&'a str),
    /// The file could not be read.
    ReadFault(&'a str),
    /// The file is refused for a line of it, counted from 1, or for all of it, at line 0.
    Refused {
        file: &'a str,
        line: u32,
        kind: &'a str,
    },
}

impl<'a> Complaint<'a> {
    /// The words are refused, with this text.
    pub fn words(fault: &'a str) -> Self
        ensures { (program : List ℕ) → complaint_outcome program result ≡ words_refused program fault.now }
    {
        Complaint::Words {
            fault,
            word: "",
            afterwards: "",
            value: "",
        }
    }

    /// The status with which the program ends where the text is written.
    pub fn status(&self) -> Status
        ensures { (program : List ℕ) → result ≡ (complaint_outcome program self.now).status }
    {
        match self {
            Complaint::Words { .. } => Status::Words,
            Complaint::Memory => Status::Memory,
            Complaint::Absent(_) | Complaint::ReadFault(_) => Status::Files,
            Complaint::Refused { .. } => Status::Script,
        }
    }

    /// Writes the program's one line of it.
    pub fn write<S: Sink>(&self, program: &'a str, sink: &mut S) -> Result<(), WriteFault>
        ensures { Sends (complaint_outcome program.now self.now).err (S.seen sink.old) (S.seen sink.new) result }
    {
        match *self {
            Complaint::Words {
                fault,
                word,
                afterwards,
                value,
            } => write_texts(
                sink,
                &[
                    Text(program),
                    Text(": "),
                    Text(fault),
                    Text(word),
                    Text(afterwards),
                    Text(value),
                    Text("\n"),
                ],
            ),
            Complaint::Memory => write_texts(sink, &[Text(program), Text(": no memory\n")]),
            Complaint::Absent(file) => write_file(sink, program, file, ": absent\n"),
            Complaint::ReadFault(file) => write_file(sink, program, file, ": read fault\n"),
            Complaint::Refused { file, line, kind } => {
                write_refused(sink, program, file, line, kind)
            }
        }
    }
}

/// Writes the line on a file that was not read.
fn write_file<'a, S: Sink>(
    sink: &mut S,
    program: &'a str,
    file: &'a str,
    said: &'a str,
) -> Result<(), WriteFault>
    ensures { Sends (joined_texts (program.now ∷ codes ": " ∷ file.now ∷ said.now ∷ [])) (S.seen sink.old) (S.seen sink.new) result }
{
    write_texts(sink, &[Text(program), Text(": "), Text(file), Text(said)])
}

/// Writes the line that refuses a file.
fn write_refused<'a, S: Sink>(
    sink: &mut S,
    program: &'a str,
    file: &'a str,
    line: u32,
    kind: &'a str,
) -> Result<(), WriteFault>
    ensures { Sends (file_refused program.now file.now line kind.now).err (S.seen sink.old) (S.seen sink.new) result }
{
    write_texts(
        sink,
        &[
            Text(program),
            Text(": "),
            Text(file),
            Text(" line "),
            Number(line as u64),
            Text(": "),
            Text(kind),
            Text("\n"),
        ],
    )
}
