//! The reading of a script's file.

ghost use Rattle.std.specs.Prelude.{◌≡◌, ◌≤◌, IfOk};
ghost use Rattle.rcce_words.specs.ScriptFiles.{ReadsBytes, ReadsScript};

use outcomes::{Complaint, read_file};
use rcce_io::Files;
use script_reader::{MOST_SCRIPT_BYTES, ReadStop, read_script};
use script_rules::Scripts;
use std::alloc::Global;

/// Reads the script in a file for a number of units of execution. A file of more than 4 MiB is refused, and one whose script has
/// a fault.
pub fn read_script_file<'a, F: Files>(
    alloc: Global,
    files: &mut F,
    file: &'a str,
    nue: u8,
) -> Result<Scripts, Complaint<'a>>
    requires some { 1 ≤ nue }
    requires most { nue ≤ 48 }
    ensures reads { ReadsScript file.now nue (F.seen files.old) (F.seen files.new) result }
    // It has as many ranks as it was read for.
    ensures ranks { IfOk result (λ script. script.nue ≡ nue) }
{
    match read_file(alloc, files, file, MOST_SCRIPT_BYTES) {
        Ok(bytes) => read_bytes(alloc, file, nue, bytes.as_slice()),
        Err(complaint) => Err(complaint),
    }
}

/// Reads the script in the bytes of a file.
fn read_bytes<'a>(
    alloc: Global,
    file: &'a str,
    nue: u8,
    bytes: &[u8],
) -> Result<Scripts, Complaint<'a>>
    requires some { 1 ≤ nue }
    requires most { nue ≤ 48 }
    ensures reads { ReadsBytes file.now nue bytes.now result }
    ensures ranks { IfOk result (λ script. script.nue ≡ nue) }
{
    match read_script(alloc, bytes, nue) {
        Ok(script) => Ok(script),
        Err(ReadStop::Fault(fault)) => Err(Complaint::Refused {
            file,
            line: fault.line,
            kind: fault.kind.name(),
        }),
        Err(ReadStop::Memory) => Err(Complaint::Memory),
    }
}
