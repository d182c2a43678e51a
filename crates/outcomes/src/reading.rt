ghost use Rattle.std.specs.Prelude.{◌≡◌, ◌<◌, ◌≤◌, length, IfOk};
ghost use Rattle.outcomes.specs.Coming.{FileHolds};
ghost use Rattle.outcomes.specs.Complaints.{ReadsFile};

use crate::Complaint;
use rcce_io::{Files, ReadEnd, read_all};
use std::alloc::Global;
use texts::Bytes;

/// Reads a file of at most `limit` bytes. A longer one is refused.
pub fn read_file<'a, F: Files>(
    alloc: Global,
    files: &mut F,
    file: &'a str,
    limit: usize,
) -> Result<Bytes, Complaint<'a>>
    requires { limit < usize.MAX }
    ensures reads { ReadsFile file.now limit (F.seen files.old) (F.seen files.new) result }
    ensures within { IfOk result (λ bytes. length bytes ≤ limit) }
    // The bytes stand in the file, where files are told; and what is told of files stays.
    ensures holds { IfOk result (λ bytes. FileHolds (F.seen files.old).told file.now bytes) }
    ensures told { IfOk result (λ bytes. (F.seen files.new).told ≡ (F.seen files.old).told) }
{
    match read_all(alloc, files, file, limit) {
        Ok(bytes) => {
            if limit < bytes.as_slice().len() {
                Err(Complaint::Refused {
                    file,
                    line: 0,
                    kind: "TooLong",
                })
            } else {
                Ok(bytes)
            }
        }
        Err(ReadEnd::Absent) => Err(Complaint::Absent(file)),
        Err(ReadEnd::Failed) => Err(Complaint::ReadFault(file)),
        Err(ReadEnd::Memory) => Err(Complaint::Memory),
    }
}
