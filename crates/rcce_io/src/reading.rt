ghost use Rattle.std.specs.Prelude.{◌<◌, IsTrue};
ghost use Rattle.rcce_io.specs.Reading.{ReadsAll, ReadsRest, ReadsBlock};

use crate::{Files, Got, Opened};
use std::alloc::{AllocError, Global};
use texts::Bytes;

/// How many bytes one read asks for at most.
const BLOCK: usize = 4096;

/// Why a file was not read.
#[derive(Clone, Copy, PartialEq, Eq)]
pub enum ReadEnd {
    Absent,
    Failed,
    Memory,
}

impl From<AllocError> for ReadEnd {
    ghost use Rattle.std.specs.Prelude.{◌≡◌};
    ghost use Rattle.rcce_io.specs.declared.reading.ReadEnd.TheVariants.{Memory};

    ghost from_gives = { λ _ e. e ≡ Memory };

    fn from(_: AllocError) -> Self {
        ReadEnd::Memory
    }
}

/// Reads a file until its end, or until one byte more than the limit was taken: a longer result tells
/// that the file is longer than the limit.
pub fn read_all<F: Files>(
    alloc: Global,
    files: &mut F,
    name: &str,
    limit: usize,
) -> Result<Bytes, ReadEnd>
    requires { limit < usize.MAX }
    ensures { ReadsAll name.now limit (F.seen files.old) (F.seen files.new) result }
{
    match files.open(name) {
        Opened::Open => read_rest(alloc, files, limit),
        Opened::Absent => Err(ReadEnd::Absent),
        Opened::Failed => Err(ReadEnd::Failed),
    }
}

fn read_rest<F: Files>(alloc: Global, files: &mut F, limit: usize) -> Result<Bytes, ReadEnd>
    requires limit { limit < usize.MAX }
    requires open { IsTrue (F.seen files.old).is_open }
    ensures { ReadsRest limit (F.seen files.old) (F.seen files.new) result }
{
    let mut bytes = Vec::new(alloc);
    while bytes.len() <= limit {
        let room = limit + 1 - bytes.len();
        if !read_block(files, &mut bytes, room)? {
            break;
        }
    }
    Ok(Bytes::from_vec(bytes))
}

// Whether a block was read; at the end of the file none was.
fn read_block<F: Files>(files: &mut F, bytes: &mut Vec<u8>, room: usize) -> Result<bool, ReadEnd>
    requires room { 0 < room }
    requires open { IsTrue (F.seen files.old).is_open }
    ensures { ReadsBlock bytes.old.items bytes.new.items room (F.seen files.old) (F.seen files.new) result }
{
    let mut block = [0u8; BLOCK];
    let most = room.min(BLOCK);
    match files.read(&mut block[..most]) {
        Got::Bytes(n) => {
            bytes.extend_from_slice(&block[..n])?;
            Ok(true)
        }
        Got::End => Ok(false),
        Got::Failed => Err(ReadEnd::Failed),
    }
}
