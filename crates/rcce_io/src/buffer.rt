ghost use Rattle.std.specs.Prelude.{◌≡◌, [], OnOk};
ghost use Rattle.rcce_io.specs.Sending.{Gathers, Sends};

use crate::{Put, Sink, TextSource, WriteFault, write_all};
use arrayvec::ArrayVec;
use std::marker::Model;

/// How many bytes a buffer holds.
const ROOM: usize = 1024;

/// Bytes that wait for a sink, so that many short texts go to it by one write. No memory is taken.
#[derive(Drop)]
pub struct Buffer {
    room: Room,
}

/// The bytes that wait.
#[derive(Drop)]
struct Room {
    bytes: ArrayVec<u8, ROOM>,
}

impl Model for Buffer {
    ghost use Rattle.std.specs.Prelude.{List, ℕ};

    ghost Value = { List ℕ };

    ghost view = { λ b. b.room.bytes.items };
}

impl Buffer {
    pub fn new() -> Self
        ensures { result ≡ [] }
    {
        Buffer {
            room: Room {
                bytes: ArrayVec::new(),
            },
        }
    }

    /// Puts a text behind the bytes that wait. Where it does not fit, both are written, first what waits.
    pub fn gather<S: Sink, T: TextSource>(
        &mut self,
        sink: &mut S,
        source: &T,
    ) -> Result<(), WriteFault>
        ensures { Gathers (T.text source.now) self.old self.new (S.seen sink.old) (S.seen sink.new) result }
    {
        let waiting = self.room.bytes.len();
        match source.write_to(&mut self.room) {
            Ok(()) => return Ok(()),
            Err(WriteFault) => {
                self.room.bytes.truncate(waiting);
                self.flush(sink)?;
            }
        }
        source.write_to(sink)
    }

    /// Writes the bytes that wait.
    pub fn flush<S: Sink>(&mut self, sink: &mut S) -> Result<(), WriteFault>
        ensures sends { Sends self.old (S.seen sink.old) (S.seen sink.new) result }
        ensures emptied { OnOk result (self.new ≡ []) }
    {
        write_all(sink, self.room.bytes.as_slice())?;
        self.room.bytes.clear();
        Ok(())
    }
}

// A write fails where the bytes do not fit. The count of faults stands at its largest value.
impl Sink for Room {
    ghost use Rattle.std.specs.Prelude.{Some, ◌-◌, ◌^◌};

    ghost seen = { λ r. record { taken = Some r.bytes.items; faults = 2 ^ 64 - 1 } };

    fn write(&mut self, bytes: &[u8]) -> Put {
        match self.bytes.try_extend_from_slice(bytes) {
            Ok(()) => Put::Took(bytes.len()),
            Err(_) => Put::Failed,
        }
    }
}
