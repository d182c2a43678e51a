ghost use Rattle.std.specs.Prelude.{◌≡◌, ◌<◌, Some, length, IfOk};
ghost use Rattle.rcce_io.specs.Sending.{SinkWrites};
ghost use Rattle.rcce_io.specs.Memory.{new_sink, sink_seen, write_answer, after_write};

use crate::calls::CallCounter;
use crate::{Put, Sink};
use std::alloc::{AllocError, Global};
use std::marker::Model;

/// A sink in memory, with room for `room` bytes in all and for `most` at one write. One write can be made to fail.
#[derive(Drop)]
pub struct MemSink {
    bytes: Vec<u8>,
    room: usize,
    most: usize,
    calls: CallCounter,
}

impl Model for MemSink {
    ghost use Rattle.std.specs.Prelude.{◌+◌, ◌<◌, ◌≤◌, vec_len, vec_capacity};
    ghost use Rattle.rcce_io.specs.Memory.{SinkState};

    ghost Value = { SinkState };

    ghost view = { λ s. record { taken = s.bytes.items; room = s.room; most = s.most; calls = s.calls } };

    ghost invariant = { λ s. (vec_len s.bytes + s.room ≤ vec_capacity s.bytes) × (0 < s.most) };
}

impl MemSink {
    /// Takes the memory for its whole room.
    pub fn new(alloc: Global, room: usize, most: usize) -> Result<Self, AllocError>
        requires { 0 < most }
        ensures { IfOk result (λ sink. sink ≡ new_sink room most) }
    {
        Ok(MemSink {
            bytes: Vec::with_capacity(alloc, room)?,
            room,
            most,
            calls: CallCounter::new(),
        })
    }

    /// Makes the write of this number fail, counted from 1. The last number set counts.
    pub fn fail_at(&mut self, call: u64)
        ensures { self.new ≡ record self.old { calls = record self.old.calls { failing = Some call } } }
    {
        self.calls.fail_at(call);
    }

    /// How many writes were made, up to the largest value of u64.
    pub fn writes_made(&self) -> u64
        ensures { result ≡ self.now.calls.made }
    {
        self.calls.made()
    }

    /// The bytes taken.
    pub fn bytes(&self) -> &[u8]
        ensures { result.now ≡ self.now.taken }
    {
        self.bytes.as_slice()
    }
}

impl Sink for MemSink {
    ghost use Rattle.rcce_io.specs.Memory.{sink_seen};

    ghost seen = { sink_seen };

    fn write(&mut self, bytes: &[u8]) -> Put
        requires { 0 < length bytes.now }
        ensures writes { SinkWrites bytes.now (sink_seen self.old) (sink_seen self.new) result }

        // Exactly the write of the number set fails, and each where no room is left.
        ensures answers { result ≡ write_answer self.old (length bytes.now) }
        ensures state { self.new ≡ after_write self.old bytes.now }
    {
        let failed = self.calls.fails_next() || self.room == 0;
        self.calls.count(failed);
        if failed {
            return Put::Failed;
        }
        let len = bytes.len().min(self.most).min(self.room);
        match self.bytes.extend_from_slice(&bytes[..len]) {
            Ok(()) => {
                self.room -= len;
                Put::Took(len)
            }
            Err(_) => unreachable!(),
        }
    }
}
