//! Buffers for bytes, and the registers of a rank, all allocated at the start.

ghost use Rattle.std.specs.Prelude.{◌≡◌, ◌≤◌, ◌%◌, ◌+◌, ◌++◌, [], length, min};
ghost use Rattle.script_machine.specs.Program.{filling};

use crate::prims::Content;
use groups::{Op, Ty, fold_into};
use std::alloc::{AllocError, Global};
use std::marker::Model;

/// The period of a `fill`: after so many bytes they repeat.
const PERIOD: u32 = 251;

/// A number of bytes that a message may have.
#[derive(Clone, Copy)]
pub struct Length {
    len: u32,
}

impl Model for Length {
    ghost use Rattle.std.specs.Prelude.{ℕ, ◌≤◌};
    ghost use Rattle.scc_base.specs.Heads.{most_message};

    ghost Value = { ℕ };

    ghost view = { λ l. l.len };

    ghost invariant = { λ l. l.len ≤ most_message };

    ghost inverse = { λ n. record { len = n } };
}

impl Length {
    ghost use Rattle.std.specs.Prelude.{◌≡◌, ◌≤◌};
    ghost use Rattle.scc_base.specs.Heads.{most_message};

    pub fn of(len: u32) -> Length
        requires { len ≤ most_message }
        ensures { result ≡ len }
    {
        Length { len }
    }

    pub fn get(self) -> u32
        ensures same { result ≡ self }
        ensures within { result ≤ most_message }
    {
        self.len
    }
}

/// A buffer of bytes, never more than its capacity.
#[derive(Drop)]
pub struct Room {
    bytes: Vec<u8>,
    room: Length,
}

impl Model for Room {
    ghost use Rattle.std.specs.Prelude.{◌≤◌, length};
    ghost use Rattle.std.specs.Vec.{vec_capacity};
    ghost use Rattle.script_machine.specs.Rooms.{RoomView};

    ghost Value = { RoomView };

    ghost view = { λ r. record { bytes = r.bytes.items; room = r.room } };

    ghost invariant = { λ r. (length r.bytes.items ≤ r.room) × (r.room ≤ vec_capacity r.bytes) };
}

impl Room {
    ghost use Rattle.std.specs.Prelude.{◌≡◌, ◌≤◌, [], length, IfOk};
    ghost use Rattle.script_machine.specs.Local.{fold_if_fits};
    ghost use Rattle.script_machine.specs.Walk.{content_of};
    ghost use Rattle.scc_base.specs.Heads.{most_message};

    /// An empty buffer that can hold this many bytes.
    pub fn new(alloc: Global, room: Length) -> Result<Room, AllocError>
        ensures { IfOk result (λ r. r ≡ record { bytes = []; room = room }) }
    {
        let bytes = Vec::with_capacity(alloc, room.get() as usize)?;
        Ok(Room { bytes, room })
    }

    /// The bytes that it holds.
    pub fn bytes(&self) -> &[u8]
        ensures same { result.now ≡ self.now.bytes }
        ensures within { length self.now.bytes ≤ most_message }
    {
        let _most = self.room.get();
        self.bytes.as_slice()
    }

    /// Becomes these bytes.
    pub fn write(&mut self, bytes: &[u8])
        requires { length bytes.now ≤ self.old.room }
        ensures { self.new ≡ record self.old { bytes = bytes.now } }
    {
        self.bytes.clear();
        if self.bytes.extend_from_slice(bytes).is_err() {
            unreachable!()
        }
    }

    /// Becomes what a register is set to.
    pub fn set(&mut self, content: &Content)
        requires { length (content_of content.now) ≤ self.old.room }
        ensures { self.new ≡ record self.old { bytes = content_of content.now } }
    {
        match content {
            Content::Bytes(bytes) => self.write(bytes.as_slice()),
            Content::Filling { len, start } => self.fill(*len, *start),
            Content::Number {
                ty: Ty::Int,
                number,
            } => self.write(&i32::from(*number).to_le_bytes()),
            Content::Number {
                ty: Ty::Long,
                number,
            } => self.write(&i64::from(*number).to_le_bytes()),
        }
    }

    /// Becomes this many bytes, of which byte i is `(start + i) mod 251`.
    fn fill(&mut self, len: u32, start: u32)
        requires { len ≤ self.old.room }
        ensures { self.new ≡ record self.old { bytes = filling len start } }
    {
        self.begin_filling(len.min(PERIOD), start);
        self.go_on_filling(len as usize, start);
    }

    /// Becomes this many bytes, of which byte i is `(start + i) mod 251`, one by one.
    fn begin_filling(&mut self, len: u32, start: u32)
        requires { len ≤ self.old.room }
        ensures { self.new ≡ record self.old { bytes = filling len start } }
    {
        self.bytes.clear();
        for i in 0..len {
            self.bytes
                .push_reserved(((start as u64 + i as u64) % PERIOD as u64) as u8);
        }
    }

    /// Becomes this many bytes of a filling, of which it holds the first ones: all of them, or a complete period.
    fn go_on_filling(&mut self, len: usize, start: u32)
        requires begun { self.old.bytes ≡ filling (min len PERIOD) start }
        requires within { len ≤ self.old.room }
        ensures { self.new ≡ record self.old { bytes = filling len start } }
    {
        while self.bytes.len() < len {
            let done = self.bytes.len();
            let more = done.min(len - done);
            if self.bytes.extend_from_within(..more).is_err() {
                unreachable!()
            }
        }
    }

    /// Becomes `bytes op more`, value by value, if the two fit, and otherwise stays as it is. The result of `fold_into` is not
    /// used.
    pub fn fold(&mut self, op: Op, ty: Ty, more: &[u8])
        ensures { self.new ≡ record self.old { bytes = fold_if_fits op ty self.old.bytes more.now } }
    {
        let _ = fold_into(op, ty, self.bytes.as_mut_slice(), more);
    }
}

/// The registers of a rank, each in its own buffer.
#[derive(Drop)]
pub struct Registers {
    rooms: Vec<Room>,
}

impl Model for Registers {
    ghost use Rattle.std.specs.Prelude.{map};
    ghost use Rattle.script_machine.specs.Rooms.{RegistersView};

    ghost Value = { RegistersView };

    ghost view = { λ r. record { registers = map (λ room. room.bytes) r.rooms.items; rooms = map (λ room. room.room) r.rooms.items } };
}

impl Registers {
    ghost use Rattle.std.specs.Prelude.{◌≡◌, ◌<◌, ◌≤◌, [], length, replicate, slice_index_or, slice_set, IfOk};
    ghost use Rattle.script_machine.specs.Local.{fold_if_fits};
    ghost use Rattle.script_machine.specs.Walk.{content_of};
    ghost use Rattle.scc_base.specs.Heads.{most_message};

    /// Registers with these capacities, none of them set.
    pub fn new(alloc: Global, lengths: &[Length]) -> Result<Registers, AllocError>
        ensures { IfOk result (λ r. r ≡ record { registers = replicate (length lengths.now) []; rooms = lengths.now }) }
    {
        let mut rooms = Vec::new(alloc);
        for i in 0..lengths.len() {
            rooms.push(Room::new(alloc, lengths[i])?)?;
        }
        Ok(Registers { rooms })
    }

    /// The bytes of a register, or none if no register has this number.
    pub fn bytes(&self, reg: u8) -> &[u8]
        ensures same { result.now ≡ slice_index_or self.now.registers reg [] }
        ensures within { length (slice_index_or self.now.registers reg []) ≤ most_message }
    {
        match self.rooms.get(reg as usize) {
            Some(room) => room.bytes(),
            None => &[],
        }
    }

    /// A register becomes these bytes.
    pub fn write(&mut self, reg: u8, bytes: &[u8])
        requires { reg < length self.old.rooms → length bytes.now ≤ slice_index_or self.old.rooms reg 0 }
        ensures { self.new ≡ record self.old { registers = slice_set self.old.registers reg bytes.now } }
    {
        if (reg as usize) < self.rooms.len() {
            self.rooms[reg as usize].write(bytes);
        }
    }

    /// A register becomes what it is set to.
    pub fn set(&mut self, reg: u8, content: &Content)
        requires { reg < length self.old.rooms → length (content_of content.now) ≤ slice_index_or self.old.rooms reg 0 }
        ensures { self.new ≡ record self.old { registers = slice_set self.old.registers reg (content_of content.now) } }
    {
        if (reg as usize) < self.rooms.len() {
            self.rooms[reg as usize].set(content);
        }
    }

    /// A register becomes `register op more`, value by value, if the two fit.
    pub fn fold(&mut self, op: Op, ty: Ty, reg: u8, more: &[u8])
        ensures { self.new
            ≡ record self.old {
              registers = slice_set self.old.registers reg
                  (fold_if_fits op ty (slice_index_or self.old.registers reg []) more.now);
            } }
    {
        if (reg as usize) < self.rooms.len() {
            self.rooms[reg as usize].fold(op, ty, more);
        }
    }
}
