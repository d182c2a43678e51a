//! What the machine of a rank holds.

use crate::prims::Action;
use crate::prints::Prints;
use crate::reckoning::Needs;
use crate::rooms::{Registers, Room};
use script_rules::OwnStmt;
use std::alloc::{AllocError, Global};

/// What a rank holds: its registers, the two work buffers of collective calls, what it printed, and a scratch buffer for the
/// copy of the register that `apply` reads.
#[derive(Drop)]
pub(crate) struct Held {
    pub(crate) registers: Registers,
    pub(crate) folded: Room,
    pub(crate) taken: Room,
    pub(crate) spare: Room,
    pub(crate) prints: Prints,
}

/// Three empty buffers of a rank.
#[derive(Drop)]
struct Buffers {
    folded: Room,
    taken: Room,
    spare: Room,
}

impl Held {
    ghost use Rattle.std.specs.Prelude.{◌≡◌, IfOk};
    ghost use Rattle.script_machine.specs.Holds.{HasRoomFor, empty, held_after_own};
    ghost use Rattle.script_machine.specs.Rooms.{rooms_of};

    /// Nothing yet, in buffers of the capacities that are needed.
    pub(crate) fn new(alloc: Global, needs: &Needs) -> Result<Held, AllocError>
        ensures { IfOk result (λ h. h ≡ empty (rooms_of needs.now)) }
    {
        let registers = Registers::new(alloc, needs.registers.as_slice())?;
        let Buffers {
            folded,
            taken,
            spare,
        } = Buffers::new(alloc, needs)?;
        let prints = Prints::new(alloc, needs.items, needs.printed)?;
        Ok(Held {
            registers,
            folded,
            taken,
            spare,
            prints,
        })
    }

    /// Runs a local statement on what the rank holds; other statements change nothing.
    pub(crate) fn work(&mut self, action: &Action)
        requires { HasRoomFor action.now self.old }
        ensures { self.new ≡ held_after_own action.now self.old }
    {
        match *action {
            Action::Set { reg, content } => self.registers.set(reg, &content),
            Action::Own(OwnStmt::Apply { op, ty, dst, src }) => {
                self.spare.write(self.registers.bytes(src));
                self.registers.fold(op, ty, dst, self.spare.bytes());
            }
            Action::Own(OwnStmt::Print { reg, form }) => {
                self.prints.print(reg, form, self.registers.bytes(reg));
            }
            Action::Begin { reg } => self.folded.write(self.registers.bytes(reg)),
            Action::Fold { op, ty } => self.folded.fold(op, ty, self.taken.bytes()),
            Action::Accept { reg } => self.registers.write(reg, self.taken.bytes()),
            Action::Finish { reg } => self.registers.write(reg, self.folded.bytes()),
            Action::Send { .. }
            | Action::Post { .. }
            | Action::Recv { .. }
            | Action::Gather { .. }
            | Action::Bar { .. } => {}
        }
    }
}

impl Buffers {
    ghost use Rattle.std.specs.Prelude.{◌≡◌, [], IfOk};

    fn new(alloc: Global, needs: &Needs) -> Result<Buffers, AllocError>
        ensures { IfOk result (λ b. b ≡ record {
          folded = record { bytes = []; room = needs.now.accumulator };
          taken = record { bytes = []; room = needs.now.received };
          spare = record { bytes = []; room = needs.now.spare };
        }) }
    {
        let folded = Room::new(alloc, needs.accumulator)?;
        let taken = Room::new(alloc, needs.received)?;
        let spare = Room::new(alloc, needs.spare)?;
        Ok(Buffers {
            folded,
            taken,
            spare,
        })
    }
}
