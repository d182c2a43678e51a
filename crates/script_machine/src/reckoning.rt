//! The lengths of what a rank holds, and the greatest ones that its program has needed so far.

ghost use Rattle.std.specs.Prelude.{◌≡◌, ◌≤◌, length};
ghost use Rattle.script_machine.specs.Rooms.{greater};
ghost use Rattle.script_machine.specs.Walk.{content_of};
ghost use Rattle.scc_base.specs.Heads.{most_message};

use crate::prims::{Action, Content};
use crate::rooms::Length;
use groups::Ty;
use script_rules::OwnStmt;
use std::alloc::{AllocError, Global};
use std::marker::Model;

/// How many bytes the registers and the work buffers of a rank have, and how much it has printed.
#[derive(Drop)]
pub struct Lengths {
    registers: Vec<Length>,
    accumulator: Length,
    received: Length,
    items: usize,
    printed: usize,
}

impl Model for Lengths {
    ghost use Rattle.script_machine.specs.Lengths.{Lengths};

    ghost Value = { Lengths };

    ghost view = { λ l. record {
      registers = l.registers.items;
      accumulator = l.accumulator;
      received = l.received;
      items = l.items;
      printed = l.printed;
    } };
}

/// The lengths at a point of a program, and the greatest so far.
#[derive(Drop)]
pub(crate) struct Reckoning {
    here: Lengths,
    most: Lengths,
    spare: Length,
}

/// What capacity the program of a rank needs: for each register and work buffer, for the items that it prints and for their
/// bytes.
#[derive(Drop)]
pub struct Needs {
    pub registers: Vec<Length>,
    pub accumulator: Length,
    pub received: Length,
    pub spare: Length,
    pub items: usize,
    pub printed: usize,
}

impl Model for Reckoning {
    ghost use Rattle.script_machine.specs.Rooms.{IsWithin, ReckoningView};

    ghost Value = { ReckoningView };

    ghost view = { λ r. record { lengths = r.here; most = record { lengths = r.most; spare = r.spare } } };

    ghost invariant = { λ r. IsWithin r.here r.most };
}

impl Lengths {
    ghost use Rattle.std.specs.Prelude.{◌≡◌, ◌+◌, true, IfOk, OnOk};
    ghost use Rattle.script_machine.specs.Lengths.{length_of_register, lengths_after, with_register};
    ghost use Rattle.script_machine.specs.Passes.{KeepsRegisters};
    ghost use Rattle.script_machine.specs.Rooms.{greater, nothing_held};
    ghost use Rattle.script_machine.specs.Walk.{IsShort, act_meant};

    /// The lengths of a rank that holds nothing yet and has `count` registers.
    pub fn none(alloc: Global, count: usize) -> Result<Lengths, AllocError>
        ensures { IfOk result (λ l. l ≡ nothing_held count) }
    {
        let mut registers = Vec::new(alloc);
        for _ in 0..count {
            registers.push(Length::of(0))?;
        }
        Ok(Lengths {
            registers,
            accumulator: Length::of(0),
            received: Length::of(0),
            items: 0,
            printed: 0,
        })
    }

    pub(crate) fn len(&self, reg: u8) -> Length
        ensures { result ≡ length_of_register self.now reg }
    {
        match self.registers.get(reg as usize) {
            Some(len) => *len,
            None => Length::of(0),
        }
    }

    fn set(&mut self, reg: u8, len: Length)
        ensures { self.new ≡ with_register self.old reg len }
    {
        if (reg as usize) < self.registers.len() {
            self.registers[reg as usize] = len;
        }
    }

    /// A register has at least this many bytes.
    fn raise(&mut self, reg: u8, len: Length)
        ensures { self.new ≡ with_register self.old reg (greater (length_of_register self.old reg) len) }
    {
        let more = greater(self.len(reg), len);
        self.set(reg, more);
    }

    pub(crate) fn accumulator(&self) -> Length
        ensures { result ≡ self.now.accumulator }
    {
        self.accumulator
    }

    pub(crate) fn received(&self) -> Length
        ensures { result ≡ self.now.received }
    {
        self.received
    }

    fn items(&self) -> usize
        ensures { result ≡ self.now.items }
    {
        self.items
    }

    fn printed(&self) -> usize
        ensures { result ≡ self.now.printed }
    {
        self.printed
    }

    fn begin(&mut self, len: Length)
        ensures { self.new ≡ record self.old { accumulator = len } }
    {
        self.accumulator = len;
    }

    fn gather(&mut self, len: Length)
        ensures { self.new ≡ record self.old { received = len } }
    {
        self.received = len;
    }

    fn print(&mut self, items: usize, printed: usize)
        ensures { self.new ≡ record self.old { items = items; printed = printed } }
    {
        self.items = items;
        self.printed = printed;
    }

    /// A register is printed.
    fn print_register(&mut self, reg: u8) -> Result<(), AllocError>
        ensures { OnOk result
            (self.new ≡ record self.old { items = self.old.items + 1; printed = self.old.printed + length_of_register self.old reg }) }
    {
        let len = self.len(reg).get() as usize;
        let items = self.items().checked_add(1).ok_or(AllocError)?;
        let printed = self.printed().checked_add(len).ok_or(AllocError)?;
        self.print(items, printed);
        Ok(())
    }

    /// Whether a register that is set to this length keeps its length.
    fn stays(&self, reg: u8, len: Length) -> bool
        ensures { result ≡ true → KeepsRegisters self.now (with_register self.now reg len) }
    {
        self.len(reg).get() == len.get()
    }

    /// Whether a primitive prints nothing and keeps the lengths of the registers. Those of the work buffers may change.
    pub(crate) fn keeps(&self, action: &Action) -> bool
        requires { IsShort action.now }
        ensures { result ≡ true → KeepsRegisters self.now (lengths_after self.now (act_meant action.now)) }
    {
        match action {
            Action::Set { reg, content } => self.stays(*reg, content_len(content)),
            Action::Recv { reg, head, .. } => self.stays(*reg, Length::of(head.len())),
            Action::Accept { reg } => self.stays(*reg, self.received()),
            Action::Finish { reg } => self.stays(*reg, self.accumulator()),
            Action::Own(OwnStmt::Print { .. }) => false,
            Action::Own(OwnStmt::Apply { .. }) => true,
            Action::Gather { .. } | Action::Begin { .. } | Action::Fold { .. } => true,
            Action::Send { .. } | Action::Post { .. } | Action::Bar { .. } => true,
        }
    }

    /// Applies a primitive to the lengths.
    pub fn go(&mut self, action: &Action) -> Result<(), AllocError>
        requires { IsShort action.now }
        ensures { OnOk result (self.new ≡ lengths_after self.old (act_meant action.now)) }
    {
        match action {
            Action::Set { reg, content } => self.set(*reg, content_len(content)),
            Action::Own(OwnStmt::Apply { .. }) => {}
            Action::Own(OwnStmt::Print { reg, .. }) => return self.print_register(*reg),
            Action::Recv { reg, head, .. } => self.set(*reg, Length::of(head.len())),
            Action::Gather { head, sized, .. } => {
                let len = self.asked(*head, *sized);
                self.gather(len);
            }
            Action::Begin { reg } => {
                let len = self.len(*reg);
                self.begin(len);
            }
            Action::Accept { reg } => {
                let len = self.received();
                self.set(*reg, len);
            }
            Action::Finish { reg } => {
                let len = self.accumulator();
                self.set(*reg, len);
            }
            Action::Send { .. } | Action::Post { .. } | Action::Bar { .. } | Action::Fold { .. } =>
                {}
        }
        Ok(())
    }
}

impl Reckoning {
    ghost use Rattle.std.specs.Prelude.{◌≡◌, ◌≤◌, ◌+◌, IfOk, OnOk};
    ghost use Rattle.script_machine.specs.Lengths.{length_of_register, lengths_after, with_register};
    ghost use Rattle.script_machine.specs.Rooms.{IsWider, IsWithin, nothing_held, rooms_of, spare_length};
    ghost use Rattle.script_machine.specs.Walk.{IsShort, act_meant};

    /// The reckoning of a rank that holds nothing and has `count` registers.
    pub(crate) fn new(alloc: Global, count: usize) -> Result<Reckoning, AllocError>
        ensures { IfOk result (λ r. r.lengths ≡ nothing_held count) }
    {
        let here = Lengths::none(alloc, count)?;
        let most = Lengths::none(alloc, count)?;
        Ok(Reckoning {
            here,
            most,
            spare: Length::of(0),
        })
    }

    /// A register becomes this long.
    fn set(&mut self, reg: u8, len: Length)
        ensures after { self.new.lengths ≡ with_register self.old.lengths reg len }
        ensures wider { IsWider self.old.most self.new.most }
    {
        self.here.set(reg, len);
        self.most.raise(reg, len);
    }

    /// The accumulator becomes this long.
    fn begin(&mut self, len: Length)
        ensures after { self.new.lengths ≡ record self.old.lengths { accumulator = len } }
        ensures wider { IsWider self.old.most self.new.most }
    {
        self.here.begin(len);
        let more = greater(self.most.accumulator(), len);
        self.most.begin(more);
    }

    /// The buffer of received bytes becomes this long.
    fn gather(&mut self, len: Length)
        ensures after { self.new.lengths ≡ record self.old.lengths { received = len } }
        ensures wider { IsWider self.old.most self.new.most }
    {
        self.here.gather(len);
        let more = greater(self.most.received(), len);
        self.most.gather(more);
    }

    /// A register is copied.
    fn copy(&mut self, len: Length)
        ensures after { self.new.lengths ≡ self.old.lengths }
        ensures wider { IsWider self.old.most self.new.most }
        ensures holds { len ≤ self.new.most.spare }
    {
        self.spare = greater(self.spare, len);
    }

    /// A register is printed.
    fn print(&mut self, reg: u8) -> Result<(), AllocError>
        ensures after { OnOk result (self.new.lengths ≡ record self.old.lengths {
          items = self.old.lengths.items + 1;
          printed = self.old.lengths.printed + length_of_register self.old.lengths reg;
        }) }
        ensures wider { OnOk result (IsWider self.old.most self.new.most) }
    {
        let len = self.here.len(reg).get() as usize;
        let items = self.here.items().checked_add(1).ok_or(AllocError)?;
        let printed = self.here.printed().checked_add(len).ok_or(AllocError)?;
        self.here.print(items, printed);
        let more_items = greater_count(self.most.items(), items);
        let more_printed = greater_count(self.most.printed(), printed);
        self.most.print(more_items, more_printed);
        Ok(())
    }

    /// No length is above the greatest one.
    pub(crate) fn within_law(&self)
        ensures { IsWithin self.now.lengths self.now.most.lengths }
    {
        let _spare = self.spare;
    }

    /// The capacity that the program so far needs.
    pub(crate) fn needs(self) -> Needs
        ensures { rooms_of result ≡ self.most }
    {
        let spare = self.spare;
        let most = self.most;
        let accumulator = most.accumulator;
        let received = most.received;
        let items = most.items;
        let printed = most.printed;
        Needs {
            registers: most.registers,
            accumulator,
            received,
            spare,
            items,
            printed,
        }
    }

    /// The lengths so far.
    pub(crate) fn lengths(&self) -> &Lengths
        ensures { result.now ≡ self.now.lengths }
    {
        &self.here
    }

    /// Applies a primitive to the lengths.
    pub(crate) fn go(&mut self, action: &Action) -> Result<(), AllocError>
        requires { IsShort action.now }
        ensures after { OnOk result (self.new.lengths ≡ lengths_after self.old.lengths (act_meant action.now)) }
        ensures wider { OnOk result (IsWider self.old.most self.new.most) }
        ensures spare { OnOk result (spare_length self.old.lengths (act_meant action.now) ≤ self.new.most.spare) }
    {
        match action {
            Action::Set { reg, content } => self.set(*reg, content_len(content)),
            Action::Own(OwnStmt::Apply { src, .. }) => {
                let len = self.here.len(*src);
                self.copy(len);
            }
            Action::Own(OwnStmt::Print { reg, .. }) => return self.print(*reg),
            Action::Recv { reg, head, .. } => self.set(*reg, Length::of(head.len())),
            Action::Gather { head, sized, .. } => {
                let len = self.here.asked(*head, *sized);
                self.gather(len);
            }
            Action::Begin { reg } => {
                let len = self.here.len(*reg);
                self.begin(len);
            }
            Action::Accept { reg } => {
                let len = self.here.received();
                self.set(*reg, len);
            }
            Action::Finish { reg } => {
                let len = self.here.accumulator();
                self.set(*reg, len);
            }
            Action::Send { .. } | Action::Post { .. } | Action::Bar { .. } | Action::Fold { .. } =>
                {}
        }
        Ok(())
    }
}

/// The greater one of two lengths.
fn greater(one: Length, other: Length) -> Length
    ensures { result ≡ greater one other }
{
    if one.get() < other.get() { other } else { one }
}

fn greater_count(one: usize, other: usize) -> usize
    ensures { result ≡ greater one other }
{
    if one < other { other } else { one }
}

/// How many bytes a register is set to.
fn content_len(content: &Content) -> Length
    requires { length (content_of content.now) ≤ most_message }
    ensures { result ≡ length (content_of content.now) }
{
    match content {
        Content::Bytes(bytes) => Length::of(bytes.as_slice().len() as u32),
        Content::Filling { len, .. } => Length::of(*len),
        Content::Number { ty, .. } => Length::of(ty.width() as u32),
    }
}
