//! The primitives of a rank, and how a rank's run goes on.

use groups::{Coll, Op, Step, Ty};
use scc_base::{Head, Rank};
use script_rules::OwnStmt;
use texts::Bytes;

/// The bytes that a register is set to.
#[derive(Clone, Copy)]
pub enum Content<'s> {
    Bytes(&'s Bytes),
    /// This many bytes, of which byte i is `(start + i) mod 251`.
    Filling { len: u32, start: u32 },
    /// A number as one value of a type.
    Number { ty: Ty, number: u8 },
}

/// Where a send takes its bytes from.
#[derive(Clone, Copy)]
pub enum Source {
    Own { reg: u8 },
    Accumulator,
}

/// What a primitive does.
#[derive(Drop)]
pub enum Action<'s> {
    Set {
        reg: u8,
        content: Content<'s>,
    },
    /// A local statement.
    Own(OwnStmt),
    Send {
        to: Rank,
        head: Head,
        source: Source,
    },
    Post {
        to: Rank,
        reg: u8,
    },
    Recv {
        from: Rank,
        reg: u8,
        head: Head,
    },
    Gather {
        from: Rank,
        head: Head,
        sized: Option<u8>,
    },
    Bar {
        comm: u8,
    },
    Begin {
        reg: u8,
    },
    Fold {
        op: Op,
        ty: Ty,
    },
    Accept {
        reg: u8,
    },
    Finish {
        reg: u8,
    },
}

/// A primitive with the line of its statement, counted from 1.
#[derive(Drop)]
pub struct Primitive<'s> {
    pub line: u32,
    pub action: Action<'s>,
}

impl<'s> Content<'s> {
    ghost use Rattle.std.specs.Prelude.{◌≡◌};

    #[inline(always)]
    fn copy(&self) -> Content<'s>
        ensures { result ≡ self.now }
    {
        match self {
            Content::Bytes(bytes) => Content::Bytes(bytes),
            Content::Filling { len, start } => Content::Filling {
                len: *len,
                start: *start,
            },
            Content::Number { ty, number } => Content::Number {
                ty: *ty,
                number: *number,
            },
        }
    }
}

impl<'s> Action<'s> {
    ghost use Rattle.std.specs.Prelude.{◌≡◌};

    #[inline(always)]
    fn copy(&self) -> Action<'s>
        ensures { result ≡ self.now }
    {
        match self {
            Action::Set { reg, content } => Action::Set {
                reg: *reg,
                content: content.copy(),
            },
            Action::Own(own) => Action::Own(*own),
            Action::Send { to, head, source } => Action::Send {
                to: *to,
                head: *head,
                source: *source,
            },
            Action::Post { to, reg } => Action::Post { to: *to, reg: *reg },
            Action::Recv { from, reg, head } => Action::Recv {
                from: *from,
                reg: *reg,
                head: *head,
            },
            Action::Gather { from, head, sized } => Action::Gather {
                from: *from,
                head: *head,
                sized: *sized,
            },
            Action::Bar { comm } => Action::Bar { comm: *comm },
            Action::Begin { reg } => Action::Begin { reg: *reg },
            Action::Fold { op, ty } => Action::Fold { op: *op, ty: *ty },
            Action::Accept { reg } => Action::Accept { reg: *reg },
            Action::Finish { reg } => Action::Finish { reg: *reg },
        }
    }
}

impl<'s> Primitive<'s> {
    ghost use Rattle.std.specs.Prelude.{◌≡◌};

    /// A copy of the primitive.
    #[inline(always)]
    pub(crate) fn copy(&self) -> Primitive<'s>
        ensures { result ≡ self.now }
    {
        Primitive {
            line: self.line,
            action: self.action.copy(),
        }
    }
}

/// Whether a rank is running. A message with another head than the receive of this line asked for stops it.
#[derive(Drop)]
pub enum Standing {
    Running,
    Mismatched {
        line: u32,
        from: Rank,
        sent: Head,
        asked: Head,
    },
}

/// The registers and the values of a collective call, and the register whose length its receives ask for.
#[derive(Clone, Copy)]
pub struct Operands {
    pub op: Op,
    pub ty: Ty,
    pub dst: u8,
    pub src: u8,
    pub sized: Option<u8>,
}

/// A collective call of a statement.
#[derive(Clone, Copy)]
pub struct Collective {
    pub coll: Coll,
    pub operands: Operands,
}

impl Operands {
    ghost use Rattle.std.specs.Prelude.{◌≡◌};
    ghost use Rattle.script_machine.specs.Program.{part_of};
    ghost use Rattle.script_machine.specs.Walk.{IsShort, act_meant};

    /// What a step of the call does.
    pub(crate) fn part<'s>(self, begun: bool, step: Step) -> Action<'s>
        ensures same { act_meant result ≡ part_of self begun step }
        ensures short { IsShort result }
    {
        match step {
            Step::Begin => Action::Begin { reg: self.src },
            Step::Send { to, head } => Action::Send {
                to,
                head,
                source: if begun {
                    Source::Accumulator
                } else {
                    Source::Own { reg: self.src }
                },
            },
            Step::Recv { from, head } => Action::Gather {
                from,
                head,
                sized: self.sized,
            },
            Step::Fold => Action::Fold {
                op: self.op,
                ty: self.ty,
            },
            Step::Accept => Action::Accept { reg: self.dst },
            Step::Finish => Action::Finish { reg: self.dst },
        }
    }
}
