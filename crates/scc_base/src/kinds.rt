//! What a message is for.

/// The purpose of a message, carried in its header. A plain message is one that a program sends itself;
/// the others are steps of a collective call.
#[derive(Clone, Copy, Debug, PartialEq, Eq)]
pub enum Kind {
    /// A message of send and receive.
    Plain,
    /// A message from the root of a broadcast to a member.
    Bcast,
    /// A message from a member to the root of a reduction.
    Reduce,
    /// A message from a member to member 0, in a reduction whose result all get.
    AllUp,
    /// A message from member 0 to a member, with that result.
    AllDown,
}

impl Kind {
    ghost use Rattle.std.specs.Prelude.{◌≡◌, ◌<◌, SomeIff};
    ghost use Rattle.scc_base.specs.Heads.{kind_number, kind_at};

    /// The kind's number in a header.
    pub fn number(self) -> u8
        ensures gives { result ≡ kind_number self }
        ensures below { result < 5 }
    {
        match self {
            Kind::Plain => 0,
            Kind::Bcast => 1,
            Kind::Reduce => 2,
            Kind::AllUp => 3,
            Kind::AllDown => 4,
        }
    }

    /// The kind that has this number in a header.
    pub fn from_number(number: u8) -> Option<Kind>
        ensures gives { SomeIff result (number < 5) (kind_at number) }
    {
        match number {
            0 => Some(Kind::Plain),
            1 => Some(Kind::Bcast),
            2 => Some(Kind::Reduce),
            3 => Some(Kind::AllUp),
            4 => Some(Kind::AllDown),
            _ => None,
        }
    }
}
