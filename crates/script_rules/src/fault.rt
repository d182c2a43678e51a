//! The kinds of faults of a script.

ghost use Rattle.std.specs.Prelude.{◌≡◌};
ghost use Rattle.script_rules.specs.Kinds.{kind_name};

/// What is wrong in a line. The checks of a line run in this order, and the first that refuses decides.
#[derive(Clone, Copy, Debug, PartialEq, Eq)]
pub enum FaultKind {
    NotText,
    UnknownStatement,
    WrongCount,
    BadNumber,
    BadHex,
    BadName,
    RankRange,
    SelfMessage,
    UnknownComm,
    NotSplit,
    Unset,
    Shape,
    NoSection,
    UnclosedRepeat,
    StrayEnd,
    TooDeep,
    TooManyOps,
    TooLong,
    TooManyNames,
}

impl FaultKind {
    /// The name of the kind, as a program prints it.
    pub fn name(self) -> &'static str
        ensures { result.now ≡ kind_name self }
    {
        match self {
            FaultKind::NotText => "NotText",
            FaultKind::UnknownStatement => "UnknownStatement",
            FaultKind::WrongCount => "WrongCount",
            FaultKind::BadNumber => "BadNumber",
            FaultKind::BadHex => "BadHex",
            FaultKind::BadName => "BadName",
            FaultKind::RankRange => "RankRange",
            FaultKind::SelfMessage => "SelfMessage",
            FaultKind::UnknownComm => "UnknownComm",
            FaultKind::NotSplit => "NotSplit",
            FaultKind::Unset => "Unset",
            FaultKind::Shape => "Shape",
            FaultKind::NoSection => "NoSection",
            FaultKind::UnclosedRepeat => "UnclosedRepeat",
            FaultKind::StrayEnd => "StrayEnd",
            FaultKind::TooDeep => "TooDeep",
            FaultKind::TooManyOps => "TooManyOps",
            FaultKind::TooLong => "TooLong",
            FaultKind::TooManyNames => "TooManyNames",
        }
    }
}
