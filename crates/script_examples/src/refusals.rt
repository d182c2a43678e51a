//! Scripts that are refused, each with the line and the kind of its first fault.
#![tactic(auto, unfolding(texts::specs::Numbers::number_of, hex::specs::Hex::decode_pairs))]

ghost use Rattle.std.specs.Prelude.{◌≡◌, codes, Err};
ghost use Rattle.script_reader.specs.Reading.{parse_script};
ghost use Rattle.script_rules.specs.declared.fault.FaultKind.TheVariants.{BadHex, BadNumber, NoSection, NotSplit, Shape, SelfMessage, StrayEnd, TooManyOps, UnclosedRepeat, UnknownComm, Unset, WrongCount};

/// What a line says by itself.
pub fn lines_are_refused()
    ensures hex { parse_script (codes "bytes x 0\n") 2 ≡ Err (record { line = 1; kind = BadHex }) }
    ensures number { parse_script (codes "rcce 3\n") 2 ≡ Err (record { line = 1; kind = BadNumber }) }
    ensures count { parse_script (codes "rcce 1\nall\nsplit 1 div 4\nsplit 9 of 1 mod 2\n") 8
        ≡ Err (record { line = 4; kind = WrongCount }) }
    ensures section { parse_script (codes "bytes x 00\n") 2 ≡ Err (record { line = 1; kind = NoSection }) }
{}

/// What a line says after the lines before it.
pub fn statements_are_refused()
    ensures itself { parse_script (codes "ue 0\nbytes x 00\nsend 0 x\n") 2 ≡ Err (record { line = 3; kind = SelfMessage }) }
    ensures parent { parse_script (codes "rcce 2\nall\nsplit 2 of 3 mod 2\n") 8 ≡ Err (record { line = 3; kind = UnknownComm }) }
    ensures unsplit { parse_script (codes "rcce 2\nall\nsplit 9 of 1 mod 2\n") 8 ≡ Err (record { line = 3; kind = NotSplit }) }
    ensures unset { parse_script (codes "all\nprint x\n") 2 ≡ Err (record { line = 2; kind = Unset }) }
    ensures shape { parse_script (codes "all\nbytes x 00\nbytes x 0000\n") 2 ≡ Err (record { line = 3; kind = Shape }) }
{}

/// Repeats.
pub fn repeats_are_refused()
    ensures stray { parse_script (codes "all\nend\n") 2 ≡ Err (record { line = 2; kind = StrayEnd }) }
    ensures unclosed { parse_script (codes "all\nrepeat 2\nbarrier\n") 1 ≡ Err (record { line = 4; kind = UnclosedRepeat }) }
    ensures often { parse_script (codes "all\nrepeat 1000\nrepeat 101\n") 2 ≡ Err (record { line = 3; kind = TooManyOps }) }
{}
