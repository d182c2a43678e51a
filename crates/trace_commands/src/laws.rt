//! The line of the one ending that no run shows.

ghost use Rattle.std.specs.Prelude.{◌≡◌, ◌++◌, ℕ, codes, decimal};
ghost use Rattle.trace_script.specs.Tracing.{refused_line};

/// What err is given where the judge refuses an event of a run (status 7): `rccetrace: an event of ue R is not legal`.
pub fn refusal_law()
    ensures line { (rank : ℕ) → refused_line rank ≡ codes "rccetrace: an event of ue " ++ (decimal rank ++ codes " is not legal\n") }
{}
