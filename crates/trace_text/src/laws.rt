//! The law of what a text says, and the numbers of its limits.

ghost use Rattle.std.specs.Prelude.{◌≡◌, ◌<◌, ℕ, All, List, Ok};
ghost use Rattle.scc_base.specs.Events.{IsEvent};
ghost use Rattle.scc_base.specs.Setups.{IsSetup};
ghost use Rattle.scc_proto.specs.Words.{RankEvent};
ghost use Rattle.trace_text.specs.Grammar.{trace_of};
ghost use Rattle.trace_text.specs.Traces.{TraceView, most_line_bytes, most_trace_bytes, most_trace_lines};

/// A text that says a trace says a setup that a run may have, and events that its ranks may make.
pub fn said_law()
    ensures setup { (bytes : List ℕ) (trace : TraceView) → trace_of bytes ≡ Ok trace → IsSetup trace.setup }
    ensures made { (bytes : List ℕ) (trace : TraceView) → trace_of bytes ≡ Ok trace
        → All (λ (e : RankEvent). (e.rank < trace.setup.nue) × IsEvent e.event) trace.events }
{}

/// The numbers of bytes and lines that a trace's text may have, and of bytes that a line may have.
pub fn numbers_law()
    ensures bytes { most_trace_bytes ≡ 1073741824 }
    ensures lines { most_trace_lines ≡ 16777216 }
    ensures line { most_line_bytes ≡ 255 }
{}
