//! The events of a trace.

use scc_base::{Event, Rank};

/// An event, and the rank that made it.
#[derive(Drop)]
pub struct TraceEvent {
    pub rank: Rank,
    pub event: Event,
}
