//! Evictors for the ranks of a test.

use line_cache::{Always, Evict, Never, Seeded};

/// An evictor that makes one of its kind for each rank.
pub(crate) trait PerRank: Evict + Drop {
    fn for_rank(&self, rank: u8) -> Self;
}

impl PerRank for Never {
    fn for_rank(&self, rank: u8) -> Never {
        let _ = rank;
        Never
    }
}

impl PerRank for Always {
    fn for_rank(&self, rank: u8) -> Always {
        let _ = rank;
        Always::new()
    }
}

impl PerRank for Seeded {
    fn for_rank(&self, rank: u8) -> Seeded {
        Seeded::new(rank as u64)
    }
}
