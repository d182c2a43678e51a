//! Many accesses to a bare table.

ghost use Rattle.std.specs.Prelude.{◌≡◌};
ghost use Rattle.scc_base.specs.Numbers.{number_count};

use crate::accesses::Kind;
use atomic_table::{Play, Seat, Shared, Table, TableRule};
use scc_base::NUMBERS;
use std::alloc::{AllocError, Global};

/// A table about which nothing is claimed.
struct Anything;

impl TableRule<(), (), ()> for Anything {
    ghost holds = { λ _ _. Unit {0} };

    ghost first = { λ _. tt };
}

impl Play<(), ()> for Anything {
    ghost then = { λ _ _ _ _. Unit {0} };
}

fn load_many(words: &Shared<(), (), (), Anything>, seat: &mut Seat<(), ()>, count: u32)
    requires table { (seat.old.table_id ≡ words.now.table_id) × (words.now.table_id.words ≡ number_count) }
{
    'steps: for i in 0..count {
        words.load::<Anything>(seat, 960 + (i % 4) as usize);
    }
}

fn store_many(words: &Shared<(), (), (), Anything>, seat: &mut Seat<(), ()>, count: u32)
    requires table { (seat.old.table_id ≡ words.now.table_id) × (words.now.table_id.words ≡ number_count) }
{
    'steps: for i in 0..count {
        words.store::<Anything>(seat, 960 + (i % 4) as usize, i as u64);
    }
}

/// Makes this many loads, or stores, about which nothing is claimed.
pub fn bare(alloc: Global, kind: Kind, count: u32) -> Result<(), AllocError> {
    let words = vec![in alloc; 0u64; NUMBERS]?;
    let (table, mut seat) = Table::<(), (), (), Anything, Global>::of_words(
        alloc,
        words.as_slice(),
        &(),
    )?;
    match kind {
        Kind::Loads => load_many(&table.shared, &mut seat, count),
        Kind::Stores => store_many(&table.shared, &mut seat, count),
    }
    Ok(())
}
