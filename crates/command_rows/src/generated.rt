//! The texts of generated scripts, which no program prints.

ghost use Rattle.std.specs.Prelude.{◌≤◌};

use script_gen::gen_script;
use std::alloc::Global;

const TWO_RANKS: &[u8] =
    b"even\nfill h 3 3\nrank me long\nrepeat 4\nsend +1 h\nrecv -1 g 3\nallreduce 0 sum long me me\nend\nprint g\nprint long me\nodd\nfill h 3 3\nrank me long\nrepeat 4\nrecv -1 g 3\nsend +1 h\nallreduce 0 sum long me me\nend\nprint g\nprint long me\n";

const ONE_RANK: &[u8] =
    b"even\nfill h 65535 65535\nrank me long\nrepeat 6\nallreduce 0 sum long me me\nend\nprint long me\nodd\nfill h 65535 65535\nrank me long\nrepeat 6\nallreduce 0 sum long me me\nend\nprint long me\n";

/// Whether the script generated from a seed for some ranks is this text.
fn is_text(alloc: Global, nue: u8, number: u32, text: &[u8]) -> bool
    requires some { 1 ≤ nue }
    requires most { nue ≤ 48 }
    requires short { number ≤ 65535 }
{
    match gen_script(alloc, nue, number) {
        Ok(made) => made.as_slice() == text,
        Err(_) => false,
    }
}

#[test]
fn the_texts_of_two_ranks_and_of_one(rt: HostRuntime) {
    assert!(rt; is_text(rt.alloc(), 2, 3, TWO_RANKS) && is_text(rt.alloc(), 1, 65_535, ONE_RANK));
}
