//! Header lines: the head that their words say.

ghost use Rattle.std.specs.Prelude.{◌≡◌, ◌<◌, slice_index};
ghost use Rattle.scc_base.specs.Heads.{IsHead, kind_number};
ghost use Rattle.send_recv.specs.Sending.{header_words};
ghost use Rattle.send_recv.specs.Steps.{is_same_head};

use scc_base::{Head, Kind};

// The kind that has this number.
fn kind_from(number: u64) -> Kind
    requires below { number < 5 }
    ensures gives { kind_number result ≡ number }
{
    match Kind::from_number(number as u8) {
        Some(kind) => kind,
        None => unreachable!(),
    }
}

/// The head that a header line says.
pub(crate) fn head_from(words: &[u64; 4]) -> Head
    requires valid { IsHead (record { kind = slice_index words.now 0; comm = slice_index words.now 1; len = slice_index words.now 2 }) }
    ensures gives { result ≡ record { kind = slice_index words.now 0; comm = slice_index words.now 1; len = slice_index words.now 2 } }
{
    match Head::new(kind_from(words[0]), words[1] as u8, words[2] as u32) {
        Some(head) => head,
        None => unreachable!(),
    }
}

/// Whether two heads are one.
pub(crate) fn is_same(one: &Head, other: &Head) -> bool
    ensures tells { result ≡ is_same_head one.now other.now }
{
    one.kind().number() == other.kind().number()
        && one.comm() == other.comm()
        && one.len() == other.len()
}

/// The header line of a message; its last word tells whether it is posted.
pub(crate) fn header_line(head: &Head, posted: bool) -> [u64; 4]
    ensures gives { result ≡ header_words head.now posted }
{
    let kind = u64::from(head.kind().number());
    let comm = u64::from(head.comm());
    let len = u64::from(head.len());
    if posted {
        [kind, comm, len, 1]
    } else {
        [kind, comm, len, 0]
    }
}
