//! The line of a run whose script was made of a number: what its ranks have sent and printed. No memory is taken.

ghost use Rattle.std.specs.Prelude.{◌≡◌, ◌<◌, ◌+◌, ◌%◌, ◌^◌, length};
ghost use Rattle.std.specs.List.{sum};
ghost use Rattle.rcce_io.specs.Sending.{Sends};
ghost use Rattle.rcce_ue.specs.Ues.{capped_count};
ghost use Rattle.script_gen.specs.Outcome.{all_sends, all_sent_bytes, counts_line, item_bytes, printed_sum};
ghost use Rattle.plain_meaning.specs.Ends.{ended_at};
ghost use Rattle.plain_meaning.specs.Meaning.{plain_end};
ghost use Rattle.run_program.specs.Runs.{HaveSent};

use crate::endings::Endings;
use line_cache::Choice;
use rcce_io::Piece::{Number, Text};
use rcce_io::{Sink, WriteFault, write_texts};
use rcce_run::Crew;
use scc_base::Rank;
use script_rules::Scripts;

/// How many messages the ranks of a run have sent. The count stays at the largest value of u64 once it is there.
pub fn sends_in(scripts: &Scripts, crew: &[Crew<'_, Choice>]) -> u64
    requires { HaveSent scripts.now crew.now }
    ensures { result ≡ capped_count (all_sends (plain_end scripts.now)) }
{
    let mut sends: u64 = 0;
    for number in 0..scripts.nue() {
        sends = sends.saturating_add(crew[number as usize].worker.sent());
    }
    sends
}

/// How many bytes these messages have. The count stays at the largest value of u64 once it is there.
pub fn sent_bytes_in(scripts: &Scripts, crew: &[Crew<'_, Choice>]) -> u64
    requires { HaveSent scripts.now crew.now }
    ensures { result ≡ capped_count (all_sent_bytes (plain_end scripts.now)) }
{
    let mut sent: u64 = 0;
    for number in 0..scripts.nue() {
        sent = sent.saturating_add(crew[number as usize].worker.sent_bytes());
    }
    sent
}

/// A sum with some bytes more, modulo 2 ^ 32.
fn with_bytes(so_far: u32, bytes: &[u8]) -> u32
    ensures { result ≡ (so_far + sum bytes.now) % 2 ^ 32 }
{
    let mut total = so_far;
    for byte in bytes {
        total = total.wrapping_add(u32::from(*byte));
    }
    total
}

/// A sum with the bytes of what one rank printed more, modulo 2 ^ 32.
fn with_items<T: Endings>(so_far: u32, run: &T, rank: Rank) -> u32
    requires { rank < length (T.ended run.now) }
    ensures { result ≡ (so_far + item_bytes (ended_at (T.ended run.now) rank)) % 2 ^ 32 }
{
    let mut total = so_far;
    for i in 0..run.items(rank) {
        let item = run.item(rank, i);
        total = with_bytes(total, item.bytes());
    }
    total
}

/// The sum of all bytes that the ranks of a script printed, modulo 2 ^ 32.
pub fn printed_in<T: Endings>(scripts: &Scripts, run: &T) -> u32
    requires ranked { length (T.ended run.now) ≡ scripts.now.nue }
    ensures { result ≡ printed_sum (T.ended run.now) }
{
    let mut total: u32 = 0;
    for number in 0..scripts.nue() {
        total = with_items(total, run, Rank::of(number));
    }
    total
}

/// Writes the line that counts what a run of `nue` ranks did with the script of the number `seed`.
pub fn write_counts<S: Sink>(
    sink: &mut S,
    nue: u8,
    seed: u32,
    sends: u64,
    bytes: u64,
    sum: u32,
) -> Result<(), WriteFault>
    ensures { Sends (counts_line nue seed sends bytes sum) (S.seen sink.old) (S.seen sink.new) result }
{
    write_texts(
        sink,
        &[
            Text("gen "),
            Number(u64::from(seed)),
            Text(" ues "),
            Number(u64::from(nue)),
            Text(" sends "),
            Number(sends),
            Text(" bytes "),
            Number(bytes),
            Text(" sum "),
            Number(u64::from(sum)),
            Text("\n"),
        ],
    )
}
