//! What a record allows next, as a person is told.

ghost use Rattle.std.specs.Prelude.{codes};
ghost use Rattle.rcce_io.specs.Sending.{Sends};
ghost use Rattle.trace_program.specs.NextTexts.{next_text, ready_text, store_text, text_round};

use rank_monitor::{NextEvent, NextStore};
use rcce_io::{Piece, Sink, WriteFault, write_all, write_texts};
use scc_base::Rank;

/// Writes a text with a number in it.
fn write_round<'x, S: Sink>(
    sink: &mut S,
    before: &'x str,
    number: u8,
    after: &'x str,
) -> Result<(), WriteFault>
    ensures { Sends (text_round before.now number after.now) (S.seen sink.old) (S.seen sink.new) result }
{
    write_texts(
        sink,
        &[
            Piece::Text(before),
            Piece::Number(number as u64),
            Piece::Text(after),
        ],
    )
}

/// Writes a text with a rank in it.
fn write_ranked<'x, S: Sink>(
    sink: &mut S,
    before: &'x str,
    rank: Rank,
    after: &'x str,
) -> Result<(), WriteFault>
    ensures { Sends (text_round before.now rank after.now) (S.seen sink.old) (S.seen sink.new) result }
{
    write_round(sink, before, rank.number(), after)
}

fn write_store<S: Sink>(sink: &mut S, store: &NextStore) -> Result<(), WriteFault>
    ensures { Sends (store_text store.now) (S.seen sink.old) (S.seen sink.new) result }
{
    match store {
        NextStore::Begin => write_all(
            sink,
            b"it may write its header and its chunk, lower sent of a rank whose header it has read, enter a barrier or write to the heap",
        ),
        NextStore::BesidePost { to } => write_ranked(
            sink,
            "beside its post to rank ",
            *to,
            " it may lower sent of a rank whose header it has read, enter a barrier or write to the heap",
        ),
        NextStore::Draft => write_all(
            sink,
            b"it may write its header and its chunk, and raise sent once both are whole",
        ),
        NextStore::Raise => write_all(
            sink,
            b"it may raise sent, or write its header and its chunk again",
        ),
        NextStore::FillFirst { to } => write_ranked(
            sink,
            "it may write its next chunk, raise sent to rank ",
            *to,
            " once that is whole, or write to the heap first",
        ),
        NextStore::Fill { to } => write_ranked(
            sink,
            "it may write its next chunk, and raise sent to rank ",
            *to,
            " once that is whole",
        ),
        NextStore::RaiseMore { to } => write_ranked(
            sink,
            "it may raise sent to rank ",
            *to,
            ", or write its chunk again",
        ),
        NextStore::SeeReady { by } => write_ranked(
            sink,
            "it may write nothing before it has seen ready of rank ",
            *by,
            "",
        ),
        NextStore::LowerReady { by } => {
            write_ranked(sink, "it may lower ready of rank ", *by, "")
        }
        NextStore::SeeSent { from } => write_ranked(
            sink,
            "it may lower sent of rank ",
            *from,
            " once it has seen it, or write to the heap",
        ),
        NextStore::LowerSent { from } => write_ranked(
            sink,
            "it may lower sent of rank ",
            *from,
            ", or write to the heap",
        ),
        NextStore::ReadChunk { from } => write_ranked(
            sink,
            "it may raise ready to rank ",
            *from,
            " once it has read the whole chunk",
        ),
        NextStore::RaiseReady { to } => {
            write_ranked(sink, "it may raise ready to rank ", *to, "")
        }
        NextStore::Meet { comm } => write_round(
            sink,
            "it may write the releases of its barrier in communicator ",
            *comm,
            ", as its root, once it has seen all gathers",
        ),
    }
}

fn write_ready<S: Sink>(sink: &mut S, ready: Option<Rank>) -> Result<(), WriteFault>
    ensures { Sends (ready_text ready) (S.seen sink.old) (S.seen sink.new) result }
{
    match ready {
        None => Ok(()),
        Some(by) => write_ranked(sink, ", or lower ready of rank ", by, ""),
    }
}

/// Writes what a record allows in place of an event that it does not permit.
pub(crate) fn write_next<S: Sink>(sink: &mut S, next: &NextEvent) -> Result<(), WriteFault>
    ensures { Sends (next_text next.now) (S.seen sink.old) (S.seen sink.new) result }
{
    match next {
        NextEvent::FreeRegister => write_all(sink, b"it holds that register, and may free it"),
        NextEvent::TakeRegister => {
            write_all(sink, b"it does not hold that register, and may take it")
        }
        NextEvent::LoadFlags => write_all(
            sink,
            b"it may change flags there once it holds that core's register and has loaded them",
        ),
        NextEvent::Stores { store, ready } => {
            write_store(sink, store)?;
            write_ready(sink, *ready)
        }
    }
}
