//! The lines of a trace. No memory is taken.

ghost use Rattle.std.specs.Prelude.{◌≡◌, ◌<◌, [], ◌∷◌, codes, decimal, map};
ghost use Rattle.std.specs.List.{range_with_len};
ghost use Rattle.rcce_io.specs.Sending.{Sends, joined_texts};
ghost use Rattle.rank_monitor.specs.Uses.{role_meant};
ghost use Rattle.trace_writer.specs.Lines.{access_name, comm_line, comma_before, comm_line_after, comment_words, event_line, first_lines, header_word_name, host_words, layout_name, place_words, role_words, signal_name, split_line};

use rank_monitor::{Use, use_of};
use rcce_io::Piece::{Number, Text};
use rcce_io::{Sink, TextSource, WriteFault, write_all, write_hex, write_texts};
use scc_base::{Access, CommRule, Event, Layout, Rank, Setup, Signal};

/// The first lines of a trace: its head, and the communicators that are splits.
#[derive(Clone, Copy)]
pub(crate) struct FirstLines<'a> {
    pub(crate) setup: &'a Setup,
}

/// The line of an event.
#[derive(Clone, Copy)]
pub(crate) struct EventLine<'a> {
    pub(crate) setup: &'a Setup,
    pub(crate) rank: Rank,
    pub(crate) event: &'a Event,
}

fn layout_name(layout: Layout) -> &'static str
    ensures { result.now ≡ layout_name layout }
{
    match layout {
        Layout::LineFlags => "words",
        Layout::BitFlags => "bits",
    }
}

fn access_name(access: Access) -> &'static str
    ensures { result.now ≡ access_name access }
{
    match access {
        Access::Load => "load",
        Access::Store => "store",
        Access::Take => "take",
        Access::Free => "free",
    }
}

fn header_word_name(word: u8) -> &'static str
    ensures { result.now ≡ header_word_name word }
{
    match word {
        0 => "kind",
        1 => "comm",
        2 => "length",
        _ => "posted",
    }
}

fn signal_name(signal: Signal) -> &'static str
    ensures { result.now ≡ signal_name signal }
{
    match signal {
        Signal::Sent => "sent",
        Signal::Ready => "ready",
    }
}

/// What stands before the core of a rank.
fn comma_before(number: u8) -> &'static str
    ensures { result.now ≡ comma_before number }
{
    if number == 0 { "" } else { "," }
}

/// Writes the core of a rank, behind a comma but for the first.
fn write_host<S: Sink>(sink: &mut S, setup: &Setup, rank: Rank) -> Result<(), WriteFault>
    requires { rank < setup.now.nue }
    ensures { Sends (host_words setup.now rank) (S.seen sink.old) (S.seen sink.new) result }
{
    let core = setup.core_of(rank);
    let comma = comma_before(rank.number());
    write_texts(sink, &[Text(comma), Number(u64::from(core.number()))])
}

fn write_hosts<S: Sink>(sink: &mut S, setup: &Setup) -> Result<(), WriteFault>
    ensures { Sends (joined_texts (map (host_words setup.now) (range_with_len 0 setup.now.nue))) (S.seen sink.old)
        (S.seen sink.new) result }
{
    for number in 0..setup.nue() {
        write_host(sink, setup, Rank::of(number))?;
    }
    Ok(())
}

/// Writes the line of a communicator that is a split.
fn write_split<S: Sink>(
    sink: &mut S,
    comm: u8,
    parent: u8,
    how: &str,
    parts: u8,
) -> Result<(), WriteFault>
    ensures { Sends (split_line comm parent how.now parts) (S.seen sink.old) (S.seen sink.new) result }
{
    write_texts(
        sink,
        &[
            Text("comm "),
            Number(u64::from(comm)),
            Text(" "),
            Number(u64::from(parent)),
            Text(how),
            Number(u64::from(parts)),
            Text("\n"),
        ],
    )
}

fn write_comm<S: Sink>(sink: &mut S, comm: u8, rule: CommRule) -> Result<(), WriteFault>
    ensures { Sends (comm_line comm rule) (S.seen sink.old) (S.seen sink.new) result }
{
    match rule {
        CommRule::Absent | CommRule::World => Ok(()),
        CommRule::Mod { parent, k } => write_split(sink, comm, parent, " mod ", k),
        CommRule::Div { parent, k } => write_split(sink, comm, parent, " div ", k),
    }
}

fn write_comms<S: Sink>(sink: &mut S, setup: &Setup) -> Result<(), WriteFault>
    ensures { Sends (joined_texts (map (comm_line_after setup.now) (range_with_len 0 15))) (S.seen sink.old) (S.seen sink.new) result }
{
    for before in 0..15 {
        let comm = before + 1;
        write_comm(sink, comm, setup.rule(comm))?;
    }
    Ok(())
}

impl TextSource for FirstLines<'_> {
    ghost text = { λ l. first_lines l.setup.now };

    fn write_to<S: Sink>(&self, sink: &mut S) -> Result<(), WriteFault> {
        write_texts(
            sink,
            &[
                Text("rcce trace 1 nue "),
                Number(u64::from(self.setup.nue())),
                Text(" layout "),
                Text(layout_name(self.setup.layout())),
                Text(" hosts "),
            ],
        )?;
        write_hosts(sink, self.setup)?;
        write_all(sink, b"\n")?;
        write_comms(sink, self.setup)
    }
}

/// Writes a rank's word of an own kind: the number behind one text, and another text with a number behind it, or none.
fn write_numbered<'a, S: Sink>(
    sink: &mut S,
    first: &'a str,
    one: u16,
    then: &'a str,
    other: u8,
) -> Result<(), WriteFault>
    ensures { Sends (joined_texts (first.now ∷ decimal one ∷ then.now ∷ decimal other ∷ [])) (S.seen sink.old) (S.seen sink.new) result }
{
    write_texts(
        sink,
        &[
            Text(first),
            Number(u64::from(one)),
            Text(then),
            Number(u64::from(other)),
        ],
    )
}

/// Writes whose flag of a signal a word is: it lies at the one rank, and the other raises it.
fn write_flag<S: Sink>(sink: &mut S, signal: Signal, by: Rank, at: Rank) -> Result<(), WriteFault>
    ensures { Sends (joined_texts (signal_name signal ∷ codes " of " ∷ decimal by ∷ codes " to " ∷ decimal at ∷ []))
        (S.seen sink.old) (S.seen sink.new) result }
{
    write_texts(
        sink,
        &[
            Text(signal_name(signal)),
            Text(" of "),
            Number(u64::from(by.number())),
            Text(" to "),
            Number(u64::from(at.number())),
        ],
    )
}

/// Writes whose word of a signal's flags a word is.
fn write_flags<S: Sink>(sink: &mut S, signal: Signal, at: Rank) -> Result<(), WriteFault>
    ensures { Sends (joined_texts (signal_name signal ∷ codes " flags of " ∷ decimal at ∷ [])) (S.seen sink.old) (S.seen sink.new) result }
{
    write_texts(
        sink,
        &[
            Text(signal_name(signal)),
            Text(" flags of "),
            Number(u64::from(at.number())),
        ],
    )
}

/// Writes what a word is for.
fn write_use<S: Sink>(sink: &mut S, of: Use) -> Result<(), WriteFault>
    ensures { Sends (joined_texts (role_words (role_meant of))) (S.seen sink.old) (S.seen sink.new) result }
{
    match of {
        Use::Header { owner, word } => write_texts(
            sink,
            &[
                Text("header of "),
                Number(u64::from(owner.number())),
                Text(": "),
                Text(header_word_name(word)),
            ],
        ),
        Use::Chunk { owner, word } => {
            write_numbered(sink, "chunk word ", word, " of ", owner.number())
        }
        Use::SignalFlag { signal, by, at } => write_flag(sink, signal, by, at),
        Use::SignalFlags { signal, at } => write_flags(sink, signal, at),
        Use::Gather { comm, owner } => write_numbered(
            sink,
            "gather of ",
            u16::from(owner.number()),
            " in comm ",
            comm,
        ),
        Use::Release { comm, owner } => write_numbered(
            sink,
            "release of ",
            u16::from(owner.number()),
            " in comm ",
            comm,
        ),
        Use::Heap => write_all(sink, b"heap"),
        Use::Idle => write_all(sink, b"nobody's"),
    }
}

impl EventLine<'_> {
    /// Writes where the access is, behind its core.
    fn write_place<S: Sink>(&self, sink: &mut S) -> Result<(), WriteFault>
        ensures { Sends (joined_texts (place_words self.now.event.now.access self.now.event.now.place)) (S.seen sink.old)
            (S.seen sink.new) result }
    {
        match self.event.access {
            Access::Load | Access::Store => write_texts(
                sink,
                &[
                    Text("."),
                    Number(u64::from(self.event.place.line())),
                    Text("."),
                    Number(u64::from(self.event.place.word())),
                ],
            ),
            Access::Take | Access::Free => write_all(sink, b".register"),
        }
    }

    /// Writes what the place is for.
    fn write_comment<S: Sink>(&self, sink: &mut S) -> Result<(), WriteFault>
        ensures { Sends (joined_texts
            (comment_words self.now.setup.now self.now.event.now.access self.now.event.now.place)) (S.seen sink.old)
            (S.seen sink.new) result }
    {
        match self.event.access {
            Access::Load | Access::Store => write_use(sink, use_of(self.setup, self.event.place)),
            Access::Take | Access::Free => write_all(sink, b"register"),
        }
    }
}

impl TextSource for EventLine<'_> {
    ghost text = { λ l. event_line l.setup.now (record { rank = l.rank; event = l.event.now }) };

    fn write_to<S: Sink>(&self, sink: &mut S) -> Result<(), WriteFault> {
        write_texts(
            sink,
            &[
                Number(u64::from(self.rank.number())),
                Text(" "),
                Text(access_name(self.event.access)),
                Text(" "),
                Number(u64::from(self.event.place.core().number())),
            ],
        )?;
        self.write_place(sink)?;
        write_all(sink, b" ")?;
        write_hex(sink, &self.event.value.to_be_bytes())?;
        write_all(sink, b" # ")?;
        self.write_comment(sink)?;
        write_all(sink, b"\n")
    }
}
