//! How the stops of a station print themselves.

ghost use Rattle.std.specs.Prelude.{Some};
ghost use Rattle.std.specs.Fmt.{WritesOnOk};
ghost use Rattle.station.specs.Texts as text;

use crate::stops::{
    BarStall, CollStall, CollStop, GroupStall, GroupStop, RecvStall, RecvStop, SendStall, Stop,
};
use mpb_alloc::MallocFault;
use put_get::RangeFault;
use scc_base::{Head, Spot};
use std::fmt;

// Writes which call gave up, after how many tries, and where.
fn stalled<W: fmt::Write>(
    f: &mut fmt::Formatter<W>,
    call: &str,
    spot: &Spot,
    polls: u32,
) -> fmt::Result
    ensures writes { WritesOnOk W.write_str_gives f.old result (text.stall_text call.now spot.now polls) f.new }
{
    match spot {
        Spot::Flag { place, bit } => {
            let core = place.core().number();
            let line = place.line();
            let word = place.word();
            write!(
                f,
                "{call} stalled after {polls} tries at the flag of core {core}, line {line}, word {word}, bit {bit}"
            )
        }
        Spot::Register { core } => {
            let core = core.number();
            write!(
                f,
                "{call} stalled after {polls} tries at the register of core {core}"
            )
        }
    }
}

// Writes which call met a message that is none of it, and the message's head.
fn met<W: fmt::Write>(f: &mut fmt::Formatter<W>, call: &str, sent: &Head) -> fmt::Result
    ensures writes { WritesOnOk W.write_str_gives f.old result (text.met_text call.now sent.now) f.new }
{
    let kind = sent.kind_text();
    let comm = sent.comm();
    let len = sent.len();
    write!(f, "{call} met another message: sent {kind} {comm} {len}")
}

// The same, and the head that the call asked for.
fn met_not_asked<W: fmt::Write>(
    f: &mut fmt::Formatter<W>,
    call: &str,
    sent: &Head,
    asked: &Head,
) -> fmt::Result
    ensures writes { WritesOnOk W.write_str_gives f.old result
        (text.met_not_asked_text call.now sent.now asked.now) f.new }
{
    met(f, call, sent)?;
    let kind = asked.kind_text();
    let comm = asked.comm();
    let len = asked.len();
    write!(f, ", asked {kind} {comm} {len}")
}

// Writes how many lines a put or a get was to move, and how many the buffer has.
fn out_of_range<W: fmt::Write>(f: &mut fmt::Formatter<W>, fault: &RangeFault) -> fmt::Result
    ensures writes { WritesOnOk W.write_str_gives f.old result (text.range_text fault.now) f.new }
{
    let asked = fault.asked;
    let len = fault.len;
    write!(f, "a put or a get asked {asked} lines of a buffer of {len}")
}

// Writes why the heap refused a buffer.
fn refused<W: fmt::Write>(f: &mut fmt::Formatter<W>, fault: &MallocFault) -> fmt::Result
    ensures writes { WritesOnOk W.write_str_gives f.old result (text.malloc_text fault.now) f.new }
{
    match fault {
        MallocFault::Empty => write!(f, "a malloc asked nothing"),
        MallocFault::Full { asked, longest } => {
            write!(f, "a malloc asked {asked} lines, longest run {longest}")
        }
    }
}

impl fmt::Display for SendStall {
    ghost output = { λ stop. Some (text.send_stall_text stop) };

    fn fmt<W: fmt::Write>(&self, f: &mut fmt::Formatter<W>) -> fmt::Result {
        stalled(f, "a send", &self.spot, self.polls)
    }
}

impl fmt::Debug for SendStall {
    ghost debug_output = { λ stop. Some (text.send_stall_text stop) };

    fn fmt<W: fmt::Write>(&self, f: &mut fmt::Formatter<W>) -> fmt::Result {
        fmt::Display::fmt(self, f)
    }
}

impl fmt::Display for RecvStall {
    ghost output = { λ stop. Some (text.recv_stall_text stop) };

    fn fmt<W: fmt::Write>(&self, f: &mut fmt::Formatter<W>) -> fmt::Result {
        stalled(f, "a receive", &self.spot, self.polls)
    }
}

impl fmt::Debug for RecvStall {
    ghost debug_output = { λ stop. Some (text.recv_stall_text stop) };

    fn fmt<W: fmt::Write>(&self, f: &mut fmt::Formatter<W>) -> fmt::Result {
        fmt::Display::fmt(self, f)
    }
}

impl fmt::Display for RecvStop {
    ghost output = { λ stop. Some (text.recv_stop_text stop) };

    fn fmt<W: fmt::Write>(&self, f: &mut fmt::Formatter<W>) -> fmt::Result {
        match self {
            RecvStop::Stalled(stall) => fmt::Display::fmt(stall, f),
            RecvStop::Mismatch { sent, asked } => met_not_asked(f, "a receive", sent, asked),
        }
    }
}

impl fmt::Debug for RecvStop {
    ghost debug_output = { λ stop. Some (text.recv_stop_text stop) };

    fn fmt<W: fmt::Write>(&self, f: &mut fmt::Formatter<W>) -> fmt::Result {
        fmt::Display::fmt(self, f)
    }
}

impl fmt::Display for BarStall {
    ghost output = { λ stop. Some (text.bar_stall_text stop) };

    fn fmt<W: fmt::Write>(&self, f: &mut fmt::Formatter<W>) -> fmt::Result {
        stalled(f, "a barrier", &self.spot, self.polls)
    }
}

impl fmt::Debug for BarStall {
    ghost debug_output = { λ stop. Some (text.bar_stall_text stop) };

    fn fmt<W: fmt::Write>(&self, f: &mut fmt::Formatter<W>) -> fmt::Result {
        fmt::Display::fmt(self, f)
    }
}

impl fmt::Display for CollStall {
    ghost output = { λ stop. Some (text.coll_stall_text stop) };

    fn fmt<W: fmt::Write>(&self, f: &mut fmt::Formatter<W>) -> fmt::Result {
        stalled(f, "a collective call", &self.spot, self.polls)
    }
}

impl fmt::Debug for CollStall {
    ghost debug_output = { λ stop. Some (text.coll_stall_text stop) };

    fn fmt<W: fmt::Write>(&self, f: &mut fmt::Formatter<W>) -> fmt::Result {
        fmt::Display::fmt(self, f)
    }
}

impl fmt::Display for CollStop {
    ghost output = { λ stop. Some (text.coll_stop_text stop) };

    fn fmt<W: fmt::Write>(&self, f: &mut fmt::Formatter<W>) -> fmt::Result {
        match self {
            CollStop::Stalled(stall) => fmt::Display::fmt(stall, f),
            CollStop::Mismatch { op: _, sent } => met(f, "a collective call", sent),
        }
    }
}

impl fmt::Debug for CollStop {
    ghost debug_output = { λ stop. Some (text.coll_stop_text stop) };

    fn fmt<W: fmt::Write>(&self, f: &mut fmt::Formatter<W>) -> fmt::Result {
        fmt::Display::fmt(self, f)
    }
}

impl fmt::Display for GroupStall {
    ghost output = { λ stop. Some (text.group_stall_text stop) };

    fn fmt<W: fmt::Write>(&self, f: &mut fmt::Formatter<W>) -> fmt::Result {
        stalled(f, "a collective call", &self.spot, self.polls)
    }
}

impl fmt::Debug for GroupStall {
    ghost debug_output = { λ stop. Some (text.group_stall_text stop) };

    fn fmt<W: fmt::Write>(&self, f: &mut fmt::Formatter<W>) -> fmt::Result {
        fmt::Display::fmt(self, f)
    }
}

impl fmt::Display for GroupStop {
    ghost output = { λ stop. Some (text.group_stop_text stop) };

    fn fmt<W: fmt::Write>(&self, f: &mut fmt::Formatter<W>) -> fmt::Result {
        match self {
            GroupStop::Stalled(stall) => fmt::Display::fmt(stall, f),
            GroupStop::Mismatch { op: _, sent, asked } => {
                met_not_asked(f, "a collective call", sent, asked)
            }
        }
    }
}

impl fmt::Debug for GroupStop {
    ghost debug_output = { λ stop. Some (text.group_stop_text stop) };

    fn fmt<W: fmt::Write>(&self, f: &mut fmt::Formatter<W>) -> fmt::Result {
        fmt::Display::fmt(self, f)
    }
}

impl fmt::Display for Stop {
    ghost output = { λ stop. Some (text.call_stop_text stop) };

    fn fmt<W: fmt::Write>(&self, f: &mut fmt::Formatter<W>) -> fmt::Result {
        match self {
            Stop::Send(stall) => fmt::Display::fmt(stall, f),
            Stop::Recv(stop) => fmt::Display::fmt(stop, f),
            Stop::Barrier(stall) => fmt::Display::fmt(stall, f),
            Stop::Collective(stop) => fmt::Display::fmt(stop, f),
            Stop::Group(stop) => fmt::Display::fmt(stop, f),
            Stop::Flag(stall) => stalled(f, "a flag", &stall.spot, stall.polls),
            Stop::Range(fault) => out_of_range(f, fault),
            Stop::Malloc(fault) => refused(f, fault),
        }
    }
}

impl fmt::Debug for Stop {
    ghost debug_output = { λ stop. Some (text.call_stop_text stop) };

    fn fmt<W: fmt::Write>(&self, f: &mut fmt::Formatter<W>) -> fmt::Result {
        fmt::Display::fmt(self, f)
    }
}
