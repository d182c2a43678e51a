//! The lines: of a message that came, and of a rank that has not finished.

ghost use Rattle.std.specs.Prelude.{◌≡◌};
ghost use Rattle.check_program.specs.Texts.{cause_name, cause_rank};

use crate::causes::Cause;
use crate::trouble::{Found, Trouble};
use rcce_io::Piece::{Number, Text};
use rcce_io::{Sink, TextSource, WriteFault, write_texts};
use scc_base::Rank;
use script_plain::Match;

/// The line of a message.
#[derive(Clone, Copy)]
pub struct MatchLine<'a> {
    pub one: &'a Match,
}

impl TextSource for MatchLine<'_> {
    ghost use Rattle.check_program.specs.Texts.{match_line};

    ghost text = { λ line. match_line line.one.now };

    fn write_to<S: Sink>(&self, sink: &mut S) -> Result<(), WriteFault> {
        let one = self.one;
        write_texts(
            sink,
            &[
                Number(one.from.number() as u64),
                Text(":"),
                Number(one.send_line as u64),
                Text(" -> "),
                Number(one.to.number() as u64),
                Text(":"),
                Number(one.recv_line as u64),
                Text(" "),
                Text(one.head.kind_text()),
                Text(" "),
                Number(one.head.comm() as u64),
                Text(" "),
                Number(one.head.len() as u64),
                Text("\n"),
            ],
        )
    }
}

/// The name of a cause.
fn cause_name(why: &Cause) -> &'static str
    ensures { result.now ≡ cause_name why.now }
{
    match why {
        Cause::Finished(_) => "finished ",
        Cause::Mismatch(_) => "mismatch ",
        Cause::Cycle(_) => "cycle ",
    }
}

/// The rank that a cause is about.
fn cause_rank(why: &Cause) -> Rank
    ensures { result ≡ cause_rank why.now }
{
    match why {
        Cause::Finished(rank) => *rank,
        Cause::Mismatch(rank) => *rank,
        Cause::Cycle(rank) => *rank,
    }
}

impl TextSource for Found {
    ghost use Rattle.check_program.specs.Texts.{found_line};

    ghost text = { found_line };

    fn write_to<S: Sink>(&self, sink: &mut S) -> Result<(), WriteFault> {
        let rank = self.rank.number() as u64;
        match &self.trouble {
            Trouble::Finished => Ok(()),
            Trouble::Waits { on, why } => write_texts(
                sink,
                &[
                    Text("ue "),
                    Number(rank),
                    Text(" waits for "),
                    Number(on.number() as u64),
                    Text(", cause "),
                    Text(cause_name(why)),
                    Number(cause_rank(why).number() as u64),
                    Text("\n"),
                ],
            ),
            Trouble::Mismatch { from } => write_texts(
                sink,
                &[
                    Text("ue "),
                    Number(rank),
                    Text(" mismatch with "),
                    Number(from.number() as u64),
                    Text("\n"),
                ],
            ),
        }
    }
}
