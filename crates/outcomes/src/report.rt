ghost use Rattle.std.specs.Prelude.{◌≡◌};
ghost use Rattle.rcce_io.specs.Sending.{Sends};
ghost use Rattle.outcomes.specs.Outcomes.{Ran};

use rcce_io::{Sink, WriteFault};

/// What a program's run came to. Its texts are written from its own data, and no memory is taken for them.
pub trait Report {
    /// Whether the run finished, the text for out and the text for err.
    ghost ran: { Self → Ran };

    fn is_finished(&self) -> bool
        ensures { result ≡ (ran self.now).finished };

    fn write_out<S: Sink>(&self, sink: &mut S) -> Result<(), WriteFault>
        ensures { Sends (ran self.now).out (S.seen sink.old) (S.seen sink.new) result };

    fn write_err<S: Sink>(&self, sink: &mut S) -> Result<(), WriteFault>
        ensures { Sends (ran self.now).err (S.seen sink.old) (S.seen sink.new) result };
}
