ghost use Rattle.std.specs.Prelude.{ℕ, List};
ghost use Rattle.rcce_io.specs.Sending.{Sends};

use crate::{Sink, WriteFault};

/// What has a text, and writes it to a sink.
pub trait TextSource {
    /// The text, as bytes.
    ghost text: { Self → List ℕ };

    fn write_to<S: Sink>(&self, sink: &mut S) -> Result<(), WriteFault>
        ensures { Sends (text self.now) (S.seen sink.old) (S.seen sink.new) result };
}
