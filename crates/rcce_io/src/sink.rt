ghost use Rattle.std.specs.Prelude.{◌<◌, length};
ghost use Rattle.rcce_io.specs.Sending.{SinkView, SinkWrites};

/// What a `write` answers.
#[derive(Clone, Copy)]
pub enum Put {
    /// How many bytes were taken, from the front.
    Took(usize),
    Failed,
}

/// What takes bytes, one behind the other.
pub trait Sink {
    /// The bytes taken so far, where they are told, and the count of faults, which stops at the largest value of u64.
    ghost seen: { Self → SinkView };

    /// Takes a front of the bytes, or fails. A failed write counts exactly one fault.
    fn write(&mut self, bytes: &[u8]) -> Put
        requires { 0 < length bytes.now }
        ensures { SinkWrites bytes.now (seen self.old) (seen self.new) result };
}
