ghost use Rattle.std.specs.Prelude.{◌<◌, length, IsTrue};
ghost use Rattle.rcce_io.specs.Files.{FilesView, Opens, Reads};

/// What an `open` answers.
#[derive(Clone, Copy)]
pub enum Opened {
    Open,
    /// No file of that name is found.
    Absent,
    Failed,
}

/// What a `read` answers.
#[derive(Clone, Copy, PartialEq, Eq)]
pub enum Got {
    /// How many bytes stand at the front of the buffer.
    Bytes(usize),
    End,
    Failed,
}

/// Files that are read one at a time, from front to end.
pub trait Files {
    /// The files with their bytes and the rest of the open one, where they are told, whether one is open, and the count
    /// of faults, which stops at the largest value of u64.
    ghost seen: { Self → FilesView };

    /// Closes what was open, and opens the file of this name at its front. A call that fails counts exactly one fault.
    fn open(&mut self, name: &str) -> Opened
        ensures { Opens name.now (seen self.old) (seen self.new) result };

    /// Reads on in the open file, into the front of the buffer. A call that fails counts exactly one fault.
    fn read(&mut self, buf: &mut [u8]) -> Got
        requires open { IsTrue (seen self.old).is_open }
        requires room { 0 < length buf.old }
        ensures { Reads (seen self.old) (seen self.new) buf.new result };
}
