//! What a lab prints.

use scc_base::{CoreId, Line, Place};
use texts::Bytes;

/// The place that answered a read.
#[derive(Clone, Copy)]
pub enum Source {
    /// The core's write-combining buffer.
    BufferLine,
    /// The core's cache.
    Cache,
    /// The shared words.
    Words,
}

/// One or several printed lines. Accesses to shared words take one line each.
#[derive(Drop)]
pub enum Said {
    /// A step begins: its line in the file.
    Begins {
        line: u32,
        text: Bytes,
    },
    /// A core loaded the words of a line.
    Loads {
        core: CoreId,
        line: Line,
        words: [u64; 4],
    },
    /// A core stored the written words of a line.
    Stores {
        core: CoreId,
        line: Line,
        words: [u64; 4],
        mask: [bool; 4],
    },
    /// A core loaded a word by one access.
    LoadsWord {
        core: CoreId,
        at: Place,
        value: u64,
    },
    /// A core stored a word by one access.
    StoresWord {
        core: CoreId,
        at: Place,
        value: u64,
    },
    /// A read returned a value.
    Answers {
        at: Place,
        value: u64,
        from: Source,
    },
    /// A line left the cache.
    Evicted(Line),
    /// A core read a register, and took it or found it taken.
    Takes {
        core: CoreId,
        register: CoreId,
        took: bool,
    },
    /// A core freed a register.
    Frees {
        core: CoreId,
        register: CoreId,
    },
    /// A line in a core's cache.
    Caches {
        core: CoreId,
        line: Line,
        words: [u64; 4],
    },
    /// The core's cache is empty.
    CachesNothing(CoreId),
    /// The line in a core's write-combining buffer.
    Buffers {
        core: CoreId,
        line: Line,
        words: [u64; 4],
        mask: [bool; 4],
    },
    /// The core's write-combining buffer is empty.
    BuffersNothing(CoreId),
}

/// Why a lab stopped at a step.
#[derive(Clone, Copy)]
pub enum Stopped {
    /// A read returned another value than the expected one.
    Value {
        line: u32,
        at: Place,
        came: u64,
        expected: u64,
    },
    /// A take returned another answer than the expected one.
    Take {
        line: u32,
        took: bool,
    },
    /// A core tried to take a register that it has already.
    Holds {
        line: u32,
        core: CoreId,
        register: CoreId,
    },
    /// A core tried to free a register that it does not have.
    HoldsNot {
        line: u32,
        core: CoreId,
        register: CoreId,
    },
}
