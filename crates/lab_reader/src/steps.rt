//! The steps of a lab.

use crate::places::{HeapLine, HeapWord};
use scc_base::CoreId;
use texts::Bytes;

/// What a core does.
#[derive(Clone, Copy)]
pub enum Action {
    WriteWord {
        at: HeapWord,
        value: u64,
    },
    WriteLine {
        at: HeapLine,
        words: [u64; 4],
    },
    /// Reads a word. At a fill, the cache drops the line `evict`. The value must equal `expect`, if there is one.
    ReadWord {
        at: HeapWord,
        evict: Option<HeapLine>,
        expect: Option<u64>,
    },
    ReadLine {
        at: HeapLine,
        evict: Option<HeapLine>,
        expect: Option<[u64; 4]>,
    },
    Flush,
    Invalidate,
    Put {
        at: HeapLine,
        words: [u64; 4],
    },
    Get {
        at: HeapLine,
        expect: Option<[u64; 4]>,
    },
    /// Loads a word by one access, past the cache and the buffer. The value must equal `expect`, if there is one.
    Load {
        at: HeapWord,
        expect: Option<u64>,
    },
    /// Stores a word by one access, past the cache and the buffer.
    Store {
        at: HeapWord,
        value: u64,
    },
    /// Reads a core's test-and-set register. `expect` states whether the read must take it.
    Take {
        register: CoreId,
        expect: Option<bool>,
    },
    Free {
        register: CoreId,
    },
    Print,
}

/// A step: the number of its line, the text of the line in the file, the core, and what the core does.
#[derive(Drop)]
pub struct Step {
    pub line: u32,
    pub text: Bytes,
    pub core: CoreId,
    pub action: Action,
}
