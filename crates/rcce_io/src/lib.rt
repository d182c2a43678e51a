//! The outside of a program: files that are read and sinks that take bytes, over the real system and
//! in memory. Each counts its faults.
#![tactic(auto)]

mod buffer;
mod calls;
mod digits;
mod files;
mod growing_text;
mod host;
mod memory_files;
mod memory_sink;
mod piece;
mod reading;
mod sink;
mod text_source;
mod writing;

pub use buffer::Buffer;
pub use digits::write_hex;
pub use files::{Files, Got, Opened};
pub use growing_text::GrowingText;
pub use host::{HostFiles, StdSink};
pub use memory_files::MemFiles;
pub use memory_sink::MemSink;
pub use piece::Piece;
pub use reading::{ReadEnd, read_all};
pub use sink::{Put, Sink};
pub use text_source::TextSource;
pub use writing::{WriteFault, write_all, write_texts};
