//! A text in memory, which grows by what is written to it.

use crate::{Put, Sink, TextSource, WriteFault, write_texts};
use std::alloc::{AllocError, Global};
use std::marker::Model;
use texts::Bytes;

/// A text in memory. A write to it fails where no memory is left.
#[derive(Drop)]
pub struct GrowingText {
    bytes: Vec<u8>,
    faults: u64,
}

impl Model for GrowingText {
    ghost use Rattle.std.specs.Prelude.{Some};
    ghost use Rattle.rcce_io.specs.Sending.{SinkView};

    ghost Value = { SinkView };

    ghost view = { λ t. record { taken = Some t.bytes.items; faults = t.faults } };
}

impl GrowingText {
    ghost use Rattle.std.specs.Prelude.{◌≡◌, [], map, Some, OnOk, unwrap_or};
    ghost use Rattle.rcce_io.specs.Sending.{joined_texts, with_text};

    /// An empty text. Its memory is taken as it grows.
    pub fn new(alloc: Global) -> GrowingText
        ensures { result ≡ record { taken = Some []; faults = 0 } }
    {
        GrowingText {
            bytes: Vec::new(alloc),
            faults: 0,
        }
    }

    /// Puts texts behind it.
    pub fn push<T: TextSource>(&mut self, texts: &[T]) -> Result<(), AllocError>
        ensures { OnOk result (self.new ≡ with_text (joined_texts (map T.text texts.now)) self.old) }
    {
        match write_texts(self, texts) {
            Ok(()) => Ok(()),
            Err(WriteFault) => Err(AllocError),
        }
    }

    /// Its bytes.
    pub fn into_bytes(self) -> Bytes
        ensures { result ≡ unwrap_or self.taken [] }
    {
        Bytes::from_vec(self.bytes)
    }
}

impl Sink for GrowingText {
    ghost seen = { λ t. t };

    fn write(&mut self, bytes: &[u8]) -> Put {
        match self.bytes.extend_from_slice(bytes) {
            Ok(()) => Put::Took(bytes.len()),
            Err(_) => {
                self.faults = self.faults.saturating_add(1);
                Put::Failed
            }
        }
    }
}
