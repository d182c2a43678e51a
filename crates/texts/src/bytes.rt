//! Bytes that own their memory, as a list.

use hex::FromHexError;
use std::alloc::{AllocError, Global};
use std::marker::Model;

/// Bytes that own their memory.
#[derive(Drop)]
pub struct Bytes {
    held: Vec<u8>,
}

impl Model for Bytes {
    ghost use Rattle.std.specs.Prelude.{List, ℕ};

    ghost Value = { List ℕ };

    ghost view = { λ b. b.held.items };
}

impl Bytes {
    ghost use Rattle.std.specs.Prelude.{◌≡◌, IfOk};
    ghost use Rattle.texts.specs.Hex.{bytes_of};

    pub fn from_vec(held: Vec<u8>) -> Bytes
        ensures { result ≡ held.items }
    {
        Bytes { held }
    }

    /// A copy of the bytes.
    pub fn from_slice(alloc: Global, bytes: &[u8]) -> Result<Bytes, AllocError>
        ensures { IfOk result (λ b. b ≡ bytes.now) }
    {
        let held = Vec::from_slice(alloc, bytes)?;
        Ok(Bytes { held })
    }

    /// The bytes that a word stands for: none for `-`, else two hex digits each.
    pub fn from_hex(alloc: Global, word: &[u8]) -> Result<Option<Bytes>, AllocError>
        ensures { IfOk result (λ bytes. bytes ≡ bytes_of word.now) }
    {
        if word == b"-".as_slice() {
            return Ok(Some(Bytes::from_vec(Vec::new(alloc))));
        }
        match hex::decode(alloc, word) {
            Ok(held) => Ok(Some(Bytes::from_vec(held))),
            Err(FromHexError::OutOfMemory) => Err(AllocError),
            Err(_) => Ok(None),
        }
    }

    pub fn as_slice(&self) -> &[u8]
        ensures { result.now ≡ self.now }
    {
        self.held.as_slice()
    }
}
