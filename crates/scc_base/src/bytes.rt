//! The bytes of a word.

ghost use Rattle.std.specs.Prelude.{◌≡◌, ◌<◌};
ghost use Rattle.scc_base.specs.Bytes.{byte_of_word};

/// A byte of a word, the lowest first.
pub fn byte_of(word: u64, at: usize) -> u8
    requires below { at < 8 }
    ensures gives { result ≡ byte_of_word word at }
{
    let byte = match at {
        0 => word % 256,
        1 => word / 0x100 % 256,
        2 => word / 0x1_0000 % 256,
        3 => word / 0x100_0000 % 256,
        4 => word / 0x1_0000_0000 % 256,
        5 => word / 0x100_0000_0000 % 256,
        6 => word / 0x1_0000_0000_0000 % 256,
        _ => word / 0x100_0000_0000_0000 % 256,
    };
    byte as u8
}
