//! The words of a message's bytes.

ghost use Rattle.std.specs.Prelude.{◌≡◌, ◌+◌, ◌*◌, ◌^◌, ◌<◌, ◌≤◌, ℕ, length, slice_index};
ghost use Rattle.scc_base.specs.Bytes.{byte_of_word};
ghost use Rattle.send_recv.specs.Bytes.{word_of_bytes, words_at, byte_of_line};

use scc_base::byte_of;

/// Does nothing. It tells a proof that each place of a slice has a byte.
pub(crate) fn known_bytes(bytes: &[u8])
    ensures small { (k : ℕ) → slice_index bytes.now k < 256 }
{}

// A byte of a slice, and 0 past its end.
fn byte_at(bytes: &[u8], at: usize) -> u8
    ensures gives { result ≡ slice_index bytes.now at }
{
    if at < bytes.len() { bytes[at] } else { 0 }
}

// The word of eight bytes that are there, the lowest first.
#[inline(always)]
fn eight_from(bytes: &[u8], at: usize) -> u64
    requires within { at + 8 ≤ length bytes.now }
    ensures gives { result ≡ word_of_bytes bytes.now at }
{
    u64::from_le_bytes([
        bytes[at],
        bytes[at + 1],
        bytes[at + 2],
        bytes[at + 3],
        bytes[at + 4],
        bytes[at + 5],
        bytes[at + 6],
        bytes[at + 7],
    ])
}

// The word of eight bytes, the lowest first, with zeros past the end.
#[inline(always)]
fn word_from(bytes: &[u8], at: usize) -> u64
    requires fits { at ≤ 2 ^ 32 }
    ensures gives { result ≡ word_of_bytes bytes.now at }
{
    if at + 8 <= bytes.len() {
        return eight_from(bytes, at);
    }
    if at >= bytes.len() {
        return 0;
    }
    let low = four_from(bytes, at);
    let high = four_from(bytes, at + 4);
    low as u64 + 0x1_0000_0000 * high as u64
}

// The number of four bytes, the lowest first.
fn four_from(bytes: &[u8], at: usize) -> u32
    requires fits { at ≤ 2 ^ 32 + 4 }
    ensures gives { result
        ≡ slice_index bytes.now at + 0x100 * slice_index bytes.now (at + 1) + 0x10000 * slice_index bytes.now (at + 2)
        + 0x1000000 * slice_index bytes.now (at + 3) }
{
    let first = byte_at(bytes, at);
    let second = byte_at(bytes, at + 1);
    let third = byte_at(bytes, at + 2);
    let fourth = byte_at(bytes, at + 3);
    first as u32 + 0x100 * second as u32 + 0x1_0000 * third as u32 + 0x100_0000 * fourth as u32
}

// The four words of a whole line of bytes.
#[inline(always)]
fn four_words_from(line: &[u8]) -> [u64; 4]
    requires whole { length line.now ≡ 32 }
    ensures gives { result ≡ words_at line.now 0 }
{
    [
        eight_from(line, 0),
        eight_from(line, 8),
        eight_from(line, 16),
        eight_from(line, 24),
    ]
}

/// The four words of a line of a message, from byte `at` on, with zeros past the message's end.
#[inline]
pub(crate) fn line_from(bytes: &[u8], at: usize) -> [u64; 4]
    requires fits { at ≤ 2 ^ 31 }
    ensures gives { result ≡ words_at bytes.now at }
{
    if at + 32 <= bytes.len() {
        return four_words_from(&bytes[at..at + 32]);
    }
    let first = word_from(bytes, at);
    let second = word_from(bytes, at + 8);
    let third = word_from(bytes, at + 16);
    let fourth = word_from(bytes, at + 24);
    [first, second, third, fourth]
}

// Writes the eight bytes of a word into a message, from byte `at` on, up to the message's end.
fn put_word(bytes: &mut [u8], at: usize, word: u64)
    requires fits { at ≤ 2 ^ 32 }
    ensures put { (k : ℕ) → k < 8 → at + k < length bytes.old → slice_index bytes.new (at + k) ≡ byte_of_word word k }
    ensures before { (k : ℕ) → k < at → slice_index bytes.new k ≡ slice_index bytes.old k }
    ensures afterwards { (k : ℕ) → at + 8 ≤ k → slice_index bytes.new k ≡ slice_index bytes.old k }
{
    if at + 8 <= bytes.len() {
        bytes[at..at + 8].copy_from_slice(&word.to_le_bytes());
        return;
    }
    if at >= bytes.len() {
        return;
    }
    'bytes: for k in 0..8 {
        if at + k < bytes.len() {
            bytes[at + k] = byte_of(word, k);
        }
    }
}

// Writes the 32 bytes of a line.
#[inline(always)]
fn put_four_words(line: &mut [u8], words: &[u64; 4])
    requires whole { length line.old ≡ 32 }
    ensures put { (k : ℕ) → k < 32 → slice_index line.new k ≡ byte_of_line words.now k }
{
    put_word(line, 0, words[0]);
    put_word(line, 8, words[1]);
    put_word(line, 16, words[2]);
    put_word(line, 24, words[3]);
}

/// Writes the 32 bytes of a line into a message, from byte `at` on, up to the message's end.
#[inline]
pub(crate) fn put_line(bytes: &mut [u8], at: usize, words: &[u64; 4])
    requires fits { at ≤ 2 ^ 31 }
    ensures put { (k : ℕ) → k < 32 → at + k < length bytes.old → slice_index bytes.new (at + k) ≡ byte_of_line words.now k }
    ensures before { (k : ℕ) → k < at → slice_index bytes.new k ≡ slice_index bytes.old k }
    ensures afterwards { (k : ℕ) → at + 32 ≤ k → slice_index bytes.new k ≡ slice_index bytes.old k }
{
    if at + 32 <= bytes.len() {
        put_four_words(&mut bytes[at..at + 32], words);
        return;
    }
    put_word(bytes, at, words[0]);
    put_word(bytes, at + 8, words[1]);
    put_word(bytes, at + 16, words[2]);
    put_word(bytes, at + 24, words[3]);
}
