//! Words that are numbers in decimal digits. No memory is taken.

ghost use Rattle.std.specs.Prelude.{◌≡◌, ◌≤◌, IfSome};
ghost use Rattle.texts.specs.Numbers.{decimal_of, is_number, number_in, number_of};

/// The longest number, in digits.
const MOST_DIGITS: usize = 10;

/// The value of 1 to `most` decimal digits, at most `limit`, leading zeros accepted.
pub fn decimal(word: &[u8], most: usize, limit: u64) -> Option<u64>
    ensures gives { result ≡ decimal_of most limit word.now }
    ensures within { IfSome result (λ value. value ≤ limit) }
{
    if word.is_empty() || word.len() > most {
        return None;
    }
    let mut value: u64 = 0;
    for b in word {
        if !b.is_ascii_digit() {
            return None;
        }
        let next = value as u128 * 10 + (*b - b'0') as u128;
        if next > limit as u128 {
            return None;
        }
        value = next as u64;
    }
    Some(value)
}

/// The number that a word stands for: 1 to 10 decimal digits with a value of at most 4,294,967,295, leading zeros
/// accepted.
pub fn number(word: &[u8]) -> Option<u32>
    ensures { result ≡ number_of word.now }
{
    match decimal(word, MOST_DIGITS, u32::MAX as u64) {
        Some(value) => Some(value as u32),
        None => None,
    }
}

/// Whether there is a number, and it is this one.
pub fn is_number(number: Option<u32>, wanted: u32) -> bool
    ensures { result ≡ is_number number wanted }
{
    match number {
        Some(number) => number == wanted,
        None => false,
    }
}

/// The number from this range that a word is: 1 to 10 decimal digits, leading zeros accepted.
pub fn number_in(word: &[u8], least: u32, most: u32) -> Option<u32>
    ensures gives { result ≡ number_in least most word.now }
    ensures least { IfSome result (λ n. least ≤ n) }
    ensures most { IfSome result (λ n. n ≤ most) }
{
    match decimal(word, MOST_DIGITS, most as u64) {
        Some(n) if least as u64 <= n => Some(n as u32),
        _ => None,
    }
}
