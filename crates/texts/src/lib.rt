//! Texts: their lines and words, words that are numbers, and lists of bytes.
#![tactic(auto)]

mod bytes;
mod cuts;
mod laws;
mod numbers;

pub use bytes::Bytes;
pub use cuts::{is_text, line_count, lines, parts, place_of, place_or_end, uncommented, words};
pub use laws::decimal_law;
pub use numbers::{decimal, is_number, number, number_in};
