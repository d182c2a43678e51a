//! A text cut into its parts: lines, and the words of a line.

ghost use Rattle.std.specs.Prelude.{◌≡◌, ◌<◌, ◌≤◌, ◌==◌, IfOk, IfSome, length, map};
ghost use Rattle.std.specs.List.{position, position_or_len};
ghost use Rattle.texts.specs.Cuts.{cut_by, is_blank, is_text, is_text_byte, line_count, lines_of, without_comment, words_of};

use std::alloc::{AllocError, Global};

fn is_blank(b: u8) -> bool
    ensures { result ≡ is_blank b }
{
    b == b'\t' || b == b'\r' || b == b' '
}

fn is_text_byte(b: u8) -> bool
    ensures { result ≡ is_text_byte b }
{
    b == b'\t' || b == b'\n' || b == b'\r' || b' ' <= b && b <= b'~'
}

/// The place of the first byte of a kind.
pub fn place_of(text: &[u8], mark: u8) -> Option<usize>
    ensures found { result ≡ position (λ b. b == mark) text.now }
    ensures within { IfSome result (λ at. at < length text.now) }
{
    text.iter().position(|b| *b == mark)
}

/// The place of the first byte of a kind, or the end of a text that has none.
pub fn place_or_end(text: &[u8], mark: u8) -> usize
    ensures same { result ≡ position_or_len (λ b. b == mark) text.now }
    ensures within { result ≤ length text.now }
{
    place_of(text, mark).unwrap_or(text.len())
}

/// What stands between the marks of a text.
pub fn parts(alloc: Global, text: &[u8], mark: u8) -> Result<Vec<&[u8]>, AllocError>
    ensures { IfOk result (λ v. map (λ part. part.now) v.items ≡ cut_by mark text.now) }
{
    text.split(|b| *b == mark).collect(alloc)
}

/// The lines of a file, each without its line feed.
pub fn lines(alloc: Global, bytes: &[u8]) -> Result<Vec<&[u8]>, AllocError>
    ensures { IfOk result (λ v. map (λ line. line.now) v.items ≡ lines_of bytes.now) }
{
    parts(alloc, bytes, b'\n')
}

/// The number of lines: the last one may lack its line feed, and after a last line feed there is no line more.
pub fn line_count(lines: &[&[u8]]) -> usize
    ensures same { result ≡ line_count (map (λ line. line.now) lines.now) }
    ensures within { result ≤ length lines.now }
{
    let others = lines.len().saturating_sub(1);
    match lines.get(others) {
        Some(last) => { if last.is_empty() { others } else { lines.len() } }
        None => 0,
    }
}

/// A line up to its first `#`.
pub fn uncommented(line: &[u8]) -> &[u8]
    ensures { result.now ≡ without_comment line.now }
{
    &line[..place_or_end(line, b'#')]
}

/// Whether each byte outside the comment may stand there.
pub fn is_text(line: &[u8]) -> bool
    ensures { result ≡ is_text line.now }
{
    uncommented(line).iter().all(|b| is_text_byte(*b))
}

/// The words of a line: what stands between its blanks, up to its first `#`.
pub fn words(alloc: Global, line: &[u8]) -> Result<Vec<&[u8]>, AllocError>
    ensures { IfOk result (λ v. map (λ word. word.now) v.items ≡ words_of line.now) }
{
    uncommented(line)
        .split(|b| is_blank(*b))
        .filter(|word| !word.is_empty())
        .collect(alloc)
}
