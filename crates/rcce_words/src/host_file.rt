//! The host file: on which core each unit of execution runs.

ghost use Rattle.std.specs.Prelude.{◌≡◌, ◌≤◌, ◌<◌, ℕ, IfOk, IfSome, MatchOption, MatchResult, length, ◌∷◌, []};
ghost use Rattle.scc_base.specs.Setups.{AreApart};
ghost use Rattle.rcce_words.specs.HostFile.{core_of_word, default_hosts, digits_of, entry_of, file_lines, host_kind_name, host_list, parse_hosts, read_host_line, read_host_lines, most_host_bytes};

use crate::cores::Cores;
use scc_base::{CoreId, own_cores};
use texts::{is_text, number, place_or_end, uncommented};

/// The longest host file, in bytes.
pub const MOST_HOST_BYTES: usize = 65_536;

/// What is wrong in a host file. In a line the checks go in this order.
#[derive(Clone, Copy, PartialEq, Eq)]
pub enum HostKind {
    /// The file is longer than 65,536 bytes.
    TooLong,
    /// A byte outside a comment is neither a blank nor a printable character of ASCII.
    NotText,
    /// The line is not one core number.
    BadCore,
    /// An earlier line has the core.
    TwiceCore,
    /// There are fewer cores than units of execution.
    TooFew,
}

impl HostKind {
    /// The name of the kind, as a program prints it.
    pub fn name(self) -> &'static str
        ensures { result.now ≡ host_kind_name self }
    {
        match self {
            HostKind::TooLong => "TooLong",
            HostKind::NotText => "NotText",
            HostKind::BadCore => "BadCore",
            HostKind::TwiceCore => "TwiceCore",
            HostKind::TooFew => "TooFew",
        }
    }
}

/// The first fault of a host file. Lines count from 1; line 0 stands for the file as a whole.
#[derive(Clone, Copy, PartialEq, Eq)]
pub struct HostFault {
    pub line: u32,
    pub kind: HostKind,
}

/// The first line of these bytes, and what stands behind its line feed. There is no line where there are no bytes.
fn first_line(bytes: &[u8]) -> Option<(&[u8], &[u8])>
    ensures gives { MatchOption result (file_lines bytes.now ≡ []) (λ cut. file_lines bytes.now ≡ cut.0.now ∷ file_lines cut.1.now) }
    ensures shorter { IfSome result (λ cut. length cut.1.now < length bytes.now) }
{
    if bytes.is_empty() {
        return None;
    }
    let end = place_or_end(bytes, b'\n');
    if end < bytes.len() {
        Some((&bytes[..end], &bytes[end + 1..]))
    } else {
        Some((bytes, &bytes[end..]))
    }
}

/// The digits of a core's number, which may have `rck` before them.
fn digits_of(word: &[u8]) -> &[u8]
    ensures { result.now ≡ digits_of word.now }
{
    match word.strip_prefix(b"rck".as_slice()) {
        Some(digits) => digits,
        None => word,
    }
}

/// The core that a word stands for.
fn core_of_word(word: &[u8]) -> Result<CoreId, HostKind>
    ensures { result ≡ core_of_word word.now }
{
    match number(digits_of(word)) {
        Some(n) if n < 48 => Ok(CoreId::of(n as u8)),
        _ => Err(HostKind::BadCore),
    }
}

/// What stands in a line, without its comment and the blanks round it.
fn entry_of(line: &[u8]) -> &[u8]
    ensures { result.now ≡ entry_of line.now }
{
    uncommented(line).trim_ascii()
}

/// Puts the core that a line has, if it has one, behind those of the lines before it.
fn read_line(cores: &mut Cores, line: &[u8]) -> Result<(), HostKind>
    ensures gives { MatchResult result (λ _. read_host_line cores.old line.now ≡ Ok cores.new) (λ kind. read_host_line cores.old line.now
        ≡ Err kind) }
{
    if !is_text(line) {
        return Err(HostKind::NotText);
    }
    let entry = entry_of(line);
    if entry.is_empty() {
        return Ok(());
    }
    let core = core_of_word(entry)?;
    if cores.has(core) {
        return Err(HostKind::TwiceCore);
    }
    cores.add(core);
    Ok(())
}

/// The cores that the lines of a host file have, in order, and the number of lines.
#[derive(Drop)]
struct Entries {
    cores: Cores,
    lines: u32,
}

/// The entries of a host file.
fn read_lines(bytes: &[u8]) -> Result<Entries, HostFault>
    requires few { length bytes.now ≤ most_host_bytes }
    ensures gives { MatchResult result (λ entries. read_host_lines 0 [] (file_lines bytes.now)
        ≡ Ok entries.cores) (λ fault. read_host_lines 0 [] (file_lines bytes.now) ≡ Err fault) }
    ensures lines { IfOk result (λ entries. entries.lines ≡ length (file_lines bytes.now)) }
    ensures few { IfOk result (λ entries. entries.lines ≤ most_host_bytes) }
{
    let mut cores = Cores::new();
    let mut lines: u32 = 0;
    let mut rest = bytes;
    'lines: while let Some((line, afterwards)) = first_line(rest) {
        lines += 1;
        if let Err(kind) = read_line(&mut cores, line) {
            return Err(HostFault { line: lines, kind });
        }
        rest = afterwards;
    }
    Ok(Entries { cores, lines })
}

/// The core of each rank: the entry of its number, and from the number of units of execution on entry 0 again.
fn host_list(cores: &Cores, nue: u8) -> [CoreId; 48]
    requires some { 1 ≤ nue }
    requires most { nue ≤ 48 }
    requires enough { nue ≤ length cores.now }
    ensures gives { result ≡ host_list nue cores.now }
    ensures apart { AreApart nue result }
{
    let mut hosts = [cores.at(0); 48];
    for rank in 0..48 {
        hosts[rank] = cores.at(if rank < nue as usize { rank } else { 0 });
    }
    hosts
}

/// The core of each rank where there is no host file: that of its number.
pub fn default_hosts() -> [CoreId; 48]
    ensures gives { result ≡ default_hosts }
    ensures apart { (nue : ℕ) → nue ≤ 48 → AreApart nue result }
{
    own_cores()
}

/// The core of each rank that a host file says, or its first fault. No memory is taken.
pub fn read_hosts(bytes: &[u8], nue: u8) -> Result<[CoreId; 48], HostFault>
    requires some { 1 ≤ nue }
    requires most { nue ≤ 48 }
    ensures gives { result ≡ parse_hosts bytes.now nue }
    // A setup may have them.
    ensures apart { IfOk result (AreApart nue) }
{
    if bytes.len() > MOST_HOST_BYTES {
        return Err(HostFault {
            line: 0,
            kind: HostKind::TooLong,
        });
    }
    let entries = read_lines(bytes)?;
    if entries.cores.len() < nue as usize {
        return Err(HostFault {
            line: entries.lines + 1,
            kind: HostKind::TooFew,
        });
    }
    Ok(host_list(&entries.cores, nue))
}
