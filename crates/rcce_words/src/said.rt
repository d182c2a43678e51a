//! What the words have said so far.

ghost use Rattle.std.specs.Prelude.{◌≡◌, ◌<◌, ◌≤◌, IfOk, option_map};
ghost use Rattle.rcce_words.specs.CommandLine.{IsSaidInRange, has, is_against, nothing, number_after, take, take_flag, take_name, with_flag};

use crate::command::WordFault;
use crate::flags::{Flag, flag_of};
use outcomes::is_option;
use texts::number_in;

/// What was given of each option, and the number of the word that names the script.
#[derive(Clone, Copy)]
pub(crate) struct Said {
    pub(crate) nue: Option<u32>,
    pub(crate) hosts: Option<usize>,
    pub(crate) evict: Option<u32>,
    pub(crate) serial: Option<u32>,
    pub(crate) bits: bool,
    pub(crate) seed: Option<u32>,
    pub(crate) script: Option<usize>,
}

/// The number that stands behind the option at a word.
fn number_after(
    at: usize,
    least: u32,
    most: u32,
    afterwards: Option<&str>,
) -> Result<u32, WordFault>
    ensures gives { result ≡ number_after at least most (option_map (λ word. word.now) afterwards.entry) }
    ensures least { IfOk result (λ n. least ≤ n) }
    ensures most { IfOk result (λ n. n ≤ most) }
{
    match afterwards {
        Some(word) => match number_in(word.as_bytes(), least, most) {
            Some(n) => Ok(n),
            None => Err(WordFault::BadNumber { at }),
        },
        None => Err(WordFault::NoValue { at }),
    }
}

impl Said {
    /// What was said before the first word: nothing.
    pub(crate) fn nothing() -> Said
        ensures same { result ≡ nothing }
        ensures within { IsSaidInRange result }
    {
        Said {
            nue: None,
            hosts: None,
            evict: None,
            serial: None,
            bits: false,
            seed: None,
            script: None,
        }
    }

    fn has(self, flag: Flag) -> bool
        ensures { result ≡ has flag self }
    {
        match flag {
            Flag::Nue => self.nue.is_some(),
            Flag::Hosts => self.hosts.is_some(),
            Flag::Evict => self.evict.is_some(),
            Flag::Serial => self.serial.is_some(),
            Flag::Bits => self.bits,
            Flag::Gen => self.seed.is_some(),
        }
    }

    /// Whether the option cannot stand beside one that came.
    fn is_against(self, flag: Flag) -> bool
        ensures { result ≡ is_against flag self }
    {
        match flag {
            Flag::Nue => false,
            Flag::Gen => {
                self.hosts.is_some() || self.evict.is_some() || self.serial.is_some() || self.bits
            }
            Flag::Hosts | Flag::Evict | Flag::Serial | Flag::Bits => self.seed.is_some(),
        }
    }

    /// The same with an option, at the word `at`, whose value stands behind it.
    fn with_flag(self, at: usize, flag: Flag, afterwards: Option<&str>) -> Result<Said, WordFault>
        requires small { at < usize.MAX }
        requires within { IsSaidInRange self }
        ensures gives { result ≡ with_flag at flag (option_map (λ word. word.now) afterwards.entry) self }
        ensures within { IfOk result IsSaidInRange }
    {
        let mut said = self;
        match flag {
            Flag::Nue => said.nue = Some(number_after(at, 1, 48, afterwards)?),
            Flag::Hosts => {
                if afterwards.is_none() {
                    return Err(WordFault::NoValue { at });
                }
                said.hosts = Some(at + 1);
            }
            Flag::Evict => said.evict = Some(number_after(at, 0, u32::MAX, afterwards)?),
            Flag::Serial => said.serial = Some(number_after(at, 0, u32::MAX, afterwards)?),
            Flag::Bits => said.bits = true,
            Flag::Gen => said.seed = Some(number_after(at, 0, 65_535, afterwards)?),
        }
        Ok(said)
    }

    fn take_flag(self, at: usize, flag: Flag, afterwards: Option<&str>) -> Result<Said, WordFault>
        requires small { at < usize.MAX }
        requires within { IsSaidInRange self }
        ensures gives { result ≡ take_flag at self flag (option_map (λ word. word.now) afterwards.entry) }
        ensures within { IfOk result IsSaidInRange }
    {
        if self.has(flag) {
            return Err(WordFault::Twice { at });
        }
        if self.is_against(flag) {
            return Err(WordFault::Extra { at });
        }
        let said = self.with_flag(at, flag, afterwards)?;
        if self.script.is_some() {
            return Err(WordFault::Extra { at });
        }
        Ok(said)
    }

    fn take_name(self, at: usize) -> Result<Said, WordFault>
        requires within { IsSaidInRange self }
        ensures gives { result ≡ take_name at self }
        ensures within { IfOk result IsSaidInRange }
    {
        if self.script.is_some() || self.seed.is_some() {
            return Err(WordFault::Extra { at });
        }
        Ok(Said {
            script: Some(at),
            ..self
        })
    }

    /// The same with the word `at`, which is no value, and the word behind it.
    pub(crate) fn take(
        self,
        at: usize,
        word: &str,
        afterwards: Option<&str>,
    ) -> Result<Said, WordFault>
        requires small { at < usize.MAX }
        requires within { IsSaidInRange self }
        ensures gives { result ≡ take at self word.now (option_map (λ word. word.now) afterwards.entry) }
        ensures within { IfOk result IsSaidInRange }
    {
        if !is_option(word) {
            return self.take_name(at);
        }
        match flag_of(word) {
            Some(flag) => self.take_flag(at, flag, afterwards),
            None => Err(WordFault::Unknown { at }),
        }
    }
}
