//! The versions of the script language.

/// A version of the language. Version 2 has sixteen communicators, and splits of other communicators than the world.
#[derive(Clone, Copy)]
pub enum Version {
    One,
    Two,
}

impl Version {
    ghost use Rattle.std.specs.Prelude.{◌≡◌};
    ghost use Rattle.script_rules.specs.Checks.{version_number};

    /// The number of the version, as a file states it.
    pub fn number(self) -> u32
        ensures { result ≡ version_number self }
    {
        match self {
            Version::One => 1,
            Version::Two => 2,
        }
    }
}
