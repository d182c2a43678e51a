//! Two tests in one.

ghost use Rattle.std.specs.Prelude.{◌≡◌, ◌&&◌};

/// Whether both hold.
pub(crate) fn both(first: bool, other: bool) -> bool
    ensures tells { result ≡ (first && other) }
{
    first && other
}
