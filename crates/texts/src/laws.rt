//! The law of numbers.

ghost use Rattle.std.specs.Prelude.{◌≡◌, ◌≤◌, ℕ, Some, decimal};
ghost use Rattle.texts.specs.Numbers.{number_of};

/// The decimal text of a number is read as the number.
pub fn decimal_law()
    ensures reads { (n : ℕ) → n ≤ 4294967295 → number_of (decimal n) ≡ Some n }
{}
