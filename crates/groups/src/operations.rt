//! The operations of a fold and the types of its values.

/// An operation of a fold (RCCE specification 2.0: RCCE_SUM, RCCE_MIN, RCCE_MAX, RCCE_PROD).
#[derive(Clone, Copy)]
pub enum Op {
    /// The sum, modulo the type's range.
    Sum,
    /// The least of the signed values.
    Min,
    /// The greatest of the signed values.
    Max,
    /// The product, modulo the type's range.
    Prod,
}

/// The type of the values, little-endian two's complement (RCCE specification 2.0: RCCE_INT, RCCE_LONG).
#[derive(Clone, Copy)]
pub enum Ty {
    /// 4 bytes.
    Int,
    /// 8 bytes.
    Long,
}

impl Ty {
    ghost use Rattle.std.specs.Prelude.{◌≡◌};
    ghost use Rattle.groups.specs.Folds.{bytes_in};

    /// The bytes of one value.
    pub const fn width(self) -> usize
        ensures gives { result ≡ bytes_in self }
    {
        match self {
            Ty::Int => 4,
            Ty::Long => 8,
        }
    }
}
