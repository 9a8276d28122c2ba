ghost use Rattle.std.specs.Prelude.{◌≡◌, ℕ, ◌^◌, ◌<◌, Bool, not, ◌&&◌, pos, Some, ◌==◌, ◌≢◌};
ghost use Rattle.condition.specs.Conditions.{holds, relation, order, complement_of, swapped_of, without_equal_of, unsigned_of, conditions, Complete, name_of, Named};

use std::fmt;
use std::str::FromStr;

/// Common traits of condition codes.
pub trait CondCode: Copy {
    // whether it holds of two operands of so many bits
    ghost met: { Self → ℕ → ℕ → ℕ → Bool };

    ghost complemented: { Self → Self };

    ghost mirrored: { Self → Self };

    /// The condition that holds where this one does not.
    #[must_use]
    fn complement(self) -> Self
        ensures is { result ≡ complemented self }
        ensures negates { (w a b : ℕ) → met result w a b ≡ not (met self w a b) };

    /// The condition that holds of `y` and `x` where this one holds of `x` and `y`.
    #[must_use]
    fn swap_args(self) -> Self
        ensures is { result ≡ mirrored self }
        ensures exchanges { (w a b : ℕ) → met result w a b ≡ met self w b a };
}

/// Condition code for comparing integers, as signed or unsigned numbers where it makes a difference.
#[derive(Clone, Copy, PartialEq, Eq, Debug, Hash)]
pub enum IntCC {
    /// `==`.
    Equal,
    /// `!=`.
    NotEqual,
    /// Signed `<`.
    SignedLessThan,
    /// Signed `>=`.
    SignedGreaterThanOrEqual,
    /// Signed `>`.
    SignedGreaterThan,
    /// Signed `<=`.
    SignedLessThanOrEqual,
    /// Unsigned `<`.
    UnsignedLessThan,
    /// Unsigned `>=`.
    UnsignedGreaterThanOrEqual,
    /// Unsigned `>`.
    UnsignedGreaterThan,
    /// Unsigned `<=`.
    UnsignedLessThanOrEqual,
}

impl CondCode for IntCC {
    ghost met = { λ c w a b. holds w c a b };

    ghost complemented = { complement_of };

    ghost mirrored = { swapped_of };

    fn complement(self) -> Self {
        match self {
            IntCC::Equal => IntCC::NotEqual,
            IntCC::NotEqual => IntCC::Equal,
            IntCC::SignedLessThan => IntCC::SignedGreaterThanOrEqual,
            IntCC::SignedGreaterThanOrEqual => IntCC::SignedLessThan,
            IntCC::SignedGreaterThan => IntCC::SignedLessThanOrEqual,
            IntCC::SignedLessThanOrEqual => IntCC::SignedGreaterThan,
            IntCC::UnsignedLessThan => IntCC::UnsignedGreaterThanOrEqual,
            IntCC::UnsignedGreaterThanOrEqual => IntCC::UnsignedLessThan,
            IntCC::UnsignedGreaterThan => IntCC::UnsignedLessThanOrEqual,
            IntCC::UnsignedLessThanOrEqual => IntCC::UnsignedGreaterThan,
        }
    }

    fn swap_args(self) -> Self {
        match self {
            IntCC::Equal => IntCC::Equal,
            IntCC::NotEqual => IntCC::NotEqual,
            IntCC::SignedGreaterThan => IntCC::SignedLessThan,
            IntCC::SignedGreaterThanOrEqual => IntCC::SignedLessThanOrEqual,
            IntCC::SignedLessThan => IntCC::SignedGreaterThan,
            IntCC::SignedLessThanOrEqual => IntCC::SignedGreaterThanOrEqual,
            IntCC::UnsignedGreaterThan => IntCC::UnsignedLessThan,
            IntCC::UnsignedGreaterThanOrEqual => IntCC::UnsignedLessThanOrEqual,
            IntCC::UnsignedLessThan => IntCC::UnsignedGreaterThan,
            IntCC::UnsignedLessThanOrEqual => IntCC::UnsignedGreaterThanOrEqual,
        }
    }
}

impl IntCC {
    /// All conditions, in the order of their declaration.
    pub fn all() -> &'static [IntCC]
        ensures is { result.now ≡ conditions }
        ensures complete { Complete result.now }
    {
        &[
            IntCC::Equal,
            IntCC::NotEqual,
            IntCC::SignedLessThan,
            IntCC::SignedGreaterThanOrEqual,
            IntCC::SignedGreaterThan,
            IntCC::SignedLessThanOrEqual,
            IntCC::UnsignedLessThan,
            IntCC::UnsignedGreaterThanOrEqual,
            IntCC::UnsignedGreaterThan,
            IntCC::UnsignedLessThanOrEqual,
        ]
    }

    /// The condition with the equal component removed. For conditions that are no orderings this changes nothing.
    pub fn without_equal(self) -> Self
        ensures is { result ≡ without_equal_of self }
        ensures strict { (w a b : ℕ) → (self ≢ IntCC.Equal) → a < 2 ^ w → b < 2 ^ w → holds w result a b ≡ (holds w self a b && not (a == b)) }
    {
        match self {
            IntCC::SignedGreaterThan | IntCC::SignedGreaterThanOrEqual => IntCC::SignedGreaterThan,
            IntCC::SignedLessThan | IntCC::SignedLessThanOrEqual => IntCC::SignedLessThan,
            IntCC::UnsignedGreaterThan | IntCC::UnsignedGreaterThanOrEqual =>
                IntCC::UnsignedGreaterThan,
            IntCC::UnsignedLessThan | IntCC::UnsignedLessThanOrEqual => IntCC::UnsignedLessThan,
            _ => self,
        }
    }

    /// The same condition of unsigned numbers.
    pub fn unsigned(self) -> Self
        ensures is { result ≡ unsigned_of self }
        ensures plain { (w a b : ℕ) → holds w result a b ≡ relation self (order (pos a) (pos b)) }
    {
        match self {
            IntCC::SignedGreaterThan | IntCC::UnsignedGreaterThan => IntCC::UnsignedGreaterThan,
            IntCC::SignedGreaterThanOrEqual | IntCC::UnsignedGreaterThanOrEqual => {
                IntCC::UnsignedGreaterThanOrEqual
            }
            IntCC::SignedLessThan | IntCC::UnsignedLessThan => IntCC::UnsignedLessThan,
            IntCC::SignedLessThanOrEqual | IntCC::UnsignedLessThanOrEqual =>
                IntCC::UnsignedLessThanOrEqual,
            _ => self,
        }
    }

    /// The condition's name.
    pub fn to_static_str(self) -> &'static str
        ensures { result.now ≡ name_of self }
    {
        match self {
            IntCC::Equal => "eq",
            IntCC::NotEqual => "ne",
            IntCC::SignedGreaterThan => "sgt",
            IntCC::SignedGreaterThanOrEqual => "sge",
            IntCC::SignedLessThan => "slt",
            IntCC::SignedLessThanOrEqual => "sle",
            IntCC::UnsignedGreaterThan => "ugt",
            IntCC::UnsignedGreaterThanOrEqual => "uge",
            IntCC::UnsignedLessThan => "ult",
            IntCC::UnsignedLessThanOrEqual => "ule",
        }
    }
}

impl fmt::Display for IntCC {
    ghost output = { λ x. Some (name_of x) };

    fn fmt<W: fmt::Write>(&self, f: &mut fmt::Formatter<W>) -> fmt::Result {
        f.write_str(self.to_static_str())
    }
}

impl FromStr for IntCC {
    type Err = ();

    ghost from_str_gives = { λ text r. Named text r };

    fn from_str(s: &str) -> Result<Self, Self::Err> {
        match s {
            "eq" => Ok(IntCC::Equal),
            "ne" => Ok(IntCC::NotEqual),
            "sge" => Ok(IntCC::SignedGreaterThanOrEqual),
            "sgt" => Ok(IntCC::SignedGreaterThan),
            "sle" => Ok(IntCC::SignedLessThanOrEqual),
            "slt" => Ok(IntCC::SignedLessThan),
            "uge" => Ok(IntCC::UnsignedGreaterThanOrEqual),
            "ugt" => Ok(IntCC::UnsignedGreaterThan),
            "ule" => Ok(IntCC::UnsignedLessThanOrEqual),
            "ult" => Ok(IntCC::UnsignedLessThan),
            _ => Err(()),
        }
    }
}
