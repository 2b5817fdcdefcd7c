//! Why a value isn't of a kind.
ghost use Rattle.std.specs.Prelude.{◌≡◌};

use ph_base::NoMemory;

/// Why a value isn't of a parameter's kind.
#[derive(Clone, Copy, Debug, PartialEq, Eq)]
pub enum Flaw {
    /// It isn't a number in digits, or has 2^64 or more.
    InvalidInteger,
    /// An amount above 99999999 minor units.
    AmountTooLarge,
    /// It isn't one of the values that the kind takes.
    InvalidValue,
    /// A text that names no payment method.
    NoSuchPaymentMethod,
    /// There was no memory to read it.
    NoMemory,
}

impl From<NoMemory> for Flaw {
    ghost use Rattle.ph_kinds.specs.declared.flaw.Flaw.{Flaw};
    ghost use Rattle.ph_kinds.specs.declared.flaw.Flaw.TheVariants.{NoMemory as OutOfMemory};

    ghost from_gives = { λ e f. f ≡ OutOfMemory };

    fn from(error: NoMemory) -> Self {
        let NoMemory = error;
        Flaw::NoMemory
    }
}
