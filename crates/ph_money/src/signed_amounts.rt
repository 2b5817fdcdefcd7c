//! An amount of money that may be below 0.
ghost use Rattle.std.specs.Prelude.{◌≡◌, ◌<◌, ◌^◌, ℤ, pos, neg_ℤ, ◌<ℤ◌};

use crate::amounts::Amount;
use std::marker::Model;

/// An amount of money in minor units of its currency that may be below 0: what a transaction gives to a balance or
/// takes from it, and its fee. Its size is below 2^27, so that the difference of two fits 32 bits. Contracts see
/// it as the number.
#[derive(Clone, Copy, Debug, PartialEq, Eq)]
pub struct SignedAmount {
    units: i32,
}

impl Model for SignedAmount {
    ghost Value = { ℤ };

    ghost view = { λ a. a.units };

    ghost invariant = { λ a. (neg_ℤ (pos 134217728) <ℤ a.units) × (a.units <ℤ pos 134217728) };

    ghost inverse = { λ n. record { units = n } };
}

impl SignedAmount {
    /// So many minor units that are given.
    pub fn new(units: u64) -> Self
        requires { units < 2 ^ 27 }
        ensures { result ≡ pos units }
    {
        SignedAmount {
            units: units as i32,
        }
    }

    /// An amount that is given.
    pub fn given(amount: Amount) -> Self
        ensures { result ≡ pos amount }
    {
        SignedAmount::new(amount.units())
    }

    /// An amount that is taken.
    pub fn taken(amount: Amount) -> Self
        ensures { result ≡ neg_ℤ (pos amount) }
    {
        SignedAmount {
            units: -(amount.units() as i32),
        }
    }

    /// The number of minor units.
    pub fn units(self) -> i32
        ensures units { result ≡ self }
        ensures low { neg_ℤ (pos (2 ^ 27)) <ℤ result }
        ensures high { result <ℤ pos (2 ^ 27) }
    {
        self.units
    }
}
