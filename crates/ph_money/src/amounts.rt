//! An amount of money.
ghost use Rattle.std.specs.Prelude.{◌≡◌, ◌≤◌, ℕ, SomeIff};

use std::marker::Model;

/// An amount of money in minor units of its currency (cents, pence, yen), from 0 to 99999999, the
/// range of Stripe's `amount`. Contracts see it as the number.
#[derive(Clone, Copy, Debug, PartialEq, Eq, PartialOrd, Ord)]
pub struct Amount {
    units: u32,
}

impl Model for Amount {
    ghost Value = { ℕ };

    ghost view = { λ a. a.units };

    ghost invariant = { λ a. a.units ≤ 99999999 };

    ghost inverse = { λ n. record { units = n } };
}

impl Amount {
    /// The greatest number of minor units that an amount holds.
    pub const MOST: u64 = 99999999;

    /// The amount of so many minor units.
    pub fn new(units: u64) -> Self
        requires { units ≤ Amount.MOST }
        ensures { result ≡ units }
    {
        Amount {
            units: units as u32,
        }
    }

    /// The amount of so many minor units; None where they are more than an amount holds.
    pub fn try_new(units: u64) -> Option<Self>
        ensures { SomeIff result (units ≤ Amount.MOST) units }
    {
        if units <= Amount::MOST {
            Some(Amount::new(units))
        } else {
            None
        }
    }

    /// The number of minor units.
    pub fn units(self) -> u64
        ensures units { result ≡ self }
        ensures most { result ≤ Amount.MOST }
    {
        self.units as u64
    }
}
