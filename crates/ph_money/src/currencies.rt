//! The currencies, and what holds of each.
ghost use Rattle.std.specs.Prelude.{◌≡◌};

use crate::amounts::Amount;

/// The currencies that payhost takes.
#[derive(Clone, Copy, Debug, PartialEq, Eq, PartialOrd, Ord)]
pub enum Currency {
    Eur,
    Gbp,
    Jpy,
    Usd,
}

/// What holds of payments in one currency.
#[derive(Clone, Copy, Debug, PartialEq, Eq)]
pub struct Terms {
    /// The least amount of a payment, in minor units.
    pub minimum: u64,
    /// The part of the amount that the fee takes, in hundredths of a percent.
    pub rate: u64,
    /// What the fee takes of each charge besides, in minor units.
    pub fixed: u64,
}

impl Terms {
    fn new(minimum: u64, rate: u64, fixed: u64) -> Self
        ensures minimum { result.minimum ≡ minimum }
        ensures rate { result.rate ≡ rate }
        ensures fixed { result.fixed ≡ fixed }
    {
        Terms {
            minimum,
            rate,
            fixed,
        }
    }
}

impl Currency {
    ghost use Rattle.std.specs.Prelude.{◌≡◌};
    ghost use Rattle.ph_money.specs.Currencies.{code_of, currency_of, terms_of};

    /// Every currency, in the order of the codes.
    pub const ALL: [Currency; 4] = [Currency::Eur, Currency::Gbp, Currency::Jpy, Currency::Usd];

    /// The ISO 4217 code in lower case, as Stripe prints it.
    pub fn code(self) -> &'static [u8]
        ensures { result.now ≡ code_of self }
    {
        match self {
            Currency::Eur => b"eur",
            Currency::Gbp => b"gbp",
            Currency::Jpy => b"jpy",
            Currency::Usd => b"usd",
        }
    }

    /// The currency with this code, ASCII case ignored; None where there is none.
    pub fn read(text: &[u8]) -> Option<Self>
        ensures { result ≡ currency_of text.now }
    {
        Currency::ALL
            .iter()
            .copied()
            .find(|currency| text.eq_ignore_ascii_case(currency.code()))
    }

    /// The terms of the currency: payhost's own, near what Stripe publishes for cards.
    pub fn terms(self) -> Terms
        ensures { result ≡ terms_of self }
    {
        // the least amount, the rate, the fixed part
        match self {
            Currency::Eur => Terms::new(50, 150, 25),
            Currency::Gbp => Terms::new(30, 150, 20),
            Currency::Jpy => Terms::new(50, 360, 0),
            Currency::Usd => Terms::new(50, 290, 30),
        }
    }

    /// The least amount of a payment in the currency.
    pub fn minimum(self) -> Amount
        ensures { result ≡ (terms_of self).minimum }
    {
        Amount::new(self.terms().minimum)
    }
}
