//! Numbers and amounts.
ghost use Rattle.std.specs.Prelude.{◌≡◌};
ghost use Rattle.ph_kinds.specs.Numbers.{amount_in, whole_in};

use crate::flaw::Flaw;
use ph_base::read_number;
use ph_money::Amount;

/// The number below 2^64 that a text of digits gives; leading zeros are taken.
pub fn read_whole(text: &[u8]) -> Result<u64, Flaw>
    ensures { result ≡ whole_in text.now }
{
    read_number(text).ok_or(Flaw::InvalidInteger)
}

/// The amount that a text gives, in minor units of its currency, at most 99999999.
pub fn read_amount(text: &[u8]) -> Result<Amount, Flaw>
    ensures { result ≡ amount_in text.now }
{
    match read_number(text) {
        None => Err(Flaw::InvalidInteger),
        Some(units) => Amount::try_new(units).ok_or(Flaw::AmountTooLarge),
    }
}
