//! The fee of a charge.
ghost use Rattle.std.specs.Prelude.{◌≡◌, ◌≤◌};
ghost use Rattle.ph_money.specs.Fees.{fee_of};

use crate::amounts::Amount;
use crate::currencies::Currency;

/// What payhost takes of a charge of this amount, in minor units: the currency's rate, rounded half up,
/// and its fixed part. The fee may be above a small amount (a charge of 1 cent has a fee of 30).
pub fn fee(currency: Currency, amount: Amount) -> u64
    ensures exact { result ≡ fee_of currency amount }
    ensures most { result ≤ 3600000 }
{
    let terms = currency.terms();
    (amount.units() * terms.rate + 5000) / 10000 + terms.fixed
}
