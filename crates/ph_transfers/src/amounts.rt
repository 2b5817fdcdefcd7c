//! The amount that a call names of what is left.
ghost use Rattle.std.specs.Prelude.{◌≡◌};
ghost use Rattle.ph_transfers.specs.Found.{is_too_much};

use ph_money::Amount;

/// Whether so much can't be taken where so much is left: nothing is left, or less.
pub fn is_too_much(left: Amount, amount: Amount) -> bool
    ensures { result ≡ is_too_much left amount }
{
    left.units() == 0 || left.units() < amount.units()
}
