//! What is left of an amount that is taken part by part.
ghost use Rattle.std.specs.Prelude.{◌≡◌, ◌+◌, ◌≤◌, ◌-◌};

use ph_money::Amount;

/// What is left of an amount of which so much is taken.
pub fn left(whole: Amount, taken: Amount) -> Amount
    ensures { result ≡ whole - taken }
{
    Amount::new(whole.units().saturating_sub(taken.units()))
}

/// What is taken of an amount with a part more, which is no more than is left.
pub fn taken_with(whole: Amount, taken: Amount, more: Amount) -> Amount
    requires within { more ≤ whole - taken }
    ensures { result ≡ taken + more }
{
    Amount::new(taken.units() + more.units())
}
