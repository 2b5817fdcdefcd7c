//! The application fee that an update or a capture may name.
ghost use Rattle.std.specs.Prelude.{◌≡◌};
ghost use Rattle.ph_intents.specs.Fees.{is_of_nobody, is_wrong_fee};

use ph_calls::is_fee_above;
use ph_items::PLATFORM;
use ph_money::Amount;

// Whether a fee above 0 is named of a payment intent that the platform makes for itself, without a destination.
fn is_of_nobody(account: u64, destination: Option<u64>, fee: Option<Amount>) -> bool
    ensures { result ≡ is_of_nobody account destination fee }
{
    is_fee_above(fee, Amount::new(0)) && account == PLATFORM && destination.is_none()
}

/// Whether the fee that is named of a payment intent of an account isn't possible, where so much is to be captured.
pub fn is_wrong_fee(
    account: u64,
    destination: Option<u64>,
    fee: &Option<Amount>,
    amount: Amount,
) -> bool
    ensures { result ≡ is_wrong_fee account destination fee.now amount }
{
    is_fee_above(*fee, amount) || is_of_nobody(account, destination, *fee)
}
