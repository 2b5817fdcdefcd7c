//! The payment that a transfer gives to the account that it goes to.
ghost use Rattle.std.specs.Prelude.{◌≡◌};
ghost use Rattle.ph_charges.specs.Payments.{payment_given};

use ph_items::{Capture, Charge, ChargeSort, ChargeStatus, Metadata};
use ph_money::{Amount, Currency};
use std::alloc::Global;

/// The payment that a transfer of an amount gives: all of it is captured, by a transaction that is available from a
/// moment, in seconds since 1970. It takes no memory.
pub fn payment_given(
    alloc: Global,
    transfer: u64,
    amount: Amount,
    currency: Currency,
    transaction: u64,
    available_on: u64,
) -> Charge
    ensures { result ≡ payment_given transfer amount currency transaction available_on }
{
    Charge {
        sort: ChargeSort::Payment(transfer),
        amount,
        amount_captured: amount,
        amount_refunded: Amount::new(0),
        amount_transferred: Amount::new(0),
        currency,
        status: ChargeStatus::Succeeded,
        payment_method: None,
        application_fee_amount: None,
        destination: None,
        capture: Some(Capture {
            transaction,
            available_on,
            transfer: None,
            fee: None,
        }),
        dispute: None,
        description: None,
        metadata: Metadata::new(alloc),
        transfer_group: None,
    }
}
