//! Refunds.
ghost use Rattle.std.specs.Prelude.{◌≡◌};

use crate::metadata_pairs::Metadata;
use ph_money::{Amount, Currency};

/// Why a charge was refunded, as Stripe's `reason` names it.
#[derive(Clone, Copy, Debug, PartialEq, Eq)]
pub enum RefundReason {
    Duplicate,
    Fraudulent,
    RequestedByCustomer,
}

impl RefundReason {
    ghost use Rattle.std.specs.Prelude.{◌≡◌};
    ghost use Rattle.ph_items.specs.Words.{refund_reason_text};

    /// The word of Stripe's `reason`.
    pub fn text(self) -> &'static [u8]
        ensures { result.now ≡ refund_reason_text self }
    {
        match self {
            RefundReason::Duplicate => b"duplicate",
            RefundReason::Fraudulent => b"fraudulent",
            RefundReason::RequestedByCustomer => b"requested_by_customer",
        }
    }
}

/// A refund of a charge, or of a part of it. It is made once and never changes.
#[derive(Drop, Debug)]
pub struct Refund {
    /// The number of the charge.
    pub charge: u64,
    /// The number of the payment intent that the charge pays, where it is a card charge.
    pub intent: Option<u64>,
    /// What is refunded, in minor units of the currency.
    pub amount: Amount,
    pub currency: Currency,
    pub reason: Option<RefundReason>,
    pub metadata: Metadata,
    /// The number of the transaction that takes the amount from the account's balance.
    pub transaction: u64,
    /// The number of the reversal that it made of the charge's transfer, where it did.
    pub reversal: Option<u64>,
}
