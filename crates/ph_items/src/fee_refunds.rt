//! Refunds of application fees.

use crate::metadata_pairs::Metadata;
use ph_money::{Amount, Currency};

/// A refund of an application fee, or of a part of it: what the platform gives back to the account that the fee was taken
/// from. It belongs to the platform, is made once and never changes.
#[derive(Drop, Debug)]
pub struct FeeRefund {
    /// The number of the application fee.
    pub fee: u64,
    /// What is given back, in minor units of the currency, and never 0.
    pub amount: Amount,
    pub currency: Currency,
    /// The number of the transaction that takes the amount from the platform's balance.
    pub transaction: u64,
    pub metadata: Metadata,
}
