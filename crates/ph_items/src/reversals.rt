//! Reversals of transfers.

use crate::metadata_pairs::Metadata;
use ph_money::{Amount, Currency};

/// A reversal of a transfer, or of a part of it: what the connected account gives back to the platform. It belongs to the
/// platform, is made once and never changes.
#[derive(Drop, Debug)]
pub struct Reversal {
    /// The number of the transfer.
    pub transfer: u64,
    /// What is taken back, in minor units of the currency, and never 0.
    pub amount: Amount,
    pub currency: Currency,
    /// The number of the refund that made it, where one did.
    pub refund: Option<u64>,
    /// The number of the transaction that gives the amount to the platform's balance.
    pub transaction: u64,
    pub metadata: Metadata,
}
