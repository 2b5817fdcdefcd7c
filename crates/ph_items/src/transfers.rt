//! Transfers.
ghost use Rattle.std.specs.Prelude.{◌≡◌, IfOk};

use crate::copies::copy_text;
use crate::metadata_pairs::Metadata;
use ph_base::{Bytes, NoMemory};
use ph_money::{Amount, Currency};
use std::alloc::Global;

/// A version of a transfer: what the platform gives to a connected account, where a payment stands for it. It belongs to
/// the platform. A transfer that a destination charge makes has the charge's transfer group, no description and no metadata.
#[derive(Drop, Debug)]
pub struct Transfer {
    /// In minor units of the currency, and never 0.
    pub amount: Amount,
    /// What its reversals took back, in minor units of the currency.
    pub amount_reversed: Amount,
    pub currency: Currency,
    /// The number of the connected account.
    pub destination: u64,
    /// The number of the payment that it gives there.
    pub payment: u64,
    /// The number of the card charge that it is drawn on, where it is.
    pub source: Option<u64>,
    /// The number of the transaction that takes the amount from the platform's balance.
    pub transaction: u64,
    /// The moment from which that transaction counts as available, in seconds since 1970.
    pub available_on: u64,
    pub description: Option<Bytes>,
    pub metadata: Metadata,
    pub transfer_group: Option<Bytes>,
}

impl Transfer {
    ghost use Rattle.std.specs.Prelude.{◌≡◌, IfOk};

    /// The same version once more.
    pub fn copy(&self, alloc: Global) -> Result<Self, NoMemory>
        ensures { IfOk result (λ copy. copy ≡ self.now) }
    {
        Ok(Transfer {
            amount: self.amount,
            amount_reversed: self.amount_reversed,
            currency: self.currency,
            destination: self.destination,
            payment: self.payment,
            source: self.source,
            transaction: self.transaction,
            available_on: self.available_on,
            description: copy_text(alloc, self.description.as_ref())?,
            metadata: self.metadata.copy(alloc)?,
            transfer_group: copy_text(alloc, self.transfer_group.as_ref())?,
        })
    }
}
