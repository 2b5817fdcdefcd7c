//! Charges.
ghost use Rattle.std.specs.Prelude.{◌≡◌, IfOk};

use crate::copies::{copy_method, copy_text};
use crate::metadata_pairs::Metadata;
use crate::payment_methods::PaymentMethod;
use ph_base::{Bytes, Kind, NoMemory};
use ph_money::{Amount, Currency};
use std::alloc::Global;

/// Whether the acquirer approved a charge, as Stripe's `status` says.
#[derive(Clone, Copy, Debug, PartialEq, Eq)]
pub enum ChargeStatus {
    Succeeded,
    Failed,
}

impl ChargeStatus {
    ghost use Rattle.std.specs.Prelude.{◌≡◌};
    ghost use Rattle.ph_items.specs.Words.{charge_status_text};

    /// The word of Stripe's `status`.
    pub fn text(self) -> &'static [u8]
        ensures { result.now ≡ charge_status_text self }
    {
        match self {
            ChargeStatus::Succeeded => b"succeeded",
            ChargeStatus::Failed => b"failed",
        }
    }
}

/// What a charge is made for.
#[derive(Clone, Copy, Debug, PartialEq, Eq)]
pub enum ChargeSort {
    /// A card charge: it pays the payment intent of this number.
    Card(u64),
    /// A payment: what the transfer of this number gave to the account that it went to.
    Payment(u64),
}

impl ChargeSort {
    ghost use Rattle.std.specs.Prelude.{◌≡◌};
    ghost use Rattle.ph_items.specs.Charges.{charge_kind, paid_intent, source_transfer};

    /// The kind of the object.
    pub fn kind(self) -> Kind
        ensures { result ≡ charge_kind self }
    {
        match self {
            ChargeSort::Card(_) => Kind::Charge,
            ChargeSort::Payment(_) => Kind::Payment,
        }
    }

    /// The number of the payment intent that a card charge pays. A payment pays none.
    pub fn intent(self) -> Option<u64>
        ensures { result ≡ paid_intent self }
    {
        match self {
            ChargeSort::Card(intent) => Some(intent),
            ChargeSort::Payment(_) => None,
        }
    }

    /// The number of the transfer that a payment comes from. A card charge comes from none.
    pub fn transfer(self) -> Option<u64>
        ensures { result ≡ source_transfer self }
    {
        match self {
            ChargeSort::Card(_) => None,
            ChargeSort::Payment(transfer) => Some(transfer),
        }
    }
}

/// What a charge keeps of its capture.
#[derive(Clone, Copy, Debug, PartialEq, Eq)]
pub struct Capture {
    /// The number of the transaction that gave the captured amount to the account's balance.
    pub transaction: u64,
    /// The moment from which what was captured counts as available, in seconds since 1970.
    pub available_on: u64,
    /// The number of the transfer to the charge's destination, where it has one.
    pub transfer: Option<u64>,
    /// The number of the application fee that was taken of it, where one was.
    pub fee: Option<u64>,
}

/// A version of a charge: what the acquirer ruled on one confirmation of a payment intent, or what a transfer gave.
/// Amounts are in minor units of its currency. Payment method, application fee, destination, description, metadata and transfer
/// group of a card charge are those that the payment intent had when the charge was made; a payment has none.
#[derive(Drop, Debug)]
pub struct Charge {
    pub sort: ChargeSort,
    /// What the acquirer was asked for.
    pub amount: Amount,
    pub amount_captured: Amount,
    pub amount_refunded: Amount,
    /// What transfers drew on it: all that was captured, where it has a destination.
    pub amount_transferred: Amount,
    pub currency: Currency,
    pub status: ChargeStatus,
    pub payment_method: Option<PaymentMethod>,
    /// What the platform takes of it for itself: no more than is captured. A capture may name another.
    pub application_fee_amount: Option<Amount>,
    /// The number of the connected account to which what is captured goes.
    pub destination: Option<u64>,
    /// Its capture; none where it hasn't been captured.
    pub capture: Option<Capture>,
    /// The number of the dispute that its customer opened, which the charge keeps when it is closed.
    pub dispute: Option<u64>,
    pub description: Option<Bytes>,
    pub metadata: Metadata,
    pub transfer_group: Option<Bytes>,
}

impl Charge {
    ghost use Rattle.std.specs.Prelude.{◌≡◌, IfOk};

    /// The same version once more.
    pub fn copy(&self, alloc: Global) -> Result<Self, NoMemory>
        ensures { IfOk result (λ copy. copy ≡ self.now) }
    {
        Ok(Charge {
            sort: self.sort,
            amount: self.amount,
            amount_captured: self.amount_captured,
            amount_refunded: self.amount_refunded,
            amount_transferred: self.amount_transferred,
            currency: self.currency,
            status: self.status,
            payment_method: copy_method(alloc, self.payment_method.as_ref())?,
            application_fee_amount: self.application_fee_amount,
            destination: self.destination,
            capture: self.capture,
            dispute: self.dispute,
            description: copy_text(alloc, self.description.as_ref())?,
            metadata: self.metadata.copy(alloc)?,
            transfer_group: copy_text(alloc, self.transfer_group.as_ref())?,
        })
    }
}
