//! Disputes.
ghost use Rattle.std.specs.Prelude.{◌≡◌, IfOk};

use crate::copies::copy_text;
use ph_base::{Bytes, NoMemory};
use ph_money::{Amount, Currency};
use std::alloc::Global;

/// Where a dispute stands, as Stripe's `status` names it.
#[derive(Clone, Copy, Debug, PartialEq, Eq)]
pub enum DisputeStatus {
    NeedsResponse,
    UnderReview,
    Won,
    Lost,
}

impl DisputeStatus {
    ghost use Rattle.std.specs.Prelude.{◌≡◌};
    ghost use Rattle.ph_items.specs.Words.{dispute_status_text};

    /// The word of Stripe's `status`.
    pub fn text(self) -> &'static [u8]
        ensures { result.now ≡ dispute_status_text self }
    {
        match self {
            DisputeStatus::NeedsResponse => b"needs_response",
            DisputeStatus::UnderReview => b"under_review",
            DisputeStatus::Won => b"won",
            DisputeStatus::Lost => b"lost",
        }
    }
}

/// A version of a dispute: the customer's bank asks for a charge back.
#[derive(Drop, Debug)]
pub struct Dispute {
    /// The number of the charge.
    pub charge: u64,
    /// The number of the payment intent that the charge pays, where it is a card charge.
    pub intent: Option<u64>,
    /// What is disputed, in minor units of the currency: all that was captured of the charge.
    pub amount: Amount,
    pub currency: Currency,
    pub status: DisputeStatus,
    /// The text that was sent to win it (`evidence[uncategorized_text]`).
    pub evidence: Option<Bytes>,
}

impl Dispute {
    ghost use Rattle.std.specs.Prelude.{◌≡◌, IfOk};

    /// The same version once more.
    pub fn copy(&self, alloc: Global) -> Result<Self, NoMemory>
        ensures { IfOk result (λ copy. copy ≡ self.now) }
    {
        Ok(Dispute {
            charge: self.charge,
            intent: self.intent,
            amount: self.amount,
            currency: self.currency,
            status: self.status,
            evidence: copy_text(alloc, self.evidence.as_ref())?,
        })
    }
}
