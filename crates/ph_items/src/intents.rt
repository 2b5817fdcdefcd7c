//! Payment intents.
ghost use Rattle.std.specs.Prelude.{◌≡◌, IfOk};

use crate::copies::{copy_method, copy_text};
use crate::metadata_pairs::Metadata;
use crate::payment_methods::PaymentMethod;
use ph_base::{Bytes, Decline, NoMemory};
use ph_money::{Amount, Currency};
use std::alloc::Global;

/// Where a payment intent stands in its life, as Stripe's `status` names it.
#[derive(Clone, Copy, Debug, PartialEq, Eq)]
pub enum IntentStatus {
    RequiresPaymentMethod,
    RequiresConfirmation,
    RequiresAction,
    Processing,
    RequiresCapture,
    Succeeded,
    Canceled,
}

impl IntentStatus {
    ghost use Rattle.std.specs.Prelude.{◌≡◌};
    ghost use Rattle.ph_items.specs.Words.{status_text};

    /// The word of Stripe's `status`.
    pub fn text(self) -> &'static [u8]
        ensures { result.now ≡ status_text self }
    {
        match self {
            IntentStatus::RequiresPaymentMethod => b"requires_payment_method",
            IntentStatus::RequiresConfirmation => b"requires_confirmation",
            IntentStatus::RequiresAction => b"requires_action",
            IntentStatus::Processing => b"processing",
            IntentStatus::RequiresCapture => b"requires_capture",
            IntentStatus::Succeeded => b"succeeded",
            IntentStatus::Canceled => b"canceled",
        }
    }
}

/// When an approved payment is captured. `automatic_async` is captured at once too.
#[derive(Clone, Copy, Debug, PartialEq, Eq)]
pub enum CaptureMethod {
    Automatic,
    AutomaticAsync,
    Manual,
}

impl CaptureMethod {
    ghost use Rattle.std.specs.Prelude.{◌≡◌};
    ghost use Rattle.ph_items.specs.Words.{capture_method_text};

    /// The word of Stripe's `capture_method`.
    pub fn text(self) -> &'static [u8]
        ensures { result.now ≡ capture_method_text self }
    {
        match self {
            CaptureMethod::Automatic => b"automatic",
            CaptureMethod::AutomaticAsync => b"automatic_async",
            CaptureMethod::Manual => b"manual",
        }
    }
}

/// Why a payment intent was canceled, as Stripe's `cancellation_reason` names it.
#[derive(Clone, Copy, Debug, PartialEq, Eq)]
pub enum CancellationReason {
    Duplicate,
    Fraudulent,
    RequestedByCustomer,
    Abandoned,
}

impl CancellationReason {
    ghost use Rattle.std.specs.Prelude.{◌≡◌};
    ghost use Rattle.ph_items.specs.Words.{cancellation_reason_text};

    /// The word of Stripe's `cancellation_reason`.
    pub fn text(self) -> &'static [u8]
        ensures { result.now ≡ cancellation_reason_text self }
    {
        match self {
            CancellationReason::Duplicate => b"duplicate",
            CancellationReason::Fraudulent => b"fraudulent",
            CancellationReason::RequestedByCustomer => b"requested_by_customer",
            CancellationReason::Abandoned => b"abandoned",
        }
    }
}

/// Why the last confirmation of a payment intent didn't pay it, as its `last_payment_error` says.
#[derive(Clone, Copy, Debug, PartialEq, Eq)]
pub enum PaymentError {
    /// The acquirer declined the payment.
    Declined(Decline),
    /// The customer failed to authenticate.
    NotAuthenticated,
}

/// A version of a payment intent. Amounts are in minor units of its currency.
#[derive(Drop, Debug)]
pub struct Intent {
    pub amount: Amount,
    /// What a capture may still take.
    pub amount_capturable: Amount,
    /// What was captured.
    pub amount_received: Amount,
    pub currency: Currency,
    pub status: IntentStatus,
    pub capture_method: CaptureMethod,
    pub payment_method: Option<PaymentMethod>,
    pub cancellation_reason: Option<CancellationReason>,
    pub last_payment_error: Option<PaymentError>,
    /// The number of the charge of its last confirmation that the acquirer approved or declined.
    pub latest_charge: Option<u64>,
    /// What the platform takes of it for itself: no more than is captured.
    pub application_fee_amount: Option<Amount>,
    /// The number of the connected account to which what is captured goes, as `transfer_data` names it.
    pub destination: Option<u64>,
    pub description: Option<Bytes>,
    pub metadata: Metadata,
    pub transfer_group: Option<Bytes>,
}

impl Intent {
    ghost use Rattle.std.specs.Prelude.{◌≡◌, IfOk};

    /// The same version once more.
    pub fn copy(&self, alloc: Global) -> Result<Self, NoMemory>
        ensures { IfOk result (λ copy. copy ≡ self.now) }
    {
        Ok(Intent {
            amount: self.amount,
            amount_capturable: self.amount_capturable,
            amount_received: self.amount_received,
            currency: self.currency,
            status: self.status,
            capture_method: self.capture_method,
            payment_method: copy_method(alloc, self.payment_method.as_ref())?,
            cancellation_reason: self.cancellation_reason,
            last_payment_error: self.last_payment_error,
            latest_charge: self.latest_charge,
            application_fee_amount: self.application_fee_amount,
            destination: self.destination,
            description: copy_text(alloc, self.description.as_ref())?,
            metadata: self.metadata.copy(alloc)?,
            transfer_group: copy_text(alloc, self.transfer_group.as_ref())?,
        })
    }
}
