//! The calls, each with what its request says.

use ph_base::{Bytes, Kind};
use ph_items::{AccountType, CancellationReason, CaptureMethod, PaymentMethod, RefundReason};
use ph_kinds::{Authentication, Meta};
use ph_money::{Amount, Currency};

/// `POST /v1/payment_intents`
#[derive(Drop)]
pub struct CreateIntent {
    /// In minor units of the currency, not below its minimum.
    pub amount: Amount,
    pub currency: Currency,
    pub payment_method: Option<PaymentMethod>,
    /// Whether the payment intent is confirmed at once, with `payment_method`.
    pub confirm: bool,
    pub capture_method: Option<CaptureMethod>,
    /// At most 1,000 characters.
    pub description: Option<Bytes>,
    pub metadata: Option<Meta>,
    /// What the platform takes of it for itself, in minor units of the currency: not above the amount, and none where the
    /// platform makes it without a destination.
    pub application_fee_amount: Option<Amount>,
    /// The parameter `transfer_data[destination]`, which is read as an id when the call is carried out: where what is
    /// captured goes. None of a connected account's call.
    pub destination: Option<Bytes>,
    /// At most 255 characters.
    pub transfer_group: Option<Bytes>,
}

/// `POST /v1/payment_intents/{id}`: what it doesn't name stays.
#[derive(Drop)]
pub struct UpdateIntent {
    /// The segment of the path, which is read as an id when the call is carried out.
    pub id: Bytes,
    /// In minor units of the currency that results.
    pub amount: Option<Amount>,
    pub currency: Option<Currency>,
    pub payment_method: Option<PaymentMethod>,
    /// At most 1,000 characters.
    pub description: Option<Bytes>,
    pub metadata: Option<Meta>,
    /// In minor units of the currency that results.
    pub application_fee_amount: Option<Amount>,
    /// At most 255 characters.
    pub transfer_group: Option<Bytes>,
}

/// `POST /v1/payment_intents/{id}/confirm`
#[derive(Drop)]
pub struct ConfirmIntent {
    /// The segment of the path, which is read as an id when the call is carried out.
    pub id: Bytes,
    /// In place of the payment method that the payment intent has.
    pub payment_method: Option<PaymentMethod>,
}

/// `POST /v1/payment_intents/{id}/capture`
#[derive(Drop)]
pub struct CaptureIntent {
    /// The segment of the path, which is read as an id when the call is carried out.
    pub id: Bytes,
    /// In minor units of the payment intent's currency; all that is capturable where none is named.
    pub amount_to_capture: Option<Amount>,
    /// What the platform takes of it for itself, in place of what it would take; what it would take where none is named.
    pub application_fee_amount: Option<Amount>,
}

/// `POST /v1/payment_intents/{id}/cancel`
#[derive(Drop)]
pub struct CancelIntent {
    /// The segment of the path, which is read as an id when the call is carried out.
    pub id: Bytes,
    pub cancellation_reason: Option<CancellationReason>,
}

/// `POST /v1/refunds`, of a charge or of the latest charge of a payment intent: exactly one of the two is named.
#[derive(Drop)]
pub struct CreateRefund {
    /// Read as an id when the call is carried out.
    pub charge: Option<Bytes>,
    /// Read as an id when the call is carried out.
    pub payment_intent: Option<Bytes>,
    /// In minor units of the charge's currency, not 0; all that is left to refund where none is named.
    pub amount: Option<Amount>,
    pub reason: Option<RefundReason>,
    pub metadata: Option<Meta>,
    /// Whether its part of the charge's transfer is taken back.
    pub reverse_transfer: bool,
    /// Whether its part of the charge's application fee is given back.
    pub refund_application_fee: bool,
}

/// `POST /v1/disputes/{id}`: evidence against a dispute.
#[derive(Drop)]
pub struct SendEvidence {
    /// The segment of the path, which is read as an id when the call is carried out.
    pub id: Bytes,
    /// The parameter `evidence[uncategorized_text]`: at most 20,000 characters.
    pub uncategorized_text: Bytes,
}

/// `POST /v1/disputes/{id}/close`: the dispute is given up.
#[derive(Drop)]
pub struct CloseDispute {
    /// The segment of the path, which is read as an id when the call is carried out.
    pub id: Bytes,
}

/// `POST /v1/accounts`: a connected account.
#[derive(Drop)]
pub struct CreateAccount {
    /// The parameter `type`; `standard` where none is named.
    pub sort: Option<AccountType>,
    /// At most 255 characters.
    pub email: Option<Bytes>,
    pub metadata: Option<Meta>,
}

/// `POST /v1/transfers`: what the platform gives to a connected account.
#[derive(Drop)]
pub struct CreateTransfer {
    /// In minor units of the currency, not 0.
    pub amount: Amount,
    pub currency: Currency,
    /// The connected account, read as an id when the call is carried out.
    pub destination: Bytes,
    /// The charge that it is drawn on, read as an id when the call is carried out; the platform's available balance where
    /// none is named.
    pub source_transaction: Option<Bytes>,
    /// At most 1,000 characters.
    pub description: Option<Bytes>,
    pub metadata: Option<Meta>,
    /// At most 255 characters.
    pub transfer_group: Option<Bytes>,
}

/// `POST /v1/transfers/{id}/reversals`: the transfer, or a part of it, is taken back.
#[derive(Drop)]
pub struct ReverseTransfer {
    /// The segment of the path, which is read as an id when the call is carried out.
    pub id: Bytes,
    /// In minor units of the transfer's currency, not 0; all that is left of it where none is named.
    pub amount: Option<Amount>,
    pub metadata: Option<Meta>,
}

/// `POST /v1/application_fees/{id}/refunds`: the application fee, or a part of it, is given back.
#[derive(Drop)]
pub struct RefundFee {
    /// The segment of the path, which is read as an id when the call is carried out.
    pub id: Bytes,
    /// In minor units of the fee's currency, not 0; all that is left of it where none is named.
    pub amount: Option<Amount>,
    pub metadata: Option<Meta>,
}

/// `GET` of an object, as `/v1/charges/{id}`: it is shown.
#[derive(Drop)]
pub struct Retrieve {
    pub kind: Kind,
    /// The segment of the path, which is read as an id when the call is carried out.
    pub id: Bytes,
}

/// `GET /v1/balance`
#[derive(Drop)]
pub struct GetBalance {}

/// `POST /_host/clock`: payhost's own, which sets the time.
#[derive(Drop)]
pub struct SetClock {
    /// In seconds since the beginning of 1970, at most 253402300799, the last second of the year 9999.
    pub now: u64,
}

/// `POST /_host/payment_intents/{id}/authenticate`: payhost's own, in place of the customer's bank.
#[derive(Drop)]
pub struct Authenticate {
    /// The segment of the path, which is read as an id when the call is carried out.
    pub id: Bytes,
    pub outcome: Authentication,
}

/// A call of the API: one variant for each name that the rows of the table of calls have.
#[derive(Drop)]
pub enum Call {
    CreateIntent(CreateIntent),
    UpdateIntent(UpdateIntent),
    ConfirmIntent(ConfirmIntent),
    CaptureIntent(CaptureIntent),
    CancelIntent(CancelIntent),
    CreateRefund(CreateRefund),
    SendEvidence(SendEvidence),
    CloseDispute(CloseDispute),
    CreateAccount(CreateAccount),
    CreateTransfer(CreateTransfer),
    ReverseTransfer(ReverseTransfer),
    RefundFee(RefundFee),
    Retrieve(Retrieve),
    GetBalance(GetBalance),
    SetClock(SetClock),
    Authenticate(Authenticate),
}
