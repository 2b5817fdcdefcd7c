//! The calls on payment intents, each of an id and a form.
ghost use Rattle.std.specs.Prelude.{◌≡◌, IfErr, IfOk, Ok};
ghost use Rattle.ph_calls.specs.Check.{Refuses};
ghost use Rattle.ph_calls.specs.Intents.{authenticate_intent, cancel_intent, capture_intent, confirm_intent, connect_error, create_intent, create_intent_error, is_fee_above, is_fee_of_nobody, is_passed_on, update_intent};
ghost use Rattle.ph_calls.specs.Parameters.{given};
ghost use Rattle.ph_calls.specs.Table.{params_of};

use crate::call::{
    Authenticate, CancelIntent, CaptureIntent, ConfirmIntent, CreateIntent, UpdateIntent,
};
use crate::params::{
    amount, authentication, cancellation_reason, capture_method, currency, id, metadata, method,
    required, text, truth,
};
use crate::row::Name;
use ph_base::{Bytes, NoMemory};
use ph_errors::{ApiError, Refusal};
use ph_form::Form;
use ph_items::PLATFORM;
use ph_money::Amount;
use std::alloc::Global;

const FEE_NAME: &[u8] = b"application_fee_amount";

const DESTINATION_NAME: &[u8] = b"transfer_data[destination]";

/// The create of a form; it isn't confirmed where nothing is said of that.
#[tactic(auto, unfolding(crate::specs::Parameters::given))]
pub fn create_intent(alloc: Global, form: &Form) -> Result<CreateIntent, Refusal>
    ensures call { IfOk result (λ call. given (params_of Name.CreateIntent) create_intent form.now ≡ Ok call) }
    ensures refusal { IfErr result (Refuses (given (params_of Name.CreateIntent) create_intent form.now)) }
{
    Ok(CreateIntent {
        amount: required(alloc, b"amount", amount(alloc, form, b"amount")?)?,
        currency: required(alloc, b"currency", currency(alloc, form, b"currency")?)?,
        payment_method: method(alloc, form, b"payment_method")?,
        confirm: truth(alloc, form, b"confirm")?.unwrap_or(false),
        capture_method: capture_method(alloc, form, b"capture_method")?,
        description: text(alloc, form, b"description", 1000)?,
        metadata: metadata(alloc, form, b"metadata")?,
        application_fee_amount: amount(alloc, form, b"application_fee_amount")?,
        destination: id(alloc, form, b"transfer_data[destination]")?,
        transfer_group: text(alloc, form, b"transfer_group", 255)?,
    })
}

/// Whether an application fee that is named is above an amount.
pub fn is_fee_above(fee: Option<Amount>, amount: Amount) -> bool
    ensures { result ≡ is_fee_above fee amount }
{
    match fee {
        Some(fee) => amount < fee,
        None => false,
    }
}

// Whether the platform names an application fee without a destination.
fn is_fee_of_nobody(account: u64, call: &CreateIntent) -> bool
    ensures { result ≡ is_fee_of_nobody account call.now }
{
    call.application_fee_amount.is_some() && account == PLATFORM && call.destination.is_none()
}

// Whether a connected account names a destination.
fn is_passed_on(account: u64, call: &CreateIntent) -> bool
    ensures { result ≡ is_passed_on account call.now }
{
    call.destination.is_some() && account != PLATFORM
}

// The error of the first of the further checks that fails which speak of an application fee and a destination.
fn connect_error(
    alloc: Global,
    account: u64,
    call: &CreateIntent,
) -> Result<Option<ApiError>, NoMemory>
    ensures { IfOk result (λ error. error ≡ connect_error account call.now) }
{
    if is_fee_above(call.application_fee_amount, call.amount) {
        return Ok(Some(ApiError::invalid_value(alloc, FEE_NAME)?));
    }
    if is_fee_of_nobody(account, call) {
        return Ok(Some(ApiError::invalid_value(alloc, FEE_NAME)?));
    }
    if is_passed_on(account, call) {
        return Ok(Some(ApiError::invalid_value(alloc, DESTINATION_NAME)?));
    }
    Ok(None)
}

/// The error of the first further check that fails: an amount below the currency's minimum, then a confirm without a
/// payment method, an application fee above the amount, one of the platform without a destination, and a destination of a
/// connected account.
pub fn create_intent_error(
    alloc: Global,
    account: u64,
    call: &CreateIntent,
) -> Result<Option<ApiError>, NoMemory>
    ensures { IfOk result (λ error. error ≡ create_intent_error account call.now) }
{
    if call.amount < call.currency.minimum() {
        return Ok(Some(ApiError::amount_too_small(alloc)?));
    }
    if call.confirm && call.payment_method.is_none() {
        return Ok(Some(ApiError::parameter_missing(alloc, b"payment_method")?));
    }
    connect_error(alloc, account, call)
}

/// The update of the payment intent with this id, of a form.
#[tactic(auto, unfolding(crate::specs::Parameters::given))]
pub fn update_intent(alloc: Global, id: &[u8], form: &Form) -> Result<UpdateIntent, Refusal>
    ensures call { IfOk result (λ call. given (params_of Name.UpdateIntent) (update_intent id.now) form.now ≡ Ok call) }
    ensures refusal { IfErr result (Refuses (given (params_of Name.UpdateIntent) (update_intent id.now) form.now)) }
{
    Ok(UpdateIntent {
        id: Bytes::from_slice(alloc, id)?,
        amount: amount(alloc, form, b"amount")?,
        currency: currency(alloc, form, b"currency")?,
        payment_method: method(alloc, form, b"payment_method")?,
        description: text(alloc, form, b"description", 1000)?,
        metadata: metadata(alloc, form, b"metadata")?,
        application_fee_amount: amount(alloc, form, b"application_fee_amount")?,
        transfer_group: text(alloc, form, b"transfer_group", 255)?,
    })
}

/// The confirm of the payment intent with this id, of a form.
#[tactic(auto, unfolding(crate::specs::Parameters::given))]
pub fn confirm_intent(alloc: Global, id: &[u8], form: &Form) -> Result<ConfirmIntent, Refusal>
    ensures call { IfOk result (λ call. given (params_of Name.ConfirmIntent) (confirm_intent id.now) form.now ≡ Ok call) }
    ensures refusal { IfErr result (Refuses (given (params_of Name.ConfirmIntent) (confirm_intent id.now) form.now)) }
{
    Ok(ConfirmIntent {
        id: Bytes::from_slice(alloc, id)?,
        payment_method: method(alloc, form, b"payment_method")?,
    })
}

/// The capture of the payment intent with this id, of a form.
#[tactic(auto, unfolding(crate::specs::Parameters::given))]
pub fn capture_intent(alloc: Global, id: &[u8], form: &Form) -> Result<CaptureIntent, Refusal>
    ensures call { IfOk result (λ call. given (params_of Name.CaptureIntent) (capture_intent id.now) form.now ≡ Ok call) }
    ensures refusal { IfErr result (Refuses (given (params_of Name.CaptureIntent) (capture_intent id.now) form.now)) }
{
    Ok(CaptureIntent {
        id: Bytes::from_slice(alloc, id)?,
        amount_to_capture: amount(alloc, form, b"amount_to_capture")?,
        application_fee_amount: amount(alloc, form, b"application_fee_amount")?,
    })
}

/// The cancel of the payment intent with this id, of a form.
#[tactic(auto, unfolding(crate::specs::Parameters::given))]
pub fn cancel_intent(alloc: Global, id: &[u8], form: &Form) -> Result<CancelIntent, Refusal>
    ensures call { IfOk result (λ call. given (params_of Name.CancelIntent) (cancel_intent id.now) form.now ≡ Ok call) }
    ensures refusal { IfErr result (Refuses (given (params_of Name.CancelIntent) (cancel_intent id.now) form.now)) }
{
    Ok(CancelIntent {
        id: Bytes::from_slice(alloc, id)?,
        cancellation_reason: cancellation_reason(alloc, form, b"cancellation_reason")?,
    })
}

/// The authentication for the payment intent with this id, of a form.
#[tactic(auto, unfolding(crate::specs::Parameters::given))]
pub fn authenticate_intent(alloc: Global, id: &[u8], form: &Form) -> Result<Authenticate, Refusal>
    ensures call { IfOk result (λ call. given (params_of Name.Authenticate) (authenticate_intent id.now) form.now ≡ Ok call) }
    ensures refusal { IfErr result (Refuses (given (params_of Name.Authenticate) (authenticate_intent id.now) form.now)) }
{
    Ok(Authenticate {
        id: Bytes::from_slice(alloc, id)?,
        outcome: required(alloc, b"outcome", authentication(alloc, form, b"outcome")?)?,
    })
}
