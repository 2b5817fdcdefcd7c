//! Payment intents.
ghost use Rattle.std.specs.Prelude.{◌≡◌, [], ◌∷◌, ◌++◌, Some, IfOk, OnOk, OnErr, option_map, codes};
ghost use Rattle.ph_items.specs.Words.{cancellation_reason_text};
ghost use Rattle.ph_json.specs.Values.{text_or_null};
ghost use Rattle.ph_views.specs.Intents.{intent_doc, amount_members, name_members, progress_members, last_error_doc, next_action_doc, authenticate_doc, client_secret_of, transfer_data_doc};

use crate::values::{
    printed_id, put_amount, put_amount_or_null, put_id, put_id_or_null, put_metadata, put_method,
    put_moment,
};
use ph_base::{Bytes, Kind, NoMemory};
use ph_errors::{ApiError, error_doc};
use ph_items::{CancellationReason, Intent, IntentStatus, PaymentError};
use ph_json::{Doc, Members};
use std::alloc::Global;

/// The document of a version of a payment intent that was created at a moment and has a number.
#[tactic(auto, unfolding(crate::specs::Intents::intent_doc))]
pub fn intent_doc(
    alloc: Global,
    created: u64,
    object: u64,
    intent: &Intent,
) -> Result<Doc, NoMemory>
    ensures { IfOk result (λ doc. doc ≡ intent_doc created object intent.now) }
{
    let mut members = amounts(alloc, intent)?;
    members.append(names(alloc, created, object, intent)?)?;
    members.append(progress(alloc, intent)?)?;
    Ok(members.done())
}

// How much, and for whom.
#[tactic(auto, unfolding(crate::specs::Intents::amount_members))]
fn amounts(alloc: Global, intent: &Intent) -> Result<Members, NoMemory>
    ensures { IfOk result (λ members. members ≡ amount_members intent.now) }
{
    let mut members = Members::new(alloc);
    put_amount(&mut members, "amount", intent.amount)?;
    put_amount(&mut members, "amount_capturable", intent.amount_capturable)?;
    put_amount(&mut members, "amount_received", intent.amount_received)?;
    put_amount_or_null(
        &mut members,
        "application_fee_amount",
        intent.application_fee_amount,
    )?;
    members.text("currency", intent.currency.code())?;
    put_transfer_data(alloc, &mut members, "transfer_data", intent.destination)?;
    members.text_or_null("transfer_group", &intent.transfer_group)?;
    Ok(members)
}

// Puts where what is captured goes, or null.
fn put_transfer_data(
    alloc: Global,
    members: &mut Members,
    key: &str,
    destination: Option<u64>,
) -> Result<(), NoMemory>
    ensures ok { OnOk result (members.new ≡ members.old ++ (key.now, transfer_data_doc destination) ∷ []) }
    ensures err { OnErr result (members.new ≡ members.old) }
{
    let data = transfer_data(alloc, destination)?;
    members.put(key, data)
}

// Where what is captured goes, or null.
fn transfer_data(alloc: Global, destination: Option<u64>) -> Result<Doc, NoMemory>
    ensures { IfOk result (λ doc. doc ≡ transfer_data_doc destination) }
{
    match destination {
        None => Ok(Doc::Null),
        Some(destination) => to_destination(alloc, destination),
    }
}

// What is captured goes to a destination.
fn to_destination(alloc: Global, destination: u64) -> Result<Doc, NoMemory>
    ensures { IfOk result (λ doc. doc ≡ transfer_data_doc (Some destination)) }
{
    let mut members = Members::new(alloc);
    put_id(&mut members, "destination", Kind::Account, destination)?;
    Ok(members.done())
}

// Which one, made when, and what its owner says of it.
#[tactic(auto, unfolding(crate::specs::Intents::name_members))]
fn names(alloc: Global, created: u64, object: u64, intent: &Intent) -> Result<Members, NoMemory>
    ensures { IfOk result (λ members. members ≡ name_members created object intent.now) }
{
    let mut members = Members::new(alloc);
    put_client_secret(alloc, &mut members, "client_secret", object)?;
    put_moment(&mut members, "created", created)?;
    members.text_or_null("description", &intent.description)?;
    put_id(&mut members, "id", Kind::Intent, object)?;
    members.truth("livemode", false)?;
    put_metadata(alloc, &mut members, "metadata", &intent.metadata)?;
    members.word("object", "payment_intent")?;
    Ok(members)
}

// How it is paid, and how far it has come.
#[tactic(auto, unfolding(crate::specs::Intents::progress_members))]
fn progress(alloc: Global, intent: &Intent) -> Result<Members, NoMemory>
    ensures { IfOk result (λ members. members ≡ progress_members intent.now) }
{
    let mut members = Members::new(alloc);
    put_reason(
        &mut members,
        "cancellation_reason",
        intent.cancellation_reason,
    )?;
    members.text("capture_method", intent.capture_method.text())?;
    put_last_error(
        alloc,
        &mut members,
        "last_payment_error",
        intent.last_payment_error,
    )?;
    put_id_or_null(
        &mut members,
        "latest_charge",
        Kind::Charge,
        intent.latest_charge,
    )?;
    put_next_action(alloc, &mut members, "next_action", intent.status)?;
    put_method(&mut members, "payment_method", &intent.payment_method)?;
    members.text("status", intent.status.text())?;
    Ok(members)
}

// Puts what a client that confirms the payment for a customer shows.
fn put_client_secret(
    alloc: Global,
    members: &mut Members,
    key: &str,
    object: u64,
) -> Result<(), NoMemory>
    ensures ok { OnOk result (members.new ≡ members.old ++ (key.now, Doc.Text (client_secret_of object)) ∷ []) }
    ensures err { OnErr result (members.new ≡ members.old) }
{
    let secret = client_secret(alloc, object)?;
    members.put(key, secret)
}

// What a client that confirms the payment for a customer shows.
fn client_secret(alloc: Global, object: u64) -> Result<Doc, NoMemory>
    ensures { IfOk result (λ doc. doc ≡ Doc.Text (client_secret_of object)) }
{
    let mut text = Vec::new(alloc);
    text.extend_from_slice(printed_id(Kind::Intent, object).as_slice())?;
    text.extend_from_slice(b"_secret_payhost")?;
    Ok(Doc::Text(Bytes::new(text)))
}

// Puts why it was canceled, or null.
fn put_reason(
    members: &mut Members,
    key: &str,
    reason: Option<CancellationReason>,
) -> Result<(), NoMemory>
    ensures ok { OnOk result (members.new ≡ members.old ++ (key.now, text_or_null (option_map cancellation_reason_text reason)) ∷ []) }
    ensures err { OnErr result (members.new ≡ members.old) }
{
    match reason {
        None => members.null(key),
        Some(reason) => members.text(key, reason.text()),
    }
}

// Puts why the last confirmation didn't pay, or null.
fn put_last_error(
    alloc: Global,
    members: &mut Members,
    key: &str,
    error: Option<PaymentError>,
) -> Result<(), NoMemory>
    ensures ok { OnOk result (members.new ≡ members.old ++ (key.now, last_error_doc error) ∷ []) }
    ensures err { OnErr result (members.new ≡ members.old) }
{
    let error = last_error(alloc, error)?;
    members.put(key, error)
}

// Why the last confirmation didn't pay, or null.
fn last_error(alloc: Global, error: Option<PaymentError>) -> Result<Doc, NoMemory>
    ensures { IfOk result (λ doc. doc ≡ last_error_doc error) }
{
    match error {
        None => Ok(Doc::Null),
        Some(PaymentError::Declined(decline)) => {
            error_doc(alloc, &ApiError::card_declined(alloc, decline)?, None)
        }
        Some(PaymentError::NotAuthenticated) => {
            error_doc(alloc, &ApiError::not_authenticated(alloc)?, None)
        }
    }
}

// Puts what the customer has to do, or null.
fn put_next_action(
    alloc: Global,
    members: &mut Members,
    key: &str,
    status: IntentStatus,
) -> Result<(), NoMemory>
    ensures ok { OnOk result (members.new ≡ members.old ++ (key.now, next_action_doc status) ∷ []) }
    ensures err { OnErr result (members.new ≡ members.old) }
{
    let action = next_action(alloc, status)?;
    members.put(key, action)
}

// What the customer has to do, or null.
fn next_action(alloc: Global, status: IntentStatus) -> Result<Doc, NoMemory>
    ensures { IfOk result (λ doc. doc ≡ next_action_doc status) }
{
    match status {
        IntentStatus::RequiresAction => authenticate(alloc),
        IntentStatus::RequiresPaymentMethod
        | IntentStatus::RequiresConfirmation
        | IntentStatus::Processing
        | IntentStatus::RequiresCapture
        | IntentStatus::Succeeded
        | IntentStatus::Canceled => Ok(Doc::Null),
    }
}

// The customer has to authenticate.
fn authenticate(alloc: Global) -> Result<Doc, NoMemory>
    ensures { IfOk result (λ doc. doc ≡ authenticate_doc) }
{
    let mut members = Members::new(alloc);
    members.word("type", "payhost_authenticate")?;
    Ok(members.done())
}
