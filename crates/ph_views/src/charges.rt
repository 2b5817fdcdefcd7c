//! Charges.
ghost use Rattle.std.specs.Prelude.{◌≡◌, [], ◌∷◌, ◌++◌, IfOk, OnOk, OnErr, option_map, codes};
ghost use Rattle.ph_views.specs.Charges.{charge_doc, charge_amount_members, charge_name_members, charge_progress_members, charge_payment_members, failure_code, fee_of, is_paid, is_refunded, transaction_of, transfer_of};
ghost use Rattle.ph_errors.specs.Names.{code_name};
ghost use Rattle.ph_json.specs.Values.{text_or_null};

use crate::values::{
    put_amount, put_amount_or_null, put_id, put_id_or_null, put_metadata, put_method, put_moment,
};
use ph_base::{Kind, NoMemory};
use ph_errors::Code;
use ph_items::{Capture, Charge, ChargeStatus};
use ph_json::{Doc, Members};
use std::alloc::Global;

/// The document of a version of a charge that was created at a moment and has a number.
#[tactic(auto, unfolding(crate::specs::Charges::charge_doc))]
pub fn charge_doc(
    alloc: Global,
    created: u64,
    object: u64,
    charge: &Charge,
) -> Result<Doc, NoMemory>
    ensures { IfOk result (λ doc. doc ≡ charge_doc created object charge.now) }
{
    let mut members = amounts(alloc, charge)?;
    members.append(names(alloc, created, object, charge)?)?;
    members.append(progress(alloc, charge)?)?;
    members.append(payment(alloc, charge)?)?;
    Ok(members.done())
}

// How much.
#[tactic(auto, unfolding(crate::specs::Charges::charge_amount_members))]
fn amounts(alloc: Global, charge: &Charge) -> Result<Members, NoMemory>
    ensures { IfOk result (λ members. members ≡ charge_amount_members charge.now) }
{
    let mut members = Members::new(alloc);
    put_amount(&mut members, "amount", charge.amount)?;
    put_amount(&mut members, "amount_captured", charge.amount_captured)?;
    put_amount(&mut members, "amount_refunded", charge.amount_refunded)?;
    put_id_or_null(
        &mut members,
        "application_fee",
        Kind::Fee,
        fee_of(charge.capture),
    )?;
    put_amount_or_null(
        &mut members,
        "application_fee_amount",
        charge.application_fee_amount,
    )?;
    members.text("currency", charge.currency.code())?;
    Ok(members)
}

// Which one, made when, and what the payment intent's owner said of it.
#[tactic(auto, unfolding(crate::specs::Charges::charge_name_members))]
fn names(alloc: Global, created: u64, object: u64, charge: &Charge) -> Result<Members, NoMemory>
    ensures { IfOk result (λ members. members ≡ charge_name_members created object charge.now) }
{
    let mut members = Members::new(alloc);
    put_moment(&mut members, "created", created)?;
    members.text_or_null("description", &charge.description)?;
    put_id(&mut members, "id", charge.sort.kind(), object)?;
    members.truth("livemode", false)?;
    put_metadata(alloc, &mut members, "metadata", &charge.metadata)?;
    members.word("object", "charge")?;
    Ok(members)
}

// How far it has come.
#[tactic(auto, unfolding(crate::specs::Charges::charge_progress_members))]
fn progress(alloc: Global, charge: &Charge) -> Result<Members, NoMemory>
    ensures { IfOk result (λ members. members ≡ charge_progress_members charge.now) }
{
    let mut members = Members::new(alloc);
    put_id_or_null(
        &mut members,
        "balance_transaction",
        Kind::Txn,
        transaction_of(charge.capture),
    )?;
    members.truth("captured", charge.capture.is_some())?;
    members.truth("disputed", charge.dispute.is_some())?;
    put_failure_code(&mut members, "failure_code", charge.status)?;
    members.truth("paid", is_paid(charge.status))?;
    members.truth("refunded", is_refunded(charge))?;
    members.text("status", charge.status.text())?;
    Ok(members)
}

// What it pays, and how, and where that goes.
#[tactic(auto, unfolding(crate::specs::Charges::charge_payment_members))]
fn payment(alloc: Global, charge: &Charge) -> Result<Members, NoMemory>
    ensures { IfOk result (λ members. members ≡ charge_payment_members charge.now) }
{
    let mut members = Members::new(alloc);
    put_id_or_null(
        &mut members,
        "payment_intent",
        Kind::Intent,
        charge.sort.intent(),
    )?;
    put_method(&mut members, "payment_method", &charge.payment_method)?;
    put_id_or_null(
        &mut members,
        "source_transfer",
        Kind::Transfer,
        charge.sort.transfer(),
    )?;
    put_id_or_null(
        &mut members,
        "transfer",
        Kind::Transfer,
        transfer_of(charge.capture),
    )?;
    members.text_or_null("transfer_group", &charge.transfer_group)?;
    Ok(members)
}

// The transaction of a capture, where there is one.
fn transaction_of(capture: Option<Capture>) -> Option<u64>
    ensures { result ≡ transaction_of capture }
{
    match capture {
        Some(capture) => Some(capture.transaction),
        None => None,
    }
}

// The transfer of a capture, where there is one.
fn transfer_of(capture: Option<Capture>) -> Option<u64>
    ensures { result ≡ transfer_of capture }
{
    match capture {
        Some(capture) => capture.transfer,
        None => None,
    }
}

// The application fee of a capture, where there is one.
fn fee_of(capture: Option<Capture>) -> Option<u64>
    ensures { result ≡ fee_of capture }
{
    match capture {
        Some(capture) => capture.fee,
        None => None,
    }
}

// Whether a charge paid.
fn is_paid(status: ChargeStatus) -> bool
    ensures { result ≡ is_paid status }
{
    match status {
        ChargeStatus::Succeeded => true,
        ChargeStatus::Failed => false,
    }
}

// Puts why a charge failed, or null.
fn put_failure_code(members: &mut Members, key: &str, status: ChargeStatus) -> Result<(), NoMemory>
    ensures ok { OnOk result (members.new ≡ members.old ++ (key.now, text_or_null (option_map code_name (failure_code status))) ∷ []) }
    ensures err { OnErr result (members.new ≡ members.old) }
{
    match status {
        ChargeStatus::Succeeded => members.null(key),
        ChargeStatus::Failed => members.word(key, Code::CardDeclined.name()),
    }
}

// Whether all that was captured of a charge is refunded.
fn is_refunded(charge: &Charge) -> bool
    ensures { result ≡ is_refunded charge.now }
{
    charge.amount_refunded.units() == charge.amount_captured.units()
        && charge.amount_captured.units() > 0
}
