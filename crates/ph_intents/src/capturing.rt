//! The capture.
ghost use Rattle.std.specs.Prelude.{◌≡◌, ◌==◌, ◌||◌, nat_lt, IfOk, OnOk};
ghost use Rattle.ph_facts.specs.Outcomes.{Gives};
ghost use Rattle.ph_intents.specs.Fees.{with_fee};
ghost use Rattle.ph_intents.specs.Capture.{capture_amount, capture_of, capture_outcome, captured_with, received_intent, with_charge_captured};

use crate::fees::is_wrong_fee;
use crate::refusals::{invalid_value, no_such_intent, unexpected_state};
use crate::statuses::{Step, next_status};
use crate::versions::tell_all;
use ph_base::{Kind, NoMemory};
use ph_calls::CaptureIntent;
use ph_charges::fee_or;
use ph_errors::Refusal;
use ph_items::{EventKind, Intent, IntentStatus};
use ph_money::Amount;
use ph_rows::{Batch, View, owned_named};
use std::alloc::Global;

/// A payment intent of which so much is received; the rest can't be captured any more.
pub fn received_intent(
    alloc: Global,
    amount: Amount,
    intent: &Intent,
    status: IntentStatus,
) -> Result<Intent, NoMemory>
    ensures { IfOk result (λ received. received ≡ received_intent amount intent.now status) }
{
    let mut received = intent.copy(alloc)?;
    received.status = status;
    received.amount_capturable = Amount::new(0);
    received.amount_received = amount;
    Ok(received)
}

// Whether an amount can't be captured: nothing, or more than can be.
fn is_out_of_bounds(amount: Amount, capturable: Amount) -> bool
    ensures { result ≡ ((amount == 0) || nat_lt capturable amount) }
{
    amount.units() == 0 || amount.units() > capturable.units()
}

// A payment intent of which an amount is captured, with the fee that is named or else its own.
fn received_with(
    alloc: Global,
    amount: Amount,
    fee: Option<Amount>,
    intent: &Intent,
    status: IntentStatus,
) -> Result<Intent, NoMemory>
    ensures { IfOk result (λ received. received ≡ received_intent amount (with_fee fee intent.now) status) }
{
    let mut received = received_intent(alloc, amount, intent, status)?;
    received.application_fee_amount = fee_or(fee, intent.application_fee_amount);
    Ok(received)
}

// Adds the capture of an amount of a payment intent's charge, where it has one.
fn capture_charge<V: View>(
    alloc: Global,
    view: &V,
    amount: Amount,
    fee: Option<Amount>,
    charge: Option<u64>,
    batch: &mut Batch,
) -> Result<(), NoMemory>
    ensures { OnOk result (batch.new ≡ with_charge_captured (V.state view.now).rows amount fee charge batch.old) }
{
    match charge {
        Some(charge) => ph_charges::capture(alloc, view, charge, amount, fee, batch),
        None => Ok(()),
    }
}

// The capture of an amount with a fee or none named.
fn capture_with<V: View>(
    alloc: Global,
    view: &V,
    account: u64,
    amount: Amount,
    fee: &Option<Amount>,
    object: u64,
    intent: &Intent,
    status: IntentStatus,
    batch: &mut Batch,
) -> Result<u64, Refusal>
    ensures { Gives (captured_with (V.state view.now).rows account amount fee.now batch.old object intent.now status) batch.old result batch.new }
{
    capture_charge(alloc, view, amount, *fee, intent.latest_charge, batch)?;
    let received = received_with(alloc, amount, *fee, intent, status)?;
    let sort = EventKind::IntentSucceeded;
    tell_all(alloc, account, object, received, sort, batch)?;
    Ok(object)
}

// The same of an amount that can be captured, with a fee that is possible.
fn capture_amount<V: View>(
    alloc: Global,
    view: &V,
    account: u64,
    amount: Amount,
    fee: &Option<Amount>,
    object: u64,
    intent: &Intent,
    status: IntentStatus,
    batch: &mut Batch,
) -> Result<u64, Refusal>
    ensures { Gives (capture_amount (V.state view.now).rows account amount fee.now batch.old object intent.now status) batch.old result batch.new }
{
    if is_out_of_bounds(amount, intent.amount_capturable) {
        return Err(invalid_value(alloc, b"amount_to_capture"));
    }
    if is_wrong_fee(account, intent.destination, fee, amount) {
        return Err(invalid_value(alloc, b"application_fee_amount"));
    }
    capture_with(
        alloc, view, account, amount, fee, object, intent, status, batch,
    )
}

// The capture of a payment intent, where its status allows it.
fn capture_intent<V: View>(
    alloc: Global,
    view: &V,
    account: u64,
    amount: Option<Amount>,
    fee: &Option<Amount>,
    object: u64,
    intent: &Intent,
    batch: &mut Batch,
) -> Result<u64, Refusal>
    ensures { Gives (capture_of (V.state view.now).rows account amount fee.now batch.old object intent.now) batch.old result batch.new }
{
    match next_status(intent.status, Step::Capture) {
        Some(status) => {
            let amount = amount.unwrap_or(intent.amount_capturable);
            capture_amount(
                alloc, view, account, amount, fee, object, intent, status, batch,
            )
        }
        None => Err(unexpected_state(alloc)),
    }
}

/// Captures the amount that the call names of the payment intent that the path names, or all that can be captured: it
/// is captured of the payment intent's charge, with the application fee that the call names or else its own, and what
/// is left can't be captured any more. It is refused where the account has no such payment intent, where its status
/// doesn't allow it, for an amount of 0 or of more than can be captured, and for a fee above the amount, or above 0 where
/// the platform makes it without a destination. The answer is its number.
pub fn capture<V: View>(
    alloc: Global,
    view: &V,
    account: u64,
    call: &CaptureIntent,
    batch: &mut Batch,
) -> Result<u64, Refusal>
    ensures { Gives (capture_outcome (V.state view.now).rows account call.now batch.old) batch.old result batch.new }
{
    let Some(row) = owned_named(view, account, Kind::Intent, call.id.as_slice()) else {
        return Err(no_such_intent(alloc));
    };
    let Some(intent) = row.item.intent() else {
        return Err(no_such_intent(alloc));
    };
    let amount = call.amount_to_capture;
    let fee = &call.application_fee_amount;
    let object = row.object;
    capture_intent(alloc, view, account, amount, fee, object, intent, batch)
}
