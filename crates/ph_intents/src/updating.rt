//! The update.
ghost use Rattle.std.specs.Prelude.{◌≡◌, IfOk};
ghost use Rattle.ph_facts.specs.Outcomes.{Gives};
ghost use Rattle.ph_intents.specs.Update.{is_too_small, step_by, step_of, update_of, update_outcome, update_with, updated_intent};

use crate::copies::{copy_method_or, copy_text_or};
use crate::fees::is_wrong_fee;
use crate::metadata::merged_metadata;
use crate::refusals::{amount_too_small, invalid_value, no_such_intent, unexpected_state};
use crate::statuses::{Step, next_status};
use crate::versions::add_version;
use ph_base::{Kind, NoMemory};
use ph_calls::UpdateIntent;
use ph_charges::fee_or;
use ph_errors::Refusal;
use ph_items::{Intent, IntentStatus};
use ph_money::Amount;
use ph_rows::{Batch, View, owned_named};
use std::alloc::Global;

// The greatest number of keys.
const MOST_KEYS: usize = 50;

// The step of an update that names a payment method, or something else than description and metadata, or neither.
fn step_by(method: bool, other: bool) -> Step
    ensures { result ≡ step_by method other }
{
    if method {
        Step::Choose
    } else if other {
        Step::Change
    } else {
        Step::Describe
    }
}

// The step of an update.
fn step_of(call: &UpdateIntent) -> Step
    ensures { result ≡ step_of call.now }
{
    step_by(
        call.payment_method.is_some(),
        call.amount.is_some()
            || call.currency.is_some()
            || call.application_fee_amount.is_some()
            || call.transfer_group.is_some(),
    )
}

// A payment intent after an update: what is named is set, and all else is as it was.
fn updated_intent(
    alloc: Global,
    call: &UpdateIntent,
    intent: &Intent,
    status: IntentStatus,
) -> Result<Intent, NoMemory>
    ensures { IfOk result (λ updated. updated ≡ updated_intent call.now intent.now status) }
{
    Ok(Intent {
        amount: call.amount.unwrap_or(intent.amount),
        amount_capturable: intent.amount_capturable,
        amount_received: intent.amount_received,
        currency: call.currency.unwrap_or(intent.currency),
        status,
        capture_method: intent.capture_method,
        payment_method: copy_method_or(
            alloc,
            call.payment_method.as_ref(),
            intent.payment_method.as_ref(),
        )?,
        cancellation_reason: intent.cancellation_reason,
        last_payment_error: intent.last_payment_error,
        latest_charge: intent.latest_charge,
        application_fee_amount: fee_or(call.application_fee_amount, intent.application_fee_amount),
        destination: intent.destination,
        description: copy_text_or(
            alloc,
            call.description.as_ref(),
            intent.description.as_ref(),
        )?,
        metadata: merged_metadata(alloc, call.metadata.as_ref(), &intent.metadata)?,
        transfer_group: copy_text_or(
            alloc,
            call.transfer_group.as_ref(),
            intent.transfer_group.as_ref(),
        )?,
    })
}

// Whether the amount of a payment intent is below the minimum of its currency.
fn is_too_small(intent: &Intent) -> bool
    ensures { result ≡ is_too_small intent.now }
{
    intent.amount < intent.currency.minimum()
}

// Adds a version that results from an update.
fn update_with(
    alloc: Global,
    account: u64,
    fee: &Option<Amount>,
    object: u64,
    intent: Intent,
    batch: &mut Batch,
) -> Result<u64, Refusal>
    ensures { (status : IntentStatus) → Gives (update_with account fee.now batch.old object status intent) batch.old result batch.new }
{
    if is_too_small(&intent) {
        return Err(amount_too_small(alloc));
    }
    if is_wrong_fee(account, intent.destination, fee, intent.amount) {
        return Err(invalid_value(alloc, b"application_fee_amount"));
    }
    if intent.metadata.len() > MOST_KEYS {
        return Err(invalid_value(alloc, b"metadata"));
    }
    add_version(account, object, intent, batch)?;
    Ok(object)
}

// The update of a payment intent, where its status allows it.
fn update_intent(
    alloc: Global,
    account: u64,
    call: &UpdateIntent,
    object: u64,
    intent: &Intent,
    batch: &mut Batch,
) -> Result<u64, Refusal>
    ensures { Gives (update_of account call.now batch.old object intent.now) batch.old result batch.new }
{
    match next_status(intent.status, step_of(call)) {
        Some(status) => {
            let updated = updated_intent(alloc, call, intent, status)?;
            let fee = &call.application_fee_amount;
            update_with(alloc, account, fee, object, updated, batch)
        }
        None => Err(unexpected_state(alloc)),
    }
}

/// Sets what the call names of the payment intent that the path names; metadata is merged key by key. It is refused
/// where the account has no such payment intent, where its status doesn't allow it, for an amount that results below
/// the minimum of the currency that results, for an application fee above that amount, or above 0 where the platform
/// makes it without a destination, and for more than 50 keys that result. The answer is its number.
pub fn update<V: View>(
    alloc: Global,
    view: &V,
    account: u64,
    call: &UpdateIntent,
    batch: &mut Batch,
) -> Result<u64, Refusal>
    ensures { Gives (update_outcome (V.state view.now).rows account call.now batch.old) batch.old result batch.new }
{
    let Some(row) = owned_named(view, account, Kind::Intent, call.id.as_slice()) else {
        return Err(no_such_intent(alloc));
    };
    let Some(intent) = row.item.intent() else {
        return Err(no_such_intent(alloc));
    };
    update_intent(alloc, account, call, row.object, intent, batch)
}
