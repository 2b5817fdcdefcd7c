//! The confirm.
ghost use Rattle.std.specs.Prelude.{◌≡◌, IfOk};
ghost use Rattle.std.specs.Option.{option_copied};
ghost use Rattle.ph_intents.specs.Begun.{GivesBegun};
ghost use Rattle.ph_intents.specs.Confirm.{confirm_of, confirm_outcome, confirm_with, paying_intent};

use crate::attempts::add_attempted;
use crate::begins::Begun;
use crate::refusals::{no_such_intent, unexpected_state};
use crate::statuses::{Step, next_status};
use ph_base::{Kind, NoMemory};
use ph_calls::ConfirmIntent;
use ph_errors::Refusal;
use ph_items::{Intent, IntentStatus, PaymentMethod};
use ph_rows::{Batch, View, owned_named};
use std::alloc::Global;

// A payment intent that a payment method is to pay: an earlier failure is forgotten.
fn paying_intent(
    alloc: Global,
    method: &PaymentMethod,
    intent: &Intent,
    status: IntentStatus,
) -> Result<Intent, NoMemory>
    ensures { IfOk result (λ paying. paying ≡ paying_intent method.now intent.now status) }
{
    let mut paying = intent.copy(alloc)?;
    paying.status = status;
    paying.payment_method = Some(method.copy(alloc)?);
    paying.last_payment_error = None;
    Ok(paying)
}

// The confirm of a payment intent with a payment method.
fn confirm_with(
    alloc: Global,
    account: u64,
    object: u64,
    intent: &Intent,
    method: Option<&PaymentMethod>,
    batch: &mut Batch,
) -> Result<Begun, Refusal>
    ensures { GivesBegun (confirm_with account batch.old object intent.now (option_copied method.entry)) batch.old result batch.new }
{
    let Some(method) = method else {
        return Err(unexpected_state(alloc));
    };
    match next_status(intent.status, Step::Confirm) {
        Some(status) => {
            let paying = paying_intent(alloc, method, intent, status)?;
            add_attempted(account, object, paying, method.method, batch)
        }
        None => Err(unexpected_state(alloc)),
    }
}

// The confirm of a payment intent with the payment method that is named, or else its own.
fn confirm_intent(
    alloc: Global,
    account: u64,
    named: &Option<PaymentMethod>,
    object: u64,
    intent: &Intent,
    batch: &mut Batch,
) -> Result<Begun, Refusal>
    ensures { GivesBegun (confirm_of account named.now batch.old object intent.now) batch.old result batch.new }
{
    match named {
        Some(method) => confirm_with(alloc, account, object, intent, Some(method), batch),
        None => {
            let method = intent.payment_method.as_ref();
            confirm_with(alloc, account, object, intent, method, batch)
        }
    }
}

/// Confirms the payment intent that the path names, with the payment method that the call names or else its own.
pub fn confirm<V: View>(
    alloc: Global,
    view: &V,
    account: u64,
    call: &ConfirmIntent,
    batch: &mut Batch,
) -> Result<Begun, Refusal>
    ensures { GivesBegun (confirm_outcome (V.state view.now).rows account call.now batch.old) batch.old result batch.new }
{
    let Some(row) = owned_named(view, account, Kind::Intent, call.id.as_slice()) else {
        return Err(no_such_intent(alloc));
    };
    let Some(intent) = row.item.intent() else {
        return Err(no_such_intent(alloc));
    };
    let named = &call.payment_method;
    confirm_intent(alloc, account, named, row.object, intent, batch)
}
