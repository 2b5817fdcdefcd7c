//! The create.
ghost use Rattle.std.specs.Prelude.{◌≡◌, IfOk};
ghost use Rattle.ph_facts.specs.Outcomes.{Gives};
ghost use Rattle.ph_intents.specs.Begun.{GivesBegun};
ghost use Rattle.ph_intents.specs.Create.{create_by, create_confirmed_outcome, create_outcome, create_to, created_with, new_intent};

use crate::attempts::add_attempt;
use crate::begins::Begun;
use crate::destinations::destination_of;
use crate::refusals::parameter_missing;
use ph_base::{Method, NoMemory};
use ph_calls::CreateIntent;
use ph_errors::Refusal;
use ph_items::{CaptureMethod, EventKind, Intent, IntentStatus, Item, copy_method, copy_text};
use ph_kinds::first_metadata;
use ph_money::Amount;
use ph_rows::{Batch, View};
use std::alloc::Global;

/// The first version of a payment intent with a destination or none, in a status: each other field from the call, or its
/// default.
pub fn new_intent(
    alloc: Global,
    call: &CreateIntent,
    destination: Option<u64>,
    status: IntentStatus,
) -> Result<Intent, NoMemory>
    ensures { IfOk result (λ intent. intent ≡ new_intent call.now destination status) }
{
    Ok(Intent {
        amount: call.amount,
        amount_capturable: Amount::new(0),
        amount_received: Amount::new(0),
        currency: call.currency,
        status,
        capture_method: call.capture_method.unwrap_or(CaptureMethod::Automatic),
        payment_method: copy_method(alloc, call.payment_method.as_ref())?,
        cancellation_reason: None,
        last_payment_error: None,
        latest_charge: None,
        application_fee_amount: call.application_fee_amount,
        destination,
        description: copy_text(alloc, call.description.as_ref())?,
        metadata: first_metadata(alloc, call.metadata.as_ref())?,
        transfer_group: copy_text(alloc, call.transfer_group.as_ref())?,
    })
}

// Adds a payment intent with a destination or none that isn't confirmed, and announces it. The answer is its number.
fn create_to(
    alloc: Global,
    account: u64,
    call: &CreateIntent,
    destination: Option<u64>,
    batch: &mut Batch,
) -> Result<u64, Refusal>
    ensures { Gives (create_to account call.now batch.old destination) batch.old result batch.new }
{
    let status = match call.payment_method {
        Some(_) => IntentStatus::RequiresConfirmation,
        None => IntentStatus::RequiresPaymentMethod,
    };
    let intent = new_intent(alloc, call, destination, status)?;
    let object = batch.add(account, Item::Intent(intent))?;
    batch.announce(EventKind::IntentCreated, object)?;
    Ok(object)
}

/// Adds a payment intent that isn't confirmed, and announces it. The answer is its number. It is refused where the
/// destination that the call names is no connected account.
pub fn create<V: View>(
    alloc: Global,
    view: &V,
    account: u64,
    call: &CreateIntent,
    batch: &mut Batch,
) -> Result<u64, Refusal>
    ensures { Gives (create_outcome (V.state view.now).rows account call.now batch.old) batch.old result batch.new }
{
    let destination = destination_of(alloc, view, call.destination.as_ref())?;
    create_to(alloc, account, call, destination, batch)
}

// A new payment intent, which is announced, and its attempt to be paid by a method.
fn create_with(
    account: u64,
    intent: Intent,
    method: Method,
    batch: &mut Batch,
) -> Result<Begun, Refusal>
    ensures { GivesBegun (created_with account intent method batch.old) batch.old result batch.new }
{
    let amount = intent.amount;
    let currency = intent.currency;
    let object = batch.add(account, Item::Intent(intent))?;
    let order = add_attempt(account, object, amount, currency, method, batch)?;
    batch.announce(EventKind::IntentCreated, object)?;
    Ok(Begun { object, order })
}

// Adds a payment intent with a destination or none that is confirmed at once, with its payment method.
fn create_by(
    alloc: Global,
    account: u64,
    call: &CreateIntent,
    destination: Option<u64>,
    batch: &mut Batch,
) -> Result<Begun, Refusal>
    ensures { GivesBegun (create_by account call.now batch.old call.now.payment_method destination) batch.old result batch.new }
{
    match &call.payment_method {
        Some(method) => {
            let intent = new_intent(alloc, call, destination, IntentStatus::Processing)?;
            create_with(account, intent, method.method, batch)
        }
        None => Err(parameter_missing(alloc, b"payment_method")),
    }
}

/// Adds a payment intent that is confirmed at once. Its request is refused where it has no payment method, and so is it;
/// and it is refused where the destination that the call names is no connected account.
pub fn create_confirmed<V: View>(
    alloc: Global,
    view: &V,
    account: u64,
    call: &CreateIntent,
    batch: &mut Batch,
) -> Result<Begun, Refusal>
    ensures { GivesBegun (create_confirmed_outcome (V.state view.now).rows account call.now batch.old) batch.old result batch.new }
{
    let destination = destination_of(alloc, view, call.destination.as_ref())?;
    create_by(alloc, account, call, destination, batch)
}
