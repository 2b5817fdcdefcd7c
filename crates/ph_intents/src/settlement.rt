//! What a ruling of the acquirer makes of an attempt and its payment intent.
ghost use Rattle.std.specs.Prelude.{◌≡◌, IfOk, None, OnOk};
ghost use Rattle.ph_facts.specs.Outcomes.{Added, seen};
ghost use Rattle.ph_facts.specs.Statuses.{state_ruled};
ghost use Rattle.ph_intents.specs.Settle.{approved_event, approved_intent, charge_after, held_intent, ruled_intent, settle_outcome, settled_attempt, settled_event, settled_intent, with_charge, with_ruling};

use crate::authentication::failed_intent;
use crate::capturing::received_intent;
use crate::versions::tell_all;
use ph_base::{NoMemory, Ruling};
use ph_charges::{approve, decline};
use ph_items::{
    Attempt, AttemptState, CaptureMethod, EventKind, Intent, IntentStatus, Item, PaymentError,
};
use ph_rows::{Batch, View};
use std::alloc::Global;

// Where a ruling leaves its attempt.
fn settled_state(ruling: Ruling) -> AttemptState
    ensures { result ≡ state_ruled ruling }
{
    match ruling {
        Ruling::Approved => AttemptState::Approved,
        Ruling::Declined(_) => AttemptState::Declined,
        Ruling::Challenge => AttemptState::Challenged,
    }
}

// A payment intent that is approved to be captured later: all of it can be captured.
fn held_intent(alloc: Global, intent: &Intent) -> Result<Intent, NoMemory>
    ensures { IfOk result (λ held. held ≡ held_intent intent.now) }
{
    let mut held = intent.copy(alloc)?;
    held.status = IntentStatus::RequiresCapture;
    held.amount_capturable = intent.amount;
    Ok(held)
}

// A payment intent that is approved: captured at once, or held.
fn approved_intent(alloc: Global, intent: &Intent) -> Result<Intent, NoMemory>
    ensures { IfOk result (λ approved. approved ≡ approved_intent intent.now.capture_method intent.now) }
{
    match intent.capture_method {
        CaptureMethod::Automatic | CaptureMethod::AutomaticAsync => {
            received_intent(alloc, intent.amount, intent, IntentStatus::Succeeded)
        }
        CaptureMethod::Manual => held_intent(alloc, intent),
    }
}

// A payment intent whose customer has to authenticate.
fn challenged_intent(alloc: Global, intent: &Intent) -> Result<Intent, NoMemory>
    ensures { IfOk result (λ challenged. challenged ≡ ruled_intent Ruling.Challenge intent.now) }
{
    let mut challenged = intent.copy(alloc)?;
    challenged.status = IntentStatus::RequiresAction;
    Ok(challenged)
}

// What a ruling says of a payment intent itself.
fn ruled_intent(alloc: Global, ruling: Ruling, intent: &Intent) -> Result<Intent, NoMemory>
    ensures { IfOk result (λ ruled. ruled ≡ ruled_intent ruling intent.now) }
{
    match ruling {
        Ruling::Approved => approved_intent(alloc, intent),
        Ruling::Declined(decline) => {
            let error = PaymentError::Declined(decline);
            failed_intent(alloc, error, intent, IntentStatus::RequiresPaymentMethod)
        }
        Ruling::Challenge => challenged_intent(alloc, intent),
    }
}

// A payment intent after a ruling on its attempt, with its latest charge.
fn settled_intent(
    alloc: Global,
    ruling: Ruling,
    charge: Option<u64>,
    intent: &Intent,
) -> Result<Intent, NoMemory>
    ensures { IfOk result (λ settled. settled ≡ settled_intent ruling charge intent.now) }
{
    let mut settled = ruled_intent(alloc, ruling, intent)?;
    settled.latest_charge = charge;
    Ok(settled)
}

// Adds the charge that a ruling makes of a payment intent. The answer is the payment intent's latest charge, which a
// challenge leaves as it was.
fn add_charge(
    alloc: Global,
    ruling: Ruling,
    account: u64,
    object: u64,
    intent: &Intent,
    batch: &mut Batch,
) -> Result<Option<u64>, NoMemory>
    ensures latest { IfOk result (λ charge. charge ≡ charge_after ruling intent.now batch.old) }
    ensures batch { OnOk result (batch.new ≡ with_charge ruling account object intent.now batch.old) }
{
    match ruling {
        Ruling::Approved => Ok(Some(approve(alloc, account, object, intent, batch)?)),
        Ruling::Declined(_) => Ok(Some(decline(alloc, account, object, intent, batch)?)),
        Ruling::Challenge => Ok(intent.latest_charge),
    }
}

// What tells of an approval.
fn approved_event(capture: CaptureMethod) -> EventKind
    ensures { result ≡ approved_event capture }
{
    match capture {
        CaptureMethod::Automatic | CaptureMethod::AutomaticAsync => EventKind::IntentSucceeded,
        CaptureMethod::Manual => EventKind::IntentAmountCapturableUpdated,
    }
}

// What tells of a ruling.
fn settled_event(ruling: Ruling, capture: CaptureMethod) -> EventKind
    ensures { result ≡ settled_event ruling capture }
{
    match ruling {
        Ruling::Approved => approved_event(capture),
        Ruling::Declined(_) => EventKind::IntentPaymentFailed,
        Ruling::Challenge => EventKind::IntentRequiresAction,
    }
}

// An attempt after a ruling.
fn settled_attempt(ruling: Ruling, attempt: Attempt) -> Attempt
    ensures { result ≡ settled_attempt ruling attempt }
{
    Attempt {
        intent: attempt.intent,
        order: attempt.order,
        state: settled_state(ruling),
        opener: attempt.opener,
    }
}

// Adds what a ruling makes of a payment intent: its charge, and a further version of it, which is announced, and
// behind that the split.
fn rule(
    alloc: Global,
    ruling: Ruling,
    account: u64,
    object: u64,
    intent: &Intent,
    batch: &mut Batch,
) -> Result<(), NoMemory>
    ensures { OnOk result (batch.new ≡ with_ruling ruling account object intent.now batch.old) }
{
    let charge = add_charge(alloc, ruling, account, object, intent, batch)?;
    let settled = settled_intent(alloc, ruling, charge, intent)?;
    let sort = settled_event(ruling, intent.capture_method);
    tell_all(alloc, account, object, settled, sort, batch)
}

/// Adds what a ruling makes of an attempt and of its payment intent, and announces it: approved, the payment intent
/// has a charge, which is captured at once or waits for its capture; declined, it has a failed charge, waits for
/// another payment method and tells why; challenged, it waits for its customer. The answer is the payment intent's
/// number; where there is no such attempt or payment intent it is 0, and nothing is added.
pub fn settle<V: View>(
    alloc: Global,
    view: &V,
    attempt: u64,
    ruling: Ruling,
    batch: &mut Batch,
) -> Result<u64, NoMemory>
    ensures { IfOk result (λ object. seen (settle_outcome (V.state view.now).rows attempt ruling batch.old) ≡ Added object None batch.new) }
{
    let Some(row) = view.latest(attempt) else {
        return Ok(0);
    };
    let Some(attempt) = row.item.attempt() else {
        return Ok(0);
    };
    let Some(intent_row) = view.latest(attempt.intent) else {
        return Ok(0);
    };
    let Some(intent) = intent_row.item.intent() else {
        return Ok(0);
    };
    let settled = Item::Attempt(settled_attempt(ruling, *attempt));
    batch.change(row.object, row.account, settled)?;
    rule(
        alloc,
        ruling,
        intent_row.account,
        intent_row.object,
        intent,
        batch,
    )?;
    Ok(intent_row.object)
}
