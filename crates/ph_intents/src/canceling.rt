//! The cancel.
ghost use Rattle.std.specs.Prelude.{◌≡◌, IfOk};
ghost use Rattle.ph_facts.specs.Outcomes.{Gives};
ghost use Rattle.ph_intents.specs.Cancel.{cancel_of, cancel_outcome, canceled_intent};

use crate::refusals::{no_such_intent, unexpected_state};
use crate::statuses::{Step, next_status};
use crate::versions::tell_version;
use ph_base::{Kind, NoMemory};
use ph_calls::CancelIntent;
use ph_errors::Refusal;
use ph_items::{CancellationReason, EventKind, Intent, IntentStatus};
use ph_money::Amount;
use ph_rows::{Batch, View, owned_named};
use std::alloc::Global;

// A payment intent that is canceled, for a reason or none.
fn canceled_intent(
    alloc: Global,
    reason: Option<CancellationReason>,
    intent: &Intent,
    status: IntentStatus,
) -> Result<Intent, NoMemory>
    ensures { IfOk result (λ canceled. canceled ≡ canceled_intent reason intent.now status) }
{
    let mut canceled = intent.copy(alloc)?;
    canceled.status = status;
    canceled.cancellation_reason = reason;
    canceled.amount_capturable = Amount::new(0);
    Ok(canceled)
}

// The cancel of a payment intent, where its status allows it.
fn cancel_intent(
    alloc: Global,
    account: u64,
    reason: Option<CancellationReason>,
    object: u64,
    intent: &Intent,
    batch: &mut Batch,
) -> Result<u64, Refusal>
    ensures { Gives (cancel_of account reason batch.old object intent.now) batch.old result batch.new }
{
    match next_status(intent.status, Step::Cancel) {
        Some(status) => {
            let canceled = canceled_intent(alloc, reason, intent, status)?;
            tell_version(account, object, canceled, EventKind::IntentCanceled, batch)?;
            Ok(object)
        }
        None => Err(unexpected_state(alloc)),
    }
}

/// Cancels the payment intent that the path names. It is refused where the account has no such payment intent, and
/// where its status doesn't allow it. The answer is its number.
pub fn cancel<V: View>(
    alloc: Global,
    view: &V,
    account: u64,
    call: &CancelIntent,
    batch: &mut Batch,
) -> Result<u64, Refusal>
    ensures { Gives (cancel_outcome (V.state view.now).rows account call.now batch.old) batch.old result batch.new }
{
    let Some(row) = owned_named(view, account, Kind::Intent, call.id.as_slice()) else {
        return Err(no_such_intent(alloc));
    };
    let Some(intent) = row.item.intent() else {
        return Err(no_such_intent(alloc));
    };
    let reason = call.cancellation_reason;
    cancel_intent(alloc, account, reason, row.object, intent, batch)
}
