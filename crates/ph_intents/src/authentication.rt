//! The authentication of a customer.
ghost use Rattle.std.specs.Prelude.{◌≡◌, IfOk};
ghost use Rattle.ph_facts.specs.Outcomes.{Gives};
ghost use Rattle.ph_intents.specs.Begun.{GivesBegun};
ghost use Rattle.ph_intents.specs.Authenticate.{authenticate_of, authenticate_outcome, authenticated_intent, fail_authentication_outcome, fail_of, failed_intent};

use crate::attempts::add_attempted;
use crate::begins::Begun;
use crate::refusals::{no_such_intent, unexpected_state};
use crate::statuses::{Step, next_status};
use crate::versions::tell_version;
use ph_base::{Kind, Method, NoMemory};
use ph_calls::Authenticate;
use ph_errors::Refusal;
use ph_items::{EventKind, Intent, IntentStatus, PaymentError};
use ph_rows::{Batch, View, owned_named};
use std::alloc::Global;

// A payment intent whose customer has authenticated: its payment method stays.
fn authenticated_intent(
    alloc: Global,
    intent: &Intent,
    status: IntentStatus,
) -> Result<Intent, NoMemory>
    ensures { IfOk result (λ authenticated. authenticated ≡ authenticated_intent intent.now status) }
{
    let mut authenticated = intent.copy(alloc)?;
    authenticated.status = status;
    authenticated.last_payment_error = None;
    Ok(authenticated)
}

// The authentication of a payment intent's customer, where its status waits for that.
fn authenticate_intent(
    alloc: Global,
    account: u64,
    object: u64,
    intent: &Intent,
    batch: &mut Batch,
) -> Result<Begun, Refusal>
    ensures { GivesBegun (authenticate_of account batch.old object intent.now) batch.old result batch.new }
{
    match next_status(intent.status, Step::Authenticate) {
        Some(status) => {
            let authenticated = authenticated_intent(alloc, intent, status)?;
            add_attempted(account, object, authenticated, Method::Authenticated, batch)
        }
        None => Err(unexpected_state(alloc)),
    }
}

/// The authentication for the payment intent that the path names, which succeeded.
pub fn authenticate<V: View>(
    alloc: Global,
    view: &V,
    account: u64,
    call: &Authenticate,
    batch: &mut Batch,
) -> Result<Begun, Refusal>
    ensures { GivesBegun (authenticate_outcome (V.state view.now).rows account call.now batch.old) batch.old result batch.new }
{
    let Some(row) = owned_named(view, account, Kind::Intent, call.id.as_slice()) else {
        return Err(no_such_intent(alloc));
    };
    let Some(intent) = row.item.intent() else {
        return Err(no_such_intent(alloc));
    };
    authenticate_intent(alloc, account, row.object, intent, batch)
}

/// A payment intent that its payment method didn't pay: the payment method goes, and the reason stays.
pub fn failed_intent(
    alloc: Global,
    error: PaymentError,
    intent: &Intent,
    status: IntentStatus,
) -> Result<Intent, NoMemory>
    ensures { IfOk result (λ failed. failed ≡ failed_intent error intent.now status) }
{
    let mut failed = intent.copy(alloc)?;
    failed.status = status;
    failed.payment_method = None;
    failed.last_payment_error = Some(error);
    Ok(failed)
}

// The failure of a payment intent's customer to authenticate, where its status waits for that.
fn fail_intent(
    alloc: Global,
    account: u64,
    object: u64,
    intent: &Intent,
    batch: &mut Batch,
) -> Result<u64, Refusal>
    ensures { Gives (fail_of account batch.old object intent.now) batch.old result batch.new }
{
    match next_status(intent.status, Step::Fail) {
        Some(status) => {
            let failed = failed_intent(alloc, PaymentError::NotAuthenticated, intent, status)?;
            let sort = EventKind::IntentPaymentFailed;
            tell_version(account, object, failed, sort, batch)?;
            Ok(object)
        }
        None => Err(unexpected_state(alloc)),
    }
}

/// Fails the payment intent that the path names, since its customer failed to authenticate. It is refused where the
/// account has no such payment intent, and where its status doesn't wait for an authentication. The answer is its
/// number.
pub fn fail_authentication<V: View>(
    alloc: Global,
    view: &V,
    account: u64,
    call: &Authenticate,
    batch: &mut Batch,
) -> Result<u64, Refusal>
    ensures { Gives (fail_authentication_outcome (V.state view.now).rows account call.now batch.old) batch.old result batch.new }
{
    let Some(row) = owned_named(view, account, Kind::Intent, call.id.as_slice()) else {
        return Err(no_such_intent(alloc));
    };
    let Some(intent) = row.item.intent() else {
        return Err(no_such_intent(alloc));
    };
    fail_intent(alloc, account, row.object, intent, batch)
}
