//! The charges that are disputed as soon as they are captured.
ghost use Rattle.std.specs.Prelude.{◌≡◌, OnOk};
ghost use Rattle.ph_disputes.specs.Due.{due_charge, is_disputed_by, is_disputing, is_due, open_due_of};

use crate::opening::open;
use ph_base::{Method, NoMemory};
use ph_items::{Charge, PaymentMethod};
use ph_rows::{Batch, View};
use std::alloc::Global;

// Whether what a method pays is disputed.
fn is_disputing(method: Method) -> bool
    ensures { result ≡ is_disputing method }
{
    match method {
        Method::Dispute => true,
        Method::Visa
        | Method::Declined
        | Method::NoFunds
        | Method::Challenge
        | Method::Authenticated
        | Method::Bypass
        | Method::Slow(_)
        | Method::Lost => false,
    }
}

// Whether what a payment method pays is disputed.
fn is_disputed_by(method: &Option<PaymentMethod>) -> bool
    ensures { result ≡ is_disputed_by method.now }
{
    match method {
        Some(method) => is_disputing(method.method),
        None => false,
    }
}

// Whether a dispute of a charge is due.
fn is_due(charge: &Charge) -> bool
    ensures { result ≡ is_due charge.now }
{
    charge.capture.is_some() && is_disputed_by(&charge.payment_method) && !charge.dispute.is_some()
}

// The number of the latest charge of a payment intent, where the batch has versions of both and a dispute of the
// charge is due.
fn due_charge(batch: &Batch, intent: u64) -> Option<u64>
    ensures { result ≡ due_charge batch.now.rows intent }
{
    let number = batch.latest(intent)?.item.intent()?.latest_charge?;
    let charge = batch.latest(number)?.item.charge()?;
    if is_due(charge) { Some(number) } else { None }
}

/// Opens a dispute of the latest charge of a payment intent, where the batch has versions of both, the charge is
/// captured, its payment method is one whose payments are disputed, and it has no dispute; else nothing is added. It is
/// to be called after a ruling and after a capture.
pub fn open_due<V: View>(
    alloc: Global,
    view: &V,
    intent: u64,
    batch: &mut Batch,
) -> Result<(), NoMemory>
    ensures { OnOk result (batch.new ≡ open_due_of (V.state view.now).rows intent batch.old) }
{
    match due_charge(batch, intent) {
        Some(charge) => {
            open(alloc, view, charge, batch)?;
            Ok(())
        }
        None => Ok(()),
    }
}
