//! What a ruling of the acquirer adds beside the payment intent's own version: its charge.
ghost use Rattle.std.specs.Prelude.{◌≡◌, OnOk, IfOk};
ghost use Rattle.ph_charges.specs.Approvals.{approval_of, charge_number, decline_of, with_approved};

use crate::charges::{add_captured, new_charge};
use ph_base::NoMemory;
use ph_items::{CaptureMethod, Charge, ChargeStatus, EventKind, Intent, Item};
use ph_rows::Batch;
use std::alloc::Global;

/// Adds the charge of a payment intent that the acquirer approved, given the payment intent's account, its number and
/// its last version: captured whole, with its split, or held for a capture, as the payment intent's capture method
/// says. It announces `charge.succeeded`. The answer is the charge's number.
pub fn approve(
    alloc: Global,
    account: u64,
    object: u64,
    intent: &Intent,
    batch: &mut Batch,
) -> Result<u64, NoMemory>
    ensures number { IfOk result (λ charge. charge ≡ charge_number batch.old) }
    ensures batch { OnOk result (batch.new ≡ approval_of account object intent.now batch.old) }
{
    let number = next_number(batch)?;
    let charge = new_charge(alloc, object, intent, ChargeStatus::Succeeded)?;
    add_approved(alloc, intent.capture_method, account, number, charge, batch)?;
    batch.announce(EventKind::ChargeSucceeded, number)?;
    Ok(number)
}

/// Adds the failed charge of a payment intent that the acquirer declined, and announces `charge.failed`. The answer is
/// the charge's number.
pub fn decline(
    alloc: Global,
    account: u64,
    object: u64,
    intent: &Intent,
    batch: &mut Batch,
) -> Result<u64, NoMemory>
    ensures number { IfOk result (λ charge. charge ≡ charge_number batch.old) }
    ensures batch { OnOk result (batch.new ≡ decline_of account object intent.now batch.old) }
{
    let charge = new_charge(alloc, object, intent, ChargeStatus::Failed)?;
    let number = batch.add(account, Item::Charge(charge))?;
    batch.announce(EventKind::ChargeFailed, number)?;
    Ok(number)
}

// The number of a charge whose row is the next one.
fn next_number(batch: &Batch) -> Result<u64, NoMemory>
    ensures { IfOk result (λ number. number ≡ charge_number batch.now) }
{
    // No memory holds so many rows that 64 bits don't number them.
    match batch.count().checked_add(1) {
        Some(number) => Ok(number),
        None => Err(NoMemory),
    }
}

// Adds an approved charge: captured whole, or held.
fn add_approved(
    alloc: Global,
    capture: CaptureMethod,
    account: u64,
    number: u64,
    charge: Charge,
    batch: &mut Batch,
) -> Result<(), NoMemory>
    ensures { OnOk result (batch.new ≡ with_approved capture account number charge batch.old) }
{
    match capture {
        CaptureMethod::Automatic | CaptureMethod::AutomaticAsync => {
            add_captured(alloc, account, number, &charge, charge.amount, batch)
        }
        CaptureMethod::Manual => batch.change(number, account, Item::Charge(charge)),
    }
}
