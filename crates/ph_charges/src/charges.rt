//! The versions of a charge.
ghost use Rattle.std.specs.Prelude.{◌≡◌, ◌+◌, ◌<◌, ◌^◌, OnOk, IfOk};
ghost use Rattle.ph_rows.specs.Batches.{last_place};
ghost use Rattle.ph_charges.specs.Charges.{drawn_by_capture, new_charge, with_captured};

use crate::splits::{add_split, split_capture};
use ph_base::NoMemory;
use ph_items::{Charge, ChargeSort, ChargeStatus, Intent, Item, copy_method, copy_text};
use ph_money::Amount;
use ph_rows::Batch;
use std::alloc::Global;

// Places of rows are below this.
const MOST_PLACES: u64 = 1 << 61;

/// The charge of a payment intent on which the acquirer ruled, with a number: nothing of it is captured yet.
pub fn new_charge(
    alloc: Global,
    object: u64,
    intent: &Intent,
    status: ChargeStatus,
) -> Result<Charge, NoMemory>
    ensures { IfOk result (λ charge. charge ≡ new_charge object intent.now status) }
{
    Ok(Charge {
        sort: ChargeSort::Card(object),
        amount: intent.amount,
        amount_captured: Amount::new(0),
        amount_refunded: Amount::new(0),
        amount_transferred: Amount::new(0),
        currency: intent.currency,
        status,
        payment_method: copy_method(alloc, intent.payment_method.as_ref())?,
        application_fee_amount: intent.application_fee_amount,
        destination: intent.destination,
        capture: None,
        dispute: None,
        description: copy_text(alloc, intent.description.as_ref())?,
        metadata: intent.metadata.copy(alloc)?,
        transfer_group: copy_text(alloc, intent.transfer_group.as_ref())?,
    })
}

// What is drawn on a charge by the capture of an amount.
fn drawn_by_capture(destination: Option<u64>, amount: Amount) -> Amount
    ensures { result ≡ drawn_by_capture destination amount }
{
    match destination {
        Some(_) => amount,
        None => Amount::new(0),
    }
}

// The place of the row behind the next one.
fn second_place(batch: &Batch) -> Result<u64, NoMemory>
    ensures place { IfOk result (λ place. place ≡ last_place batch.now + 2) }
    ensures few { IfOk result (λ place. place < 2 ^ 62) }
{
    // No memory holds so many rows that 62 bits don't number them.
    if batch.count() < MOST_PLACES {
        Ok(batch.count() + 2)
    } else {
        Err(NoMemory)
    }
}

/// Adds a version of a charge of which an amount is captured, and the split of it.
pub fn add_captured(
    alloc: Global,
    account: u64,
    object: u64,
    charge: &Charge,
    amount: Amount,
    batch: &mut Batch,
) -> Result<(), NoMemory>
    ensures { OnOk result (batch.new ≡ with_captured account object charge.now amount batch.old) }
{
    let place = second_place(batch)?;
    let mut captured = charge.copy(alloc)?;
    captured.amount_captured = amount;
    captured.amount_transferred = drawn_by_capture(charge.destination, amount);
    captured.capture = Some(split_capture(place, account, charge, amount, batch.at()));
    batch.change(object, account, Item::Charge(captured))?;
    add_split(alloc, place, account, object, charge, amount, batch)
}
