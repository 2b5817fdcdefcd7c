//! The rows of a transfer.
ghost use Rattle.std.specs.Prelude.{◌≡◌, ◌+◌, ◌≤◌, ◌<◌, ◌^◌, max, IfOk, None, OnOk, Some};
ghost use Rattle.ph_rows.specs.Batches.{last_place};
ghost use Rattle.ph_transfers.specs.Entry.{drawn_charge, left_to_transfer, new_transfer, with_given, with_transfer};

use ph_base::NoMemory;
use ph_calls::CreateTransfer;
use ph_charges::add_transfer;
use ph_items::{Capture, Charge, EventKind, Item, Transfer, copy_text};
use ph_kinds::first_metadata;
use ph_money::Amount;
use ph_reversals::{left, next_number, taken_with};
use ph_rows::{Batch, Row};
use std::alloc::Global;

/// What can still be transferred of a charge, in minor units of its currency.
pub fn left_to_transfer(charge: &Charge) -> Amount
    ensures { result ≡ left_to_transfer charge.now }
{
    left(charge.amount_captured, charge.amount_transferred)
}

// The transfer of a number that a call makes to an account, drawn on the charge of a number or on none, that counts from a
// moment.
fn new_transfer(
    alloc: Global,
    call: &CreateTransfer,
    destination: u64,
    source: Option<u64>,
    available_on: u64,
    number: u64,
) -> Result<Transfer, NoMemory>
    requires { number < 2 ^ 63 }
    ensures { IfOk result (λ transfer. transfer ≡ new_transfer call.now destination source available_on number) }
{
    Ok(Transfer {
        amount: call.amount,
        amount_reversed: Amount::new(0),
        currency: call.currency,
        destination,
        payment: number + 2,
        source,
        transaction: number + 1,
        available_on,
        description: copy_text(alloc, call.description.as_ref())?,
        metadata: first_metadata(alloc, call.metadata.as_ref())?,
        transfer_group: copy_text(alloc, call.transfer_group.as_ref())?,
    })
}

// Adds the transfer that a call makes to an account, drawn on the charge of a number or on none, what it takes from the
// platform, the payment that it gives, and that one's transaction. The answer is the transfer's number.
fn add_given(
    alloc: Global,
    call: &CreateTransfer,
    destination: u64,
    source: Option<u64>,
    available_on: u64,
    batch: &mut Batch,
) -> Result<u64, NoMemory>
    ensures number { IfOk result (λ number. number ≡ last_place batch.old + 1) }
    ensures rows { OnOk result (batch.new ≡ with_given call.now destination source available_on batch.old) }
{
    let number = next_number(batch)?;
    let transfer = new_transfer(alloc, call, destination, source, available_on, number)?;
    add_transfer(alloc, number, transfer, Amount::new(0), batch)?;
    Ok(number)
}

/// Adds the transfer that a call makes to an account out of the platform's balance, and announces `transfer.created`. The
/// answer is its number.
pub fn add_of_balance(
    alloc: Global,
    call: &CreateTransfer,
    destination: u64,
    batch: &mut Batch,
) -> Result<u64, NoMemory>
    ensures number { IfOk result (λ number. number ≡ last_place batch.old + 1) }
    ensures rows { OnOk result (batch.new ≡ with_transfer call.now destination None batch.old) }
{
    let now = batch.at();
    let number = add_given(alloc, call, destination, None, now, batch)?;
    batch.announce(EventKind::TransferCreated, number)?;
    Ok(number)
}

// The version of a charge on which a transfer drew an amount more.
fn drawn_charge(alloc: Global, amount: Amount, charge: &Charge) -> Result<Charge, NoMemory>
    requires within { amount ≤ left_to_transfer charge.now }
    ensures { IfOk result (λ drawn. drawn ≡ drawn_charge amount charge.now) }
{
    let mut drawn = charge.copy(alloc)?;
    let (captured, before) = (charge.amount_captured, charge.amount_transferred);
    drawn.amount_transferred = taken_with(captured, before, amount);
    Ok(drawn)
}

/// Adds the transfer that a call makes to an account, drawn on a captured charge of which so much is left, and that one's
/// version, and announces `transfer.created`. The answer is its number.
pub fn add_drawn(
    alloc: Global,
    call: &CreateTransfer,
    destination: u64,
    row: &Row,
    charge: &Charge,
    capture: Capture,
    batch: &mut Batch,
) -> Result<u64, NoMemory>
    requires within { call.now.amount ≤ left_to_transfer charge.now }
    ensures number { IfOk result (λ number. number ≡ last_place batch.old + 1) }
    ensures rows { OnOk result (batch.new ≡ with_transfer call.now destination (Some (record { row = row.now; charge = charge.now; capture = capture })) batch.old) }
{
    let available_on = batch.at().max(capture.available_on);
    let source = Some(row.object);
    let number = add_given(alloc, call, destination, source, available_on, batch)?;
    let drawn = drawn_charge(alloc, call.amount, charge)?;
    batch.change(row.object, row.account, Item::Charge(drawn))?;
    batch.announce(EventKind::TransferCreated, number)?;
    Ok(number)
}
