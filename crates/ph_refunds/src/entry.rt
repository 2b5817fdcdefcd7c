//! The rows that a refund adds.
ghost use Rattle.std.specs.Prelude.{◌≡◌, ◌+◌, ◌≤◌, ◌-◌, ◌<◌, max, IfOk, OnOk, Option};
ghost use Rattle.std.specs.Option.{option_copied};
ghost use Rattle.ph_rows.specs.Batches.{last_place};
ghost use Rattle.ph_refunds.specs.Entry.{new_refund, refund_rows, refund_txn, refunded_charge, reversal_made, with_fee_told, with_part_given_back, with_refund_txn, with_refunded, with_taken_back, with_transfer_told};
ghost use Rattle.ph_refunds.specs.Parts.{IsLeftOfFee, IsLeftOfTransfer};
ghost use Rattle.ph_refunds.specs.Refunds.{left_of};

use crate::parts::{FeePart, TransferPart};
use ph_base::NoMemory;
use ph_calls::CreateRefund;
use ph_items::{Capture, Charge, EventKind, Item, Metadata, Refund, Txn, TxnSource, TxnType};
use ph_kinds::first_metadata;
use ph_money::{Amount, SignedAmount};
use ph_reversals::{
    add_fee_refund, add_reversal, left, taken_with, tell_given_back, tell_reversed,
};
use ph_rows::Batch;
use std::alloc::Global;

/// What can still be refunded of a charge, in minor units of its currency.
pub fn left_of(charge: &Charge) -> Amount
    ensures { result ≡ left_of charge.now }
{
    left(charge.amount_captured, charge.amount_refunded)
}

// The version of a charge of which an amount more is refunded.
fn refunded_charge(alloc: Global, amount: Amount, charge: &Charge) -> Result<Charge, NoMemory>
    requires within { amount ≤ left_of charge.now }
    ensures { IfOk result (λ refunded. refunded ≡ refunded_charge amount charge.now) }
{
    let mut refunded = charge.copy(alloc)?;
    let (captured, before) = (charge.amount_captured, charge.amount_refunded);
    refunded.amount_refunded = taken_with(captured, before, amount);
    Ok(refunded)
}

// The number of the reversal that a refund makes whose row is the next one, where it takes a part of a transfer back.
fn reversal_made(batch: &Batch, transfer: &Option<TransferPart>) -> Result<Option<u64>, NoMemory>
    ensures { IfOk result (λ number. number ≡ reversal_made batch.now transfer.now) }
{
    match transfer {
        Some(_) => match batch.count().checked_add(3) {
            Some(number) => Ok(Some(number)),
            // No memory holds so many rows that 64 bits don't number them.
            None => Err(NoMemory),
        },
        None => Ok(None),
    }
}

// The refund of an amount of a charge and of a part of its transfer, or none, whose row is the next one.
fn new_refund(
    alloc: Global,
    call: &CreateRefund,
    object: u64,
    charge: &Charge,
    amount: Amount,
    transfer: &Option<TransferPart>,
    batch: &Batch,
) -> Result<Refund, NoMemory>
    ensures { IfOk result (λ refund. refund ≡ new_refund call.now object charge.now amount transfer.now batch.now) }
{
    // No memory holds so many rows that 64 bits don't number them.
    let Some(transaction) = batch.count().checked_add(2) else {
        return Err(NoMemory);
    };
    Ok(Refund {
        charge: object,
        intent: charge.sort.intent(),
        amount,
        currency: charge.currency,
        reason: call.reason,
        metadata: first_metadata(alloc, call.metadata.as_ref())?,
        transaction,
        reversal: reversal_made(batch, transfer)?,
    })
}

// The transaction that takes a refunded amount.
fn refund_txn(number: u64, charge: &Charge, amount: Amount, available_on: u64) -> Txn
    ensures { result ≡ refund_txn number charge.now amount available_on }
{
    Txn {
        sort: TxnType::Refund,
        amount: SignedAmount::taken(amount),
        fee: SignedAmount::new(0),
        currency: charge.currency,
        available_on,
        source: TxnSource::Refund(number),
    }
}

// Adds the transaction of the refund in the batch's last row.
fn add_refund_txn(
    account: u64,
    charge: &Charge,
    amount: Amount,
    available_on: u64,
    batch: &mut Batch,
) -> Result<(), NoMemory>
    ensures { OnOk result (batch.new ≡ with_refund_txn account charge.now amount available_on batch.old) }
{
    let txn = refund_txn(batch.count(), charge, amount, available_on);
    batch.add(account, Item::Txn(txn))?;
    Ok(())
}

// Adds a version of a charge of which a refund is told.
fn tell_refunded(
    account: u64,
    object: u64,
    charge: Charge,
    batch: &mut Batch,
) -> Result<(), NoMemory>
    ensures { OnOk result (batch.new ≡ with_refunded account object charge batch.old) }
{
    batch.change(object, account, Item::Charge(charge))?;
    batch.announce(EventKind::ChargeRefunded, object)
}

// Adds what the refund of a number takes back of a transfer, where it does.
fn take_back(
    alloc: Global,
    refund: u64,
    transfer: &Option<TransferPart>,
    batch: &mut Batch,
) -> Result<(), NoMemory>
    ensures { OnOk result (batch.new ≡ with_taken_back refund transfer.now batch.old) }
{
    let Some(part) = transfer else {
        return Ok(());
    };
    let metadata = Metadata::new(alloc);
    add_reversal(
        part.object,
        &part.transfer,
        part.amount,
        Some(refund),
        metadata,
        batch,
    )?;
    Ok(())
}

// Adds what a refund gives back of an application fee, where it does.
fn give_back(alloc: Global, fee: &Option<FeePart>, batch: &mut Batch) -> Result<(), NoMemory>
    ensures { OnOk result (batch.new ≡ with_part_given_back fee.now batch.old) }
{
    let Some(part) = fee else {
        return Ok(());
    };
    let metadata = Metadata::new(alloc);
    add_fee_refund(part.object, &part.fee, part.amount, metadata, batch)?;
    Ok(())
}

// Adds the version of the transfer of which a part was taken back, where one was.
fn tell_transfer(transfer: Option<TransferPart>, batch: &mut Batch) -> Result<(), NoMemory>
    requires within { IsLeftOfTransfer transfer }
    ensures { OnOk result (batch.new ≡ with_transfer_told transfer batch.old) }
{
    let Some(part) = transfer else {
        return Ok(());
    };
    tell_reversed(part.account, part.object, part.transfer, part.amount, batch)
}

// Adds the version of the application fee of which a part was given back, where one was.
fn tell_fee(fee: Option<FeePart>, batch: &mut Batch) -> Result<(), NoMemory>
    requires within { IsLeftOfFee fee }
    ensures { OnOk result (batch.new ≡ with_fee_told fee batch.old) }
{
    let Some(part) = fee else {
        return Ok(());
    };
    tell_given_back(part.account, part.object, &part.fee, part.amount, batch)
}

/// Adds the refund of an amount that is left of a captured charge of an account, and of parts of its transfer and of its
/// application fee: the refund, its transaction, the reversal and the fee refund that it makes, and the versions of the
/// charge, of which `charge.refunded` tells, the transfer and the application fee. The answer is the refund's number.
pub fn add_refund(
    alloc: Global,
    call: &CreateRefund,
    account: u64,
    object: u64,
    charge: &Charge,
    capture: Capture,
    amount: Amount,
    transfer: Option<TransferPart>,
    fee: Option<FeePart>,
    batch: &mut Batch,
) -> Result<u64, NoMemory>
    requires within { amount ≤ left_of charge.now }
    requires of_transfer { IsLeftOfTransfer transfer }
    requires of_fee { IsLeftOfFee fee }
    ensures number { IfOk result (λ number. number ≡ last_place batch.old + 1) }
    ensures rows { OnOk result (batch.new ≡ refund_rows call.now account object charge.now capture amount transfer fee batch.old) }
{
    let available_on = batch.at().max(capture.available_on);
    let refund = new_refund(alloc, call, object, charge, amount, &transfer, batch)?;
    let number = batch.add(account, Item::Refund(refund))?;
    add_refund_txn(account, charge, amount, available_on, batch)?;
    take_back(alloc, number, &transfer, batch)?;
    give_back(alloc, &fee, batch)?;
    let refunded = refunded_charge(alloc, amount, charge)?;
    tell_refunded(account, object, refunded, batch)?;
    tell_transfer(transfer, batch)?;
    tell_fee(fee, batch)?;
    Ok(number)
}
