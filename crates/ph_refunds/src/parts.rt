//! The parts of the transfer and of the application fee of a charge that its refund takes back and gives back.
ghost use Rattle.std.specs.Prelude.{◌≡◌, ◌<◌, ◌≤◌, IfErr, IfOk, Ok, option_and_then};
ghost use Rattle.std.specs.Option.{option_copied};
ghost use Rattle.ph_calls.specs.Check.{Refuses};
ghost use Rattle.ph_refunds.specs.Parts.{IsLeftOfFee, IsLeftOfTransfer, captured_fee, captured_transfer, fee_asked, fee_due, fee_taken, fee_version, latest_named, part_taken, transfer_asked, transfer_due, transfer_taken, transfer_version};
ghost use Rattle.ph_refunds.specs.Refunds.{left_of};

use ph_base::NoMemory;
use ph_calls::CreateRefund;
use ph_errors::{ApiError, Refusal};
use ph_items::{Charge, Fee, Transfer};
use ph_money::{Amount, part};
use ph_reversals::{left_of_fee, left_of_transfer};
use ph_rows::{Row, View};
use std::alloc::Global;

/// What a refund takes back of a transfer.
#[derive(Drop)]
pub struct TransferPart {
    /// The number of the transfer.
    pub object: u64,
    /// The number of the account that it belongs to.
    pub account: u64,
    /// Its present version.
    pub transfer: Transfer,
    /// What is taken back, in minor units of its currency, and never 0.
    pub amount: Amount,
}

/// What a refund gives back of an application fee.
#[derive(Clone, Copy)]
pub struct FeePart {
    /// The number of the application fee.
    pub object: u64,
    /// The number of the account that it belongs to.
    pub account: u64,
    /// Its present version.
    pub fee: Fee,
    /// What is given back, in minor units of its currency, and never 0.
    pub amount: Amount,
}

// What a refund of an amount of a charge takes of a whole of which so much is left.
fn part_taken(whole: Amount, left: Amount, charge: &Charge, amount: Amount) -> Amount
    requires some { 0 < left_of charge.now }
    requires within { amount ≤ left_of charge.now }
    ensures exact { result ≡ part_taken whole left charge.now amount }
    ensures most { result ≤ left }
{
    let captured = charge.amount_captured.units();
    if charge.amount_refunded.units() + amount.units() == captured {
        return left;
    }
    let share = part(whole.units(), amount.units(), captured);
    Amount::new(share.min(left.units()))
}

// The present version of the object of a number, where one is named.
fn latest_named<V: View>(view: &V, number: Option<u64>) -> Option<&Row>
    ensures { option_copied result ≡ latest_named (V.state view.now).rows number }
{
    view.latest(number?)
}

// What a refund of an amount takes back of the transfer whose version is in a row.
fn transfer_taken(
    alloc: Global,
    charge: &Charge,
    amount: Amount,
    row: &Row,
    transfer: &Transfer,
) -> Result<Option<TransferPart>, NoMemory>
    requires some { 0 < left_of charge.now }
    requires within { amount ≤ left_of charge.now }
    ensures exact { IfOk result (λ part. part ≡ transfer_taken charge.now amount (record { row = row.now; transfer = transfer.now })) }
    ensures most { IfOk result IsLeftOfTransfer }
{
    let amount = part_taken(transfer.amount, left_of_transfer(transfer), charge, amount);
    if amount.units() == 0 {
        return Ok(None);
    }
    Ok(Some(TransferPart {
        object: row.object,
        account: row.account,
        transfer: transfer.copy(alloc)?,
        amount,
    }))
}

// What a refund of an amount takes back of the transfer whose version is in a row; it is refused where there is none.
fn transfer_due(
    alloc: Global,
    charge: &Charge,
    amount: Amount,
    row: Option<&Row>,
) -> Result<Option<TransferPart>, Refusal>
    requires some { 0 < left_of charge.now }
    requires within { amount ≤ left_of charge.now }
    ensures exact { IfOk result (λ part. transfer_due charge.now amount (option_and_then transfer_version (option_copied row.entry)) ≡ Ok part) }
    ensures most { IfOk result IsLeftOfTransfer }
    ensures refusal { IfErr result (Refuses (transfer_due charge.now amount (option_and_then transfer_version (option_copied row.entry)))) }
{
    let name = b"reverse_transfer";
    let Some(row) = row else {
        return Err(Refusal::of(ApiError::invalid_value(alloc, name)));
    };
    match row.item.transfer() {
        Some(transfer) => {
            let part = transfer_taken(alloc, charge, amount, row, transfer)?;
            Ok(part)
        }
        None => Err(Refusal::of(ApiError::invalid_value(alloc, name))),
    }
}

/// What a refund of an amount takes back of the transfer of its charge; nothing where its call doesn't ask for it. It is
/// refused where the charge has no transfer.
pub fn transfer_asked<V: View>(
    alloc: Global,
    view: &V,
    call: &CreateRefund,
    charge: &Charge,
    amount: Amount,
) -> Result<Option<TransferPart>, Refusal>
    requires some { 0 < left_of charge.now }
    requires within { amount ≤ left_of charge.now }
    ensures exact { IfOk result (λ part. transfer_asked call.now charge.now amount (captured_transfer (V.state view.now).rows charge.now.capture) ≡ Ok part) }
    ensures most { IfOk result IsLeftOfTransfer }
    ensures refusal { IfErr result (Refuses (transfer_asked call.now charge.now amount (captured_transfer (V.state view.now).rows charge.now.capture))) }
{
    if !call.reverse_transfer {
        return Ok(None);
    }
    let number = charge.capture.and_then(|capture| capture.transfer);
    transfer_due(alloc, charge, amount, latest_named(view, number))
}

// What a refund of an amount gives back of the application fee whose version is in a row.
fn fee_taken(charge: &Charge, amount: Amount, row: &Row, fee: &Fee) -> Option<FeePart>
    requires some { 0 < left_of charge.now }
    requires within { amount ≤ left_of charge.now }
    ensures exact { result ≡ fee_taken charge.now amount (record { row = row.now; fee = fee.now }) }
    ensures most { IsLeftOfFee result }
{
    let amount = part_taken(fee.amount, left_of_fee(fee), charge, amount);
    if amount.units() == 0 {
        return None;
    }
    Some(FeePart {
        object: row.object,
        account: row.account,
        fee: *fee,
        amount,
    })
}

// What a refund of an amount gives back of the application fee whose version is in a row; it is refused where there is
// none.
fn fee_due(
    alloc: Global,
    charge: &Charge,
    amount: Amount,
    row: Option<&Row>,
) -> Result<Option<FeePart>, Refusal>
    requires some { 0 < left_of charge.now }
    requires within { amount ≤ left_of charge.now }
    ensures exact { IfOk result (λ part. fee_due charge.now amount (option_and_then fee_version (option_copied row.entry)) ≡ Ok part) }
    ensures most { IfOk result IsLeftOfFee }
    ensures refusal { IfErr result (Refuses (fee_due charge.now amount (option_and_then fee_version (option_copied row.entry)))) }
{
    let name = b"refund_application_fee";
    let Some(row) = row else {
        return Err(Refusal::of(ApiError::invalid_value(alloc, name)));
    };
    match row.item.fee() {
        Some(fee) => Ok(fee_taken(charge, amount, row, fee)),
        None => Err(Refusal::of(ApiError::invalid_value(alloc, name))),
    }
}

/// What a refund of an amount gives back of the application fee of its charge; nothing where its call doesn't ask for it.
/// It is refused where the charge has no application fee.
pub fn fee_asked<V: View>(
    alloc: Global,
    view: &V,
    call: &CreateRefund,
    charge: &Charge,
    amount: Amount,
) -> Result<Option<FeePart>, Refusal>
    requires some { 0 < left_of charge.now }
    requires within { amount ≤ left_of charge.now }
    ensures exact { IfOk result (λ part. fee_asked call.now charge.now amount (captured_fee (V.state view.now).rows charge.now.capture) ≡ Ok part) }
    ensures most { IfOk result IsLeftOfFee }
    ensures refusal { IfErr result (Refuses (fee_asked call.now charge.now amount (captured_fee (V.state view.now).rows charge.now.capture))) }
{
    if !call.refund_application_fee {
        return Ok(None);
    }
    let number = charge.capture.and_then(|capture| capture.fee);
    fee_due(alloc, charge, amount, latest_named(view, number))
}
