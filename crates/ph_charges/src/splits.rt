//! The split of what is captured of a charge: to the platform, to a connected account, or to a destination.
ghost use Rattle.std.specs.Prelude.{◌≡◌, ◌+◌, ◌<◌, ◌^◌, ℤ, [], ◌∷◌, IfOk, OnOk};
ghost use Rattle.ph_charges.specs.NewRows.{with_new_rows};
ghost use Rattle.ph_charges.specs.Splits.{charge_row, destination_split, direct_split, fee_at, fee_in, fee_rows, fee_taken, plain_split, split_capture, split_fee, split_rows, split_transfer, split_txn, transfer_in};

use crate::moments::available_from;
use crate::transfers::add_transfer;
use ph_base::NoMemory;
use ph_items::{
    Capture, Charge, Fee, Item, Metadata, PLATFORM, Transfer, Txn, TxnSource, TxnType, copy_text,
};
use ph_money::{Amount, SignedAmount, fee};
use ph_rows::Batch;
use std::alloc::Global;

// What the platform takes for itself of an amount that is captured of a charge.
fn fee_taken(charge: &Charge, amount: Amount) -> Amount
    ensures { result ≡ fee_taken charge.now amount }
{
    match charge.application_fee_amount {
        Some(named) => Amount::new(named.units().min(amount.units())),
        None => Amount::new(0),
    }
}

// A transaction of what is captured now of a charge.
fn split_txn(
    charge: &Charge,
    sort: TxnType,
    amount: SignedAmount,
    fee: u64,
    source: TxnSource,
    now: u64,
) -> Txn
    requires { fee < 2 ^ 27 }
    ensures { result ≡ split_txn charge.now sort amount fee source now }
{
    Txn {
        sort,
        amount,
        fee: SignedAmount::new(fee),
        currency: charge.currency,
        available_on: available_from(&charge.payment_method, now),
        source,
    }
}

// Adds the transaction of an amount that is captured now of a charge, of which so much is kept.
fn add_charge_row(
    account: u64,
    object: u64,
    charge: &Charge,
    amount: Amount,
    kept: u64,
    batch: &mut Batch,
) -> Result<(), NoMemory>
    requires { kept < 2 ^ 27 }
    ensures { OnOk result (batch.new ≡ with_new_rows (charge_row account object charge.now amount kept batch.old.at ∷ []) batch.old) }
{
    let given = SignedAmount::given(amount);
    let source = TxnSource::Charge(object);
    let txn = split_txn(charge, TxnType::Charge, given, kept, source, batch.at());
    batch.add(account, Item::Txn(txn))?;
    Ok(())
}

// The transfer of a number, of an amount of a charge to a destination.
fn split_transfer(
    alloc: Global,
    number: u64,
    destination: u64,
    object: u64,
    charge: &Charge,
    amount: Amount,
    now: u64,
) -> Result<Transfer, NoMemory>
    requires { number < 2 ^ 63 }
    ensures { IfOk result (λ transfer. transfer ≡ split_transfer number destination object charge.now amount now) }
{
    Ok(Transfer {
        amount,
        amount_reversed: Amount::new(0),
        currency: charge.currency,
        destination,
        payment: number + 2,
        source: Some(object),
        transaction: number + 1,
        available_on: available_from(&charge.payment_method, now),
        description: None,
        metadata: Metadata::new(alloc),
        transfer_group: copy_text(alloc, charge.transfer_group.as_ref())?,
    })
}

// The application fee of a place, of a charge, that is taken from an account.
fn split_fee(place: u64, account: u64, object: u64, charge: &Charge, taken: Amount, now: u64) -> Fee
    requires { place < 2 ^ 63 }
    ensures { result ≡ split_fee place account object charge.now taken now }
{
    Fee {
        account,
        charge: object,
        amount: taken,
        amount_refunded: Amount::new(0),
        currency: charge.currency,
        transaction: place + 1,
        available_on: available_from(&charge.payment_method, now),
    }
}

// Adds an application fee, whose place is this, and the transaction that gives it to the platform; nothing where nothing
// is taken.
fn add_fee_rows(
    place: u64,
    account: u64,
    object: u64,
    charge: &Charge,
    taken: Amount,
    batch: &mut Batch,
) -> Result<(), NoMemory>
    requires { place < 2 ^ 63 }
    ensures { OnOk result (batch.new ≡ with_new_rows (fee_rows place account object charge.now taken batch.old.at) batch.old) }
{
    if taken.units() == 0 {
        return Ok(());
    }
    let now = batch.at();
    let fee = split_fee(place, account, object, charge, taken, now);
    batch.add(PLATFORM, Item::Fee(fee))?;
    let given = SignedAmount::given(taken);
    let source = TxnSource::Fee(place);
    let txn = split_txn(charge, TxnType::ApplicationFee, given, 0, source, now);
    batch.add(PLATFORM, Item::Txn(txn))?;
    Ok(())
}

// Adds the split of a charge that the platform makes for itself.
fn add_plain(
    account: u64,
    object: u64,
    charge: &Charge,
    amount: Amount,
    batch: &mut Batch,
) -> Result<(), NoMemory>
    ensures { OnOk result (batch.new ≡ with_new_rows (plain_split account object charge.now amount batch.old.at) batch.old) }
{
    let kept = fee(charge.currency, amount);
    add_charge_row(account, object, charge, amount, kept, batch)
}

// Adds the split of a charge of a connected account.
fn add_direct(
    place: u64,
    account: u64,
    object: u64,
    charge: &Charge,
    amount: Amount,
    batch: &mut Batch,
) -> Result<(), NoMemory>
    requires { place < 2 ^ 62 }
    ensures { OnOk result (batch.new ≡ with_new_rows (direct_split place account object charge.now amount batch.old.at) batch.old) }
{
    let taken = fee_taken(charge, amount);
    let kept = fee(charge.currency, amount) + taken.units();
    add_charge_row(account, object, charge, amount, kept, batch)?;
    add_fee_rows(place + 1, account, object, charge, taken, batch)
}

// Adds the split of a charge with a destination.
fn add_destination(
    alloc: Global,
    place: u64,
    destination: u64,
    account: u64,
    object: u64,
    charge: &Charge,
    amount: Amount,
    batch: &mut Batch,
) -> Result<(), NoMemory>
    requires { place < 2 ^ 62 }
    ensures { OnOk result (batch.new ≡ with_new_rows (destination_split place destination account object charge.now amount batch.old.at) batch.old) }
{
    add_plain(account, object, charge, amount, batch)?;
    let now = batch.at();
    let transfer = split_transfer(alloc, place + 1, destination, object, charge, amount, now)?;
    let taken = fee_taken(charge, amount);
    add_transfer(alloc, place + 1, transfer, taken, batch)?;
    add_fee_rows(place + 5, destination, object, charge, taken, batch)
}

/// Adds the split of an amount that is captured now of the charge of a number and an account: rows whose first one has
/// this place. What is captured of a charge without a destination goes to its account, and less what the platform takes
/// of it where that is a connected one; what is captured of a charge with a destination goes there by a transfer.
pub fn add_split(
    alloc: Global,
    place: u64,
    account: u64,
    object: u64,
    charge: &Charge,
    amount: Amount,
    batch: &mut Batch,
) -> Result<(), NoMemory>
    requires { place < 2 ^ 62 }
    ensures { OnOk result (batch.new ≡ with_new_rows (split_rows place account object charge.now amount batch.old.at) batch.old) }
{
    match charge.destination {
        Some(to) => add_destination(alloc, place, to, account, object, charge, amount, batch),
        None => {
            if account == PLATFORM {
                add_plain(account, object, charge, amount, batch)
            } else {
                add_direct(place, account, object, charge, amount, batch)
            }
        }
    }
}

// The number of the application fee that stands at a place; none where nothing is taken.
fn fee_at(place: u64, taken: Amount) -> Option<u64>
    ensures { result ≡ fee_at place taken }
{
    if taken.units() == 0 {
        None
    } else {
        Some(place)
    }
}

// The number of the application fee in a split whose first row has this place.
fn fee_in(destination: Option<u64>, place: u64, account: u64, taken: Amount) -> Option<u64>
    requires { place < 2 ^ 62 }
    ensures { result ≡ fee_in destination place account taken }
{
    match destination {
        Some(_) => fee_at(place + 5, taken),
        None => {
            if account == PLATFORM {
                None
            } else {
                fee_at(place + 1, taken)
            }
        }
    }
}

// The number of the transfer in a split whose first row has this place.
fn transfer_in(destination: Option<u64>, place: u64) -> Option<u64>
    requires { place < 2 ^ 62 }
    ensures { result ≡ transfer_in destination place }
{
    match destination {
        Some(_) => Some(place + 1),
        None => None,
    }
}

/// What a charge of an account keeps of the capture of an amount now, where the first row of its split has this place.
pub fn split_capture(place: u64, account: u64, charge: &Charge, amount: Amount, now: u64) -> Capture
    requires { place < 2 ^ 62 }
    ensures { result ≡ split_capture place account charge.now amount now }
{
    Capture {
        transaction: place,
        available_on: available_from(&charge.payment_method, now),
        transfer: transfer_in(charge.destination, place),
        fee: fee_in(
            charge.destination,
            place,
            account,
            fee_taken(charge, amount),
        ),
    }
}
