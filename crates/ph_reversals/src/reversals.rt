//! The rows of a reversal of a transfer.
ghost use Rattle.std.specs.Prelude.{◌≡◌, ◌+◌, ◌≤◌, ◌<◌, ◌^◌, ℤ, IfOk, OnOk};
ghost use Rattle.ph_charges.specs.NewRows.{with_new_rows};
ghost use Rattle.ph_rows.specs.Batches.{last_place};
ghost use Rattle.ph_reversals.specs.Reversals.{left_of_transfer, new_reversal, reversal_rows, reversal_txn, reversed_transfer, with_reversal, with_reversed};

use crate::amounts::{left, taken_with};
use crate::numbers::next_number;
use ph_base::NoMemory;
use ph_items::{EventKind, Item, Metadata, PLATFORM, Reversal, Transfer, Txn, TxnSource, TxnType};
use ph_money::{Amount, SignedAmount};
use ph_rows::Batch;

/// What can still be taken back of a transfer, in minor units of its currency.
pub fn left_of_transfer(transfer: &Transfer) -> Amount
    ensures { result ≡ left_of_transfer transfer.now }
{
    left(transfer.amount, transfer.amount_reversed)
}

// The reversal of a number, of an amount of the transfer of a number.
fn new_reversal(
    number: u64,
    object: u64,
    transfer: &Transfer,
    amount: Amount,
    refund: Option<u64>,
    metadata: Metadata,
) -> Reversal
    requires { number < 2 ^ 63 }
    ensures { result ≡ new_reversal number object transfer.now amount refund metadata }
{
    Reversal {
        transfer: object,
        amount,
        currency: transfer.currency,
        refund,
        transaction: number + 1,
        metadata,
    }
}

// A transaction of the reversal of a number.
fn reversal_txn(
    number: u64,
    sort: TxnType,
    amount: SignedAmount,
    transfer: &Transfer,
    now: u64,
) -> Txn
    ensures { result ≡ reversal_txn number sort amount transfer.now now }
{
    Txn {
        sort,
        amount,
        fee: SignedAmount::new(0),
        currency: transfer.currency,
        available_on: now.max(transfer.available_on),
        source: TxnSource::Reversal(number),
    }
}

// Adds the rows of the reversal of a number, of an amount of a transfer.
fn add_rows(
    number: u64,
    reversal: Reversal,
    transfer: &Transfer,
    amount: Amount,
    batch: &mut Batch,
) -> Result<(), NoMemory>
    ensures { OnOk result (batch.new ≡ with_new_rows (reversal_rows number reversal transfer.now amount batch.old.at) batch.old) }
{
    let given = SignedAmount::given(amount);
    let gives = reversal_txn(number, TxnType::Transfer, given, transfer, batch.at());
    let taken = SignedAmount::taken(amount);
    let takes = reversal_txn(number, TxnType::Adjustment, taken, transfer, batch.at());
    batch.add(PLATFORM, Item::Reversal(reversal))?;
    batch.add(PLATFORM, Item::Txn(gives))?;
    batch.add(transfer.destination, Item::Txn(takes))?;
    Ok(())
}

/// Adds the reversal of an amount of the transfer of a number, which the refund of a number made, or none: the reversal,
/// what it gives to the platform, and what it takes from the account that the transfer went to. The answer is the
/// reversal's number.
pub fn add_reversal(
    object: u64,
    transfer: &Transfer,
    amount: Amount,
    refund: Option<u64>,
    metadata: Metadata,
    batch: &mut Batch,
) -> Result<u64, NoMemory>
    ensures number { IfOk result (λ number. number ≡ last_place batch.old + 1) }
    ensures rows { OnOk result (batch.new ≡ with_reversal object transfer.now amount refund metadata batch.old) }
{
    let number = next_number(batch)?;
    let reversal = new_reversal(number, object, transfer, amount, refund, metadata);
    add_rows(number, reversal, transfer, amount, batch)?;
    Ok(number)
}

// A transfer of which an amount more is reversed.
fn reversed_transfer(amount: Amount, transfer: Transfer) -> Transfer
    requires within { amount ≤ left_of_transfer transfer }
    ensures { result ≡ reversed_transfer amount transfer }
{
    let mut reversed = transfer;
    reversed.amount_reversed = taken_with(reversed.amount, reversed.amount_reversed, amount);
    reversed
}

/// Adds the version of the transfer of a number and an account of which an amount more is reversed, and announces
/// `transfer.reversed`. No more may be reversed than is left of it.
pub fn tell_reversed(
    account: u64,
    object: u64,
    transfer: Transfer,
    amount: Amount,
    batch: &mut Batch,
) -> Result<(), NoMemory>
    requires within { amount ≤ left_of_transfer transfer }
    ensures { OnOk result (batch.new ≡ with_reversed account object transfer amount batch.old) }
{
    let reversed = reversed_transfer(amount, transfer);
    batch.change(object, account, Item::Transfer(reversed))?;
    batch.announce(EventKind::TransferReversed, object)
}
