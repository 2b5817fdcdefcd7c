//! What a new transfer adds: itself, the payment that it gives to its destination, and the transaction of each.
ghost use Rattle.std.specs.Prelude.{◌≡◌, ◌<◌, ◌^◌, OnOk};
ghost use Rattle.ph_charges.specs.NewRows.{with_new_rows};
ghost use Rattle.ph_charges.specs.Transfers.{transfer_rows, transfer_txn};

use crate::payments::payment_given;
use ph_base::NoMemory;
use ph_items::{Item, PLATFORM, Transfer, Txn, TxnSource, TxnType};
use ph_money::{Amount, SignedAmount};
use ph_rows::Batch;
use std::alloc::Global;

// A transaction of a new transfer.
fn transfer_txn(
    transfer: &Transfer,
    sort: TxnType,
    amount: SignedAmount,
    fee: u64,
    source: TxnSource,
) -> Txn
    requires { fee < 2 ^ 27 }
    ensures { result ≡ transfer_txn transfer.now sort amount fee source }
{
    Txn {
        sort,
        amount,
        fee: SignedAmount::new(fee),
        currency: transfer.currency,
        available_on: transfer.available_on,
        source,
    }
}

/// Adds a new transfer, whose number is that of the next row, and the transaction that takes its amount from the platform;
/// the payment that it gives to its destination, two rows behind it, and the transaction that gives it the amount, less
/// what the platform takes of it.
pub fn add_transfer(
    alloc: Global,
    number: u64,
    transfer: Transfer,
    taken: Amount,
    batch: &mut Batch,
) -> Result<(), NoMemory>
    requires { number < 2 ^ 63 }
    ensures { OnOk result (batch.new ≡ with_new_rows (transfer_rows number transfer taken) batch.old) }
{
    let destination = transfer.destination;
    let amount = transfer.amount;
    let payment = payment_given(
        alloc,
        number,
        amount,
        transfer.currency,
        number + 3,
        transfer.available_on,
    );
    let leaves = transfer_txn(
        &transfer,
        TxnType::Transfer,
        SignedAmount::taken(amount),
        0,
        TxnSource::Transfer(number),
    );
    let arrives = transfer_txn(
        &transfer,
        TxnType::Payment,
        SignedAmount::given(amount),
        taken.units(),
        TxnSource::Payment(number + 2),
    );
    batch.add(PLATFORM, Item::Transfer(transfer))?;
    batch.add(PLATFORM, Item::Txn(leaves))?;
    batch.add(destination, Item::Charge(payment))?;
    batch.add(destination, Item::Txn(arrives))?;
    Ok(())
}
