//! The rows of a refund of an application fee.
ghost use Rattle.std.specs.Prelude.{◌≡◌, ◌+◌, ◌≤◌, ◌<◌, ◌^◌, ℤ, IfOk, OnOk};
ghost use Rattle.ph_charges.specs.NewRows.{with_new_rows};
ghost use Rattle.ph_rows.specs.Batches.{last_place};
ghost use Rattle.ph_reversals.specs.FeeRefunds.{fee_refund_rows, fee_refund_txn, given_back_fee, left_of_fee, new_fee_refund, with_fee_refund, with_given_back};

use crate::amounts::{left, taken_with};
use crate::numbers::next_number;
use ph_base::NoMemory;
use ph_items::{EventKind, Fee, FeeRefund, Item, Metadata, PLATFORM, Txn, TxnSource, TxnType};
use ph_money::{Amount, SignedAmount};
use ph_rows::Batch;

/// What can still be given back of an application fee, in minor units of its currency.
pub fn left_of_fee(fee: &Fee) -> Amount
    ensures { result ≡ left_of_fee fee.now }
{
    left(fee.amount, fee.amount_refunded)
}

// The fee refund of a number, of an amount of the application fee of a number.
fn new_fee_refund(
    number: u64,
    object: u64,
    fee: &Fee,
    amount: Amount,
    metadata: Metadata,
) -> FeeRefund
    requires { number < 2 ^ 63 }
    ensures { result ≡ new_fee_refund number object fee.now amount metadata }
{
    FeeRefund {
        fee: object,
        amount,
        currency: fee.currency,
        transaction: number + 1,
        metadata,
    }
}

// A transaction of the fee refund of a number.
fn fee_refund_txn(number: u64, sort: TxnType, amount: SignedAmount, fee: &Fee, now: u64) -> Txn
    ensures { result ≡ fee_refund_txn number sort amount fee.now now }
{
    Txn {
        sort,
        amount,
        fee: SignedAmount::new(0),
        currency: fee.currency,
        available_on: now.max(fee.available_on),
        source: TxnSource::FeeRefund(number),
    }
}

// Adds the rows of the fee refund of a number, of an amount of an application fee.
fn add_rows(
    number: u64,
    refund: FeeRefund,
    fee: &Fee,
    amount: Amount,
    batch: &mut Batch,
) -> Result<(), NoMemory>
    ensures { OnOk result (batch.new ≡ with_new_rows (fee_refund_rows number refund fee.now amount batch.old.at) batch.old) }
{
    let sort = TxnType::ApplicationFeeRefund;
    let taken = SignedAmount::taken(amount);
    let takes = fee_refund_txn(number, sort, taken, fee, batch.at());
    let given = SignedAmount::given(amount);
    let gives = fee_refund_txn(number, TxnType::Adjustment, given, fee, batch.at());
    batch.add(PLATFORM, Item::FeeRefund(refund))?;
    batch.add(PLATFORM, Item::Txn(takes))?;
    batch.add(fee.account, Item::Txn(gives))?;
    Ok(())
}

/// Adds the refund of an amount of the application fee of a number: the fee refund, what it takes from the platform, and
/// what it gives to the account that the fee was taken from. The answer is the fee refund's number.
pub fn add_fee_refund(
    object: u64,
    fee: &Fee,
    amount: Amount,
    metadata: Metadata,
    batch: &mut Batch,
) -> Result<u64, NoMemory>
    ensures number { IfOk result (λ number. number ≡ last_place batch.old + 1) }
    ensures rows { OnOk result (batch.new ≡ with_fee_refund object fee.now amount metadata batch.old) }
{
    let number = next_number(batch)?;
    let refund = new_fee_refund(number, object, fee, amount, metadata);
    add_rows(number, refund, fee, amount, batch)?;
    Ok(number)
}

// An application fee of which an amount more is given back.
fn given_back_fee(amount: Amount, fee: &Fee) -> Fee
    requires within { amount ≤ left_of_fee fee.now }
    ensures { result ≡ given_back_fee amount fee.now }
{
    let mut given = *fee;
    given.amount_refunded = taken_with(fee.amount, fee.amount_refunded, amount);
    given
}

/// Adds the version of the application fee of a number and an account of which an amount more is given back, and announces
/// `application_fee.refunded`. No more may be given back than is left of it.
pub fn tell_given_back(
    account: u64,
    object: u64,
    fee: &Fee,
    amount: Amount,
    batch: &mut Batch,
) -> Result<(), NoMemory>
    requires within { amount ≤ left_of_fee fee.now }
    ensures { OnOk result (batch.new ≡ with_given_back account object fee.now amount batch.old) }
{
    let given = given_back_fee(amount, fee);
    batch.change(object, account, Item::Fee(given))?;
    batch.announce(EventKind::FeeRefunded, object)
}
