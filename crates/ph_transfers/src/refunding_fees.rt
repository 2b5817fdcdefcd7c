//! The refund of an application fee.
ghost use Rattle.std.specs.Prelude.{◌≡◌, ◌≤◌};
ghost use Rattle.ph_facts.specs.Outcomes.{Gives};
ghost use Rattle.ph_reversals.specs.FeeRefunds.{left_of_fee};
ghost use Rattle.ph_transfers.specs.RefundFee.{refund_fee_amount, refund_fee_of, refund_fee_outcome};

use crate::amounts::is_too_much;
use crate::refusals::no_such_object;
use ph_base::Kind;
use ph_calls::RefundFee;
use ph_errors::{ApiError, Refusal};
use ph_items::Fee;
use ph_kinds::first_metadata;
use ph_money::Amount;
use ph_reversals::{add_fee_refund, left_of_fee, tell_given_back};
use ph_rows::{Batch, Row, View, owned_named};
use std::alloc::Global;

// The refund of an amount that is left of the application fee in a row.
fn refund_fee_amount(
    alloc: Global,
    call: &RefundFee,
    row: &Row,
    fee: &Fee,
    amount: Amount,
    batch: &mut Batch,
) -> Result<u64, Refusal>
    requires within { amount ≤ left_of_fee fee.now }
    ensures { Gives (refund_fee_amount call.now batch.old row.now fee.now amount) batch.old result batch.new }
{
    let metadata = first_metadata(alloc, call.metadata.as_ref())?;
    let number = add_fee_refund(row.object, fee, amount, metadata, batch)?;
    tell_given_back(row.account, row.object, fee, amount, batch)?;
    Ok(number)
}

// The refund of what the call names, or else of all that is left of the application fee in a row.
fn refund_fee_of(
    alloc: Global,
    call: &RefundFee,
    row: &Row,
    fee: &Fee,
    batch: &mut Batch,
) -> Result<u64, Refusal>
    ensures { Gives (refund_fee_of call.now batch.old row.now fee.now) batch.old result batch.new }
{
    let left = left_of_fee(fee);
    let amount = call.amount.unwrap_or(left);
    if is_too_much(left, amount) {
        return Err(Refusal::of(ApiError::invalid_value(alloc, b"amount")));
    }
    refund_fee_amount(alloc, call, row, fee, amount, batch)
}

/// Gives back of the account's application fee that the path names the amount that the call names, or else all that is left:
/// the platform gives it to the account that the fee was taken from. It is refused where there is no such fee, and where
/// nothing is left, or less than that; in this order. The answer is the fee refund's number.
pub fn refund_fee<V: View>(
    alloc: Global,
    view: &V,
    account: u64,
    call: &RefundFee,
    batch: &mut Batch,
) -> Result<u64, Refusal>
    ensures { Gives (refund_fee_outcome (V.state view.now).rows account call.now batch.old) batch.old result batch.new }
{
    let Some(row) = owned_named(view, account, Kind::Fee, call.id.as_slice()) else {
        return Err(no_such_object(alloc, b"id"));
    };
    match row.item.fee() {
        Some(fee) => refund_fee_of(alloc, call, row, fee, batch),
        None => Err(no_such_object(alloc, b"id")),
    }
}
