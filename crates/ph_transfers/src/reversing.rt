//! The reversal of a transfer.
ghost use Rattle.std.specs.Prelude.{◌≡◌, ◌≤◌};
ghost use Rattle.ph_facts.specs.Outcomes.{Gives};
ghost use Rattle.ph_reversals.specs.Reversals.{left_of_transfer};
ghost use Rattle.ph_transfers.specs.Reverse.{reverse_amount, reverse_of, reverse_outcome};

use crate::amounts::is_too_much;
use crate::refusals::no_such_object;
use ph_base::Kind;
use ph_calls::ReverseTransfer;
use ph_errors::{ApiError, Refusal};
use ph_items::Transfer;
use ph_kinds::first_metadata;
use ph_money::Amount;
use ph_reversals::{add_reversal, left_of_transfer, tell_reversed};
use ph_rows::{Batch, Row, View, owned_named};
use std::alloc::Global;

// The reversal of an amount that is left of the transfer in a row.
fn reverse_amount(
    alloc: Global,
    call: &ReverseTransfer,
    row: &Row,
    transfer: &Transfer,
    amount: Amount,
    batch: &mut Batch,
) -> Result<u64, Refusal>
    requires within { amount ≤ left_of_transfer transfer.now }
    ensures { Gives (reverse_amount call.now batch.old row.now transfer.now amount) batch.old result batch.new }
{
    let metadata = first_metadata(alloc, call.metadata.as_ref())?;
    let number = add_reversal(row.object, transfer, amount, None, metadata, batch)?;
    let version = transfer.copy(alloc)?;
    tell_reversed(row.account, row.object, version, amount, batch)?;
    Ok(number)
}

// The reversal of what the call names, or else of all that is left of the transfer in a row.
fn reverse_of(
    alloc: Global,
    call: &ReverseTransfer,
    row: &Row,
    transfer: &Transfer,
    batch: &mut Batch,
) -> Result<u64, Refusal>
    ensures { Gives (reverse_of call.now batch.old row.now transfer.now) batch.old result batch.new }
{
    let left = left_of_transfer(transfer);
    let amount = call.amount.unwrap_or(left);
    if is_too_much(left, amount) {
        return Err(Refusal::of(ApiError::invalid_value(alloc, b"amount")));
    }
    reverse_amount(alloc, call, row, transfer, amount, batch)
}

/// Takes back of the account's transfer that the path names the amount that the call names, or else all that is left: the
/// destination gives it to the platform. It is refused where there is no such transfer, and where nothing is left, or less
/// than that; in this order. The answer is the reversal's number.
pub fn reverse<V: View>(
    alloc: Global,
    view: &V,
    account: u64,
    call: &ReverseTransfer,
    batch: &mut Batch,
) -> Result<u64, Refusal>
    ensures { Gives (reverse_outcome (V.state view.now).rows account call.now batch.old) batch.old result batch.new }
{
    let Some(row) = owned_named(view, account, Kind::Transfer, call.id.as_slice()) else {
        return Err(no_such_object(alloc, b"id"));
    };
    match row.item.transfer() {
        Some(transfer) => reverse_of(alloc, call, row, transfer, batch),
        None => Err(no_such_object(alloc, b"id")),
    }
}
