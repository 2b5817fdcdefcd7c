//! The transfer.
ghost use Rattle.std.specs.Prelude.{◌≡◌, codes};
ghost use Rattle.std.specs.Option.{option_copied};
ghost use Rattle.ph_facts.specs.Outcomes.{Gives};
ghost use Rattle.ph_items.specs.Items.{charge_in};
ghost use Rattle.ph_transfers.specs.Create.{transfer_drawn, transfer_of, transfer_of_balance, transfer_outcome, transfer_to};
ghost use Rattle.ph_transfers.specs.Found.{made_of_row};

use crate::amounts::is_too_much;
use crate::entry::{add_drawn, add_of_balance, left_to_transfer};
use crate::refusals::no_such_object;
use ph_accounts::connected_named;
use ph_base::Kind;
use ph_calls::CreateTransfer;
use ph_errors::{ApiError, Refusal};
use ph_items::{Capture, Charge, PLATFORM};
use ph_rows::{Batch, Row, View, object_named};
use std::alloc::Global;

// The transfer to an account out of the platform's balance.
fn transfer_of_balance<V: View>(
    alloc: Global,
    view: &V,
    call: &CreateTransfer,
    destination: u64,
    batch: &mut Batch,
) -> Result<u64, Refusal>
    ensures { Gives (transfer_of_balance (V.state view.now).time (V.state view.now).rows call.now batch.old destination) batch.old result batch.new }
{
    if view.available(PLATFORM, call.currency) < call.amount.units() as i64 {
        return Err(Refusal::of(ApiError::balance_insufficient(alloc)));
    }
    let number = add_of_balance(alloc, call, destination, batch)?;
    Ok(number)
}

// The transfer to an account drawn on a captured charge.
fn transfer_drawn(
    alloc: Global,
    call: &CreateTransfer,
    destination: u64,
    row: &Row,
    charge: &Charge,
    capture: Capture,
    batch: &mut Batch,
) -> Result<u64, Refusal>
    ensures { Gives (transfer_drawn call.now batch.old destination (record { row = row.now; charge = charge.now; capture = capture })) batch.old result batch.new }
{
    if call.currency as u8 != charge.currency as u8 {
        return Err(Refusal::of(ApiError::invalid_value(alloc, b"currency")));
    }
    if is_too_much(left_to_transfer(charge), call.amount) {
        return Err(Refusal::of(ApiError::invalid_value(alloc, b"amount")));
    }
    let number = add_drawn(alloc, call, destination, row, charge, capture, batch)?;
    Ok(number)
}

// The transfer to an account drawn on the charge in a row, where it is captured.
fn transfer_of(
    alloc: Global,
    call: &CreateTransfer,
    destination: u64,
    row: &Row,
    charge: &Charge,
    batch: &mut Batch,
) -> Result<u64, Refusal>
    ensures { Gives (transfer_of call.now batch.old destination row.now charge.now) batch.old result batch.new }
{
    match charge.capture {
        Some(capture) => transfer_drawn(alloc, call, destination, row, charge, capture, batch),
        None => Err(no_such_object(alloc, b"source_transaction")),
    }
}

// The transfer to an account drawn on the charge in a row; where it has none, the parameter names none.
fn transfer_of_row(
    alloc: Global,
    call: &CreateTransfer,
    destination: u64,
    row: Option<&Row>,
    batch: &mut Batch,
) -> Result<u64, Refusal>
    ensures { Gives (made_of_row (transfer_of call.now batch.old destination) charge_in (codes "source_transaction") (option_copied row.entry)) batch.old result batch.new }
{
    let name = b"source_transaction";
    let Some(row) = row else {
        return Err(no_such_object(alloc, name));
    };
    match row.item.charge() {
        Some(charge) => transfer_of(alloc, call, destination, row, charge, batch),
        None => Err(no_such_object(alloc, name)),
    }
}

// The transfer to the connected account that was found, where one was.
fn transfer_to<V: View>(
    alloc: Global,
    view: &V,
    call: &CreateTransfer,
    found: Option<u64>,
    batch: &mut Batch,
) -> Result<u64, Refusal>
    ensures { Gives (transfer_to (transfer_of call.now batch.old) (V.state view.now).time (V.state view.now).rows call.now batch.old found) batch.old result batch.new }
{
    let Some(destination) = found else {
        return Err(no_such_object(alloc, b"destination"));
    };
    match &call.source_transaction {
        Some(text) => {
            let row = object_named(view, Kind::Charge, text.as_slice());
            transfer_of_row(alloc, call, destination, row, batch)
        }
        None => transfer_of_balance(alloc, view, call, destination, batch),
    }
}

/// Gives an amount of the platform's to the connected account that the call names: drawn on the captured card charge that it
/// names, whatever that one's account, or else out of the platform's available balance. It is refused where the call isn't the
/// platform's, where there is no such connected account, where there is no such captured charge, for another currency than
/// the charge's, where nothing is left of the charge, or less than that, and without a charge for more than is available; in
/// this order. The answer is the transfer's number.
pub fn create<V: View>(
    alloc: Global,
    view: &V,
    account: u64,
    call: &CreateTransfer,
    batch: &mut Batch,
) -> Result<u64, Refusal>
    ensures { Gives (transfer_outcome (V.state view.now).time (V.state view.now).rows account call.now batch.old) batch.old result batch.new }
{
    if account != PLATFORM {
        return Err(Refusal::of(ApiError::platform_only(alloc)));
    }
    let destination = connected_named(view, call.destination.as_slice());
    transfer_to(alloc, view, call, destination, batch)
}
