//! The refund.
ghost use Rattle.std.specs.Prelude.{◌≡◌, ◌<◌, ◌≤◌};
ghost use Rattle.std.specs.Option.{option_copied};
ghost use Rattle.ph_facts.specs.Outcomes.{Gives};
ghost use Rattle.ph_refunds.specs.Finding.{made_of_row};
ghost use Rattle.ph_refunds.specs.Refunds.{is_disputed, is_won, left_of, refund_amount, refund_asked, refund_captured, refund_left, refund_of, refund_outcome, refundable};

use crate::entry::{add_refund, left_of};
use crate::finding::latest_charge_named;
use crate::parts::{fee_asked, transfer_asked};
use ph_base::Kind;
use ph_calls::CreateRefund;
use ph_errors::{ApiError, Refusal};
use ph_items::{Capture, Charge, DisputeStatus};
use ph_money::Amount;
use ph_rows::{Batch, Row, View, object_named};
use std::alloc::Global;

// Whether the status is that of a dispute that is won.
fn is_won(status: DisputeStatus) -> bool
    ensures { result ≡ is_won status }
{
    match status {
        DisputeStatus::Won => true,
        DisputeStatus::NeedsResponse | DisputeStatus::UnderReview | DisputeStatus::Lost => false,
    }
}

// Whether a charge with this dispute, or none, is disputed: it has one that isn't won.
fn is_disputed<V: View>(view: &V, dispute: Option<u64>) -> bool
    ensures { result ≡ is_disputed (V.state view.now).rows dispute }
{
    let Some(number) = dispute else {
        return false;
    };
    let Some(row) = view.latest(number) else {
        return true;
    };
    match row.item.dispute() {
        Some(dispute) => !is_won(dispute.status),
        None => true,
    }
}

// The refund of an amount that is left of a charge, with the parts for which the call asks.
fn refund_asked<V: View>(
    alloc: Global,
    view: &V,
    call: &CreateRefund,
    row: &Row,
    charge: &Charge,
    capture: Capture,
    amount: Amount,
    batch: &mut Batch,
) -> Result<u64, Refusal>
    requires some { 0 < left_of charge.now }
    requires within { amount ≤ left_of charge.now }
    ensures { Gives (refund_asked call.now batch.old (refundable (V.state view.now).rows row.now charge.now) capture amount) batch.old result batch.new }
{
    let transfer = transfer_asked(alloc, view, call, charge, amount)?;
    let fee = fee_asked(alloc, view, call, charge, amount)?;
    let number = add_refund(
        alloc,
        call,
        row.account,
        row.object,
        charge,
        capture,
        amount,
        transfer,
        fee,
        batch,
    )?;
    Ok(number)
}

// The refund of an amount of a charge of which something is left.
fn refund_amount<V: View>(
    alloc: Global,
    view: &V,
    call: &CreateRefund,
    row: &Row,
    charge: &Charge,
    capture: Capture,
    amount: Amount,
    batch: &mut Batch,
) -> Result<u64, Refusal>
    requires some { 0 < left_of charge.now }
    ensures { Gives (refund_amount call.now batch.old (refundable (V.state view.now).rows row.now charge.now) capture amount) batch.old result batch.new }
{
    if amount.units() > left_of(charge).units() {
        return Err(Refusal::of(ApiError::invalid_value(alloc, b"amount")));
    }
    refund_asked(alloc, view, call, row, charge, capture, amount, batch)
}

// The refund of what the call names, or else of all that is left, where something is.
fn refund_left<V: View>(
    alloc: Global,
    view: &V,
    call: &CreateRefund,
    row: &Row,
    charge: &Charge,
    capture: Capture,
    batch: &mut Batch,
) -> Result<u64, Refusal>
    ensures { Gives (refund_left call.now batch.old (refundable (V.state view.now).rows row.now charge.now) capture) batch.old result batch.new }
{
    let left = left_of(charge);
    if left.units() == 0 {
        return Err(Refusal::of(ApiError::charge_already_refunded(alloc)));
    }
    let amount = call.amount.unwrap_or(left);
    refund_amount(alloc, view, call, row, charge, capture, amount, batch)
}

// The refund of a captured charge, where it isn't disputed.
fn refund_captured<V: View>(
    alloc: Global,
    view: &V,
    call: &CreateRefund,
    row: &Row,
    charge: &Charge,
    capture: Capture,
    batch: &mut Batch,
) -> Result<u64, Refusal>
    ensures { Gives (refund_captured (V.state view.now).rows call.now batch.old (refundable (V.state view.now).rows row.now charge.now) capture) batch.old result batch.new }
{
    if is_disputed(view, charge.dispute) {
        return Err(Refusal::of(ApiError::charge_disputed(alloc)));
    }
    refund_left(alloc, view, call, row, charge, capture, batch)
}

// The refund of a charge, where it is captured.
fn refund_charge<V: View>(
    alloc: Global,
    view: &V,
    call: &CreateRefund,
    row: &Row,
    charge: &Charge,
    batch: &mut Batch,
) -> Result<u64, Refusal>
    ensures { Gives (refund_of (V.state view.now).rows call.now batch.old (refundable (V.state view.now).rows row.now charge.now)) batch.old result batch.new }
{
    match charge.capture {
        Some(capture) => refund_captured(alloc, view, call, row, charge, capture, batch),
        None => Err(Refusal::of(ApiError::charge_not_captured(alloc))),
    }
}

// The refund of the charge in a row; where it has none, the parameter names none.
fn refund_row<V: View>(
    alloc: Global,
    view: &V,
    call: &CreateRefund,
    param: &[u8],
    row: Option<&Row>,
    batch: &mut Batch,
) -> Result<u64, Refusal>
    ensures { Gives (made_of_row (λ found charge. refund_of (V.state view.now).rows call.now batch.old (refundable (V.state view.now).rows found charge)) param.now (option_copied row.entry)) batch.old result batch.new }
{
    let Some(row) = row else {
        return Err(Refusal::of(ApiError::no_such_object(alloc, param)));
    };
    match row.item.charge() {
        Some(charge) => refund_charge(alloc, view, call, row, charge, batch),
        None => Err(Refusal::of(ApiError::no_such_object(alloc, param))),
    }
}

/// Refunds the charge that the call names by its id or as the latest charge of a payment intent, whatever its account:
/// the amount that is named, or else all that is left. It is refused where there is no such charge, where the charge
/// isn't captured, where its customer disputes it and the dispute isn't won, where nothing is left, for more than is
/// left, and where it is to take back of a transfer or give back of an application fee that the charge doesn't have; in
/// this order. The answer is the refund's number.
pub fn refund<V: View>(
    alloc: Global,
    view: &V,
    account: u64,
    call: &CreateRefund,
    batch: &mut Batch,
) -> Result<u64, Refusal>
    ensures { Gives (refund_outcome (V.state view.now).rows account call.now batch.old) batch.old result batch.new }
{
    match &call.charge {
        Some(charge) => match &call.payment_intent {
            None => {
                let row = object_named(view, Kind::Charge, charge.as_slice());
                refund_row(alloc, view, call, b"charge", row, batch)
            }
            Some(_) => Err(Refusal::of(ApiError::parameter_missing(alloc, b"charge"))),
        },
        None => match &call.payment_intent {
            Some(intent) => {
                let row = latest_charge_named(view, intent.as_slice());
                refund_row(alloc, view, call, b"payment_intent", row, batch)
            }
            None => Err(Refusal::of(ApiError::parameter_missing(alloc, b"charge"))),
        },
    }
}
