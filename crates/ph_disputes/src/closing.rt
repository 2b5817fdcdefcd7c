//! The close of a dispute.
ghost use Rattle.std.specs.Prelude.{◌≡◌, IfOk, OnOk};
ghost use Rattle.ph_facts.specs.Outcomes.{Gives};
ghost use Rattle.ph_disputes.specs.Closing.{close_of, close_outcome, lost_dispute, with_version};

use crate::finding::is_closed;
use ph_base::{Kind, NoMemory};
use ph_calls::CloseDispute;
use ph_errors::{ApiError, Refusal};
use ph_items::{Dispute, DisputeStatus, EventKind, Item};
use ph_rows::{Batch, Row, View, owned_named};
use std::alloc::Global;

/// Adds a further version of the dispute in a row.
pub fn add_version(row: &Row, dispute: Dispute, batch: &mut Batch) -> Result<(), NoMemory>
    ensures { OnOk result (batch.new ≡ with_version row.now dispute batch.old) }
{
    batch.change(row.object, row.account, Item::Dispute(dispute))
}

// A dispute that is lost: what was sent as evidence stays.
fn lost_dispute(alloc: Global, dispute: &Dispute) -> Result<Dispute, NoMemory>
    ensures { IfOk result (λ lost. lost ≡ lost_dispute dispute.now) }
{
    let mut lost = dispute.copy(alloc)?;
    lost.status = DisputeStatus::Lost;
    Ok(lost)
}

// The close of the dispute in a row, where it isn't closed.
fn close_dispute(
    alloc: Global,
    row: &Row,
    dispute: &Dispute,
    batch: &mut Batch,
) -> Result<u64, Refusal>
    ensures { Gives (close_of batch.old row.now dispute.now) batch.old result batch.new }
{
    if is_closed(dispute.status) {
        return Err(Refusal::of(ApiError::dispute_closed(alloc)));
    }
    add_version(row, lost_dispute(alloc, dispute)?, batch)?;
    batch.announce(EventKind::DisputeClosed, row.object)?;
    Ok(row.object)
}

/// Gives the dispute of the account that the path names up: it is lost, and `charge.dispute.closed` is announced;
/// nothing moves on the balance. It is refused where there is no such dispute, and where it is won or lost. The answer
/// is its number.
pub fn close<V: View>(
    alloc: Global,
    view: &V,
    account: u64,
    call: &CloseDispute,
    batch: &mut Batch,
) -> Result<u64, Refusal>
    ensures { Gives (close_outcome (V.state view.now).rows account call.now batch.old) batch.old result batch.new }
{
    let Some(row) = owned_named(view, account, Kind::Dispute, call.id.as_slice()) else {
        return Err(Refusal::of(ApiError::no_such_object(alloc, b"id")));
    };
    match row.item.dispute() {
        Some(dispute) => close_dispute(alloc, row, dispute, batch),
        None => Err(Refusal::of(ApiError::no_such_object(alloc, b"id"))),
    }
}
