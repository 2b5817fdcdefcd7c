//! The evidence against a dispute.
ghost use Rattle.std.specs.Prelude.{◌≡◌, IfOk, OnOk};
ghost use Rattle.ph_facts.specs.Outcomes.{Gives};
ghost use Rattle.ph_disputes.specs.Answers.{answered_dispute, evidence_of, evidence_outcome, given_txn, verdict_on, with_evidence, with_given, with_verdict};

use crate::closing::add_version;
use crate::finding::is_closed;
use ph_base::{Bytes, Kind, NoMemory};
use ph_calls::SendEvidence;
use ph_errors::{ApiError, Refusal};
use ph_items::{Dispute, DisputeStatus, EventKind, Item, Txn, TxnSource, TxnType};
use ph_money::SignedAmount;
use ph_rows::{Batch, Row, View, owned_named};
use std::alloc::Global;

// Where a text leaves a dispute.
fn verdict_on(text: &[u8]) -> DisputeStatus
    ensures { result ≡ verdict_on text.now }
{
    if text == b"winning_evidence".as_slice() {
        DisputeStatus::Won
    } else if text == b"losing_evidence".as_slice() {
        DisputeStatus::Lost
    } else {
        DisputeStatus::UnderReview
    }
}

// A dispute with a text as evidence, and where that leaves it.
fn answered_dispute(alloc: Global, text: &Bytes, dispute: &Dispute) -> Result<Dispute, NoMemory>
    ensures { IfOk result (λ answered. answered ≡ answered_dispute text.now dispute.now) }
{
    let mut answered = dispute.copy(alloc)?;
    answered.status = verdict_on(text.as_slice());
    answered.evidence = Some(text.copy(alloc)?);
    Ok(answered)
}

// The transaction that gives the amount of a dispute back now.
fn given_txn(object: u64, dispute: &Dispute, now: u64) -> Txn
    ensures { result ≡ given_txn object dispute.now now }
{
    Txn {
        sort: TxnType::Adjustment,
        amount: SignedAmount::given(dispute.amount),
        fee: SignedAmount::new(0),
        currency: dispute.currency,
        available_on: now,
        source: TxnSource::Dispute(object),
    }
}

// Adds the transaction that gives back the amount of the dispute in a row.
fn add_given(row: &Row, dispute: &Dispute, batch: &mut Batch) -> Result<(), NoMemory>
    ensures { OnOk result (batch.new ≡ with_given row.now dispute.now batch.old) }
{
    let txn = given_txn(row.object, dispute, batch.at());
    batch.add(row.account, Item::Txn(txn))?;
    Ok(())
}

// Adds what follows from the status of the dispute in a row.
fn add_verdict(
    status: DisputeStatus,
    row: &Row,
    dispute: &Dispute,
    batch: &mut Batch,
) -> Result<(), NoMemory>
    ensures { OnOk result (batch.new ≡ with_verdict status row.now dispute.now batch.old) }
{
    match status {
        DisputeStatus::NeedsResponse | DisputeStatus::UnderReview => Ok(()),
        DisputeStatus::Won => {
            add_given(row, dispute, batch)?;
            batch.announce(EventKind::DisputeClosed, row.object)
        }
        DisputeStatus::Lost => batch.announce(EventKind::DisputeClosed, row.object),
    }
}

// Adds a text as evidence against the dispute in a row.
fn add_evidence(
    alloc: Global,
    text: &Bytes,
    row: &Row,
    dispute: &Dispute,
    batch: &mut Batch,
) -> Result<(), NoMemory>
    ensures { OnOk result (batch.new ≡ with_evidence text.now row.now dispute.now batch.old) }
{
    add_version(row, answered_dispute(alloc, text, dispute)?, batch)?;
    add_verdict(verdict_on(text.as_slice()), row, dispute, batch)
}

// The evidence against the dispute in a row, where it isn't closed.
fn answer_dispute(
    alloc: Global,
    text: &Bytes,
    row: &Row,
    dispute: &Dispute,
    batch: &mut Batch,
) -> Result<u64, Refusal>
    ensures { Gives (evidence_of text.now batch.old row.now dispute.now) batch.old result batch.new }
{
    if is_closed(dispute.status) {
        return Err(Refusal::of(ApiError::dispute_closed(alloc)));
    }
    add_evidence(alloc, text, row, dispute, batch)?;
    Ok(row.object)
}

/// Sends the call's text as evidence against the dispute of the account that the path names, which keeps it. By
/// `winning_evidence` the dispute is won: a transaction gives its amount back at once, but not its fee. By
/// `losing_evidence` it is lost. Both announce `charge.dispute.closed`. By any other text it is under review. It is
/// refused where there is no such dispute, and where it is won or lost. The answer is its number.
pub fn evidence<V: View>(
    alloc: Global,
    view: &V,
    account: u64,
    call: &SendEvidence,
    batch: &mut Batch,
) -> Result<u64, Refusal>
    ensures { Gives (evidence_outcome (V.state view.now).rows account call.now batch.old) batch.old result batch.new }
{
    let Some(row) = owned_named(view, account, Kind::Dispute, call.id.as_slice()) else {
        return Err(Refusal::of(ApiError::no_such_object(alloc, b"id")));
    };
    match row.item.dispute() {
        Some(dispute) => answer_dispute(alloc, &call.uncategorized_text, row, dispute, batch),
        None => Err(Refusal::of(ApiError::no_such_object(alloc, b"id"))),
    }
}
