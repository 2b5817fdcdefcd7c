//! Words as a client sees them, and metadata as it is kept.

use crate::line::{Line, said, unknown};
use ph_base::{Bytes, NoMemory};
use ph_items::{
    CancellationReason, CaptureMethod, ChargeStatus, DisputeStatus, EventKind, IntentStatus,
    Metadata, RefundReason, TxnType,
};
use std::alloc::Global;

/// `NAME | event | TYPE` and `NAME | word | VALUE`: the word that is printed. `NAME | metadata | KEY=TEXT -KEY ..`: the
/// pairs after each was set or taken away in turn.
pub fn read(alloc: Global, line: Line) -> Result<Vec<u8>, NoMemory> {
    match line.field(1) {
        "event" => event_text(alloc, line.field(2)),
        "word" => word_text(alloc, line.field(2)),
        "metadata" => metadata(alloc, line.field(2)),
        _ => unknown(alloc),
    }
}

fn event_text(alloc: Global, name: &str) -> Result<Vec<u8>, NoMemory> {
    match event(name) {
        Some(kind) => Ok(Vec::from_slice(alloc, kind.text())?),
        None => unknown(alloc),
    }
}

fn event(name: &str) -> Option<EventKind> {
    match name {
        "IntentCreated" => Some(EventKind::IntentCreated),
        "IntentSucceeded" => Some(EventKind::IntentSucceeded),
        "IntentPaymentFailed" => Some(EventKind::IntentPaymentFailed),
        "IntentCanceled" => Some(EventKind::IntentCanceled),
        "IntentAmountCapturableUpdated" => Some(EventKind::IntentAmountCapturableUpdated),
        "IntentRequiresAction" => Some(EventKind::IntentRequiresAction),
        "ChargeSucceeded" => Some(EventKind::ChargeSucceeded),
        "ChargeFailed" => Some(EventKind::ChargeFailed),
        "ChargeCaptured" => Some(EventKind::ChargeCaptured),
        "ChargeRefunded" => Some(EventKind::ChargeRefunded),
        "DisputeCreated" => Some(EventKind::DisputeCreated),
        "DisputeClosed" => Some(EventKind::DisputeClosed),
        "TransferCreated" => Some(EventKind::TransferCreated),
        "TransferReversed" => Some(EventKind::TransferReversed),
        "FeeCreated" => Some(EventKind::FeeCreated),
        "FeeRefunded" => Some(EventKind::FeeRefunded),
        _ => None,
    }
}

fn word_text(alloc: Global, name: &str) -> Result<Vec<u8>, NoMemory> {
    match word(name) {
        Some(word) => Ok(Vec::from_slice(alloc, word)?),
        None => unknown(alloc),
    }
}

fn word(name: &str) -> Option<&'static [u8]> {
    match name {
        "IntentStatus::RequiresPaymentMethod" => Some(IntentStatus::RequiresPaymentMethod.text()),
        "CaptureMethod::AutomaticAsync" => Some(CaptureMethod::AutomaticAsync.text()),
        "CancellationReason::RequestedByCustomer" => {
            Some(CancellationReason::RequestedByCustomer.text())
        }
        "ChargeStatus::Failed" => Some(ChargeStatus::Failed.text()),
        "TxnType::Adjustment" => Some(TxnType::Adjustment.text()),
        "TxnType::ApplicationFeeRefund" => Some(TxnType::ApplicationFeeRefund.text()),
        "RefundReason::RequestedByCustomer" => Some(RefundReason::RequestedByCustomer.text()),
        "DisputeStatus::NeedsResponse" => Some(DisputeStatus::NeedsResponse.text()),
        _ => None,
    }
}

fn metadata(alloc: Global, words: &str) -> Result<Vec<u8>, NoMemory> {
    let mut metadata = Metadata::new(alloc);
    for word in words.split_whitespace() {
        change(&mut metadata, alloc, word)?;
    }
    if metadata.is_empty() {
        return said(alloc, "empty");
    }
    pairs(alloc, &metadata.copy(alloc)?)
}

// Sets or takes away one pair.
fn change(metadata: &mut Metadata, alloc: Global, word: &str) -> Result<(), NoMemory> {
    match word.split_once('=') {
        Some((key, text)) => {
            let key = Bytes::from_slice(alloc, key.as_bytes())?;
            let text = Bytes::from_slice(alloc, text.as_bytes())?;
            metadata.set(key, text)?;
        }
        None => metadata.remove(word.trim_start_matches('-').as_bytes()),
    }
    Ok(())
}

// The number of pairs, and each as `key=text;`.
fn pairs(alloc: Global, metadata: &Metadata) -> Result<Vec<u8>, NoMemory> {
    let mut out = format!(in alloc; "{}: ", metadata.len())?.into_bytes();
    for pair in metadata.pairs() {
        out.extend_from_slice(pair.key.as_slice())?;
        out.push(b'=')?;
        out.extend_from_slice(pair.value.as_slice())?;
        out.push(b';')?;
    }
    Ok(out)
}
