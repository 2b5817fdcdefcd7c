//! Lists of event types.
ghost use Rattle.std.specs.Prelude.{◌≡◌, IfOk, map};
ghost use Rattle.ph_kinds.specs.Events.{are_events, event_kind_of, is_event};

use crate::lists::Texts;
use ph_base::NoMemory;
use ph_form::Leaf;
use ph_items::EventKind;
use std::alloc::Global;

const EVENT_KINDS: [EventKind; 16] = [
    EventKind::IntentCreated,
    EventKind::IntentSucceeded,
    EventKind::IntentPaymentFailed,
    EventKind::IntentCanceled,
    EventKind::IntentAmountCapturableUpdated,
    EventKind::IntentRequiresAction,
    EventKind::ChargeSucceeded,
    EventKind::ChargeFailed,
    EventKind::ChargeCaptured,
    EventKind::ChargeRefunded,
    EventKind::DisputeCreated,
    EventKind::DisputeClosed,
    EventKind::TransferCreated,
    EventKind::TransferReversed,
    EventKind::FeeCreated,
    EventKind::FeeRefunded,
];

/// The event type that a text names.
fn event_kind(text: &[u8]) -> Option<EventKind>
    ensures { result ≡ event_kind_of text.now }
{
    EVENT_KINDS.iter().copied().find(|kind| text == kind.text())
}

/// Whether a text is an event type, or `*`.
#[tactic(auto, unfolding(crate::specs::Events::is_event))]
fn is_event(text: &[u8]) -> bool
    ensures { result ≡ is_event text.now }
{
    text == b"*".as_slice() || event_kind(text).is_some()
}

/// Whether each entry is an event type or `*`, and there is one.
pub fn are_events(entries: &[Leaf]) -> bool
    ensures { result ≡ are_events entries.now }
{
    for entry in entries {
        if !is_event(entry.text.as_slice()) {
            return false;
        }
    }
    !entries.is_empty()
}

/// The texts of entries.
pub fn texts_of(alloc: Global, entries: Vec<Leaf>) -> Result<Texts, NoMemory>
    ensures { IfOk result (λ texts. texts ≡ map (λ entry. entry.text) entries.items) }
{
    let mut texts = Vec::new(alloc);
    for entry in entries {
        let Leaf { name: _, text } = entry;
        texts.push(text)?;
    }
    Ok(Texts::new(texts))
}
