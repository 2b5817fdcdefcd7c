//! The types of events.
ghost use Rattle.std.specs.Prelude.{◌≡◌};
ghost use Rattle.ph_items.specs.Words.{event_text};

/// What happened to an object: Stripe's event types that payhost knows.
#[derive(Clone, Copy, Debug, PartialEq, Eq)]
pub enum EventKind {
    IntentCreated,
    IntentSucceeded,
    IntentPaymentFailed,
    IntentCanceled,
    IntentAmountCapturableUpdated,
    IntentRequiresAction,
    ChargeSucceeded,
    ChargeFailed,
    ChargeCaptured,
    ChargeRefunded,
    DisputeCreated,
    DisputeClosed,
    TransferCreated,
    TransferReversed,
    FeeCreated,
    FeeRefunded,
}

impl EventKind {
    /// The `type` that the event prints.
    pub fn text(self) -> &'static [u8]
        ensures { result.now ≡ event_text self }
    {
        match self {
            EventKind::IntentCreated => b"payment_intent.created",
            EventKind::IntentSucceeded => b"payment_intent.succeeded",
            EventKind::IntentPaymentFailed => b"payment_intent.payment_failed",
            EventKind::IntentCanceled => b"payment_intent.canceled",
            EventKind::IntentAmountCapturableUpdated => b"payment_intent.amount_capturable_updated",
            EventKind::IntentRequiresAction => b"payment_intent.requires_action",
            EventKind::ChargeSucceeded => b"charge.succeeded",
            EventKind::ChargeFailed => b"charge.failed",
            EventKind::ChargeCaptured => b"charge.captured",
            EventKind::ChargeRefunded => b"charge.refunded",
            EventKind::DisputeCreated => b"charge.dispute.created",
            EventKind::DisputeClosed => b"charge.dispute.closed",
            EventKind::TransferCreated => b"transfer.created",
            EventKind::TransferReversed => b"transfer.reversed",
            EventKind::FeeCreated => b"application_fee.created",
            EventKind::FeeRefunded => b"application_fee.refunded",
        }
    }
}
