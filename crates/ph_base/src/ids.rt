//! Ids: what kind of object, and its number.
ghost use Rattle.std.specs.Prelude.{◌<◌, ◌^◌};

/// The kinds of objects that have ids.
#[derive(Clone, Copy, Debug, PartialEq, Eq)]
pub enum Kind {
    Intent,
    Attempt,
    Charge,
    Payment,
    Refund,
    Dispute,
    Transfer,
    Reversal,
    Fee,
    FeeRefund,
    Txn,
    Account,
    Event,
    Endpoint,
    Delivery,
    Payout,
}

/// The id of an object: its kind, and a number that sixteen digits hold.
#[derive(Clone, Copy, Debug, PartialEq, Eq)]
pub struct Id {
    pub kind: Kind,
    pub number: u64,
    ghost in_range: { number < 10 ^ 16 },
}
