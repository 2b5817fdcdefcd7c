//! Attempts: what a confirmation asks of the acquirer.

use crate::orders::Order;

/// Where an attempt stands.
#[derive(Clone, Copy, Debug, PartialEq, Eq)]
pub enum AttemptState {
    /// A run of it asks the acquirer.
    Live,
    /// No run of it lives, and the acquirer hasn't ruled.
    Parked,
    Approved,
    Declined,
    /// The customer has to authenticate.
    Challenged,
}

/// A version of an attempt to have a payment intent paid. It is under one reference at the acquirer, however
/// often it is asked.
#[derive(Clone, Copy, Debug, PartialEq, Eq)]
pub struct Attempt {
    /// The number of the payment intent.
    pub intent: u64,
    /// What the acquirer is asked. Its reference is the attempt's number.
    pub order: Order,
    pub state: AttemptState,
    /// The place of the call that began it.
    pub opener: u64,
}
