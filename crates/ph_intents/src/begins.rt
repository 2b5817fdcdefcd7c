//! The calls that begin an attempt.

use ph_calls::{Authenticate, ConfirmIntent, CreateIntent};
use ph_items::Order;

/// A call that begins an attempt: a confirm, a create that is confirmed at once, or an authentication that succeeded.
#[derive(Clone, Copy)]
pub enum Begin<'a> {
    Confirm(&'a ConfirmIntent),
    Create(&'a CreateIntent),
    Authenticate(&'a Authenticate),
}

/// What such a call comes to that is accepted.
#[derive(Clone, Copy)]
pub struct Begun {
    /// The number of the payment intent, which the reply shows.
    pub object: u64,
    /// What the acquirer is asked, before the call is answered.
    pub order: Order,
}
