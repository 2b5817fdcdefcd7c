//! What an acquirer is asked.

use ph_base::Method;
use ph_money::{Amount, Currency};

/// An order to an acquirer: the payment that it rules on. Its reference is the number of the attempt, so that a
/// repeat of the order is known as one.
#[derive(Clone, Copy, Debug, PartialEq, Eq)]
pub struct Order {
    /// The number of the attempt.
    pub reference: u64,
    pub amount: Amount,
    pub currency: Currency,
    pub method: Method,
}
