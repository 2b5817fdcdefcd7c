//! Asks of the acquirer.

use ph_items::Order;

/// One ask of the acquirer: for a run, under its order.
#[derive(Clone, Copy, Debug, PartialEq, Eq)]
pub struct Ask {
    /// The number of the run.
    pub run: u64,
    pub order: Order,
}
