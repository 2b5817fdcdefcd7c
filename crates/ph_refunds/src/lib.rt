//! The refund: what it adds to the rows, and when it is refused.
#![tactic(auto)]

mod entry;
mod finding;
mod laws;
mod parts;
mod refunding;

pub use laws::{refund_keeps_sound, refunds_are_sums};
pub use refunding::refund;
