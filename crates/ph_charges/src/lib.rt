//! What an approval, a decline and a capture add to the rows: the charge, and the split of what is captured.
#![tactic(auto)]

mod approvals;
mod captures;
mod charges;
mod laws;
mod moments;
mod payments;
mod splits;
mod told;
mod transfers;

pub use approvals::{approve, decline};
pub use captures::{capture, fee_or};
pub use laws::splits_are_whole;
pub use payments::payment_given;
pub use told::tell_split;
pub use transfers::add_transfer;
