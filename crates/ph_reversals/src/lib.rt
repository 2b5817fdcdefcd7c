//! What is taken back of a transfer, and given back of an application fee: the rows of a reversal and of a fee refund.
#![tactic(auto)]

mod amounts;
mod fee_refunds;
mod numbers;
mod reversals;

pub use amounts::{left, taken_with};
pub use fee_refunds::{add_fee_refund, left_of_fee, tell_given_back};
pub use numbers::next_number;
pub use reversals::{add_reversal, left_of_transfer, tell_reversed};
