//! Transfers, their reversals and refunds of application fees: what each call adds to the rows, and when it is refused.
#![tactic(auto)]

mod amounts;
mod creation;
mod entry;
mod laws;
mod refunding_fees;
mod refusals;
mod reversing;

pub use creation::create;
pub use laws::{
    fee_refunds_are_sums, refund_fee_keeps_sound, reversals_are_sums, reverse_keeps_sound,
    transfer_keeps_sound, transfers_are_sums,
};
pub use refunding_fees::refund_fee;
pub use reversing::reverse;
