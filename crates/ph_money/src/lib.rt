//! Currencies, amounts of money, the fee of a charge and proportional parts of a total.
#![tactic(auto)]

mod amounts;
mod currencies;
mod fees;
mod laws;
mod parts;
mod signed_amounts;

pub use amounts::Amount;
pub use currencies::{Currency, Terms};
pub use fees::fee;
pub use laws::{fee_grows, part_grows};
pub use parts::part;
pub use signed_amounts::SignedAmount;
